// Tree geometry: path nodes by level, and the free positions of an availability byte.
#![tactic(auto)]

mod lowest;
pub mod tables;

ghost use Rattle.std.specs.Prelude.{◌≡◌, ◌<◌, ◌≤◌};
ghost use Rattle.geometry.specs.Geometry.{path_node, path_of};

// The path node of level 1 to 4 of a slot: the leaf node's number, divided by 8 for each level above it.
pub fn path_node(level: u64, treeling: u64, slot: u64) -> u64
    requires le_level { (1 ≤ level) × (level ≤ 4) }
    requires treeling_bound { (treeling < 4096) × (slot < 4096) }
    ensures { result ≡ path_node level treeling slot }
{
    (512 * treeling + slot / 8) >> (3 * (4 - level))
}

// The four path nodes of a slot, level 1 first. Four calls: `map` over the levels leaves a goal of calls that the library has no lemma for.
pub fn path(treeling: u64, slot: u64) -> [u64; 4]
    requires { (treeling < 4096) × (slot < 4096) }
    ensures { result ≡ path_of treeling slot }
{
    [
        path_node(1, treeling, slot),
        path_node(2, treeling, slot),
        path_node(3, treeling, slot),
        path_node(4, treeling, slot),
    ]
}
