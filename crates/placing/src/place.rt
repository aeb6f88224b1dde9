// Placing one page: where it will go is decided first, then written.
ghost use Rattle.std.specs.Prelude.{◌≡◌, true, ◌/◌, ◌<◌, ◌≤◌, ltb, get_or};
ghost use Rattle.geometry.specs.Entries.{availability_of, tag_of};
ghost use Rattle.board.specs.Holes.{outside};
ghost use Rattle.layout.specs.Outcomes.{outcome};
ghost use Rattle.layout.specs.Places.{Laid, entry, get, leaf, pages_mapped, put};
ghost use Rattle.sound.specs.Sound.{Ordinary, Sound};
ghost use Rattle.world.specs.World.{head_to};
ghost use Rattle.world.specs.Find.{find_from};
ghost use Rattle.placing.specs.CodeSpot.{own_spot};
ghost use Rattle.placing.specs.Placing.{after_giving, decision, from_pool, leaf_given, placing, writing};

use crate::{Decision, Spot};
use blocks::{change_block, read_block};
use geometry::tables::LowestTable;
use layout::Sizes;
use leaf_map::{Frame, LeafId, write_leaf};
use taking::{find_unowned, prefer_former, take};

// The first entry of a block with a free position, if there is one.
fn first_free(words: [u64; 8]) -> Option<usize>
    ensures { result ≡ find_from (λ k. ltb 0 (availability_of (get_or words k 0))) 0 8 }
{
    words.iter().position(|w| 0 < *w % 256)
}

// The TreeLing that the domain takes, where the pool has one.
fn from_pool(sizes: Sizes, state: &[u64], d: u64) -> Decision
    requires sound { Sound sizes state.now }
    requires d_lt_domains { d < sizes.domains }
    ensures { result ≡ from_pool sizes state.now d }
{
    let Some(unowned) = find_unowned(sizes, state) else {
        return Decision::Nowhere;
    };
    Decision::Take(prefer_former(sizes, state, d, unowned))
}

// The entry of the domain's own blocks that the next page goes to, if they have one. After the head block every entry has a free position.
fn own_spot(sizes: Sizes, state: &[u64], d: u64) -> Option<Spot>
    requires sound { Sound sizes state.now }
    requires d_lt_domains { d < sizes.domains }
    requires ordinary { Ordinary sizes state.now d }
    ensures { result ≡ own_spot sizes state.now d }
{
    // Every page placed asks it, and a test of 0 costs less than `checked_sub`.
    let head = state[sizes.domain(d, 3)];
    if head == 0 {
        return None;
    }
    let t = head - 1;
    let b = state[sizes.domain(d, 4)];
    if let Some(k) = first_free(read_block(sizes, state, t, b)) {
        return Some(Spot::at(t, 8 * b + k as u64));
    }
    if b < 63 {
        return Some(Spot::at(t, 8 * b + 8));
    }
    let next = state[sizes.treeling(t, 2)].checked_sub(1)?;
    Some(Spot::at(next, 0))
}

// Where the next page of the domain will go: its own blocks first, then the pool.
pub fn decide(sizes: Sizes, state: &[u64], d: u64) -> Decision
    requires sound { Sound sizes state.now }
    requires d_lt_domains { d < sizes.domains }
    requires ordinary { Ordinary sizes state.now d }
    ensures { result ≡ decision sizes state.now d }
{
    match own_spot(sizes, state, d) {
        Some(spot) => Decision::Own(spot),
        None => from_pool(sizes, state, d),
    }
}

// An entry gets a word, and its block is the head.
pub fn mark(sizes: Sizes, state: &mut [u64], d: u64, spot: Spot, word: u64)
    requires laid { Laid sizes state.old }
    requires d_lt_domains { (d < sizes.domains) × (spot.treeling < sizes.treelings) × (spot.entry < 512) }
    ensures { state.new ≡ head_to sizes d spot.treeling (spot.entry / 8) (put sizes state.old (entry spot.treeling spot.entry) word) }
{
    let t = spot.treeling;
    let b = spot.entry / 8;
    change_block(sizes, state, t, b, spot.entry % 8, word);
    let head = sizes.domain(d, 3);
    state[head] = t + 1;
    state[head + 1] = b;
}

// The entry gives its lowest free position to the frame.
fn place_at(
    sizes: Sizes,
    state: &mut [u64],
    low: &LowestTable,
    d: u64,
    frame: Frame,
    spot: Spot,
) -> LeafId
    requires laid { Laid sizes state.old }
    requires d_lt_domains { (d < sizes.domains) × (frame.0 < sizes.frames) × (spot.treeling < sizes.treelings) × (spot.entry < 512) }
    requires nonzero { (0 < availability_of (get sizes state.old (entry spot.treeling spot.entry))) × (tag_of (get sizes state.old (entry spot.treeling spot.entry)) < 2097152) × (get sizes state.old (pages_mapped d) ≤ sizes.frames) }
    ensures { (result.0 ≡ leaf_given sizes state.old spot.treeling spot.entry) × (state.new ≡ after_giving sizes state.old d frame.0 spot.treeling spot.entry) }
{
    let w = state[sizes.entry(spot.treeling, spot.entry)];
    let i = low.lowest(w % 256);
    mark(sizes, state, d, spot, w - (1 << i));
    let id = LeafId::at(w / 256, i);
    write_leaf(sizes, state, frame, id);
    let pages = sizes.domain(d, 5);
    state[pages] += 1;
    id
}

// Writes what was decided of the same words: takes if it must, and gives the place to the frame. Nowhere, nothing is written.
pub fn write_decided(
    sizes: Sizes,
    state: &mut [u64],
    low: &LowestTable,
    d: u64,
    frame: Frame,
    to: Decision,
) -> Option<LeafId>
    requires sound { Sound sizes state.old }
    requires d_lt_domains { (d < sizes.domains) × (frame.0 < sizes.frames) }
    requires ordinary { Ordinary sizes state.old d × (to ≡ decision sizes state.old d) }
    ensures { outcome result state.new ≡ writing sizes state.old d frame.0 to }
{
    match to {
        Decision::Own(spot) => Some(place_at(sizes, state, low, d, frame, spot)),
        Decision::Take(t) => {
            take(sizes, state, d, t);
            Some(place_at(sizes, state, low, d, frame, Spot::at(t, 0)))
        }
        Decision::Nowhere => None,
    }
}

// Places the page of an unmapped frame, in no hole, for a live domain. Where there is no place, nothing is written.
pub fn place(
    sizes: Sizes,
    state: &mut [u64],
    low: &LowestTable,
    d: u64,
    frame: Frame,
) -> Option<LeafId>
    requires sound { Sound sizes state.old }
    requires d_lt_domains { (d < sizes.domains) × (frame.0 < sizes.frames) × (outside state.old frame.0 ≡ true) }
    requires ordinary { Ordinary sizes state.old d × (get sizes state.old (leaf frame.0) ≡ 0) }
    ensures state_after { outcome result state.new ≡ placing sizes state.old d frame.0 }
    ensures sound_2 { Sound sizes state.new }
{
    let to = decide(sizes, state, d);
    write_decided(sizes, state, low, d, frame, to)
}
