// TreeLings that are returned.
ghost use Rattle.std.specs.Prelude.{◌≡◌, ℕ, ◌<◌};
ghost use Rattle.layout.specs.Places.{Laid};
ghost use Rattle.gathering.specs.CodeGathering.{Chain};
ghost use Rattle.clearing.specs.Clearing.{treeling_cleared};
ghost use Rattle.clearing.specs.CodeKept.{ClearedBy};

use gathering::{first_link, next_link};
use layout::Sizes;
use layout::words::clear_words;

// The NFL words and the record of a TreeLing, all but its last owner.
pub fn clear_treeling(sizes: Sizes, state: &mut [u64], t: u64)
    requires laid { Laid sizes state.old }
    requires t_lt_treelings { t < sizes.treelings }
    ensures { state.new ≡ treeling_cleared sizes state.old t }
{
    let entries = sizes.entry(t, 0);
    clear_words(state, entries, 512);
    let record = sizes.treeling(t, 0);
    clear_words(state, record, 4);
}

// Those of a domain's TreeLings that go are cleared, by rank. The link to the next one is read before a record is cleared.
pub fn clear_treelings<F: Fn(u64) -> bool>(
    sizes: Sizes,
    state: &mut [u64],
    d: u64,
    treelings: u64,
    goes: F,
)
    requires chain { Chain sizes state.old d treelings }
    requires asked { (t : ℕ) → t < sizes.treelings → F.pre goes t }
    ensures { ClearedBy sizes state.old d (F.post goes) state.new treelings }
{
    let mut link = first_link(sizes, state, d);
    for _ in 0..treelings {
        let t = link - 1;
        link = next_link(sizes, state, t);
        if goes(t) {
            clear_treeling(sizes, state, t);
        }
    }
}
