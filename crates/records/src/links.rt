// Unowned TreeLings are zero; an owned one is in the chain of its owner, who was its last.
ghost use Rattle.std.specs.Prelude.{◌≡◌, true, ◌+◌, ◌<◌};
ghost use Rattle.layout.specs.Places.{Laid};
ghost use Rattle.layout.specs.Bounded.{all};
ghost use Rattle.sound.specs.Sentences.{treeling_in_range};
ghost use Rattle.sound.specs.CodeChained.{is_followed, is_next_of, treeling_chained};

use layout::Sizes;
use layout::words::all_zero;

// TreeLing t is the next of TreeLing p. Its words are tested as they stand, 0 among them, as the definition tests them.
fn is_next_of(sizes: Sizes, state: &[u64], t: u64, p: u64) -> bool
    requires laid { Laid sizes state.now }
    requires t_lt_treelings { (t < sizes.treelings) × (p < sizes.treelings) }
    ensures { result ≡ is_next_of sizes state.now t p }
{
    let at = sizes.treeling(t, 0);
    let from = sizes.treeling(p, 0);
    let rank = state[at + 3];
    state[from] == state[at] && state[from + 2] == t + 1 && rank != 0 && state[from + 3] == rank - 1
}

// TreeLing t is unowned, its owner's first, or the next of its previous one: tests of words, 0 among them, as the definition has them.
fn is_followed(sizes: Sizes, state: &[u64], t: u64) -> bool
    requires laid { Laid sizes state.now }
    requires state_value { all sizes.treelings (treeling_in_range sizes state.now) ≡ true }
    requires t_lt_treelings { t < sizes.treelings }
    ensures { result ≡ is_followed sizes state.now t }
{
    let at = sizes.treeling(t, 0);
    let owner = state[at];
    let previous = state[at + 1];
    owner == 0
        || state[sizes.domain(owner - 1, 1)] == t + 1
        || previous != 0 && is_next_of(sizes, state, t, previous - 1)
}

// The last owner of an owned TreeLing is its owner; that of an unowned one may stay.
fn treeling_chained(sizes: Sizes, state: &[u64], t: u64) -> bool
    requires laid { Laid sizes state.now }
    requires state_value { all sizes.treelings (treeling_in_range sizes state.now) ≡ true }
    requires t_lt_treelings { t < sizes.treelings }
    ensures { result ≡ treeling_chained sizes state.now t }
{
    let at = sizes.treeling(t, 0);
    if state[at] == 0 {
        return all_zero(state, at, 4);
    }
    state[at + 4] == state[at] && is_followed(sizes, state, t)
}

// Every TreeLing, where all are in range.
pub fn treelings_chained(sizes: Sizes, state: &[u64]) -> bool
    requires laid { Laid sizes state.now }
    requires state_value { all sizes.treelings (treeling_in_range sizes state.now) ≡ true }
    ensures { result ≡ all sizes.treelings (treeling_chained sizes state.now) }
{
    (0..sizes.treelings).all(|t| treeling_chained(sizes, state, t))
}
