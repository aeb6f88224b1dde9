// Dead domains are zero; following next from first gives each domain's TreeLings by rank.
#![tactic(auto)]

ghost use Rattle.std.specs.Prelude.{◌≡◌, true, ◌+◌, ◌<◌};
ghost use Rattle.layout.specs.Places.{Laid, first, get};
ghost use Rattle.layout.specs.Bounded.{all};
ghost use Rattle.sound.specs.Sentences.{dead_is_zero, domain_in_range, treeling_in_range};
ghost use Rattle.sound.specs.CodeChained.{domain_chained, follows, is_linked};

use layout::Sizes;
use layout::words::all_zero;

// TreeLing t is domain d's TreeLing of rank r, after the one linked as before.
fn is_linked(sizes: Sizes, state: &[u64], d: u64, r: u64, before: u64, t: u64) -> bool
    requires laid { Laid sizes state.now }
    requires d_lt_domains { (d < sizes.domains) × (t < sizes.treelings) }
    ensures { result ≡ is_linked sizes state.now d r before t }
{
    let at = sizes.treeling(t, 0);
    state[at] == d + 1 && state[at + 1] == before && state[at + 3] == r
}

// Following next from first gives domain d's TreeLings, with ranks 0, 1, 2 up to last.
fn follows_chain(sizes: Sizes, state: &[u64], d: u64) -> bool
    requires laid { Laid sizes state.now }
    requires state_value { all sizes.domains (domain_in_range sizes state.now) ≡ true }
    requires state_value_2 { all sizes.treelings (treeling_in_range sizes state.now) ≡ true }
    requires d_lt_domains { d < sizes.domains }
    ensures { result ≡ follows sizes state.now d sizes.treelings 0 0 (get sizes state.now (first d)) }
{
    let mut ranks = 0..sizes.treelings;
    let mut before = 0;
    let mut x = state[sizes.domain(d, 1)];
    // A walk by links, and no index: a `for` over the ranks would ask twice whether a link is 0.
    while x != 0 {
        let Some(r) = ranks.next() else {
            return false;
        };
        if !is_linked(sizes, state, d, r, before, x - 1) {
            return false;
        }
        before = x;
        x = state[sizes.treeling(x - 1, 2)];
    }
    state[sizes.domain(d, 2)] == before
}

// A dead domain's record is zero.
fn dead_is_zero(sizes: Sizes, state: &[u64], d: u64) -> bool
    requires laid { Laid sizes state.now }
    requires d_lt_domains { d < sizes.domains }
    ensures { result ≡ dead_is_zero sizes state.now d }
{
    let at = sizes.domain(d, 0);
    state[at] == 1 || all_zero(state, at, 6)
}

// Domain d's record: zero where it is dead, zero after live where it has no TreeLings, else with a head of its own.
// The head's word is tested for 0 as the definition tests it.
fn domain_chained(sizes: Sizes, state: &[u64], d: u64) -> bool
    requires laid { Laid sizes state.now }
    requires state_value { all sizes.domains (domain_in_range sizes state.now) ≡ true }
    requires state_value_2 { all sizes.treelings (treeling_in_range sizes state.now) ≡ true }
    requires d_lt_domains { d < sizes.domains }
    ensures { result ≡ domain_chained sizes state.now d }
{
    if !dead_is_zero(sizes, state, d) || !follows_chain(sizes, state, d) {
        return false;
    }
    let at = sizes.domain(d, 1);
    if state[at] == 0 {
        return all_zero(state, at, 5);
    }
    let head = state[at + 2];
    head != 0 && state[sizes.treeling(head - 1, 0)] == d + 1
}

// Every domain's record.
pub fn domains_chained(sizes: Sizes, state: &[u64]) -> bool
    requires laid { Laid sizes state.now }
    requires state_value { all sizes.domains (domain_in_range sizes state.now) ≡ true }
    requires state_value_2 { all sizes.treelings (treeling_in_range sizes state.now) ≡ true }
    ensures { result ≡ all sizes.domains (domain_chained sizes state.now) }
{
    (0..sizes.domains).all(|d| domain_chained(sizes, state, d))
}
