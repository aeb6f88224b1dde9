// Taking a TreeLing from the pool.
#![tactic(auto)]

ghost use Rattle.std.specs.Prelude.{◌≡◌, suc, ◌-◌, ◌%◌, ◌<◌, ◌≤◌, MatchOption, Some};
ghost use Rattle.layout.specs.Places.{Laid, address, get, last};
ghost use Rattle.sound.specs.Sound.{Sound};
ghost use Rattle.world.specs.World.{owned};
ghost use Rattle.world.specs.Find.{find_from};
ghost use Rattle.taking.specs.Taking.{fresh_entries, link_to, taking, to_take, was_held};
ghost use Rattle.taking.specs.CodePool.{is_unowned, pool};

use blocks::entry_word;
use layout::Sizes;

// The first unowned TreeLing from number `from` on, below `end`.
fn first_unowned(sizes: Sizes, state: &[u64], from: u64, end: u64) -> Option<u64>
    requires laid { Laid sizes state.now }
    requires from_le_end { (from ≤ end) × (end ≤ sizes.treelings) }
    ensures { result ≡ find_from (is_unowned sizes state.now) from (end - from) }
{
    (from..end).find(|t| state[sizes.treeling(*t, 0)] == 0)
}

// The first unowned TreeLing from the pool hand upward and around: two searches, since a chain of the two ranges asks at each step which of them it is in.
pub fn find_unowned(sizes: Sizes, state: &[u64]) -> Option<u64>
    requires { Sound sizes state.now }
    ensures { result ≡ pool sizes state.now }
{
    let hand = state[3];
    first_unowned(sizes, state, hand, sizes.treelings).or_else(|| first_unowned(
        sizes, state, 0, hand,
    ))
}

// TreeLing t is unowned, and was last held by domain d. Of most, the second is not so.
fn was_held(sizes: Sizes, state: &[u64], d: u64, t: u64) -> bool
    requires laid { Laid sizes state.now }
    requires d_lt_domains { (d < sizes.domains) × (t < sizes.treelings) }
    ensures { result ≡ was_held sizes state.now d t }
{
    let at = sizes.treeling(t, 0);
    state[at + 4] == d + 1 && state[at] == 0
}

// The first such from number `from` on, below `end`.
fn first_held(sizes: Sizes, state: &[u64], d: u64, from: u64, end: u64) -> Option<u64>
    requires laid { Laid sizes state.now }
    requires d_lt_domains { (d < sizes.domains) × (from ≤ end) × (end ≤ sizes.treelings) }
    ensures { result ≡ find_from (was_held sizes state.now d) from (end - from) }
{
    (from..end).find(|t| was_held(sizes, state, d, *t))
}

// The TreeLing that domain d takes. The search goes on from the first unowned one, upward and around to the hand, for one last held by d.
pub fn prefer_former(sizes: Sizes, state: &[u64], d: u64, unowned: u64) -> u64
    requires sound { Sound sizes state.now }
    requires d_lt_domains { d < sizes.domains }
    requires state_value { pool sizes state.now ≡ Some unowned }
    ensures { result ≡ to_take sizes state.now d }
{
    let hand = state[3];
    if unowned < hand {
        return first_held(sizes, state, d, unowned, hand).unwrap_or(unowned);
    }
    first_held(sizes, state, d, unowned, sizes.treelings)
        .or_else(|| first_held(sizes, state, d, 0, hand))
        .unwrap_or(unowned)
}

// All 512 entries of TreeLing t, each with its own leaf node, all free.
fn write_fresh(sizes: Sizes, state: &mut [u64], t: u64)
    requires laid { Laid sizes state.old }
    requires t_lt_treelings { t < sizes.treelings }
    ensures { state.new ≡ fresh_entries sizes state.old t 512 }
{
    let at = sizes.entry(t, 0);
    for k in 0..512 {
        state[at + k] = entry_word(512 * t + k as u64, 255);
    }
}

// The last TreeLing of domain d, if it has one.
fn last_treeling(sizes: Sizes, state: &[u64], d: u64) -> Option<u64>
    requires laid { Laid sizes state.now }
    requires d_lt_domains { d < sizes.domains }
    ensures { MatchOption result (get sizes state.now (last d) ≡ 0) (λ t. get sizes state.now (last d) ≡ suc t) }
{
    state[sizes.domain(d, 2)].checked_sub(1)
}

// The number of TreeLings of domain d: one more than the rank of its last.
pub fn number_owned(sizes: Sizes, state: &[u64], d: u64) -> u64
    requires sound { Sound sizes state.now }
    requires d_lt_domains { d < sizes.domains }
    ensures { result ≡ owned sizes state.now d }
{
    match last_treeling(sizes, state, d) {
        Some(last) => state[sizes.treeling(last, 3)] + 1,
        None => 0,
    }
}

// The word for the link to the next TreeLing of domain d.
fn link_to(sizes: Sizes, state: &[u64], d: u64) -> usize
    requires sound { Sound sizes state.now }
    requires d_lt_domains { d < sizes.domains }
    ensures { result ≡ address sizes (link_to sizes state.now d) }
{
    match last_treeling(sizes, state, d) {
        Some(last) => sizes.treeling(last, 2),
        None => sizes.domain(d, 1),
    }
}

// Domain d takes TreeLing t.
pub fn take(sizes: Sizes, state: &mut [u64], d: u64, t: u64)
    requires sound { Sound sizes state.old }
    requires d_lt_domains { (d < sizes.domains) × (t < sizes.treelings) }
    ensures { state.new ≡ taking sizes state.old d t }
{
    let end = sizes.domain(d, 2);
    let last = state[end];
    let rank = number_owned(sizes, state, d);
    let link = link_to(sizes, state, d);
    let at = sizes.treeling(t, 0);
    state[3] = (t + 1) % sizes.treelings;
    state[at] = d + 1;
    state[at + 1] = last;
    state[at + 3] = rank;
    state[at + 4] = d + 1;
    state[link] = t + 1;
    state[end] = t + 1;
    write_fresh(sizes, state, t);
}
