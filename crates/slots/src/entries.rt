// The NFL words: tags in range and the domain's own, free positions in order, each slot free at most once, free positions counted.
ghost use Rattle.std.specs.Prelude.{◌≡◌, false, true, ◌+◌, ◌*◌, ◌-◌, ◌<◌, ◌≤◌};
ghost use Rattle.layout.specs.Places.{Laid, entry, get, rank};
ghost use Rattle.layout.specs.Bounded.{all};
ghost use Rattle.sound.specs.Sentences.{is_ordinary};
ghost use Rattle.sound.specs.CodeChained.{Records};
ghost use Rattle.slots.specs.CodeMarks.{Counted, Marks, TallyIs, after_head, before_head, entry_fits, span_end, span_start, treeling_entries};
ghost use Rattle.sound.specs.Sound.{Sound};

use crate::marks::add_mark;
use geometry::tables::number;
use layout::Sizes;
use layout::words::all_zero;
use std::cmp::Ordering;
use std::ops::Range;

// The entries of the head's block in a TreeLing of a rank: those below are before the head, those from the end on after it.
fn span_at(rank: u64, head: u64, block: u64) -> Range<u64>
    requires { block ≤ 63 }
    ensures { (result.start ≡ before_head rank head block) × (result.end ≡ after_head rank head block) }
{
    match rank.cmp(&head) {
        Ordering::Less => 512..512,
        Ordering::Equal => 8 * block..8 * block + 8,
        Ordering::Greater => 0..0,
    }
}

// The span of an ordinary domain's TreeLing.
fn span_of(sizes: Sizes, state: &[u64], t: u64) -> Range<u64>
    requires laid { Laid sizes state.now }
    requires records { Records sizes state.now }
    requires t_lt_treelings { (t < sizes.treelings) × (is_ordinary sizes state.now t ≡ true) }
    ensures { (result.start ≡ span_start sizes state.now t) × (result.end ≡ span_end sizes state.now t) }
{
    let at = sizes.treeling(t, 0);
    let head = sizes.domain(state[at] - 1, 3);
    let block = state[head + 1];
    let head_rank = state[sizes.treeling(state[head] - 1, 3)];
    span_at(state[at + 3], head_rank, block)
}

// Word w, entry k of an ordinary domain's TreeLing t: without a free position it is not after the head, with one not before it.
fn entry_fits(sizes: Sizes, state: &[u64], t: u64, span: &Range<u64>, k: u64, w: u64) -> bool
    requires laid { Laid sizes state.now }
    requires records { Records sizes state.now }
    requires t_lt_treelings { (t < sizes.treelings) × (is_ordinary sizes state.now t ≡ true) × (k < 512) × (w ≡ get sizes state.now (entry t k)) }
    requires start_value { (span.now.start ≡ span_start sizes state.now t) × (span.now.end ≡ span_end sizes state.now t) }
    ensures { result ≡ entry_fits sizes state.now t k }
{
    let tag = w / 256;
    if 512 * sizes.treelings <= tag {
        return false;
    }
    if state[sizes.treeling(tag / 512, 0)] != state[sizes.treeling(t, 0)] {
        return false;
    }
    if w % 256 == 0 {
        k < span.end
    } else {
        span.start <= k
    }
}

// The free positions of an ordinary domain's TreeLing t, each entry checked and its positions marked; none where one is at fault.
fn treeling_tally(sizes: Sizes, state: &[u64], marks: &mut [u8], t: u64) -> Option<u64>
    requires laid { Laid sizes state.now }
    requires records { Records sizes state.now }
    requires t_lt_treelings { (t < sizes.treelings) × (is_ordinary sizes state.now t ≡ true) }
    requires marks { Marks sizes state.now (512 * t) 0 marks.old }
    ensures { TallyIs sizes state.now t marks.new result }
{
    let at = sizes.entry(t, 0);
    let span = span_of(sizes, state, t);
    let mut free = 0;
    for k in 0..512 {
        let w = state[at + k as usize];
        if !entry_fits(sizes, state, t, &span, k, w) {
            return None;
        }
        if w % 256 != 0 {
            if !add_mark(marks, (w / 256) as usize, (w % 256) as u8) {
                return None;
            }
            free += number(w % 256);
        }
    }
    Some(free)
}

// The entries of TreeLing t: none where it is unowned (an owner's word of 0), else checked, marked, and their pages counted for its domain.
fn treeling_counted(
    sizes: Sizes,
    state: &[u64],
    marks: &mut [u8],
    pages: &mut [u64],
    t: u64,
) -> bool
    requires laid { Laid sizes state.now }
    requires records { Records sizes state.now }
    requires t_lt_treelings { t < sizes.treelings }
    requires marks { Marks sizes state.now (512 * t) 0 marks.old × Counted sizes state.now t pages.old }
    ensures t_value { result ≡ true → (treeling_entries sizes state.now t ≡ true) × Marks sizes state.now (512 * (t + 1)) 0 marks.new × Counted sizes state.now (t + 1) pages.new }
    ensures fact { result ≡ false → Sound sizes state.now → ⊥ }
{
    let owner = state[sizes.treeling(t, 0)];
    if owner == 0 {
        return all_zero(state, sizes.entry(t, 0), 512);
    }
    let Some(free) = treeling_tally(sizes, state, marks, t) else {
        return false;
    };
    let d = (owner - 1) as usize;
    pages[d] += 4096 - free;
    true
}

// All TreeLings' entries. A `for`, since `all` tells nothing of the marks and pages that a closure changes; these stay two buffers, since later passes need one of them each.
pub fn entries_counted(sizes: Sizes, state: &[u64], marks: &mut [u8], pages: &mut [u64]) -> bool
    requires laid { Laid sizes state.now }
    requires records { Records sizes state.now }
    requires marks { Marks sizes state.now 0 0 marks.old × Counted sizes state.now 0 pages.old }
    ensures state_value { result ≡ true → (all sizes.treelings (treeling_entries sizes state.now) ≡ true) × Marks sizes state.now (512 * sizes.treelings) 0 marks.new × Counted sizes state.now sizes.treelings pages.new }
    ensures fact { result ≡ false → Sound sizes state.now → ⊥ }
{
    for t in 0..sizes.treelings {
        if !treeling_counted(sizes, state, marks, pages, t) {
            return false;
        }
    }
    true
}
