// Holes in the frame space: whether they are as they should be, and whether frames lie outside them.
#![tactic(auto)]

ghost use Rattle.std.specs.Prelude.{◌≡◌, ◌+◌, ◌*◌, ◌<◌, ◌≤◌, drop, length, true};
ghost use Rattle.layout.specs.Bounded.{all};
ghost use Rattle.board.specs.CodeHoles.{hole_fits};
ghost use Rattle.board.specs.Holes.{HolesFit, hole_count, hole_first, hole_length, hole_words, holes_allowed, holes_as_laid_out, holes_fit, outside};

use layout::Sizes;
use layout::words::all_zero;

// A hole from frame `from` on that is not empty and lies below P.
fn hole_fits(frames: u64, from: u64, first: u64, len: u64) -> bool
    ensures { result ≡ hole_fits frames from first len }
{
    from <= first && 0 < len && first <= frames && len <= frames - first
}

// Are n holes, told by the words from an address on, ascending, disjoint, not empty, below P, and at most eight?
fn holes_fit(frames: u64, words: &[u64], at: usize, n: u64) -> bool
    requires { n ≤ 8 → at + 2 * n ≤ length words.now }
    ensures value { result ≡ holes_fit frames n (drop at words.now) }
    ensures few { result ≡ true → n ≤ 8 }
{
    if 8 < n {
        return false;
    }
    let mut from = 0;
    for pair in words[at..at + 2 * n as usize].chunks_exact(2) {
        let first = pair[0];
        let len = pair[1];
        if !hole_fits(frames, from, first, len) {
            return false;
        }
        from = first + len;
    }
    true
}

// The holes that making a state takes.
pub fn holes_allowed(sizes: Sizes, holes: &[u64]) -> bool
    ensures { result ≡ holes_allowed sizes holes.now }
{
    holes.len() % 2 == 0 && holes_fit(sizes.frames, holes, 0, holes.len() as u64 / 2)
}

// The contents' holes.
pub fn holes_laid_out(frames: u64, state: &[u64]) -> bool
    requires { 25 ≤ length state.now }
    ensures { result ≡ holes_as_laid_out frames state.now }
{
    let n = hole_count(state);
    if !holes_fit(frames, state, 9, n) {
        return false;
    }
    let used = 2 * n as usize;
    all_zero(state, 9 + used, 16 - used)
}

// The number of holes of a state, and the first frame and the length of hole i. Each asks for 25 words: a view of the state would say it in every clause.
pub fn hole_count(state: &[u64]) -> u64
    requires { 25 ≤ length state.now }
    ensures { result ≡ hole_count state.now }
{
    state[8]
}

pub fn hole_first(state: &[u64], i: u64) -> u64
    requires { (25 ≤ length state.now) × (i < 8) }
    ensures { result ≡ hole_first (hole_words state.now) i }
{
    state[9 + 2 * i as usize]
}

pub fn hole_length(state: &[u64], i: u64) -> u64
    requires { (25 ≤ length state.now) × (i < 8) }
    ensures { result ≡ hole_length (hole_words state.now) i }
{
    state[10 + 2 * i as usize]
}

// Do the n frames from frame f on lie outside all holes? Holes ascend: the first that does not end before f decides.
pub fn all_outside(frames: u64, state: &[u64], f: u64, n: u64) -> bool
    requires in_bounds { (25 ≤ length state.now) × (frames ≤ 8388608) }
    requires holes_fit { HolesFit frames (hole_count state.now) (hole_words state.now) }
    requires le_n { (1 ≤ n) × (f + n ≤ frames) }
    ensures { result ≡ all n (λ i. outside state.now (f + i)) }
{
    for i in 0..hole_count(state) {
        let first = hole_first(state, i);
        let last = first + hole_length(state, i) - 1;
        if f <= last {
            return f + n <= first;
        }
    }
    true
}
