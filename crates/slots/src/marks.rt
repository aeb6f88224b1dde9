// A byte of marks for each leaf node, a bit for each slot.
ghost use Rattle.std.specs.Prelude.{◌≡◌, cond, ◌+◌, ◌*◌, ◌<◌, ◌≤◌, eqb, get_or, length, set};
ghost use Rattle.std.specs.Int.Bits.{bit_and};
ghost use Rattle.layout.specs.Places.{Laid};
ghost use Rattle.layout.specs.Bounded.{all};
ghost use Rattle.sound.specs.Sentences.{is_owned};

use layout::Sizes;

// Adds positions to the mark of a node; false, and nothing is written, where one of them is marked already.
pub fn add_mark(marks: &mut [u8], node: usize, positions: u8) -> bool
    requires { node < length marks.old }
    ensures value { result ≡ eqb (bit_and (get_or marks.old node 0) positions) 0 }
    ensures marks_after { marks.new ≡ cond result (set marks.old node (get_or marks.old node 0 + positions)) marks.old }
{
    let mark = marks[node];
    if mark & positions != 0 {
        return false;
    }
    marks[node] = mark + positions;
    true
}

// Every slot of TreeLing t is marked where it is owned, and none where it is not. No early return: the loop then runs on vectors.
fn treeling_full(sizes: Sizes, state: &[u64], marks: &[u8], t: u64) -> bool
    requires laid { Laid sizes state.now }
    requires treelings_in_bounds { (t < sizes.treelings) × (512 * sizes.treelings ≤ length marks.now) }
    ensures { result ≡ all 512 (λ k. eqb (get_or marks.now (512 * t + k) 0) (cond (is_owned sizes state.now t) 255 0)) }
{
    let owned = state[sizes.treeling(t, 0)] != 0;
    let want = if owned { 255 } else { 0 };
    let at = (512 * t) as usize;
    marks[at..at + 512]
        .iter()
        .fold(true, |full, mark| full & (*mark == want))
}

// The same of every TreeLing.
pub fn marks_full(sizes: Sizes, state: &[u64], marks: &[u8]) -> bool
    requires laid { Laid sizes state.now }
    requires treelings_in_bounds { 512 * sizes.treelings ≤ length marks.now }
    ensures { result ≡ all sizes.treelings (λ t. all 512 (λ k. eqb (get_or marks.now (512 * t + k) 0) (cond (is_owned sizes state.now t) 255 0))) }
{
    (0..sizes.treelings).all(|t| treeling_full(sizes, state, marks, t))
}
