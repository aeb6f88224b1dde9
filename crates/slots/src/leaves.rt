// The leaf map: each word names a slot that is not free and that no other word names; and the pages counted are those mapped.
ghost use Rattle.std.specs.Prelude.{◌≡◌, false, true, ℕ, ◌+◌, ◌*◌, ◌<◌, ◌≤◌, eqb, get_or, length};
ghost use Rattle.layout.specs.Places.{Laid, get, pages_mapped};
ghost use Rattle.layout.specs.Bounded.{all};
ghost use Rattle.leaf_map.specs.GatheredIds.{words_of};
ghost use Rattle.sound.specs.Sentences.{leaf_in_range};
ghost use Rattle.slots.specs.CodeMarks.{LeavesMarked, Marks, WordsClash, WordsMarked};
ghost use Rattle.sound.specs.Sound.{Sound};

use crate::marks::add_mark;
use layout::Sizes;
use leaf_map::{Frame, LeafId, all_unmapped, mapped_ids};

// Marks the slots that the leaf IDs name; false where one is out of range or marked already.
fn words_marked(sizes: Sizes, marks: &mut [u8], ids: &[LeafId]) -> bool
    requires treelings_bound { (sizes.treelings ≤ 4096) × (512 * sizes.treelings ≤ length marks.old) }
    requires by_index { (k : ℕ) → k < length ids.now → 0 < get_or (words_of ids.now) k 0 }
    ensures words_marked { result ≡ true → WordsMarked sizes (words_of ids.now) (length ids.now) marks.old marks.new }
    ensures words_clash { result ≡ false → WordsClash sizes (words_of ids.now) (length ids.now) marks.old }
{
    // A shift by the position takes three instructions more for each word.
    let position_marks = [1u8, 2, 4, 8, 16, 32, 64, 128];
    for id in ids {
        if !id.in_range(sizes) {
            return false;
        }
        let mark = position_marks[id.position() as usize];
        if !add_mark(marks, id.node() as usize, mark) {
            return false;
        }
    }
    true
}

// Marks the slots of the pages of the n frames from one on.
fn frames_marked(
    sizes: Sizes,
    state: &[u64],
    marks: &mut [u8],
    ids: &mut [LeafId],
    from: Frame,
    n: usize,
) -> bool
    requires laid { Laid sizes state.now }
    requires n_bound { (from.0 + n ≤ sizes.frames) × (n ≤ length ids.old) }
    requires leaves_marked { LeavesMarked sizes state.now from.0 marks.old }
    ensures leaves_marked_2 { result ≡ true → LeavesMarked sizes state.now (from.0 + n) marks.new }
    ensures fact { result ≡ false → Sound sizes state.now → ⊥ }
{
    if all_unmapped(sizes, state, from, n) {
        return true;
    }
    words_marked(sizes, marks, mapped_ids(sizes, state, from, n, ids))
}

// The same for all frames, 64 at a time.
pub fn leaves_marked(sizes: Sizes, state: &[u64], marks: &mut [u8]) -> bool
    requires laid { Laid sizes state.now }
    requires marks { Marks sizes state.now (512 * sizes.treelings) 0 marks.old }
    ensures state_value { result ≡ true → (all sizes.frames (leaf_in_range sizes state.now) ≡ true) × Marks sizes state.now (512 * sizes.treelings) sizes.frames marks.new }
    ensures fact { result ≡ false → Sound sizes state.now → ⊥ }
{
    let mut ids = [LeafId::none(); 64];
    let blocks = sizes.frames / 64;
    for b in 0..blocks {
        if !frames_marked(sizes, state, marks, &mut ids, Frame::numbered(64 * b), 64) {
            return false;
        }
    }
    let from = Frame::numbered(64 * blocks);
    let rest = (sizes.frames % 64) as usize;
    frames_marked(sizes, state, marks, &mut ids, from, rest)
}

// The pages that each domain counts are those counted here.
pub fn pages_true(sizes: Sizes, state: &[u64], pages: &[u64]) -> bool
    requires laid { Laid sizes state.now }
    requires domains_in_bounds { sizes.domains ≤ length pages.now }
    ensures { result ≡ all sizes.domains (λ d. eqb (get sizes state.now (pages_mapped d)) (get_or pages.now d 0)) }
{
    (0..sizes.domains).all(|d| state[sizes.domain(d, 5)] == pages[d as usize])
}
