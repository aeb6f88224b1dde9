// The audit's passes in order, over marks and counts of a size chosen by T and D.
ghost use Rattle.std.specs.Prelude.{◌≡◌, ◌*◌, ◌≤◌};
ghost use Rattle.sound.specs.Audit.{passes};
ghost use Rattle.sound.specs.CodeChained.{Records};
ghost use Rattle.slots.specs.CodeMarks.{Counted, Marks};
ghost use Rattle.sound.specs.Contents.{LaidOut};

use crate::holes::holes_unmapped;
use chains::domains_chained;
use layout::Sizes;
use records::links::treelings_chained;
use records::ranges::{domains_in_range, treelings_in_range};
use slots::entries::entries_counted;
use slots::leaves::{leaves_marked, pages_true};
use slots::marks::marks_full;

// The NFL, the leaf map and the pages mapped, with marks and counts that are clear.
fn bodies_pass(sizes: Sizes, state: &[u64], marks: &mut [u8], pages: &mut [u64]) -> bool
    requires laid_out { LaidOut sizes state.now }
    requires records { Records sizes state.now }
    requires marks { Marks sizes state.now 0 0 marks.old × Counted sizes state.now 0 pages.old }
    ensures { result ≡ passes sizes state.now }
{
    entries_counted(sizes, state, marks, pages)
        && leaves_marked(sizes, state, marks)
        && marks_full(sizes, state, marks)
        && holes_unmapped(sizes, state)
        && pages_true(sizes, state, pages)
}

// The same, with room for MARKS leaf nodes and PAGES domains. Each size has a frame of its own, so that a small state takes little stack.
// LLVM compiles several such frames in one function wrongly (docs/DECISIONS, The audit).
#[inline(never)]
fn sized<const MARKS: usize, const PAGES: usize>(sizes: Sizes, state: &[u64]) -> bool
    requires laid_out { LaidOut sizes state.now }
    requires records { Records sizes state.now }
    requires treelings_bound { (512 * sizes.treelings ≤ MARKS) × (sizes.domains ≤ PAGES) }
    requires room_bound { (MARKS ≤ 2097152) × (PAGES ≤ 4096) }
    ensures { result ≡ passes sizes state.now }
{
    let mut marks = [0u8; MARKS];
    let mut pages = [0u64; PAGES];
    bodies_pass(sizes, state, &mut marks, &mut pages)
}

// The same, with room for few TreeLings, for some, for many, or for the most: a small state clears little.
fn in_room(sizes: Sizes, state: &[u64]) -> bool
    requires laid_out { LaidOut sizes state.now }
    requires records { Records sizes state.now }
    ensures { result ≡ passes sizes state.now }
{
    if sizes.treelings <= 16 && sizes.domains <= 256 {
        sized::<8192, 256>(sizes, state)
    } else if sizes.treelings <= 256 {
        sized::<131072, 4096>(sizes, state)
    } else if sizes.treelings <= 1024 {
        sized::<524288, 4096>(sizes, state)
    } else {
        sized::<2097152, 4096>(sizes, state)
    }
}

// All passes: the records first, since the others go by them.
pub fn passes(sizes: Sizes, state: &[u64]) -> bool
    requires { LaidOut sizes state.now }
    ensures { result ≡ passes sizes state.now }
{
    domains_in_range(sizes, state)
        && treelings_in_range(sizes, state)
        && domains_chained(sizes, state)
        && treelings_chained(sizes, state)
        && in_room(sizes, state)
}
