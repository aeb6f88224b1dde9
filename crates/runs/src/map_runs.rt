// 6 map run: everything is asked first, then written.
ghost use Rattle.std.specs.Prelude.{◌≡◌, ℕ, ◌+◌, ◌<◌, ◌≤◌, true, leb, ltb};
ghost use Rattle.board.specs.Holes.{outside};
ghost use Rattle.layout.specs.Outcomes.{outcome};
ghost use Rattle.layout.specs.Places.{Laid, get, leaf};
ghost use Rattle.sound.specs.Sound.{Ordinary, Sound};
ghost use Rattle.world.specs.Find.{find_from};
ghost use Rattle.pages.specs.Mapping.{map_call};
ghost use Rattle.pages.specs.Answers.{answer_of};
ghost use Rattle.runs.specs.Runs.{Run, longest_run, map_run_call, run_of};
ghost use Rattle.runs.specs.CodeBeforeRun.{first_mapped};
ghost use Rattle.pages.specs.PlacesLeft.{places};

use geometry::tables::LowestTable;
use layout::Sizes;
use leaf_map::{Frame, read_leaf};
use pages::{Done, Refusal};
use placing::place::place;
use taking::{find_unowned, number_owned};

// The first frame of a run that is mapped by anyone, as its number in the run.
fn first_mapped(sizes: Sizes, state: &[u64], frame: Frame, count: u64) -> Option<u64>
    requires laid { Laid sizes state.now }
    requires count_bound { frame.0 + count ≤ sizes.frames }
    ensures { result ≡ find_from (λ i. ltb 0 (get sizes state.now (leaf (frame.0 + i)))) 0 count }
{
    (0..count).find(|i| !read_leaf(sizes, state, frame.after(*i)).is_none())
}

// Are n places left to the domain? Its own TreeLings first, then the pool: one TreeLing of it is enough for the longest run.
fn has_places(sizes: Sizes, state: &[u64], d: u64, n: u64) -> bool
    requires sound { Sound sizes state.now }
    requires d_lt_domains { (d < sizes.domains) × (n ≤ longest_run) }
    ensures { result ≡ leb n (places sizes state.now d) }
{
    let pages = state[sizes.domain(d, 5)];
    let own = 4096 * number_owned(sizes, state, d) - pages;
    n <= own || find_unowned(sizes, state).is_some()
}

// Maps the frames of a run, all unmapped, with as many places left.
fn map_frames(sizes: Sizes, state: &mut [u64], low: &LowestTable, d: u64, frame: Frame, count: u64)
    requires sound { Sound sizes state.old }
    requires d_lt_domains { (d < sizes.domains) × (frame.0 + count ≤ sizes.frames) × Ordinary sizes state.old d }
    requires count_value { (first_mapped sizes state.old frame.0 count ≡ count) × (count ≤ places sizes state.old d) }
    requires by_index { (i : ℕ) → i < count → outside state.old (frame.0 + i) ≡ true }
    ensures count_value_2 { run_of (λ r. map_call sizes r d) state.old frame.0 count ≡ Run.going state.new }
    ensures sound_2 { Sound sizes state.new }
{
    for i in 0..count {
        place(sizes, state, low, d, frame.after(i));
    }
}

// Frame and count stay two: the definitions of runs name the two.
pub fn map_run(
    sizes: Sizes,
    state: &mut [u64],
    low: &LowestTable,
    d: u64,
    frame: Frame,
    count: u64,
) -> Result<Done, Refusal>
    requires sound { Sound sizes state.old }
    requires d_lt_domains { (d < sizes.domains) × (frame.0 + count ≤ sizes.frames) × Ordinary sizes state.old d × (count ≤ longest_run) }
    requires by_index { (i : ℕ) → i < count → outside state.old (frame.0 + i) ≡ true }
    ensures state_after { outcome (answer_of result) state.new ≡ map_run_call sizes state.old d frame.0 count }
    ensures sound_2 { Sound sizes state.new }
{
    let taken = first_mapped(sizes, state, frame, count);
    if !has_places(sizes, state, d, taken.unwrap_or(count)) {
        return Err(Refusal::NoPlace);
    }
    if taken.is_some() {
        return Err(Refusal::FrameMapped);
    }
    map_frames(sizes, state, low, d, frame, count);
    Ok(Done::Finished(count))
}
