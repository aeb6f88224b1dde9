// 7 unmap run: everything is asked first, then written.
ghost use Rattle.std.specs.Prelude.{◌≡◌, ◌+◌, ◌<◌, ◌≤◌, true};
ghost use Rattle.layout.specs.Bounded.{all};
ghost use Rattle.layout.specs.Outcomes.{outcome};
ghost use Rattle.sound.specs.Sentences.{is_mapped_by};
ghost use Rattle.sound.specs.Sound.{Sound};
ghost use Rattle.pages.specs.Unmapping.{unmap_call};
ghost use Rattle.pages.specs.Answers.{answer_of};
ghost use Rattle.runs.specs.Runs.{Run, run_of, unmap_run_call};

use layout::Sizes;
use leaf_map::Frame;
use pages::{Done, Refusal, is_mapped_by};
use releasing::release::release;

// Are all frames of a run mapped by the domain?
fn all_mapped(sizes: Sizes, state: &[u64], d: u64, frame: Frame, count: u64) -> bool
    requires sound { Sound sizes state.now }
    requires d_lt_domains { (d < sizes.domains) × (frame.0 + count ≤ sizes.frames) }
    ensures { result ≡ all count (λ i. is_mapped_by sizes state.now d (frame.0 + i)) }
{
    (0..count).all(|i| is_mapped_by(sizes, state, d, frame.after(i)))
}

// Releases the pages of a run, all mapped by the domain.
fn release_frames(sizes: Sizes, state: &mut [u64], d: u64, frame: Frame, count: u64)
    requires sound { Sound sizes state.old }
    requires d_lt_domains { (d < sizes.domains) × (frame.0 + count ≤ sizes.frames) }
    requires i_value { all count (λ i. is_mapped_by sizes state.old d (frame.0 + i)) ≡ true }
    ensures count_value { run_of (λ r. unmap_call sizes r d) state.old frame.0 count ≡ Run.going state.new }
    ensures sound_2 { Sound sizes state.new }
{
    for i in 0..count {
        release(sizes, state, d, frame.after(i));
    }
}

pub fn unmap_run(
    sizes: Sizes,
    state: &mut [u64],
    d: u64,
    frame: Frame,
    count: u64,
) -> Result<Done, Refusal>
    requires sound { Sound sizes state.old }
    requires d_lt_domains { (d < sizes.domains) × (frame.0 + count ≤ sizes.frames) }
    ensures state_after { outcome (answer_of result) state.new ≡ unmap_run_call sizes state.old d frame.0 count }
    ensures sound_2 { Sound sizes state.new }
{
    if !all_mapped(sizes, state, d, frame, count) {
        return Err(Refusal::NotMappedByDomain);
    }
    release_frames(sizes, state, d, frame, count);
    Ok(Done::Finished(count))
}
