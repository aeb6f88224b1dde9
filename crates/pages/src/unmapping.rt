// 4 unmap.
ghost use Rattle.std.specs.Prelude.{◌≡◌, ◌<◌};
ghost use Rattle.layout.specs.Outcomes.{outcome};
ghost use Rattle.sound.specs.Sound.{Sound};
ghost use Rattle.pages.specs.Answers.{answer_of};
ghost use Rattle.pages.specs.Unmapping.{unmap_call};

use crate::{Done, Refusal, is_mapped_by};
use layout::Sizes;
use leaf_map::Frame;
use releasing::release::release;

#[tactic(auto, using(sound::proofs::MappedLaws::mapped_by, sound::proofs::MappedLaws::mapped_ordinary, crate::proofs::CallCodeLaws::unmap_done, crate::proofs::CallCodeLaws::unmap_other))]
pub fn unmap_page(sizes: Sizes, state: &mut [u64], d: u64, frame: Frame) -> Result<Done, Refusal>
    requires sound { Sound sizes state.old }
    requires d_lt_domains { (d < sizes.domains) × (frame.0 < sizes.frames) }
    ensures state_after { outcome (answer_of result) state.new ≡ unmap_call sizes state.old d frame.0 }
    ensures sound_2 { Sound sizes state.new }
{
    if !is_mapped_by(sizes, state, d, frame) {
        return Err(Refusal::NotMappedByDomain);
    }
    release(sizes, state, d, frame);
    Ok(Done::Finished(1))
}
