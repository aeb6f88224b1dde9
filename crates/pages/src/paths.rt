// 5 path.
ghost use Rattle.std.specs.Prelude.{◌≡◌, ◌<◌};
ghost use Rattle.layout.specs.Outcomes.{outcome};
ghost use Rattle.sound.specs.Sound.{Sound};
ghost use Rattle.pages.specs.Answers.{answer_of};
ghost use Rattle.pages.specs.Paths.{path_call};

use crate::{Done, Refusal, is_mapped_by, page_at};
use layout::Sizes;
use leaf_map::{Frame, read_leaf};

#[tactic(auto, using(crate::proofs::CallCodeLaws::path_page, crate::proofs::CallCodeLaws::path_other))]
pub fn path_of(sizes: Sizes, state: &[u64], d: u64, frame: Frame) -> Result<Done, Refusal>
    requires sound { Sound sizes state.now }
    requires d_lt_domains { (d < sizes.domains) × (frame.0 < sizes.frames) }
    ensures { outcome (answer_of result) state.now ≡ path_call sizes state.now d frame.0 }
{
    if !is_mapped_by(sizes, state, d, frame) {
        return Err(Refusal::NotMappedByDomain);
    }
    let id = read_leaf(sizes, state, frame);
    Ok(page_at(sizes, state, id, 0))
}
