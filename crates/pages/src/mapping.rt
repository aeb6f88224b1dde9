// 3 map.
ghost use Rattle.std.specs.Prelude.{◌≡◌, true, ◌<◌};
ghost use Rattle.board.specs.Holes.{outside};
ghost use Rattle.layout.specs.Outcomes.{outcome};
ghost use Rattle.sound.specs.Sound.{Ordinary, Sound};
ghost use Rattle.pages.specs.Answers.{answer_of};
ghost use Rattle.pages.specs.Mapping.{map_call};

use crate::{Done, Refusal, page_at};
use geometry::tables::LowestTable;
use layout::Sizes;
use leaf_map::{Frame, read_leaf};
use placing::place::place;

#[tactic(auto, using(crate::proofs::CallCodeLaws::placed_range, crate::proofs::CallCodeLaws::map_taken, crate::proofs::CallCodeLaws::map_page))]
pub fn map_page(
    sizes: Sizes,
    state: &mut [u64],
    low: &LowestTable,
    d: u64,
    frame: Frame,
) -> Result<Done, Refusal>
    requires sound { Sound sizes state.old }
    requires d_lt_domains { (d < sizes.domains) × (frame.0 < sizes.frames) × Ordinary sizes state.old d }
    requires frame_value { outside state.old frame.0 ≡ true }
    ensures state_after { outcome (answer_of result) state.new ≡ map_call sizes state.old d frame.0 }
    ensures sound_2 { Sound sizes state.new }
{
    let id = read_leaf(sizes, state, frame);
    if !id.is_none() {
        return Err(Refusal::FrameMapped);
    }
    let Some(id) = place(sizes, state, low, d, frame) else {
        return Err(Refusal::NoPlace);
    };
    Ok(page_at(sizes, state, id, 1))
}
