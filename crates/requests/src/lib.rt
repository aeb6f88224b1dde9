// One request: its questions in sequence, then its call.
#![tactic(auto)]

pub mod performing;

ghost use Rattle.std.specs.Prelude.{◌≡◌};
ghost use Rattle.layout.specs.Outcomes.{outcome};
ghost use Rattle.sound.specs.Sound.{Sound};
ghost use Rattle.pages.specs.Answers.{answer_of};
ghost use Rattle.questions.specs.Questions.{answering};

use crate::performing::perform;
use geometry::tables::LowestTable;
use layout::Sizes;
use pages::{Done, Refusal};
use questions::{Request, passed};

// Its call, unless a question isn't passed.
pub fn answer(
    sizes: Sizes,
    state: &mut [u64],
    low: &LowestTable,
    q: Request,
) -> Result<Done, Refusal>
    requires sound { Sound sizes state.old }
    ensures state_after { outcome (answer_of result) state.new ≡ answering sizes state.old q.call q.domain q.frame q.count }
    ensures sound_2 { Sound sizes state.new }
{
    let call = passed(sizes, state, q)?;
    perform(sizes, state, low, call, q)
}
