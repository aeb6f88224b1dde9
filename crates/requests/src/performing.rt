// What a request does that has passed its questions.
ghost use Rattle.std.specs.Prelude.{◌≡◌};
ghost use Rattle.layout.specs.Outcomes.{outcome};
ghost use Rattle.sound.specs.Sound.{Sound};
ghost use Rattle.pages.specs.Answers.{answer_of};
ghost use Rattle.calls.specs.Table.{call_of};
ghost use Rattle.calls.specs.Numbers.{call_number};
ghost use Rattle.questions.specs.Questions.{refusal_of};

use calls::Call;
use domains::closing::close_domain;
use domains::filling::fill_of;
use domains::opening::open_domain;
use domains::trimming::trim_domain;
use geometry::tables::LowestTable;
use layout::Sizes;
use leaf_map::Frame;
use pages::mapping::map_page;
use pages::paths::path_of;
use pages::unmapping::unmap_page;
use pages::{Done, Refusal};
use questions::Request;
use runs::map_runs::map_run;
use runs::unmap_runs::unmap_run;

// Its call: the match is the table of calls, case by case.
pub fn perform(
    sizes: Sizes,
    state: &mut [u64],
    low: &LowestTable,
    call: Call,
    q: Request,
) -> Result<Done, Refusal>
    requires sound { Sound sizes state.old }
    requires count_value { refusal_of sizes state.old (call_of (call_number call)) q.domain q.frame q.count ≡ 0 }
    ensures state_after { outcome (answer_of result) state.new ≡ (call_of (call_number call)).does sizes state.old q.domain q.frame q.count }
    ensures sound_2 { Sound sizes state.new }
{
    let d = q.domain;
    let frame = Frame::numbered(q.frame);
    match call {
        Call::Open => Ok(open_domain(sizes, state, d)),
        Call::Close => Ok(close_domain(sizes, state, d)),
        Call::Map => map_page(sizes, state, low, d, frame),
        Call::Unmap => unmap_page(sizes, state, d, frame),
        Call::Path => path_of(sizes, state, d, frame),
        Call::MapRun => map_run(sizes, state, low, d, frame, q.count),
        Call::UnmapRun => unmap_run(sizes, state, d, frame, q.count),
        Call::Trim => Ok(trim_domain(sizes, state, d)),
        Call::Fill => Ok(fill_of(sizes, state, d)),
    }
}
