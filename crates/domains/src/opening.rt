// 1 open.
ghost use Rattle.std.specs.Prelude.{◌≡◌, ◌<◌};
ghost use Rattle.layout.specs.Outcomes.{outcome};
ghost use Rattle.layout.specs.Places.{get, live};
ghost use Rattle.sound.specs.Sound.{Sound};
ghost use Rattle.pages.specs.Answers.{answer_of_done};
ghost use Rattle.domains.specs.Opening.{open_call};

use layout::Sizes;
use pages::Done;

#[tactic(auto, unfolding(crate::specs::Opening::open_call))]
pub fn open_domain(sizes: Sizes, state: &mut [u64], d: u64) -> Done
    requires sound { Sound sizes state.old }
    requires d_lt_domains { (d < sizes.domains) × (get sizes state.old (live d) ≡ 0) }
    ensures state_after { outcome (answer_of_done result) state.new ≡ open_call sizes state.old d }
    ensures sound_2 { Sound sizes state.new }
{
    let at = sizes.domain(d, 0);
    state[at] = 1;
    Done::Finished(0)
}
