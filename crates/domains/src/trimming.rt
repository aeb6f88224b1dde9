// 8 trim: the domain's TreeLings without a mapped page are returned.
ghost use Rattle.std.specs.Prelude.{◌≡◌, ◌<◌};
ghost use Rattle.layout.specs.Outcomes.{outcome};
ghost use Rattle.sound.specs.Sound.{Ordinary, Sound};
ghost use Rattle.pages.specs.Answers.{answer_of_done};
ghost use Rattle.domains.specs.Trimming.{trim_call};

use layout::Sizes;
use pages::Done;
use returning::trim::trim;

pub fn trim_domain(sizes: Sizes, state: &mut [u64], d: u64) -> Done
    requires sound { Sound sizes state.old }
    requires d_lt_domains { (d < sizes.domains) × Ordinary sizes state.old d }
    ensures state_after { outcome (answer_of_done result) state.new ≡ trim_call sizes state.old d }
    ensures sound_2 { Sound sizes state.new }
{
    let returned = trim(sizes, state, d);
    Done::Finished(returned)
}
