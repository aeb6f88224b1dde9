// 11 fill: thousandths of the domain's slots in use, with nothing rounded away.
ghost use Rattle.std.specs.Prelude.{◌≡◌, ◌<◌};
ghost use Rattle.layout.specs.Outcomes.{outcome};
ghost use Rattle.sound.specs.Sound.{Sound};
ghost use Rattle.pages.specs.Answers.{answer_of_done};
ghost use Rattle.domains.specs.Filling.{fill_call};

use layout::Sizes;
use pages::Done;
use taking::number_owned;

pub fn fill_of(sizes: Sizes, state: &[u64], d: u64) -> Done
    requires sound { Sound sizes state.now }
    requires d_lt_domains { d < sizes.domains }
    ensures { outcome (answer_of_done result) state.now ≡ fill_call sizes state.now d }
{
    let treelings = number_owned(sizes, state, d);
    let slots = 4096 * treelings;
    if slots == 0 {
        return Done::Fill {
            quotient: 0,
            remainder: 0,
            slots: 0,
        };
    }
    let thousands = 1000 * state[sizes.domain(d, 5)];
    Done::Fill {
        quotient: thousands / slots,
        remainder: thousands % slots,
        slots,
    }
}
