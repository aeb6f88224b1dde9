// The audit: whether a state is sound, decided in linear time.
#![tactic(auto)]

use layout::Sizes;

mod contents;
mod holes;
mod passes;

ghost use Rattle.std.specs.Prelude.{◌≡◌};
ghost use Rattle.sound.specs.Audit.{audit_number};
ghost use Rattle.audit.specs.Numbers.{number_of, unsound_number};

// What is not as it should be: the contents or the length, else the records, the NFL or the leaf map; with its number in document 01.
#[derive(Clone, Copy, Debug, PartialEq, Eq)]
pub enum Unsound {
    Contents = 3,
    Bodies = 4,
}

impl From<Unsound> for u64 {
    ghost from_gives = { λ u n. n ≡ unsound_number u };

    fn from(unsound: Unsound) -> u64 {
        unsound as u64
    }
}

// Whether a state is sound, and where it is not, why. Writes nothing.
#[tactic(auto, unfolding(sound::specs::Audit::audit_number))]
pub fn audit(state: &[u64]) -> Result<(), Unsound>
    ensures { number_of result ≡ audit_number state.now }
{
    if !contents::laid_out(state) {
        return Err(Unsound::Contents);
    }
    if passes::passes(Sizes::read(state), state) {
        Ok(())
    } else {
        Err(Unsound::Bodies)
    }
}
