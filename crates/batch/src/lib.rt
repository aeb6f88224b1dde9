// Batches of requests: the questions of a batch in sequence, then its requests.
#![tactic(auto)]

pub mod serve;

ghost use Rattle.std.specs.Prelude.{◌≡◌};
ghost use Rattle.batch.specs.declared.Refusal.TheVariants.{Unsound};
ghost use Rattle.batch.specs.Numbers.{refusal_number};

// The question by which a batch is refused, with its number in document 01. Then nothing is written.
#[derive(Clone, Copy, Debug, PartialEq, Eq)]
pub enum Refusal {
    // 3 or 4: the state isn't sound.
    Unsound(audit::Unsound),
    // 5: the request words aren't a multiple of 4, or are more than 262,144.
    Requests,
    // 6: the answer words aren't twice the request words.
    Answers,
}

impl From<audit::Unsound> for Refusal {
    ghost from_gives = { λ unsound refusal. refusal ≡ Unsound unsound };

    fn from(why: audit::Unsound) -> Refusal {
        Refusal::Unsound(why)
    }
}

impl From<Refusal> for u64 {
    ghost from_gives = { λ refusal number. number ≡ refusal_number refusal };

    fn from(refusal: Refusal) -> u64 {
        match refusal {
            Refusal::Unsound(unsound) => u64::from(unsound),
            Refusal::Requests => 5,
            Refusal::Answers => 6,
        }
    }
}
