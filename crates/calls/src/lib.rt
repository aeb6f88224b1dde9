// The table of calls.
#![tactic(auto)]

ghost use Rattle.std.specs.Prelude.{◌≡◌};
ghost use Rattle.calls.specs.Table.{call_of};
ghost use Rattle.calls.specs.Numbers.{Numbered, call_number, uses_of};

use pages::Refusal;

// The words that a call uses beside the domain word.
#[derive(Clone, Copy)]
pub enum Uses {
    // Neither frame nor count.
    DomainOnly,
    // The frame.
    OneFrame,
    // Frame and count.
    FrameAndCount,
}

// A call, with its number in document 01.
#[derive(Clone, Copy, Debug, PartialEq, Eq)]
pub enum Call {
    Open = 1,
    Close = 2,
    Map = 3,
    Unmap = 4,
    Path = 5,
    MapRun = 6,
    UnmapRun = 7,
    Trim = 8,
    Fill = 11,
}

// The call of a number: the first part of question 7.
impl TryFrom<u64> for Call {
    type Error = Refusal;

    ghost try_from_gives = { Numbered };

    fn try_from(number: u64) -> Result<Call, Refusal> {
        match number {
            1 => Ok(Call::Open),
            2 => Ok(Call::Close),
            3 => Ok(Call::Map),
            4 => Ok(Call::Unmap),
            5 => Ok(Call::Path),
            6 => Ok(Call::MapRun),
            7 => Ok(Call::UnmapRun),
            8 => Ok(Call::Trim),
            11 => Ok(Call::Fill),
            _ => Err(Refusal::Malformed),
        }
    }
}

// The columns of the table.
impl Call {
    // The words that it uses.
    #[tactic(auto, unfolding(crate::specs::Table::line_of, crate::specs::Table::calls))]
    pub fn uses(self) -> Uses
        ensures { uses_of result ≡ (call_of (call_number self)).uses }
    {
        match self {
            Call::Open | Call::Close | Call::Trim | Call::Fill => Uses::DomainOnly,
            Call::Map | Call::Unmap | Call::Path => Uses::OneFrame,
            Call::MapRun | Call::UnmapRun => Uses::FrameAndCount,
        }
    }

    // Does it open the domain, and so asks 10 and not 11?
    pub fn opens(self) -> bool
        ensures { result ≡ (call_of (call_number self)).opens }
    {
        self == Call::Open
    }
}
