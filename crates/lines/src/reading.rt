// Request lines: four decimal numbers to a line, spaces between them. Spaces before and after them say nothing.
// A line ends at its line end or at the end of the text. The numbers go into a slice of words, four to a request.
ghost use Rattle.std.specs.Prelude.{◌≡◌, ◌+◌, ◌/◌, ◌<◌, ◌≤◌, length};
ghost use Rattle.lines.specs.Reading.{after, Within, digit_read, end_read, gap_read, here_after, read_byte, read_bytes, words_after};

use crate::decimal::with_digit;
use std::error::Error;
use std::fmt;

// How far a text has been read.
#[derive(Clone, Copy)]
pub struct Place {
    // Lines that have ended. Each is a request.
    pub requests: usize,
    // Numbers of this line that have ended: 0 to 4, or 5 for more, which the line's end refuses. An Option would say no more.
    pub here: usize,
    // The digits since the last gap, as a number.
    pub value: u64,
    // The last byte, and a line end at the start.
    pub last: u8,
}

// Why a text is not requests.
#[derive(Clone, Copy, Debug, PartialEq, Eq)]
pub enum Fault {
    // This line is not four decimal numbers below 2^64.
    Malformed(usize),
    // There is no room for another request.
    TooMany,
}

impl fmt::Display for Fault {
    fn fmt<W: fmt::Write>(&self, f: &mut fmt::Formatter<W>) -> fmt::Result {
        match self {
            Fault::Malformed(line) => {
                write!(f, "line {line}: not four decimal numbers below 2^64")
            }
            Fault::TooMany => write!(f, "more requests than there is room for"),
        }
    }
}

impl Error for Fault {}

pub fn start() -> Place
    ensures { result.requests ≡ 0 }
{
    Place {
        requests: 0,
        here: 0,
        value: 0,
        last: b'\n',
    }
}

// A digit, on the given line.
#[tactic(auto, unfolding(crate::specs::Reading::grown))]
fn digit_read(p: Place, line: usize, byte: u8) -> Result<Place, Fault>
    ensures { result ≡ digit_read p line byte }
{
    let value = with_digit(p.value, byte).ok_or(Fault::Malformed(line))?;
    Ok(Place {
        value,
        last: byte,
        ..p
    })
}

// No digit: a number that stands before it has ended and is kept. The answer is how many the line has.
#[tactic(auto, unfolding(crate::specs::Reading::here_after, crate::specs::Reading::words_after))]
fn end_number(p: Place, words: &mut [u64]) -> usize
    requires { p.requests < length words.old / 4 }
    ensures value { result ≡ here_after p }
    ensures words_after { words.new ≡ words_after p words.old }
{
    if !p.last.is_ascii_digit() {
        return p.here;
    }
    if 4 <= p.here {
        return 5;
    }
    words[4 * p.requests + p.here] = p.value;
    p.here + 1
}

// A byte between numbers, on the given line, after `here` of them.
#[tactic(auto, unfolding(crate::specs::Reading::gap_read))]
fn gap_read(line: usize, here: usize, requests: usize, byte: u8) -> Result<Place, Fault>
    ensures { result ≡ gap_read line here requests byte }
{
    match (byte, here) {
        (b' ', _) => Ok(Place {
            requests,
            here,
            value: 0,
            last: byte,
        }),
        (b'\n', 4) => Ok(Place {
            requests: line,
            here: 0,
            value: 0,
            last: byte,
        }),
        _ => Err(Fault::Malformed(line)),
    }
}

// One byte more.
#[tactic(auto, unfolding(crate::specs::Reading::read_byte, crate::specs::Reading::gap_read, crate::specs::Reading::grown))]
fn read_byte(p: Place, byte: u8, words: &mut [u64]) -> Result<Place, Fault>
    requires { p.requests ≤ length words.old / 4 }
    ensures words_after { after result words.new ≡ read_byte p byte words.old }
    ensures within { Within result (length words.old) }
{
    if words.len() / 4 <= p.requests {
        return Err(Fault::TooMany);
    }
    let line = p.requests + 1;
    if byte.is_ascii_digit() {
        return digit_read(p, line, byte);
    }
    let here = end_number(p, words);
    gap_read(line, here, p.requests, byte)
}

// A piece of text more.
#[tactic(auto, using(crate::proofs::ReadingLaws::goes_on, crate::proofs::ReadingLaws::at_end))]
pub fn read_bytes(p: Place, text: &[u8], words: &mut [u64]) -> Result<Place, Fault>
    requires { p.requests ≤ length words.old / 4 }
    ensures words_after { after result words.new ≡ read_bytes p text.now words.old }
    ensures within { Within result (length words.old) }
{
    let mut at = p;
    for byte in text {
        at = read_byte(at, *byte, words)?;
    }
    Ok(at)
}

// The end of the text: a line without a line end has ended.
#[tactic(auto, unfolding(crate::specs::Reading::end_read))]
pub fn read_end(p: Place, words: &mut [u64]) -> Result<Place, Fault>
    requires { p.requests ≤ length words.old / 4 }
    ensures words_after { after result words.new ≡ end_read p words.old }
    ensures within { Within result (length words.old) }
{
    if p.last == b'\n' {
        return Ok(p);
    }
    read_byte(p, b'\n', words)
}
