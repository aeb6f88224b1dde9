// Request lines from standard input, read to its end in large pieces.
ghost use Rattle.std.specs.Prelude.{◌/◌, ◌≤◌, length};
ghost use Rattle.lines.specs.Input.{CountWithin};

use crate::reading::{Fault, read_bytes, read_end, start};
use std::error::Error;
use std::io::Read;
use std::{fmt, io};

// Why standard input gave no requests.
#[derive(Clone, Copy, Debug)]
pub enum InputError {
    // Its text is not requests, or more than the words have room for.
    Faulty(Fault),
    // A read failed.
    Unreadable(io::Error),
}

impl fmt::Display for InputError {
    fn fmt<W: fmt::Write>(&self, f: &mut fmt::Formatter<W>) -> fmt::Result {
        match self {
            InputError::Faulty(fault) => write!(f, "{fault}"),
            InputError::Unreadable(error) => write!(f, "standard input: {error}"),
        }
    }
}

impl Error for InputError {}

impl From<Fault> for InputError {
    fn from(fault: Fault) -> InputError {
        InputError::Faulty(fault)
    }
}

impl From<io::Error> for InputError {
    fn from(error: io::Error) -> InputError {
        InputError::Unreadable(error)
    }
}

// Reads all requests into words, four to each, and answers how many. A proved loop has to end and nothing says that the input
// does, so its turns are counted to a number that no run comes to.
pub fn read_requests(rt: &impl Input, words: &mut [u64]) -> Result<usize, InputError>
    ensures { CountWithin result (length words.old) }
{
    let mut input = rt.reader();
    let mut text = [0u8; 65536];
    let mut place = start();
    for _ in 0..u64::MAX {
        let n = input.read(&mut text)?;
        if n == 0 {
            return Ok(read_end(place, words)?.requests);
        }
        place = read_bytes(place, &text[..n], words)?;
    }
    Err(io::Error::other("the input has no end").into())
}
