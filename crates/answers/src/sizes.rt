// The sizes of the state, from the arguments.
ghost use Rattle.answers.specs.Arguments.{Fits, UpTo};

use layout::Sizes;
use lines::decimal::parse;
use std::env::{Env, FillError};
use std::error::Error;
use std::fmt;

// Why the arguments give no sizes.
#[derive(Clone, Copy, Debug, PartialEq, Eq)]
pub enum SizesError {
    Count,
    Treelings,
    Domains,
    Frames,
    TooLarge,
}

impl fmt::Display for SizesError {
    fn fmt<W: fmt::Write>(&self, f: &mut fmt::Formatter<W>) -> fmt::Result {
        match self {
            SizesError::Count => write!(f, "three arguments, T D P, or none"),
            SizesError::Treelings => write!(f, "argument 1, T, is not a number from 1 to 4096"),
            SizesError::Domains => write!(f, "argument 2, D, is not a number from 1 to 4096"),
            SizesError::Frames => write!(f, "argument 3, P, is not a number from 1 to 8388608"),
            SizesError::TooLarge => write!(
                f,
                "arguments 1 to 3: the state would have more than 524288 words"
            ),
        }
    }
}

impl Error for SizesError {}

// Argument i, where it is a number from 1 to most.
fn size(rt: &impl Env, i: usize, most: u64) -> Option<u64>
    ensures { UpTo result most }
{
    let mut text = [0u8; 4096];
    let n = rt.arg(i, &mut text).ok()?;
    parse(&text[..n]).filter(|size| (1..=most).contains(size))
}

fn from_arguments(rt: &impl Env) -> Result<Sizes, SizesError>
    ensures { Fits result }
{
    let treelings = size(rt, 1, 4096).ok_or(SizesError::Treelings)?;
    let domains = size(rt, 2, 4096).ok_or(SizesError::Domains)?;
    let frames = size(rt, 3, 8388608).ok_or(SizesError::Frames)?;
    let sizes = Sizes {
        treelings,
        domains,
        frames,
    };
    if 524288 < sizes.word_count() {
        return Err(SizesError::TooLarge);
    }
    Ok(sizes)
}

// Argument 0 is the program's name.
fn has_argument(rt: &impl Env, i: usize) -> bool {
    !matches!(rt.arg(i, &mut []), Err(FillError::NotPresent))
}

pub fn sizes_asked(rt: &impl Env) -> Result<Sizes, SizesError>
    ensures { Fits result }
{
    if has_argument(rt, 3) && !has_argument(rt, 4) {
        return from_arguments(rt);
    }
    if has_argument(rt, 1) {
        return Err(SizesError::Count);
    }
    Ok(Sizes {
        treelings: 2,
        domains: 2,
        frames: 16,
    })
}
