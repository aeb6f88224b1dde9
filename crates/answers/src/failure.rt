// What ends the program early, in the words of its message.
use crate::sizes::SizesError;
use lines::input::InputError;
use lines::reading::Fault;
use std::error::Error;
use std::{fmt, io};

#[derive(Clone, Copy, Debug)]
pub enum Failure {
    Sizes(SizesError),
    Input(InputError),
    Refused(batch::Refusal),
    Output(io::Error),
}

impl fmt::Display for Failure {
    fn fmt<W: fmt::Write>(&self, f: &mut fmt::Formatter<W>) -> fmt::Result {
        match self {
            Failure::Sizes(error) => write!(f, "{error}"),
            Failure::Input(InputError::Faulty(Fault::TooMany)) => {
                write!(f, "line 65537: more than 65536 requests")
            }
            Failure::Input(error) => write!(f, "{error}"),
            Failure::Refused(refusal) => {
                let number = u64::from(*refusal);
                write!(f, "the batch was refused: {number}")
            }
            Failure::Output(error) => write!(f, "standard output: {error}"),
        }
    }
}

impl Error for Failure {}

impl From<SizesError> for Failure {
    fn from(error: SizesError) -> Failure {
        Failure::Sizes(error)
    }
}

impl From<InputError> for Failure {
    fn from(error: InputError) -> Failure {
        Failure::Input(error)
    }
}

impl From<batch::Refusal> for Failure {
    fn from(refusal: batch::Refusal) -> Failure {
        Failure::Refused(refusal)
    }
}
