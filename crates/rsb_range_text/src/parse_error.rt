//! Why text could not be read.

ghost use Rattle.std.specs.Prelude.{◌≡◌, alloc_error};
ghost use Rattle.rsb_range_text.specs.declared.parse_error.ParseError.TheVariants.{NoMemory};

use std::alloc::{AllocError, AllocFailed};
use std::error::Error;
use std::fmt;

/// The reason why text could not be read. Not in range-set-blaze.
#[derive(Clone, Copy, Debug, PartialEq, Eq)]
pub enum ParseError {
    /// An allocation failed.
    NoMemory(AllocError),
    /// The position of the first unexpected byte, counted from 0. If the text ends too early, this
    /// is the length of the text. If a number is out of range for the type, it is the position of
    /// the first digit that makes it so.
    Unexpected(usize),
}

impl fmt::Display for ParseError {
    fn fmt<W: fmt::Write>(&self, f: &mut fmt::Formatter<W>) -> fmt::Result {
        match self {
            ParseError::NoMemory(_) => write!(f, "no memory"),
            ParseError::Unexpected(place) => write!(f, "unexpected text at byte {place}"),
        }
    }
}

impl Error for ParseError {}

impl From<AllocError> for ParseError {
    ghost from_gives = { λ error parsed. parsed ≡ NoMemory error };

    fn from(error: AllocError) -> ParseError {
        ParseError::NoMemory(error)
    }
}

impl<T: Drop> From<AllocFailed<T>> for ParseError {
    ghost from_gives = { λ _ parsed. parsed ≡ NoMemory alloc_error };

    fn from(_error: AllocFailed<T>) -> ParseError {
        ParseError::NoMemory(AllocError)
    }
}
