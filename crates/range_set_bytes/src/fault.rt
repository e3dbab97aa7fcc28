//! Why bytes could not be read as a set.

ghost use Rattle.std.specs.Prelude.{◌≡◌, alloc_error};
ghost use Rattle.range_set_bytes.specs.declared.fault.ReadError.TheVariants.{Invalid, NoMemory};

use std::alloc::{AllocError, AllocFailed};
use std::error::Error;
use std::fmt;

/// What is wrong with a byte.
#[derive(Clone, Copy, Debug, PartialEq, Eq)]
pub enum Reason {
    /// It is not that of the magic number.
    NotMagic,
    /// The version of the format is not 1.
    OtherVersion,
    /// The number of bits is not that of the element type.
    OtherWidth,
    /// There is no byte: the bytes end before the last run does.
    CutShort,
    /// It ends a number that has a shorter form.
    NotShortest,
    /// The gap of a run is 0, so the run touches the one before.
    Touching,
    /// The number is too large: the runs would go past the greatest value of the type, or there
    /// would be 2^64 or more.
    PastGreatest,
    /// It comes after the last run.
    TooLong,
}

/// The first byte that is wrong.
#[derive(Clone, Copy, Debug, PartialEq, Eq)]
pub struct Fault {
    /// The position of the byte, counted from 0. If the bytes are cut short, this is their length.
    pub place: usize,
    /// What is wrong with it.
    pub reason: Reason,
}

/// The reason why bytes could not be read.
#[derive(Clone, Copy, Debug, PartialEq, Eq)]
pub enum ReadError {
    /// An allocation failed.
    NoMemory(AllocError),
    /// The bytes are not those of a set.
    Invalid(Fault),
}

impl fmt::Display for Reason {
    fn fmt<W: fmt::Write>(&self, f: &mut fmt::Formatter<W>) -> fmt::Result {
        f.write_str(match self {
            Reason::NotMagic => "not the magic number of a set",
            Reason::OtherVersion => "another version of the format",
            Reason::OtherWidth => "another number of bits",
            Reason::CutShort => "the bytes are cut short",
            Reason::NotShortest => "a number that is not in its shortest form",
            Reason::Touching => "a run that touches the one before",
            Reason::PastGreatest => "a run past the greatest value",
            Reason::TooLong => "more bytes than those of the set",
        })
    }
}

impl fmt::Display for ReadError {
    fn fmt<W: fmt::Write>(&self, f: &mut fmt::Formatter<W>) -> fmt::Result {
        match self {
            ReadError::NoMemory(_) => write!(f, "no memory"),
            ReadError::Invalid(fault) => {
                let (place, reason) = (fault.place, fault.reason);
                write!(f, "byte {place}: {reason}")
            }
        }
    }
}

impl Error for ReadError {}

impl From<Fault> for ReadError {
    ghost from_gives = { λ fault error. error ≡ Invalid fault };

    fn from(fault: Fault) -> ReadError {
        ReadError::Invalid(fault)
    }
}

impl From<AllocError> for ReadError {
    ghost from_gives = { λ error read. read ≡ NoMemory error };

    fn from(error: AllocError) -> ReadError {
        ReadError::NoMemory(error)
    }
}

impl<T: Drop> From<AllocFailed<T>> for ReadError {
    ghost from_gives = { λ _ read. read ≡ NoMemory alloc_error };

    fn from(_error: AllocFailed<T>) -> ReadError {
        ReadError::NoMemory(AllocError)
    }
}
