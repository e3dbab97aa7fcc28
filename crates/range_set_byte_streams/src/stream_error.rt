//! Why a set could not be read from a stream.

ghost use Rattle.std.specs.Prelude.{◌≡◌};
ghost use Rattle.range_set_byte_streams.specs.declared.stream_error.StreamError.TheVariants.{
  Invalid,
  Io,
  NoMemory,
};

use range_set_bytes::{Fault, ReadError};
use std::alloc::AllocError;
use std::error::Error;
use std::{fmt, io};

/// The reason why a set could not be read from a stream.
#[derive(Debug, Drop)]
pub enum StreamError {
    /// A read failed, or the bytes of the set are 2^64 or more.
    Io(io::Error),
    /// An allocation failed.
    NoMemory(AllocError),
    /// The bytes are not those of a set. The position of the first wrong byte counts from where the
    /// reader was before.
    Invalid(Fault),
}

impl fmt::Display for StreamError {
    fn fmt<W: fmt::Write>(&self, f: &mut fmt::Formatter<W>) -> fmt::Result {
        match self {
            StreamError::Io(error) => write!(f, "{error}"),
            StreamError::NoMemory(error) => write!(f, "{}", ReadError::NoMemory(*error)),
            StreamError::Invalid(fault) => write!(f, "{}", ReadError::Invalid(*fault)),
        }
    }
}

impl Error for StreamError {}

impl From<io::Error> for StreamError {
    ghost from_gives = { λ error told. told ≡ Io error };

    fn from(error: io::Error) -> StreamError {
        StreamError::Io(error)
    }
}

impl From<AllocError> for StreamError {
    ghost from_gives = { λ error told. told ≡ NoMemory error };

    fn from(error: AllocError) -> StreamError {
        StreamError::NoMemory(error)
    }
}

impl From<Fault> for StreamError {
    ghost from_gives = { λ fault told. told ≡ Invalid fault };

    fn from(fault: Fault) -> StreamError {
        StreamError::Invalid(fault)
    }
}
