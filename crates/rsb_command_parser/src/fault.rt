//! Why the program exits with a status other than 0 (docs/DECISIONS.md, failures-unstated).

ghost use Rattle.std.specs.Prelude.{◌≡◌, Some};
ghost use Rattle.rsb_command_parser.specs.declared.fault.Fault.TheVariants.{NoMemory};
ghost use Rattle.rsb_command_parser.specs.Fault.{fault_line, status_of};

use std::alloc::{AllocError, AllocFailed};
use std::error::Error;
use std::fmt;

/// The first fault that was encountered.
#[derive(Clone, Copy, Debug, PartialEq, Eq)]
pub enum Fault {
    /// A line has words but is not a command. The number is that of the first such line, counted
    /// from 1.
    BadLine(u64),
    /// An allocation failed.
    NoMemory,
    /// A read or a write failed, or the input is too long. It is too long if it has 2^64 lines or
    /// more, or has not ended after 2^64 - 1 reads.
    Io,
}

impl Fault {
    /// Returns the exit status of the fault: 2, 3 or 4.
    pub fn status(&self) -> u8
        ensures { result ≡ status_of self.now }
    {
        match self {
            Fault::BadLine(_) => 2,
            Fault::NoMemory => 3,
            Fault::Io => 4,
        }
    }
}

impl fmt::Display for Fault {
    ghost output = { λ fault. Some (fault_line fault) };

    fn fmt<W: fmt::Write>(&self, f: &mut fmt::Formatter<W>) -> fmt::Result {
        match self {
            Fault::BadLine(number) => write!(f, "bad line {number}"),
            Fault::NoMemory => write!(f, "no memory"),
            Fault::Io => write!(f, "read or write failed"),
        }
    }
}

impl Error for Fault {}

impl From<AllocError> for Fault {
    ghost from_gives = { λ _ fault. fault ≡ NoMemory };

    fn from(_error: AllocError) -> Fault {
        Fault::NoMemory
    }
}

impl<T: Drop> From<AllocFailed<T>> for Fault {
    ghost from_gives = { λ _ fault. fault ≡ NoMemory };

    fn from(_error: AllocFailed<T>) -> Fault {
        Fault::NoMemory
    }
}
