//! Why a list could not be read.

ghost use Rattle.std.specs.Prelude.{◌≡◌};
ghost use Rattle.ip_sets.specs.declared.list.fault.ListFault.TheVariants.{NoMemory};
ghost use Rattle.ip_sets.specs.ListFault.{Reports};

use crate::list::bad_line::BadLine;
use std::alloc::AllocError;
use std::io::{self, ErrorKind};

/// The first fault of a list.
#[derive(Debug, Drop)]
pub enum ListFault {
    /// A line is neither blank nor an address, a block or a range. This is the first such line.
    BadLine(BadLine),
    /// An allocation failed.
    NoMemory,
    /// A read failed, or the list has 2^64 - 1 lines or more.
    Io(io::Error),
}

impl From<AllocError> for ListFault {
    ghost from_gives = { λ _ fault. fault ≡ NoMemory };

    fn from(_error: AllocError) -> ListFault {
        ListFault::NoMemory
    }
}

impl From<io::Error> for ListFault {
    ghost from_gives = { λ error fault. Reports fault error };

    fn from(error: io::Error) -> ListFault {
        if error.kind() == ErrorKind::OutOfMemory {
            return ListFault::NoMemory;
        }
        ListFault::Io(error)
    }
}
