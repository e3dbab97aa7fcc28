//! Why the lines of a text could not all be kept.

ghost use Rattle.std.specs.Prelude.{◌↔◌, IsTrue};
ghost use Rattle.ip_matches.specs.MatchFault.{IsReadFault, IsWriteFault};

use std::io::{self, ErrorKind};

/// The fault that ended the work on a text.
#[derive(Debug, Drop)]
pub enum MatchFault {
    /// An allocation failed.
    NoMemory,
    /// A read failed, or 2^64 lines or more were kept.
    NotRead(io::Error),
    /// A write failed.
    NotWritten(io::Error),
}

impl MatchFault {
    /// Returns whether a write failed.
    pub fn is_of_write(&self) -> bool
        ensures { IsTrue result ↔ IsWriteFault self.now }
    {
        matches!(self, MatchFault::NotWritten(_))
    }
}

/// A read that failed.
impl From<io::Error> for MatchFault {
    ghost from_gives = { λ _ fault. IsReadFault fault };

    fn from(error: io::Error) -> MatchFault {
        if error.kind() == ErrorKind::OutOfMemory {
            return MatchFault::NoMemory;
        }
        MatchFault::NotRead(error)
    }
}
