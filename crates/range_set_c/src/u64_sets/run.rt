//! Runs and numbers of members, as C sees them.

ghost use Rattle.std.specs.Prelude.{◌≡◌, ◌+◌, ◌*◌, ◌^◌};
ghost use Rattle.rsb_integer.specs.Rank.{interval_of};
ghost use Rattle.rsb_integer.specs.Runs.{from_to, HasRanks};

use std::ops::RangeInclusive;

/// A run or a gap, both ends included.
#[repr(C)]
#[derive(Drop)]
pub struct Run {
    pub first: u64,
    pub last: u64,
}

impl Run {
    /// Returns the run from the start of a range to its end.
    pub(crate) fn of(range: RangeInclusive<u64>) -> Run
        requires { HasRanks (interval_of (λ x. x) range) }
        ensures { interval_of (λ x. x) range ≡ from_to result.first result.last }
    {
        Run {
            first: *range.start(),
            last: *range.end(),
        }
    }
}

/// The number of members, `low + 2^64 * high`.
#[repr(C)]
#[derive(Drop)]
pub struct Count {
    pub low: u64,
    pub high: u64,
}

impl Count {
    /// Splits a number of members into two words.
    pub(crate) fn of(len: u128) -> Count
        ensures { result.low + 2 ^ 64 * result.high ≡ len }
    {
        Count {
            low: (len % (1 << 64)) as u64,
            high: (len / (1 << 64)) as u64,
        }
    }
}
