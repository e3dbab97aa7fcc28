// Written by tools/c/narrow from src/u64_sets/run.rt.
//! Runs of numbers.

ghost use Rattle.std.specs.Prelude.{◌≡◌};
ghost use Rattle.rsb_integer.specs.Rank.{interval_of};
ghost use Rattle.rsb_integer.specs.Runs.{from_to, HasRanks};

use std::ops::RangeInclusive;

/// A run or a gap, both ends included.
#[derive(Drop)]
pub struct Run {
    pub first: u128,
    pub last: u128,
}

impl Run {
    /// Returns the run from the start of a range to its end.
    pub(crate) fn of(range: RangeInclusive<u128>) -> Run
        requires { HasRanks (interval_of (λ x. x) range) }
        ensures { interval_of (λ x. x) range ≡ from_to result.first result.last }
    {
        Run {
            first: *range.start(),
            last: *range.end(),
        }
    }
}
