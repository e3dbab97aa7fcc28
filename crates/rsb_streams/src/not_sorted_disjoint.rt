//! The error for a list of ranges that is not canonical.

use std::alloc::{Allocator, Global};
use std::error::Error;
use std::fmt;
use std::ops::RangeInclusive;

/// A list of ranges that is not canonical, with its first bad position, counted from 0. The range
/// there is empty, or starts at most one past the end of the range before. Not in range-set-blaze,
/// which panics.
#[derive(Debug, Drop, PartialEq, Eq)]
pub struct NotSortedDisjoint<T, A: Allocator = Global> {
    /// The first bad position, counted from 0.
    pub position: usize,
    /// The list, as it was passed.
    pub ranges: Vec<RangeInclusive<T>, A>,
}

impl<T, A: Allocator> fmt::Display for NotSortedDisjoint<T, A> {
    fn fmt<W: fmt::Write>(&self, f: &mut fmt::Formatter<W>) -> fmt::Result {
        write!(
            f,
            "the range at position {} is empty, or does not lie past the one before it with a gap",
            self.position
        )
    }
}

impl<T: fmt::Debug + Drop, A: Allocator + fmt::Debug> Error for NotSortedDisjoint<T, A> {}
