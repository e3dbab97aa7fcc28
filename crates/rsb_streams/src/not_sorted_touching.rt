//! The error for a list of ranges that does not ascend, where ranges are allowed to touch.

use std::alloc::{Allocator, Global};
use std::error::Error;
use std::fmt;
use std::ops::RangeInclusive;

/// A list of ranges in which some range is empty, or does not start past the end of the one before,
/// with the position of the first such range, counted from 0. Not in range-set-blaze.
#[derive(Debug, Drop, PartialEq, Eq)]
pub struct NotSortedTouching<T, A: Allocator = Global> {
    /// The first bad position, counted from 0.
    pub position: usize,
    /// The list, as it was passed.
    pub ranges: Vec<RangeInclusive<T>, A>,
}

impl<T, A: Allocator> fmt::Display for NotSortedTouching<T, A> {
    fn fmt<W: fmt::Write>(&self, f: &mut fmt::Formatter<W>) -> fmt::Result {
        write!(
            f,
            "the range at position {} is empty, or does not lie past the one before it",
            self.position
        )
    }
}

impl<T: fmt::Debug + Drop, A: Allocator + fmt::Debug> Error for NotSortedTouching<T, A> {}
