//! The events of a sweep over many streams: where ranges start and where they end.

use std::ops::RangeInclusive;

/// A range of an input starts, or one ends. Inputs are numbered from 0.
#[derive(Clone, Debug, Drop, PartialEq, Eq)]
pub enum SweepEvent<T> {
    /// This range of the input starts.
    Start {
        range: RangeInclusive<T>,
        input: usize,
    },
    /// The input's range that started last ends at this value.
    End {
        at: T,
        input: usize,
    },
}
