//! The runs of a stream and its gaps, in one iterator.

ghost use Rattle.std.specs.Prelude.{◌≡◌, Some};
ghost use Rattle.rsb_streams.specs.FillGapsIter.{fill_can_next, fill_remaining, FillSteps};
ghost use Rattle.rsb_streams.specs.PutBack.{IsFresh};

use crate::draw::Draw;
use crate::put_back::PutBack;
use rsb_integer::Integer;
use std::iter::FusedIterator;
use std::ops::RangeInclusive;

/// All runs of a stream with `true` and all its gaps with `false`, from the least value to the
/// greatest. (`FillGapsIter` in range-set-blaze.)
#[derive(Clone, Debug, Drop)]
pub struct FillGapsIter<T, I> {
    iter: PutBack<T, I>,
    // The start of the next run or gap, or `None` after one that reached the greatest value.
    start: Option<T>,
}

impl<T, I> FillGapsIter<T, I> {
    /// Returns the runs and gaps of a stream, starting at a value. Draws nothing yet.
    pub(crate) fn over(iter: I, start: T) -> Self
        ensures iter { IsFresh iter result.iter }
        ensures start { result.start ≡ Some start }
    {
        FillGapsIter {
            iter: PutBack::new(iter),
            start: Some(start),
        }
    }
}

impl<T: Integer, I: Draw<T>> Iterator for FillGapsIter<T, I> {
    type Item = (RangeInclusive<T>, bool);

    ghost can_next = { fill_can_next T.Integer.own I.Draw };

    ghost next_gives = { FillSteps T.Integer.own I.Draw };

    ghost remaining = { fill_remaining T.Integer.own };

    fn next(&mut self) -> Option<(RangeInclusive<T>, bool)> {
        let start = self.start?;
        let Some(range) = self.iter.draw() else {
            self.start = None;
            return Some((start..=T::max_value(), false));
        };
        let next = *range.start();
        if start < next {
            self.iter.put_back(range);
            self.start = Some(next);
            return Some((start..=next.sub_one(), false));
        }
        self.start = range.end().checked_add_one();
        Some((range, true))
    }
}

impl<T: Integer, I: Draw<T>> FusedIterator for FillGapsIter<T, I> {}
