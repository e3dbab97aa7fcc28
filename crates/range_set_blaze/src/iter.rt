//! The elements of a stream of ranges, one after the other.

ghost use Rattle.std.specs.Iterator.{UpTo};
ghost use Rattle.std.specs.Iterator.SizeHint.{IsWithinCount};
ghost use Rattle.std.specs.Prelude.{IfSome};
ghost use Rattle.range_set_blaze.specs.BothEnds.{
  elements_left,
  ranges_left,
  ElementsReady,
  ElementsReadyBack,
  GivesGreatest,
  GivesLeast,
  IsWhole,
};

use rsb_integer::Integer;
use rsb_streams::{Draw, SortedDisjoint};
use std::iter::FusedIterator;
use std::ops::RangeInclusive;

/// An iterator over the elements of a stream of ranges, in ascending order. It is double-ended if
/// the stream is. (`Iter` in range-set-blaze.)
#[derive(Clone, Debug, Drop)]
pub struct Iter<T, I> {
    pub(crate) ranges: I,
    // Whether the stream has ended. If so, it is not called again.
    pub(crate) done: bool,
    // What is left of the ranges last taken from the front and from the back.
    pub(crate) front: RangeInclusive<T>,
    pub(crate) back: RangeInclusive<T>,
}

impl<T: Integer, I> Iter<T, I> {
    // Returns the elements of a stream. Draws nothing yet.
    pub(crate) fn over(ranges: I) -> Self
        ensures { IsWhole T.rank ranges result }
    {
        Iter {
            ranges,
            done: false,
            front: T::exhausted_range(),
            back: T::exhausted_range(),
        }
    }
}

impl<T: Integer, I: SortedDisjoint<T>> Iterator for Iter<T, I> {
    type Item = T;

    ghost can_next = { ElementsReady T.rank T.value_count I.can_draw I.may_give };

    ghost next_gives = { GivesLeast T.rank T.value_count I.can_draw I.may_give };

    ghost remaining = { elements_left T.rank T.value_count I.draws_left };

    fn next(&mut self) -> Option<T> {
        if let Some(first) = T::range_next(&mut self.front) {
            return Some(first);
        }
        if self.done {
            return T::range_next(&mut self.back);
        }
        let Some(range) = self.ranges.draw() else {
            self.done = true;
            return T::range_next(&mut self.back);
        };
        self.front = range;
        T::range_next(&mut self.front)
    }

    // Each range still to come has at least one element.
    fn size_hint(&self) -> (usize, Option<usize>)
        ensures lower { IsWithinCount result.0
            (elements_left T.rank T.value_count I.draws_left self.now) }
        ensures upper { IfSome result.1
            (UpTo (elements_left T.rank T.value_count I.draws_left self.now)) }
        ensures ranges { IsWithinCount result.0 (ranges_left I.draws_left self.now) }
    {
        if self.done {
            return (0, None);
        }
        (self.ranges.size_hint().0, None)
    }
}

impl<T: Integer, I: SortedDisjoint<T>> FusedIterator for Iter<T, I> {}

impl<T: Integer, I: SortedDisjoint<T> + DoubleEndedIterator> DoubleEndedIterator for Iter<T, I> {
    ghost can_next_back = { ElementsReadyBack T.rank T.value_count I.can_draw I.may_give
        I.can_next_back I.next_back_gives };

    ghost next_back_gives = { GivesGreatest T.rank T.value_count I.can_draw I.may_give };

    fn next_back(&mut self) -> Option<T> {
        if let Some(last) = T::range_next_back(&mut self.back) {
            return Some(last);
        }
        if self.done {
            return T::range_next_back(&mut self.front);
        }
        let Some(range) = self.ranges.next_back() else {
            self.done = true;
            return T::range_next_back(&mut self.front);
        };
        self.back = range;
        T::range_next_back(&mut self.back)
    }
}
