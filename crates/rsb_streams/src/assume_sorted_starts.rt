//! Streams of ranges that are known to be sorted by start.

ghost use Rattle.rsb_streams.specs.Calls.{gives_as, GivesOnly};
ghost use Rattle.rsb_streams.specs.laws.Calls.{known-answered, known-sorted};
ghost use Rattle.rsb_streams.specs.AssumeSortedStarts.{assume_sorted_starts};
ghost use Rattle.rsb_streams.specs.Stream.{◌⊆◌, HasSortedStarts};
ghost use Rattle.rsb_streams.specs.laws.Stream.{drawn-itself};

use crate::draw::Draw;
use crate::sorted_disjoint::SortedStarts;
use rsb_integer::Integer;
use std::iter::{Fuse, FusedIterator};
use std::marker::PhantomData;
use std::ops::RangeInclusive;

/// The ranges of an iterator that are known to be sorted by start. (`AssumeSortedStarts` in
/// range-set-blaze.)
#[derive(Clone, Debug, Drop)]
pub struct AssumeSortedStarts<T, I> {
    iter: Fuse<I>,
    of: PhantomData<T>,
}

impl<T: Integer, I: Iterator> AssumeSortedStarts<T, I> {
    /// Returns the ranges of `iter` as a stream. Requires that `iter` converts into an iterator
    /// that ends and whose `next` can be called. Its ranges must be non-empty and sorted by start.
    /// Does not allocate. (`AssumeSortedStarts::new`.)
    pub fn new<J: IntoIterator<Item = RangeInclusive<T>, IntoIter = I>>(iter: J) -> Self
        requires { GivesOnly T.rank ⟦<I as Iterator>⟧ J.into_iter_gives
            (HasSortedStarts T.value_count) iter }
        ensures ready { ⟦<AssumeSortedStarts<T, I> as Draw<T>>⟧.can_draw result }
        ensures gives { ⟦<AssumeSortedStarts<T, I> as Draw<T>>⟧.may_give result
            ⊆ gives_as T.rank ⟦<I as Iterator>⟧ J.into_iter_gives iter }
    {
        AssumeSortedStarts {
            iter: iter.into_iter().fuse(),
            of: PhantomData,
        }
    }
}

impl<T: Integer, I: Iterator<Item = RangeInclusive<T>>> Iterator for AssumeSortedStarts<T, I> {
    type Item = RangeInclusive<T>;

    ghost can_next = { (assume_sorted_starts T.Integer.own I.Iterator).can_draw };

    ghost next_gives = { (assume_sorted_starts T.Integer.own I.Iterator).draw_gives };

    ghost remaining = { (assume_sorted_starts T.Integer.own I.Iterator).draws_left };

    fn next(&mut self) -> Option<RangeInclusive<T>> {
        self.iter.next()
    }
}

impl<T: Integer, I: Iterator<Item = RangeInclusive<T>>> FusedIterator
    for AssumeSortedStarts<T, I> {}

impl<T: Integer, I: Iterator<Item = RangeInclusive<T>>> Draw<T> for AssumeSortedStarts<T, I> {
    ghost can_draw = { ⟦<AssumeSortedStarts<T, I> as Iterator>⟧.can_next };

    ghost draw_gives = { ⟦<AssumeSortedStarts<T, I> as Iterator>⟧.next_gives };

    ghost draws_left = { ⟦<AssumeSortedStarts<T, I> as Iterator>⟧.remaining };

    ghost may_give = { (assume_sorted_starts T.Integer.own I.Iterator).may_give };

    fn draw(&mut self) -> Option<RangeInclusive<T>> {
        self.next()
    }

    ghost answers = { λ s t. known-answered T.Integer.own ⟦<I as Iterator>⟧
        (HasSortedStarts T.value_count) s.iter t.iter };

    ghost sorted = { λ s. known-sorted T.Integer.own ⟦<I as Iterator>⟧ s.iter };
}

impl<T: Integer, I: Iterator<Item = RangeInclusive<T>>> SortedStarts<T>
    for AssumeSortedStarts<T, I> {
    ghost drawn = { drawn-itself };
}
