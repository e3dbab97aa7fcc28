//! The difference of two streams.

ghost use Rattle.rsb_streams.specs.Difference.{difference_row};
ghost use Rattle.rsb_streams.specs.laws.Result.{difference-disjoint};
ghost use Rattle.rsb_streams.specs.Results.{MakesDifference};
ghost use Rattle.rsb_streams.specs.laws.Stream.{canonical_stream-starts, drawn-itself};

use crate::draw::Draw;
use crate::merge::Merge;
use crate::not_iter::NotIter;
use crate::sorted_disjoint::{DrawDisjoint, SortedDisjoint, SortedStarts};
use crate::union_iter::UnionIter;
use rsb_integer::Integer;
use std::iter::FusedIterator;
use std::ops::RangeInclusive;

/// The values in the left stream that are not in the right one. (`Difference` in range-set-blaze.)
#[derive(Clone, Debug, Drop)]
pub struct Difference<T, L, R> {
    // The values that are neither outside the left stream nor in the right one.
    iter: NotIter<T, UnionIter<T, Merge<T, NotIter<T, L>, R>>>,
}

impl<T: Integer, L: DrawDisjoint<T>, R: DrawDisjoint<T>> From<(L, R)> for Difference<T, L, R> {
    // Makes the difference of two ready streams. Draws nothing yet.
    ghost from_gives = { λ streams result. L.can_draw streams.0 → R.can_draw streams.1
        → MakesDifference T.Integer.own L.Draw R.Draw ⟦<Difference<T, L, R> as Draw<T>>⟧
        streams.0 streams.1 result };

    fn from(streams: (L, R)) -> Self {
        let (left, right) = streams;
        let gaps = NotIter::from(left);
        let outside = UnionIter::from((gaps, right));
        Difference {
            iter: NotIter::from(outside),
        }
    }
}

impl<T: Integer, L: Draw<T>, R: Draw<T>> Iterator for Difference<T, L, R> {
    type Item = RangeInclusive<T>;

    ghost can_next = { (difference_row T.Integer.own L.Draw R.Draw).can_draw };

    ghost next_gives = { (difference_row T.Integer.own L.Draw R.Draw).draw_gives };

    ghost remaining = { (difference_row T.Integer.own L.Draw R.Draw).draws_left };

    fn next(&mut self) -> Option<RangeInclusive<T>> {
        self.iter.next()
    }
}

impl<T: Integer, L: Draw<T>, R: Draw<T>> FusedIterator for Difference<T, L, R> {}

impl<T: Integer, L: Draw<T>, R: Draw<T>> Draw<T> for Difference<T, L, R> {
    ghost can_draw = { ⟦<Difference<T, L, R> as Iterator>⟧.can_next };

    ghost draw_gives = { ⟦<Difference<T, L, R> as Iterator>⟧.next_gives };

    ghost draws_left = { ⟦<Difference<T, L, R> as Iterator>⟧.remaining };

    ghost may_give = { (difference_row T.Integer.own L.Draw R.Draw).may_give };

    fn draw(&mut self) -> Option<RangeInclusive<T>> {
        self.next()
    }

    ghost answers = { λ s t item gives. gives.answers };

    ghost sorted = { λ s ready. canonical_stream-starts T.value_count _ _
        (difference-disjoint T.Integer.own ⟦<L as Draw<T>>⟧ ⟦<R as Draw<T>>⟧ L.sorted R.sorted
        s ready) };
}

impl<T: Integer, L: Draw<T>, R: Draw<T>> SortedStarts<T> for Difference<T, L, R> {
    ghost drawn = { drawn-itself };
}

impl<T: Integer, L: Draw<T>, R: Draw<T>> DrawDisjoint<T> for Difference<T, L, R> {
    ghost canonical = { λ s ready.
        (difference-disjoint T.Integer.own ⟦<L as Draw<T>>⟧ ⟦<R as Draw<T>>⟧ L.sorted R.sorted
        s ready).all };
}

impl<T: Integer, L: Draw<T>, R: Draw<T>> SortedDisjoint<T> for Difference<T, L, R> {}
