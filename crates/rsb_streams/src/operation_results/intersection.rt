//! The intersection of two streams.

ghost use Rattle.rsb_streams.specs.Intersection.{intersection_row};
ghost use Rattle.rsb_streams.specs.laws.Result.{intersection-disjoint};
ghost use Rattle.rsb_streams.specs.Results.{MakesIntersection};
ghost use Rattle.rsb_streams.specs.laws.Stream.{canonical_stream-starts, drawn-itself};

use crate::draw::Draw;
use crate::merge::Merge;
use crate::not_iter::NotIter;
use crate::sorted_disjoint::{DrawDisjoint, SortedDisjoint, SortedStarts};
use crate::union_iter::UnionIter;
use rsb_integer::Integer;
use std::iter::FusedIterator;
use std::ops::RangeInclusive;

/// The values that are in both streams. (`Intersection` in range-set-blaze.)
#[derive(Clone, Debug, Drop)]
pub struct Intersection<T, L, R> {
    // The values that are outside neither stream.
    iter: NotIter<T, UnionIter<T, Merge<T, NotIter<T, L>, NotIter<T, R>>>>,
}

impl<T: Integer, L: DrawDisjoint<T>, R: DrawDisjoint<T>> From<(L, R)> for Intersection<T, L, R> {
    // Makes the intersection of two ready streams. Draws nothing yet.
    ghost from_gives = { λ streams result. L.can_draw streams.0 → R.can_draw streams.1
        → MakesIntersection T.Integer.own L.Draw R.Draw ⟦<Intersection<T, L, R> as Draw<T>>⟧
        streams.0 streams.1 result };

    fn from(streams: (L, R)) -> Self {
        let (left, right) = streams;
        let gaps = NotIter::from(left);
        let others = NotIter::from(right);
        let left_out = UnionIter::from((gaps, others));
        Intersection {
            iter: NotIter::from(left_out),
        }
    }
}

impl<T: Integer, L: Draw<T>, R: Draw<T>> Iterator for Intersection<T, L, R> {
    type Item = RangeInclusive<T>;

    ghost can_next = { (intersection_row T.Integer.own L.Draw R.Draw).can_draw };

    ghost next_gives = { (intersection_row T.Integer.own L.Draw R.Draw).draw_gives };

    ghost remaining = { (intersection_row T.Integer.own L.Draw R.Draw).draws_left };

    fn next(&mut self) -> Option<RangeInclusive<T>> {
        self.iter.next()
    }
}

impl<T: Integer, L: Draw<T>, R: Draw<T>> FusedIterator for Intersection<T, L, R> {}

impl<T: Integer, L: Draw<T>, R: Draw<T>> Draw<T> for Intersection<T, L, R> {
    ghost can_draw = { ⟦<Intersection<T, L, R> as Iterator>⟧.can_next };

    ghost draw_gives = { ⟦<Intersection<T, L, R> as Iterator>⟧.next_gives };

    ghost draws_left = { ⟦<Intersection<T, L, R> as Iterator>⟧.remaining };

    ghost may_give = { (intersection_row T.Integer.own L.Draw R.Draw).may_give };

    fn draw(&mut self) -> Option<RangeInclusive<T>> {
        self.next()
    }

    ghost answers = { λ s t item gives. gives.answers };

    ghost sorted = { λ s ready. canonical_stream-starts T.value_count _ _
        (intersection-disjoint T.Integer.own ⟦<L as Draw<T>>⟧ ⟦<R as Draw<T>>⟧ L.sorted R.sorted
        s ready) };
}

impl<T: Integer, L: Draw<T>, R: Draw<T>> SortedStarts<T> for Intersection<T, L, R> {
    ghost drawn = { drawn-itself };
}

impl<T: Integer, L: Draw<T>, R: Draw<T>> DrawDisjoint<T> for Intersection<T, L, R> {
    ghost canonical = { λ s ready.
        (intersection-disjoint T.Integer.own ⟦<L as Draw<T>>⟧ ⟦<R as Draw<T>>⟧ L.sorted R.sorted
        s ready).all };
}

impl<T: Integer, L: Draw<T>, R: Draw<T>> SortedDisjoint<T> for Intersection<T, L, R> {}
