//! The union of two streams.

ghost use Rattle.rsb_streams.specs.Results.{MakesUnionUndrawn};
ghost use Rattle.rsb_streams.specs.laws.Result.{union-disjoint};
ghost use Rattle.rsb_streams.specs.laws.Stream.{canonical_stream-starts, drawn-itself};
ghost use Rattle.rsb_streams.specs.Union.{union_row};

use crate::draw::Draw;
use crate::merge::Merge;
use crate::sorted_disjoint::{DrawDisjoint, SortedDisjoint, SortedStarts};
use crate::union_iter::UnionIter;
use rsb_integer::Integer;
use std::iter::FusedIterator;
use std::ops::RangeInclusive;

/// The values in either of two streams. It looks ahead by at most one range in each stream. Every
/// other range that it has drawn lies within the ranges that it has returned. A range drawn ahead
/// starts past the last returned range, with a gap between. (`Union` in range-set-blaze.)
#[derive(Clone, Debug, Drop)]
pub struct Union<T, L, R> {
    iter: UnionIter<T, Merge<T, L, R>>,
}

impl<T: Integer, L: DrawDisjoint<T>, R: DrawDisjoint<T>> From<(L, R)> for Union<T, L, R> {
    // Makes the union of two ready streams. Draws nothing yet.
    ghost from_gives = { λ streams result. L.can_draw streams.0 → R.can_draw streams.1
        → MakesUnionUndrawn T.Integer.own L.Draw R.Draw ⟦<Union<T, L, R> as Draw<T>>⟧
        streams.0 streams.1 result };

    fn from(streams: (L, R)) -> Self {
        Union {
            iter: UnionIter::from(streams),
        }
    }
}

impl<T: Integer, L: Draw<T>, R: Draw<T>> Iterator for Union<T, L, R> {
    type Item = RangeInclusive<T>;

    ghost can_next = { (union_row T.Integer.own L.Draw R.Draw).can_draw };

    ghost next_gives = { (union_row T.Integer.own L.Draw R.Draw).draw_gives };

    ghost remaining = { (union_row T.Integer.own L.Draw R.Draw).draws_left };

    fn next(&mut self) -> Option<RangeInclusive<T>> {
        self.iter.next()
    }
}

impl<T: Integer, L: Draw<T>, R: Draw<T>> FusedIterator for Union<T, L, R> {}

impl<T: Integer, L: Draw<T>, R: Draw<T>> Draw<T> for Union<T, L, R> {
    ghost can_draw = { ⟦<Union<T, L, R> as Iterator>⟧.can_next };

    ghost draw_gives = { ⟦<Union<T, L, R> as Iterator>⟧.next_gives };

    ghost draws_left = { ⟦<Union<T, L, R> as Iterator>⟧.remaining };

    ghost may_give = { (union_row T.Integer.own L.Draw R.Draw).may_give };

    fn draw(&mut self) -> Option<RangeInclusive<T>> {
        self.next()
    }

    ghost answers = { λ s t item gives. gives.answers };

    ghost sorted = { λ s ready. canonical_stream-starts T.value_count _ _
        (union-disjoint T.Integer.own ⟦<L as Draw<T>>⟧ ⟦<R as Draw<T>>⟧ L.sorted R.sorted
        s ready) };
}

impl<T: Integer, L: Draw<T>, R: Draw<T>> SortedStarts<T> for Union<T, L, R> {
    ghost drawn = { drawn-itself };
}

impl<T: Integer, L: Draw<T>, R: Draw<T>> DrawDisjoint<T> for Union<T, L, R> {
    ghost canonical = { λ s ready.
        (union-disjoint T.Integer.own ⟦<L as Draw<T>>⟧ ⟦<R as Draw<T>>⟧ L.sorted R.sorted
        s ready).all };
}

impl<T: Integer, L: Draw<T>, R: Draw<T>> SortedDisjoint<T> for Union<T, L, R> {}
