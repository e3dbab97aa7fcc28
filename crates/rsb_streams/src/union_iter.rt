//! The union of ranges that are sorted by start.

ghost use Rattle.std.specs.Prelude.{◌≡◌};
ghost use Rattle.rsb_streams.specs.PutBack.{IsFresh};
ghost use Rattle.rsb_streams.specs.Results.{MakesUnionIterUndrawn};
ghost use Rattle.rsb_streams.specs.Stream.{◌⊆◌, joined_runs};
ghost use Rattle.rsb_streams.specs.laws.Stream.{canonical_stream-starts, drawn-itself};
ghost use Rattle.rsb_streams.specs.UnionIter.{union_iter};
ghost use Rattle.rsb_streams.specs.laws.UnionIter.{union_iter-disjoint};

use crate::draw::Draw;
use crate::merge::Merge;
use crate::put_back::PutBack;
use crate::sorted_disjoint::{DrawDisjoint, SortedDisjoint, SortedStarts};
use rsb_integer::Integer;
use std::iter::FusedIterator;
use std::ops::RangeInclusive;

/// The ranges of a stream that is sorted by start, joined if they overlap or touch. What it has
/// drawn lies within the ranges that it has returned, except for at most one range that it holds.
/// That one starts past the last returned range, with a gap between. (`UnionIter` in
/// range-set-blaze.)
#[derive(Clone, Debug, Drop)]
pub struct UnionIter<T, SS> {
    iter: PutBack<T, SS>,
}

impl<T, SS> UnionIter<T, SS> {
    /// Returns the union of the ranges of an iterator. Draws nothing yet.
    pub(crate) fn over(iter: SS) -> Self
        ensures { IsFresh iter result.iter }
    {
        UnionIter {
            iter: PutBack::new(iter),
        }
    }

    /// Returns the source that it draws from.
    pub(crate) fn source(&self) -> &SS
        ensures { result.now ≡ self.now.iter.iter }
    {
        self.iter.source()
    }
}

impl<T: Integer, SS: Draw<T>> UnionIter<T, SS> {
    /// Returns the union of the ranges of a ready source. Draws nothing yet. (`UnionIter::new`.)
    pub fn new(iter: SS) -> Self
        requires { SS.can_draw iter }
        ensures ready { ⟦<UnionIter<T, SS> as Draw<T>>⟧.can_draw result }
        ensures gives { ⟦<UnionIter<T, SS> as Draw<T>>⟧.may_give result
            ⊆ joined_runs T.value_count (SS.may_give iter) }
        ensures undrawn { IsFresh iter result.iter }
    {
        UnionIter::over(iter)
    }
}

impl<T: Integer, L: Draw<T>, R: Draw<T>> From<(L, R)> for UnionIter<T, Merge<T, L, R>> {
    // Makes the union of two ready streams. Draws nothing yet. Not in range-set-blaze.
    ghost from_gives = { λ streams result. L.can_draw streams.0 → R.can_draw streams.1
        → MakesUnionIterUndrawn T.Integer.own L.Draw R.Draw
        ⟦<UnionIter<T, Merge<T, L, R>> as Draw<T>>⟧ streams.0 streams.1 result };

    fn from(streams: (L, R)) -> Self {
        let (left, right) = streams;
        let merge = Merge::of(left, right);
        UnionIter::over(merge)
    }
}

impl<T: Integer, SS: Draw<T>> Iterator for UnionIter<T, SS> {
    type Item = RangeInclusive<T>;

    ghost can_next = { (union_iter T.Integer.own SS.Draw).can_draw };

    ghost next_gives = { (union_iter T.Integer.own SS.Draw).draw_gives };

    ghost remaining = { (union_iter T.Integer.own SS.Draw).draws_left };

    fn next(&mut self) -> Option<RangeInclusive<T>> {
        let (start, mut end) = self.iter.draw()?.into_inner();
        while let Some(range) = self.iter.draw() {
            if let Some(after) = end.checked_add_one() {
                if after < *range.start() {
                    self.iter.put_back(range);
                    return Some(start..=end);
                }
            }
            end = end.max(*range.end());
        }
        Some(start..=end)
    }
}

impl<T: Integer, SS: Draw<T>> FusedIterator for UnionIter<T, SS> {}

impl<T: Integer, SS: Draw<T>> Draw<T> for UnionIter<T, SS> {
    ghost can_draw = { ⟦<UnionIter<T, SS> as Iterator>⟧.can_next };

    ghost draw_gives = { ⟦<UnionIter<T, SS> as Iterator>⟧.next_gives };

    ghost draws_left = { ⟦<UnionIter<T, SS> as Iterator>⟧.remaining };

    ghost may_give = { (union_iter T.Integer.own SS.Draw).may_give };

    fn draw(&mut self) -> Option<RangeInclusive<T>> {
        self.next()
    }

    ghost answers = { λ s t item gives. gives.answers };

    ghost sorted = { λ s ready. canonical_stream-starts T.value_count _ _
        (union_iter-disjoint T.Integer.own ⟦<SS as Draw<T>>⟧ SS.sorted s ready) };
}

impl<T: Integer, SS: Draw<T>> SortedStarts<T> for UnionIter<T, SS> {
    ghost drawn = { drawn-itself };
}

impl<T: Integer, SS: Draw<T>> DrawDisjoint<T> for UnionIter<T, SS> {
    ghost canonical = { λ s ready.
        (union_iter-disjoint T.Integer.own ⟦<SS as Draw<T>>⟧ SS.sorted s ready).all };
}

impl<T: Integer, SS: Draw<T>> SortedDisjoint<T> for UnionIter<T, SS> {}
