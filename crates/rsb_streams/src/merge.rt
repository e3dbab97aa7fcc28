//! The merge of two streams by the starts of their ranges.

ghost use Rattle.rsb_streams.specs.Merge.{merge, MergesUndrawn};
ghost use Rattle.rsb_streams.specs.laws.Merge.{merge-sorted};
ghost use Rattle.rsb_streams.specs.PutBack.{IsFresh};
ghost use Rattle.rsb_streams.specs.Stream.{◌⊆◌, merges};
ghost use Rattle.rsb_streams.specs.laws.Stream.{drawn-itself};

use crate::draw::Draw;
use crate::put_back::PutBack;
use crate::sorted_disjoint::SortedStarts;
use rsb_integer::Integer;
use std::iter::FusedIterator;
use std::ops::RangeInclusive;

/// The ranges of two streams, sorted by start. The order of two ranges with the same start is
/// unspecified. It holds at most one range of each stream. When asked for a range, it draws from a
/// stream only if it holds no range of that stream. (`Merge` in range-set-blaze.)
#[derive(Clone, Debug, Drop)]
pub struct Merge<T, L, R> {
    left: PutBack<T, L>,
    right: PutBack<T, R>,
}

impl<T, L, R> Merge<T, L, R> {
    /// Returns the merge of two iterators. Draws nothing yet.
    pub(crate) fn of(left: L, right: R) -> Self
        ensures left { IsFresh left result.left }
        ensures right { IsFresh right result.right }
    {
        Merge {
            left: PutBack::new(left),
            right: PutBack::new(right),
        }
    }
}

impl<T: Integer, L: Draw<T>, R: Draw<T>> Merge<T, L, R> {
    /// Returns the merge of two ready sources. Draws nothing yet. (`Merge::new`.)
    pub fn new(left: L, right: R) -> Self
        requires left { L.can_draw left }
        requires right { R.can_draw right }
        ensures ready { ⟦<Merge<T, L, R> as Draw<T>>⟧.can_draw result }
        ensures gives { ⟦<Merge<T, L, R> as Draw<T>>⟧.may_give result
            ⊆ merges T.value_count (L.may_give left) (R.may_give right) }
        ensures undrawn { MergesUndrawn T.Integer.own L.Draw R.Draw left right result }
    {
        Merge::of(left, right)
    }
}

impl<T: Integer, L: Draw<T>, R: Draw<T>> Iterator for Merge<T, L, R> {
    type Item = RangeInclusive<T>;

    ghost can_next = { (merge T.Integer.own L.Draw R.Draw).can_draw };

    ghost next_gives = { (merge T.Integer.own L.Draw R.Draw).draw_gives };

    ghost remaining = { (merge T.Integer.own L.Draw R.Draw).draws_left };

    fn next(&mut self) -> Option<RangeInclusive<T>> {
        let Some(first) = self.left.draw() else {
            return self.right.draw();
        };
        let Some(second) = self.right.draw() else {
            return Some(first);
        };
        if *second.start() < *first.start() {
            self.left.put_back(first);
            return Some(second);
        }
        self.right.put_back(second);
        Some(first)
    }
}

impl<T: Integer, L: Draw<T>, R: Draw<T>> FusedIterator for Merge<T, L, R> {}

impl<T: Integer, L: Draw<T>, R: Draw<T>> Draw<T> for Merge<T, L, R> {
    ghost can_draw = { ⟦<Merge<T, L, R> as Iterator>⟧.can_next };

    ghost draw_gives = { ⟦<Merge<T, L, R> as Iterator>⟧.next_gives };

    ghost draws_left = { ⟦<Merge<T, L, R> as Iterator>⟧.remaining };

    ghost may_give = { (merge T.Integer.own L.Draw R.Draw).may_give };

    fn draw(&mut self) -> Option<RangeInclusive<T>> {
        self.next()
    }

    ghost answers = { λ s t item gives. gives.answers };

    ghost sorted = { merge-sorted T.Integer.own
        ⟦<L as Draw<T>>⟧ ⟦<R as Draw<T>>⟧ L.sorted R.sorted };
}

impl<T: Integer, L: Draw<T>, R: Draw<T>> SortedStarts<T> for Merge<T, L, R> {
    ghost drawn = { drawn-itself };
}
