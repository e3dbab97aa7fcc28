//! The symmetric difference of two streams.

ghost use Rattle.std.specs.Iterator.{MakesProgress};
ghost use Rattle.std.specs.Prelude.{◌≡◌, ◌≤◌, length};
ghost use Rattle.rsb_streams.specs.laws.Result.{sym_diff-disjoint};
ghost use Rattle.rsb_streams.specs.Results.{MakesSymmetricDifference};
ghost use Rattle.rsb_streams.specs.laws.Stream.{canonical_stream-starts, drawn-itself};
ghost use Rattle.rsb_streams.specs.SymDiffIter.{ends_held, sym_diff};

use crate::draw::Draw;
use crate::merge::Merge;
use crate::odd_pieces::OddPieces;
use crate::sorted_disjoint::{DrawDisjoint, SortedDisjoint, SortedStarts};
use crate::union_iter::UnionIter;
use rsb_integer::Integer;
use std::iter::FusedIterator;
use std::ops::RangeInclusive;

/// The values in exactly one of two streams: those in an odd number of the ranges of their merge.
/// At any time, at most two ranges have begun and not ended. (`SymDiffIter` in range-set-blaze.)
#[derive(Clone, Debug, Drop)]
pub struct SymDiffIter<T, L, R> {
    iter: UnionIter<T, OddPieces<T, Merge<T, L, R>>>,
}

impl<T, L, R> SymDiffIter<T, L, R> {
    /// Returns the number of pending ends: the ends, held between calls, of ranges that have begun
    /// and not ended. It is at most one. During a call, the end of the range just drawn is pending
    /// too, so there are at most two. Not in range-set-blaze.
    pub fn pending_ends(&self) -> usize
        ensures ends { result ≡ length (ends_held self.now) }
        ensures bound { result ≤ 1 }
    {
        self.iter.source().pending_ends()
    }
}

impl<T: Integer, L: DrawDisjoint<T>, R: DrawDisjoint<T>> From<(L, R)> for SymDiffIter<T, L, R> {
    // Makes the symmetric difference of two ready streams.
    ghost from_gives = { λ streams result. L.can_draw streams.0 → R.can_draw streams.1
        → MakesSymmetricDifference T.Integer.own L.Draw R.Draw ⟦<SymDiffIter<T, L, R> as Draw<T>>⟧
        streams.0 streams.1 result };

    fn from(streams: (L, R)) -> Self {
        let (left, right) = streams;
        let merge: Merge<T, L, R> = Merge::of(left, right);
        SymDiffIter {
            iter: UnionIter::over(OddPieces::over(merge, T::min_value())),
        }
    }
}

impl<T: Integer, L: Draw<T>, R: Draw<T>> Iterator for SymDiffIter<T, L, R> {
    type Item = RangeInclusive<T>;

    ghost can_next = { (sym_diff T.Integer.own L.Draw R.Draw).can_draw };

    ghost next_gives = { (sym_diff T.Integer.own L.Draw R.Draw).draw_gives };

    ghost remaining = { (sym_diff T.Integer.own L.Draw R.Draw).draws_left };

    // At most one end is left pending. `steps` states which one, for each piece that is drawn
    // (`TakesForPiece`). During the call, the pending ends are in a vector of two.
    fn next(&mut self) -> Option<RangeInclusive<T>>
        requires { (sym_diff T.Integer.own L.Draw R.Draw).can_draw self.old }
        ensures steps { (sym_diff T.Integer.own L.Draw R.Draw).draw_gives self.old result self.new }
        ensures goes { MakesProgress (sym_diff T.Integer.own L.Draw R.Draw).can_draw
            (sym_diff T.Integer.own L.Draw R.Draw).draws_left self.old result self.new }
        ensures ends { length (ends_held self.new) ≤ 1 }
    {
        self.iter.next()
    }
}

impl<T: Integer, L: Draw<T>, R: Draw<T>> FusedIterator for SymDiffIter<T, L, R> {}

impl<T: Integer, L: Draw<T>, R: Draw<T>> Draw<T> for SymDiffIter<T, L, R> {
    ghost can_draw = { ⟦<SymDiffIter<T, L, R> as Iterator>⟧.can_next };

    ghost draw_gives = { ⟦<SymDiffIter<T, L, R> as Iterator>⟧.next_gives };

    ghost draws_left = { ⟦<SymDiffIter<T, L, R> as Iterator>⟧.remaining };

    ghost may_give = { (sym_diff T.Integer.own L.Draw R.Draw).may_give };

    fn draw(&mut self) -> Option<RangeInclusive<T>> {
        self.next()
    }

    ghost answers = { λ s t item gives. gives.answers };

    ghost sorted = { λ s ready. canonical_stream-starts T.value_count _ _
        (sym_diff-disjoint T.Integer.own ⟦<L as Draw<T>>⟧ ⟦<R as Draw<T>>⟧ L.sorted R.sorted
        s ready) };
}

impl<T: Integer, L: Draw<T>, R: Draw<T>> SortedStarts<T> for SymDiffIter<T, L, R> {
    ghost drawn = { drawn-itself };
}

impl<T: Integer, L: Draw<T>, R: Draw<T>> DrawDisjoint<T> for SymDiffIter<T, L, R> {
    ghost canonical = { λ s ready.
        (sym_diff-disjoint T.Integer.own ⟦<L as Draw<T>>⟧ ⟦<R as Draw<T>>⟧ L.sorted R.sorted
        s ready).all };
}

impl<T: Integer, L: Draw<T>, R: Draw<T>> SortedDisjoint<T> for SymDiffIter<T, L, R> {}
