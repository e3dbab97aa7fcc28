//! The operator `|` on streams: the union of two.

ghost use Rattle.rsb_streams.specs.Results.{CanDrawBoth, MakesUnionUndrawn};

use crate::check_sorted_disjoint::CheckSortedDisjoint;
use crate::draw::Draw;
use crate::not_iter::NotIter;
use crate::operation_results::{Difference, Intersection, Union};
use crate::range_once::RangeOnce;
use crate::sorted_disjoint::DrawDisjoint;
use crate::sym_diff_iter::SymDiffIter;
use crate::union_iter::UnionIter;
use rsb_integer::Integer;
use std::ops::{BitOr, RangeInclusive};

impl<T: Integer, I: Draw<T>, R: DrawDisjoint<T>> BitOr<R> for NotIter<T, I> {
    type Output = Union<T, NotIter<T, I>, R>;

    ghost can_bitor = { CanDrawBoth ⟦<NotIter<T, I> as Draw<T>>⟧ R.Draw };

    ghost bitor_gives = { MakesUnionUndrawn T.Integer.own ⟦<NotIter<T, I> as Draw<T>>⟧ R.Draw
        ⟦<Union<T, NotIter<T, I>, R> as Draw<T>>⟧ };

    fn bitor(self, other: R) -> Self::Output {
        Union::from((self, other))
    }
}

impl<T: Integer, I: Draw<T>, R: DrawDisjoint<T>> BitOr<R> for UnionIter<T, I> {
    type Output = Union<T, UnionIter<T, I>, R>;

    ghost can_bitor = { CanDrawBoth ⟦<UnionIter<T, I> as Draw<T>>⟧ R.Draw };

    ghost bitor_gives = { MakesUnionUndrawn T.Integer.own ⟦<UnionIter<T, I> as Draw<T>>⟧ R.Draw
        ⟦<Union<T, UnionIter<T, I>, R> as Draw<T>>⟧ };

    fn bitor(self, other: R) -> Self::Output {
        Union::from((self, other))
    }
}

impl<T: Integer, A: Draw<T>, B: Draw<T>, R: DrawDisjoint<T>> BitOr<R> for Union<T, A, B> {
    type Output = Union<T, Union<T, A, B>, R>;

    ghost can_bitor = { CanDrawBoth ⟦<Union<T, A, B> as Draw<T>>⟧ R.Draw };

    ghost bitor_gives = { MakesUnionUndrawn T.Integer.own ⟦<Union<T, A, B> as Draw<T>>⟧ R.Draw
        ⟦<Union<T, Union<T, A, B>, R> as Draw<T>>⟧ };

    fn bitor(self, other: R) -> Self::Output {
        Union::from((self, other))
    }
}

impl<T: Integer, A: Draw<T>, B: Draw<T>, R: DrawDisjoint<T>> BitOr<R> for Intersection<T, A, B> {
    type Output = Union<T, Intersection<T, A, B>, R>;

    ghost can_bitor = { CanDrawBoth ⟦<Intersection<T, A, B> as Draw<T>>⟧ R.Draw };

    ghost bitor_gives = { MakesUnionUndrawn T.Integer.own
        ⟦<Intersection<T, A, B> as Draw<T>>⟧ R.Draw
        ⟦<Union<T, Intersection<T, A, B>, R> as Draw<T>>⟧ };

    fn bitor(self, other: R) -> Self::Output {
        Union::from((self, other))
    }
}

impl<T: Integer, A: Draw<T>, B: Draw<T>, R: DrawDisjoint<T>> BitOr<R> for Difference<T, A, B> {
    type Output = Union<T, Difference<T, A, B>, R>;

    ghost can_bitor = { CanDrawBoth ⟦<Difference<T, A, B> as Draw<T>>⟧ R.Draw };

    ghost bitor_gives = { MakesUnionUndrawn T.Integer.own ⟦<Difference<T, A, B> as Draw<T>>⟧ R.Draw
        ⟦<Union<T, Difference<T, A, B>, R> as Draw<T>>⟧ };

    fn bitor(self, other: R) -> Self::Output {
        Union::from((self, other))
    }
}

impl<T: Integer, A: Draw<T>, B: Draw<T>, R: DrawDisjoint<T>> BitOr<R> for SymDiffIter<T, A, B> {
    type Output = Union<T, SymDiffIter<T, A, B>, R>;

    ghost can_bitor = { CanDrawBoth ⟦<SymDiffIter<T, A, B> as Draw<T>>⟧ R.Draw };

    ghost bitor_gives = { MakesUnionUndrawn T.Integer.own ⟦<SymDiffIter<T, A, B> as Draw<T>>⟧ R.Draw
        ⟦<Union<T, SymDiffIter<T, A, B>, R> as Draw<T>>⟧ };

    fn bitor(self, other: R) -> Self::Output {
        Union::from((self, other))
    }
}

impl<T: Integer, I: Iterator<Item = RangeInclusive<T>>, R: DrawDisjoint<T>> BitOr<R>
    for CheckSortedDisjoint<T, I> {
    type Output = Union<T, CheckSortedDisjoint<T, I>, R>;

    ghost can_bitor = { CanDrawBoth ⟦<CheckSortedDisjoint<T, I> as Draw<T>>⟧ R.Draw };

    ghost bitor_gives = { MakesUnionUndrawn T.Integer.own
        ⟦<CheckSortedDisjoint<T, I> as Draw<T>>⟧ R.Draw
        ⟦<Union<T, CheckSortedDisjoint<T, I>, R> as Draw<T>>⟧ };

    fn bitor(self, other: R) -> Self::Output {
        Union::from((self, other))
    }
}

impl<T: Integer, R: DrawDisjoint<T>> BitOr<R> for RangeOnce<T> {
    type Output = Union<T, RangeOnce<T>, R>;

    ghost can_bitor = { CanDrawBoth ⟦<RangeOnce<T> as Draw<T>>⟧ R.Draw };

    ghost bitor_gives = { MakesUnionUndrawn T.Integer.own ⟦<RangeOnce<T> as Draw<T>>⟧ R.Draw
        ⟦<Union<T, RangeOnce<T>, R> as Draw<T>>⟧ };

    fn bitor(self, other: R) -> Self::Output {
        Union::from((self, other))
    }
}
