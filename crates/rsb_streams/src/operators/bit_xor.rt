//! The operator `^` on streams: the symmetric difference of two.

ghost use Rattle.rsb_streams.specs.Results.{CanDrawBoth, MakesSymmetricDifference};

use crate::check_sorted_disjoint::CheckSortedDisjoint;
use crate::draw::Draw;
use crate::not_iter::NotIter;
use crate::operation_results::{Difference, Intersection, SymmetricDifference, Union};
use crate::range_once::RangeOnce;
use crate::sorted_disjoint::DrawDisjoint;
use crate::sym_diff_iter::SymDiffIter;
use crate::union_iter::UnionIter;
use rsb_integer::Integer;
use std::ops::{BitXor, RangeInclusive};

impl<T: Integer, I: Draw<T>, R: DrawDisjoint<T>> BitXor<R> for NotIter<T, I> {
    type Output = SymmetricDifference<T, NotIter<T, I>, R>;

    ghost can_bitxor = { CanDrawBoth ⟦<NotIter<T, I> as Draw<T>>⟧ R.Draw };

    ghost bitxor_gives = { MakesSymmetricDifference T.Integer.own
        ⟦<NotIter<T, I> as Draw<T>>⟧ R.Draw
        ⟦<SymmetricDifference<T, NotIter<T, I>, R> as Draw<T>>⟧ };

    fn bitxor(self, other: R) -> Self::Output {
        SymmetricDifference::from((self, other))
    }
}

impl<T: Integer, I: Draw<T>, R: DrawDisjoint<T>> BitXor<R> for UnionIter<T, I> {
    type Output = SymmetricDifference<T, UnionIter<T, I>, R>;

    ghost can_bitxor = { CanDrawBoth ⟦<UnionIter<T, I> as Draw<T>>⟧ R.Draw };

    ghost bitxor_gives = { MakesSymmetricDifference T.Integer.own
        ⟦<UnionIter<T, I> as Draw<T>>⟧ R.Draw
        ⟦<SymmetricDifference<T, UnionIter<T, I>, R> as Draw<T>>⟧ };

    fn bitxor(self, other: R) -> Self::Output {
        SymmetricDifference::from((self, other))
    }
}

impl<T: Integer, A: Draw<T>, B: Draw<T>, R: DrawDisjoint<T>> BitXor<R> for Union<T, A, B> {
    type Output = SymmetricDifference<T, Union<T, A, B>, R>;

    ghost can_bitxor = { CanDrawBoth ⟦<Union<T, A, B> as Draw<T>>⟧ R.Draw };

    ghost bitxor_gives = { MakesSymmetricDifference T.Integer.own
        ⟦<Union<T, A, B> as Draw<T>>⟧ R.Draw
        ⟦<SymmetricDifference<T, Union<T, A, B>, R> as Draw<T>>⟧ };

    fn bitxor(self, other: R) -> Self::Output {
        SymmetricDifference::from((self, other))
    }
}

impl<T: Integer, A: Draw<T>, B: Draw<T>, R: DrawDisjoint<T>> BitXor<R> for Intersection<T, A, B> {
    type Output = SymmetricDifference<T, Intersection<T, A, B>, R>;

    ghost can_bitxor = { CanDrawBoth ⟦<Intersection<T, A, B> as Draw<T>>⟧ R.Draw };

    ghost bitxor_gives = { MakesSymmetricDifference T.Integer.own
        ⟦<Intersection<T, A, B> as Draw<T>>⟧ R.Draw
        ⟦<SymmetricDifference<T, Intersection<T, A, B>, R> as Draw<T>>⟧ };

    fn bitxor(self, other: R) -> Self::Output {
        SymmetricDifference::from((self, other))
    }
}

impl<T: Integer, A: Draw<T>, B: Draw<T>, R: DrawDisjoint<T>> BitXor<R> for Difference<T, A, B> {
    type Output = SymmetricDifference<T, Difference<T, A, B>, R>;

    ghost can_bitxor = { CanDrawBoth ⟦<Difference<T, A, B> as Draw<T>>⟧ R.Draw };

    ghost bitxor_gives = { MakesSymmetricDifference T.Integer.own
        ⟦<Difference<T, A, B> as Draw<T>>⟧ R.Draw
        ⟦<SymmetricDifference<T, Difference<T, A, B>, R> as Draw<T>>⟧ };

    fn bitxor(self, other: R) -> Self::Output {
        SymmetricDifference::from((self, other))
    }
}

impl<T: Integer, I: Iterator<Item = RangeInclusive<T>>, R: DrawDisjoint<T>> BitXor<R>
    for CheckSortedDisjoint<T, I> {
    type Output = SymmetricDifference<T, CheckSortedDisjoint<T, I>, R>;

    ghost can_bitxor = { CanDrawBoth ⟦<CheckSortedDisjoint<T, I> as Draw<T>>⟧ R.Draw };

    ghost bitxor_gives = { MakesSymmetricDifference T.Integer.own
        ⟦<CheckSortedDisjoint<T, I> as Draw<T>>⟧ R.Draw
        ⟦<SymmetricDifference<T, CheckSortedDisjoint<T, I>, R> as Draw<T>>⟧ };

    fn bitxor(self, other: R) -> Self::Output {
        SymmetricDifference::from((self, other))
    }
}

impl<T: Integer, R: DrawDisjoint<T>> BitXor<R> for RangeOnce<T> {
    type Output = SymmetricDifference<T, RangeOnce<T>, R>;

    ghost can_bitxor = { CanDrawBoth ⟦<RangeOnce<T> as Draw<T>>⟧ R.Draw };

    ghost bitxor_gives = { MakesSymmetricDifference T.Integer.own ⟦<RangeOnce<T> as Draw<T>>⟧ R.Draw
        ⟦<SymmetricDifference<T, RangeOnce<T>, R> as Draw<T>>⟧ };

    fn bitxor(self, other: R) -> Self::Output {
        SymmetricDifference::from((self, other))
    }
}

impl<T: Integer, A: Draw<T>, B: Draw<T>, R: DrawDisjoint<T>> BitXor<R> for SymDiffIter<T, A, B> {
    type Output = SymmetricDifference<T, SymDiffIter<T, A, B>, R>;

    ghost can_bitxor = { CanDrawBoth ⟦<SymDiffIter<T, A, B> as Draw<T>>⟧ R.Draw };

    ghost bitxor_gives = { MakesSymmetricDifference T.Integer.own
        ⟦<SymDiffIter<T, A, B> as Draw<T>>⟧ R.Draw
        ⟦<SymmetricDifference<T, SymDiffIter<T, A, B>, R> as Draw<T>>⟧ };

    fn bitxor(self, other: R) -> Self::Output {
        SymmetricDifference::from((self, other))
    }
}
