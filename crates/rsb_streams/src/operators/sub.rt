//! The operator `-` on streams: the values in the left one that are not in the right one.

ghost use Rattle.rsb_streams.specs.Results.{CanDrawBoth, MakesDifference};

use crate::check_sorted_disjoint::CheckSortedDisjoint;
use crate::draw::Draw;
use crate::not_iter::NotIter;
use crate::operation_results::{Difference, Intersection, Union};
use crate::range_once::RangeOnce;
use crate::sorted_disjoint::DrawDisjoint;
use crate::sym_diff_iter::SymDiffIter;
use crate::union_iter::UnionIter;
use rsb_integer::Integer;
use std::ops::{RangeInclusive, Sub};

impl<T: Integer, I: Draw<T>, R: DrawDisjoint<T>> Sub<R> for NotIter<T, I> {
    type Output = Difference<T, NotIter<T, I>, R>;

    ghost can_sub = { CanDrawBoth ⟦<NotIter<T, I> as Draw<T>>⟧ R.Draw };

    ghost sub_gives = { MakesDifference T.Integer.own ⟦<NotIter<T, I> as Draw<T>>⟧ R.Draw
        ⟦<Difference<T, NotIter<T, I>, R> as Draw<T>>⟧ };

    fn sub(self, other: R) -> Self::Output {
        Difference::from((self, other))
    }
}

impl<T: Integer, I: Draw<T>, R: DrawDisjoint<T>> Sub<R> for UnionIter<T, I> {
    type Output = Difference<T, UnionIter<T, I>, R>;

    ghost can_sub = { CanDrawBoth ⟦<UnionIter<T, I> as Draw<T>>⟧ R.Draw };

    ghost sub_gives = { MakesDifference T.Integer.own ⟦<UnionIter<T, I> as Draw<T>>⟧ R.Draw
        ⟦<Difference<T, UnionIter<T, I>, R> as Draw<T>>⟧ };

    fn sub(self, other: R) -> Self::Output {
        Difference::from((self, other))
    }
}

impl<T: Integer, A: Draw<T>, B: Draw<T>, R: DrawDisjoint<T>> Sub<R> for Union<T, A, B> {
    type Output = Difference<T, Union<T, A, B>, R>;

    ghost can_sub = { CanDrawBoth ⟦<Union<T, A, B> as Draw<T>>⟧ R.Draw };

    ghost sub_gives = { MakesDifference T.Integer.own ⟦<Union<T, A, B> as Draw<T>>⟧ R.Draw
        ⟦<Difference<T, Union<T, A, B>, R> as Draw<T>>⟧ };

    fn sub(self, other: R) -> Self::Output {
        Difference::from((self, other))
    }
}

impl<T: Integer, A: Draw<T>, B: Draw<T>, R: DrawDisjoint<T>> Sub<R> for Intersection<T, A, B> {
    type Output = Difference<T, Intersection<T, A, B>, R>;

    ghost can_sub = { CanDrawBoth ⟦<Intersection<T, A, B> as Draw<T>>⟧ R.Draw };

    ghost sub_gives = { MakesDifference T.Integer.own ⟦<Intersection<T, A, B> as Draw<T>>⟧ R.Draw
        ⟦<Difference<T, Intersection<T, A, B>, R> as Draw<T>>⟧ };

    fn sub(self, other: R) -> Self::Output {
        Difference::from((self, other))
    }
}

impl<T: Integer, A: Draw<T>, B: Draw<T>, R: DrawDisjoint<T>> Sub<R> for Difference<T, A, B> {
    type Output = Difference<T, Difference<T, A, B>, R>;

    ghost can_sub = { CanDrawBoth ⟦<Difference<T, A, B> as Draw<T>>⟧ R.Draw };

    ghost sub_gives = { MakesDifference T.Integer.own ⟦<Difference<T, A, B> as Draw<T>>⟧ R.Draw
        ⟦<Difference<T, Difference<T, A, B>, R> as Draw<T>>⟧ };

    fn sub(self, other: R) -> Self::Output {
        Difference::from((self, other))
    }
}

impl<T: Integer, A: Draw<T>, B: Draw<T>, R: DrawDisjoint<T>> Sub<R> for SymDiffIter<T, A, B> {
    type Output = Difference<T, SymDiffIter<T, A, B>, R>;

    ghost can_sub = { CanDrawBoth ⟦<SymDiffIter<T, A, B> as Draw<T>>⟧ R.Draw };

    ghost sub_gives = { MakesDifference T.Integer.own ⟦<SymDiffIter<T, A, B> as Draw<T>>⟧ R.Draw
        ⟦<Difference<T, SymDiffIter<T, A, B>, R> as Draw<T>>⟧ };

    fn sub(self, other: R) -> Self::Output {
        Difference::from((self, other))
    }
}

impl<T: Integer, I: Iterator<Item = RangeInclusive<T>>, R: DrawDisjoint<T>> Sub<R>
    for CheckSortedDisjoint<T, I> {
    type Output = Difference<T, CheckSortedDisjoint<T, I>, R>;

    ghost can_sub = { CanDrawBoth ⟦<CheckSortedDisjoint<T, I> as Draw<T>>⟧ R.Draw };

    ghost sub_gives = { MakesDifference T.Integer.own
        ⟦<CheckSortedDisjoint<T, I> as Draw<T>>⟧ R.Draw
        ⟦<Difference<T, CheckSortedDisjoint<T, I>, R> as Draw<T>>⟧ };

    fn sub(self, other: R) -> Self::Output {
        Difference::from((self, other))
    }
}

impl<T: Integer, R: DrawDisjoint<T>> Sub<R> for RangeOnce<T> {
    type Output = Difference<T, RangeOnce<T>, R>;

    ghost can_sub = { CanDrawBoth ⟦<RangeOnce<T> as Draw<T>>⟧ R.Draw };

    ghost sub_gives = { MakesDifference T.Integer.own ⟦<RangeOnce<T> as Draw<T>>⟧ R.Draw
        ⟦<Difference<T, RangeOnce<T>, R> as Draw<T>>⟧ };

    fn sub(self, other: R) -> Self::Output {
        Difference::from((self, other))
    }
}
