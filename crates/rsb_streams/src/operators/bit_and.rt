//! The operator `&` on streams: the intersection of two.

ghost use Rattle.rsb_streams.specs.Results.{CanDrawBoth, MakesIntersection};

use crate::check_sorted_disjoint::CheckSortedDisjoint;
use crate::draw::Draw;
use crate::not_iter::NotIter;
use crate::operation_results::{Difference, Intersection, Union};
use crate::range_once::RangeOnce;
use crate::sorted_disjoint::DrawDisjoint;
use crate::sym_diff_iter::SymDiffIter;
use crate::union_iter::UnionIter;
use rsb_integer::Integer;
use std::ops::{BitAnd, RangeInclusive};

impl<T: Integer, I: Draw<T>, R: DrawDisjoint<T>> BitAnd<R> for NotIter<T, I> {
    type Output = Intersection<T, NotIter<T, I>, R>;

    ghost can_bitand = { CanDrawBoth ⟦<NotIter<T, I> as Draw<T>>⟧ R.Draw };

    ghost bitand_gives = { MakesIntersection T.Integer.own ⟦<NotIter<T, I> as Draw<T>>⟧ R.Draw
        ⟦<Intersection<T, NotIter<T, I>, R> as Draw<T>>⟧ };

    fn bitand(self, other: R) -> Self::Output {
        Intersection::from((self, other))
    }
}

impl<T: Integer, I: Draw<T>, R: DrawDisjoint<T>> BitAnd<R> for UnionIter<T, I> {
    type Output = Intersection<T, UnionIter<T, I>, R>;

    ghost can_bitand = { CanDrawBoth ⟦<UnionIter<T, I> as Draw<T>>⟧ R.Draw };

    ghost bitand_gives = { MakesIntersection T.Integer.own ⟦<UnionIter<T, I> as Draw<T>>⟧ R.Draw
        ⟦<Intersection<T, UnionIter<T, I>, R> as Draw<T>>⟧ };

    fn bitand(self, other: R) -> Self::Output {
        Intersection::from((self, other))
    }
}

impl<T: Integer, A: Draw<T>, B: Draw<T>, R: DrawDisjoint<T>> BitAnd<R> for Union<T, A, B> {
    type Output = Intersection<T, Union<T, A, B>, R>;

    ghost can_bitand = { CanDrawBoth ⟦<Union<T, A, B> as Draw<T>>⟧ R.Draw };

    ghost bitand_gives = { MakesIntersection T.Integer.own ⟦<Union<T, A, B> as Draw<T>>⟧ R.Draw
        ⟦<Intersection<T, Union<T, A, B>, R> as Draw<T>>⟧ };

    fn bitand(self, other: R) -> Self::Output {
        Intersection::from((self, other))
    }
}

impl<T: Integer, A: Draw<T>, B: Draw<T>, R: DrawDisjoint<T>> BitAnd<R> for Intersection<T, A, B> {
    type Output = Intersection<T, Intersection<T, A, B>, R>;

    ghost can_bitand = { CanDrawBoth ⟦<Intersection<T, A, B> as Draw<T>>⟧ R.Draw };

    ghost bitand_gives = { MakesIntersection T.Integer.own
        ⟦<Intersection<T, A, B> as Draw<T>>⟧ R.Draw
        ⟦<Intersection<T, Intersection<T, A, B>, R> as Draw<T>>⟧ };

    fn bitand(self, other: R) -> Self::Output {
        Intersection::from((self, other))
    }
}

impl<T: Integer, A: Draw<T>, B: Draw<T>, R: DrawDisjoint<T>> BitAnd<R> for Difference<T, A, B> {
    type Output = Intersection<T, Difference<T, A, B>, R>;

    ghost can_bitand = { CanDrawBoth ⟦<Difference<T, A, B> as Draw<T>>⟧ R.Draw };

    ghost bitand_gives = { MakesIntersection T.Integer.own ⟦<Difference<T, A, B> as Draw<T>>⟧ R.Draw
        ⟦<Intersection<T, Difference<T, A, B>, R> as Draw<T>>⟧ };

    fn bitand(self, other: R) -> Self::Output {
        Intersection::from((self, other))
    }
}

impl<T: Integer, A: Draw<T>, B: Draw<T>, R: DrawDisjoint<T>> BitAnd<R> for SymDiffIter<T, A, B> {
    type Output = Intersection<T, SymDiffIter<T, A, B>, R>;

    ghost can_bitand = { CanDrawBoth ⟦<SymDiffIter<T, A, B> as Draw<T>>⟧ R.Draw };

    ghost bitand_gives = { MakesIntersection T.Integer.own
        ⟦<SymDiffIter<T, A, B> as Draw<T>>⟧ R.Draw
        ⟦<Intersection<T, SymDiffIter<T, A, B>, R> as Draw<T>>⟧ };

    fn bitand(self, other: R) -> Self::Output {
        Intersection::from((self, other))
    }
}

impl<T: Integer, I: Iterator<Item = RangeInclusive<T>>, R: DrawDisjoint<T>> BitAnd<R>
    for CheckSortedDisjoint<T, I> {
    type Output = Intersection<T, CheckSortedDisjoint<T, I>, R>;

    ghost can_bitand = { CanDrawBoth ⟦<CheckSortedDisjoint<T, I> as Draw<T>>⟧ R.Draw };

    ghost bitand_gives = { MakesIntersection T.Integer.own
        ⟦<CheckSortedDisjoint<T, I> as Draw<T>>⟧ R.Draw
        ⟦<Intersection<T, CheckSortedDisjoint<T, I>, R> as Draw<T>>⟧ };

    fn bitand(self, other: R) -> Self::Output {
        Intersection::from((self, other))
    }
}

impl<T: Integer, R: DrawDisjoint<T>> BitAnd<R> for RangeOnce<T> {
    type Output = Intersection<T, RangeOnce<T>, R>;

    ghost can_bitand = { CanDrawBoth ⟦<RangeOnce<T> as Draw<T>>⟧ R.Draw };

    ghost bitand_gives = { MakesIntersection T.Integer.own ⟦<RangeOnce<T> as Draw<T>>⟧ R.Draw
        ⟦<Intersection<T, RangeOnce<T>, R> as Draw<T>>⟧ };

    fn bitand(self, other: R) -> Self::Output {
        Intersection::from((self, other))
    }
}
