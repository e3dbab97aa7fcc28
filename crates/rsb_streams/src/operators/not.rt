//! The operator `!` on streams: the complement of one.

ghost use Rattle.rsb_streams.specs.Results.{MakesComplementUndrawn};

use crate::check_sorted_disjoint::CheckSortedDisjoint;
use crate::draw::Draw;
use crate::not_iter::NotIter;
use crate::operation_results::{Difference, Intersection, Union};
use crate::range_once::RangeOnce;
use crate::sym_diff_iter::SymDiffIter;
use crate::union_iter::UnionIter;
use rsb_integer::Integer;
use std::ops::{Not, RangeInclusive};

impl<T: Integer, I: Draw<T>> Not for NotIter<T, I> {
    type Output = NotIter<T, NotIter<T, I>>;

    ghost can_not = { ⟦<NotIter<T, I> as Draw<T>>⟧.can_draw };

    ghost not_gives = { MakesComplementUndrawn T.Integer.own ⟦<NotIter<T, I> as Draw<T>>⟧
        ⟦<NotIter<T, NotIter<T, I>> as Draw<T>>⟧ };

    fn not(self) -> Self::Output {
        NotIter::from(self)
    }
}

impl<T: Integer, I: Draw<T>> Not for UnionIter<T, I> {
    type Output = NotIter<T, UnionIter<T, I>>;

    ghost can_not = { ⟦<UnionIter<T, I> as Draw<T>>⟧.can_draw };

    ghost not_gives = { MakesComplementUndrawn T.Integer.own ⟦<UnionIter<T, I> as Draw<T>>⟧
        ⟦<NotIter<T, UnionIter<T, I>> as Draw<T>>⟧ };

    fn not(self) -> Self::Output {
        NotIter::from(self)
    }
}

impl<T: Integer, A: Draw<T>, B: Draw<T>> Not for Union<T, A, B> {
    type Output = NotIter<T, Union<T, A, B>>;

    ghost can_not = { ⟦<Union<T, A, B> as Draw<T>>⟧.can_draw };

    ghost not_gives = { MakesComplementUndrawn T.Integer.own ⟦<Union<T, A, B> as Draw<T>>⟧
        ⟦<NotIter<T, Union<T, A, B>> as Draw<T>>⟧ };

    fn not(self) -> Self::Output {
        NotIter::from(self)
    }
}

impl<T: Integer, A: Draw<T>, B: Draw<T>> Not for Intersection<T, A, B> {
    type Output = NotIter<T, Intersection<T, A, B>>;

    ghost can_not = { ⟦<Intersection<T, A, B> as Draw<T>>⟧.can_draw };

    ghost not_gives = { MakesComplementUndrawn T.Integer.own ⟦<Intersection<T, A, B> as Draw<T>>⟧
        ⟦<NotIter<T, Intersection<T, A, B>> as Draw<T>>⟧ };

    fn not(self) -> Self::Output {
        NotIter::from(self)
    }
}

impl<T: Integer, A: Draw<T>, B: Draw<T>> Not for Difference<T, A, B> {
    type Output = NotIter<T, Difference<T, A, B>>;

    ghost can_not = { ⟦<Difference<T, A, B> as Draw<T>>⟧.can_draw };

    ghost not_gives = { MakesComplementUndrawn T.Integer.own ⟦<Difference<T, A, B> as Draw<T>>⟧
        ⟦<NotIter<T, Difference<T, A, B>> as Draw<T>>⟧ };

    fn not(self) -> Self::Output {
        NotIter::from(self)
    }
}

impl<T: Integer, A: Draw<T>, B: Draw<T>> Not for SymDiffIter<T, A, B> {
    type Output = NotIter<T, SymDiffIter<T, A, B>>;

    ghost can_not = { ⟦<SymDiffIter<T, A, B> as Draw<T>>⟧.can_draw };

    ghost not_gives = { MakesComplementUndrawn T.Integer.own ⟦<SymDiffIter<T, A, B> as Draw<T>>⟧
        ⟦<NotIter<T, SymDiffIter<T, A, B>> as Draw<T>>⟧ };

    fn not(self) -> Self::Output {
        NotIter::from(self)
    }
}

impl<T: Integer, I: Iterator<Item = RangeInclusive<T>>> Not for CheckSortedDisjoint<T, I> {
    type Output = NotIter<T, CheckSortedDisjoint<T, I>>;

    ghost can_not = { ⟦<CheckSortedDisjoint<T, I> as Draw<T>>⟧.can_draw };

    ghost not_gives = { MakesComplementUndrawn T.Integer.own
        ⟦<CheckSortedDisjoint<T, I> as Draw<T>>⟧
        ⟦<NotIter<T, CheckSortedDisjoint<T, I>> as Draw<T>>⟧ };

    fn not(self) -> Self::Output {
        NotIter::from(self)
    }
}

impl<T: Integer> Not for RangeOnce<T> {
    type Output = NotIter<T, RangeOnce<T>>;

    ghost can_not = { ⟦<RangeOnce<T> as Draw<T>>⟧.can_draw };

    ghost not_gives = { MakesComplementUndrawn T.Integer.own ⟦<RangeOnce<T> as Draw<T>>⟧
        ⟦<NotIter<T, RangeOnce<T>> as Draw<T>>⟧ };

    fn not(self) -> Self::Output {
        NotIter::from(self)
    }
}
