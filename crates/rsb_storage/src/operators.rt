//! The operators on the runs of a set.

ghost use Rattle.rsb_streams.specs.Results.{
  CanDrawBoth,
  MakesComplementUndrawn,
  MakesDifference,
  MakesIntersection,
  MakesSymmetricDifference,
  MakesUnionUndrawn,
};

use crate::into_ranges_iter::IntoRangesIter;
use crate::ranges_iter::RangesIter;
use rsb_integer::Integer;
use rsb_streams::{
    Difference, Draw, DrawDisjoint, Intersection, NotIter, SymmetricDifference, Union,
};
use std::alloc::Allocator;
use std::ops::{BitAnd, BitOr, BitXor, Not, Sub};

impl<'a, T: Integer, R: DrawDisjoint<T>> BitOr<R> for RangesIter<'a, T> {
    type Output = Union<T, RangesIter<'a, T>, R>;

    ghost can_bitor = { CanDrawBoth ⟦<RangesIter<'a, T> as Draw<T>>⟧ R.Draw };

    ghost bitor_gives = { MakesUnionUndrawn T.Integer.own ⟦<RangesIter<'a, T> as Draw<T>>⟧ R.Draw
        ⟦<Union<T, RangesIter<'a, T>, R> as Draw<T>>⟧ };

    fn bitor(self, other: R) -> Self::Output {
        Union::from((self, other))
    }
}

impl<'a, T: Integer, R: DrawDisjoint<T>> BitAnd<R> for RangesIter<'a, T> {
    type Output = Intersection<T, RangesIter<'a, T>, R>;

    ghost can_bitand = { CanDrawBoth ⟦<RangesIter<'a, T> as Draw<T>>⟧ R.Draw };

    ghost bitand_gives = { MakesIntersection T.Integer.own ⟦<RangesIter<'a, T> as Draw<T>>⟧ R.Draw
        ⟦<Intersection<T, RangesIter<'a, T>, R> as Draw<T>>⟧ };

    fn bitand(self, other: R) -> Self::Output {
        Intersection::from((self, other))
    }
}

impl<'a, T: Integer, R: DrawDisjoint<T>> Sub<R> for RangesIter<'a, T> {
    type Output = Difference<T, RangesIter<'a, T>, R>;

    ghost can_sub = { CanDrawBoth ⟦<RangesIter<'a, T> as Draw<T>>⟧ R.Draw };

    ghost sub_gives = { MakesDifference T.Integer.own ⟦<RangesIter<'a, T> as Draw<T>>⟧ R.Draw
        ⟦<Difference<T, RangesIter<'a, T>, R> as Draw<T>>⟧ };

    fn sub(self, other: R) -> Self::Output {
        Difference::from((self, other))
    }
}

impl<'a, T: Integer, R: DrawDisjoint<T>> BitXor<R> for RangesIter<'a, T> {
    type Output = SymmetricDifference<T, RangesIter<'a, T>, R>;

    ghost can_bitxor = { CanDrawBoth ⟦<RangesIter<'a, T> as Draw<T>>⟧ R.Draw };

    ghost bitxor_gives = { MakesSymmetricDifference T.Integer.own
        ⟦<RangesIter<'a, T> as Draw<T>>⟧ R.Draw
        ⟦<SymmetricDifference<T, RangesIter<'a, T>, R> as Draw<T>>⟧ };

    fn bitxor(self, other: R) -> Self::Output {
        SymmetricDifference::from((self, other))
    }
}

impl<'a, T: Integer> Not for RangesIter<'a, T> {
    type Output = NotIter<T, RangesIter<'a, T>>;

    ghost can_not = { ⟦<RangesIter<'a, T> as Draw<T>>⟧.can_draw };

    ghost not_gives = { MakesComplementUndrawn T.Integer.own ⟦<RangesIter<'a, T> as Draw<T>>⟧
        ⟦<NotIter<T, RangesIter<'a, T>> as Draw<T>>⟧ };

    fn not(self) -> Self::Output {
        NotIter::from(self)
    }
}

impl<T: Integer, A: Allocator, R: DrawDisjoint<T>> BitOr<R> for IntoRangesIter<T, A> {
    type Output = Union<T, IntoRangesIter<T, A>, R>;

    ghost can_bitor = { CanDrawBoth ⟦<IntoRangesIter<T, A> as Draw<T>>⟧ R.Draw };

    ghost bitor_gives = { MakesUnionUndrawn T.Integer.own ⟦<IntoRangesIter<T, A> as Draw<T>>⟧ R.Draw
        ⟦<Union<T, IntoRangesIter<T, A>, R> as Draw<T>>⟧ };

    fn bitor(self, other: R) -> Self::Output {
        Union::from((self, other))
    }
}

impl<T: Integer, A: Allocator, R: DrawDisjoint<T>> BitAnd<R> for IntoRangesIter<T, A> {
    type Output = Intersection<T, IntoRangesIter<T, A>, R>;

    ghost can_bitand = { CanDrawBoth ⟦<IntoRangesIter<T, A> as Draw<T>>⟧ R.Draw };

    ghost bitand_gives = { MakesIntersection T.Integer.own
        ⟦<IntoRangesIter<T, A> as Draw<T>>⟧ R.Draw
        ⟦<Intersection<T, IntoRangesIter<T, A>, R> as Draw<T>>⟧ };

    fn bitand(self, other: R) -> Self::Output {
        Intersection::from((self, other))
    }
}

impl<T: Integer, A: Allocator, R: DrawDisjoint<T>> Sub<R> for IntoRangesIter<T, A> {
    type Output = Difference<T, IntoRangesIter<T, A>, R>;

    ghost can_sub = { CanDrawBoth ⟦<IntoRangesIter<T, A> as Draw<T>>⟧ R.Draw };

    ghost sub_gives = { MakesDifference T.Integer.own ⟦<IntoRangesIter<T, A> as Draw<T>>⟧ R.Draw
        ⟦<Difference<T, IntoRangesIter<T, A>, R> as Draw<T>>⟧ };

    fn sub(self, other: R) -> Self::Output {
        Difference::from((self, other))
    }
}

impl<T: Integer, A: Allocator, R: DrawDisjoint<T>> BitXor<R> for IntoRangesIter<T, A> {
    type Output = SymmetricDifference<T, IntoRangesIter<T, A>, R>;

    ghost can_bitxor = { CanDrawBoth ⟦<IntoRangesIter<T, A> as Draw<T>>⟧ R.Draw };

    ghost bitxor_gives = { MakesSymmetricDifference T.Integer.own
        ⟦<IntoRangesIter<T, A> as Draw<T>>⟧ R.Draw
        ⟦<SymmetricDifference<T, IntoRangesIter<T, A>, R> as Draw<T>>⟧ };

    fn bitxor(self, other: R) -> Self::Output {
        SymmetricDifference::from((self, other))
    }
}

impl<T: Integer, A: Allocator> Not for IntoRangesIter<T, A> {
    type Output = NotIter<T, IntoRangesIter<T, A>>;

    ghost can_not = { ⟦<IntoRangesIter<T, A> as Draw<T>>⟧.can_draw };

    ghost not_gives = { MakesComplementUndrawn T.Integer.own ⟦<IntoRangesIter<T, A> as Draw<T>>⟧
        ⟦<NotIter<T, IntoRangesIter<T, A>> as Draw<T>>⟧ };

    fn not(self) -> Self::Output {
        NotIter::from(self)
    }
}
