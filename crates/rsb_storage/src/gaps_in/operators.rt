//! The operators on the gaps of a set between two bounds.

ghost use Rattle.rsb_streams.specs.Results.{
  CanDrawBoth,
  MakesComplementUndrawn,
  MakesDifference,
  MakesIntersection,
  MakesSymmetricDifference,
  MakesUnionUndrawn,
};

use crate::gaps_in::GapsIn;
use rsb_integer::Integer;
use rsb_streams::{
    Difference, Draw, DrawDisjoint, Intersection, NotIter, SymmetricDifference, Union,
};
use std::ops::{BitAnd, BitOr, BitXor, Not, Sub};

impl<'a, T: Integer, R: DrawDisjoint<T>> BitOr<R> for GapsIn<'a, T> {
    type Output = Union<T, GapsIn<'a, T>, R>;

    ghost can_bitor = { CanDrawBoth ⟦<GapsIn<'a, T> as Draw<T>>⟧ R.Draw };

    ghost bitor_gives = { MakesUnionUndrawn T.Integer.own ⟦<GapsIn<'a, T> as Draw<T>>⟧ R.Draw
        ⟦<Union<T, GapsIn<'a, T>, R> as Draw<T>>⟧ };

    fn bitor(self, other: R) -> Self::Output {
        Union::from((self, other))
    }
}

impl<'a, T: Integer, R: DrawDisjoint<T>> BitAnd<R> for GapsIn<'a, T> {
    type Output = Intersection<T, GapsIn<'a, T>, R>;

    ghost can_bitand = { CanDrawBoth ⟦<GapsIn<'a, T> as Draw<T>>⟧ R.Draw };

    ghost bitand_gives = { MakesIntersection T.Integer.own ⟦<GapsIn<'a, T> as Draw<T>>⟧ R.Draw
        ⟦<Intersection<T, GapsIn<'a, T>, R> as Draw<T>>⟧ };

    fn bitand(self, other: R) -> Self::Output {
        Intersection::from((self, other))
    }
}

impl<'a, T: Integer, R: DrawDisjoint<T>> Sub<R> for GapsIn<'a, T> {
    type Output = Difference<T, GapsIn<'a, T>, R>;

    ghost can_sub = { CanDrawBoth ⟦<GapsIn<'a, T> as Draw<T>>⟧ R.Draw };

    ghost sub_gives = { MakesDifference T.Integer.own ⟦<GapsIn<'a, T> as Draw<T>>⟧ R.Draw
        ⟦<Difference<T, GapsIn<'a, T>, R> as Draw<T>>⟧ };

    fn sub(self, other: R) -> Self::Output {
        Difference::from((self, other))
    }
}

impl<'a, T: Integer, R: DrawDisjoint<T>> BitXor<R> for GapsIn<'a, T> {
    type Output = SymmetricDifference<T, GapsIn<'a, T>, R>;

    ghost can_bitxor = { CanDrawBoth ⟦<GapsIn<'a, T> as Draw<T>>⟧ R.Draw };

    ghost bitxor_gives = { MakesSymmetricDifference T.Integer.own
        ⟦<GapsIn<'a, T> as Draw<T>>⟧ R.Draw
        ⟦<SymmetricDifference<T, GapsIn<'a, T>, R> as Draw<T>>⟧ };

    fn bitxor(self, other: R) -> Self::Output {
        SymmetricDifference::from((self, other))
    }
}

impl<'a, T: Integer> Not for GapsIn<'a, T> {
    type Output = NotIter<T, GapsIn<'a, T>>;

    ghost can_not = { ⟦<GapsIn<'a, T> as Draw<T>>⟧.can_draw };

    ghost not_gives = { MakesComplementUndrawn T.Integer.own ⟦<GapsIn<'a, T> as Draw<T>>⟧
        ⟦<NotIter<T, GapsIn<'a, T>> as Draw<T>>⟧ };

    fn not(self) -> Self::Output {
        NotIter::from(self)
    }
}
