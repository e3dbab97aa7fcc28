//! The operator `^` on results of operations on many streams and on `DynSortedDisjoint`: the
//! symmetric difference of two streams.

ghost use Rattle.rsb_streams.specs.Results.{CanDrawBoth, MakesSymmetricDifference};

use crate::dyn_sorted_disjoint::DynSortedDisjoint;
use crate::multiway_at_least::MultiwayAtLeast;
use crate::multiway_sym_diff_set::MultiwaySymmetricDifference;
use crate::operation_results::{MultiwayIntersection, MultiwayUnion};
use rsb_integer::Integer;
use rsb_streams::{Draw, DrawDisjoint, SymmetricDifference};
use std::alloc::Allocator;
use std::ops::BitXor;

impl<T: Integer, I: Draw<T>, A: Allocator, R: DrawDisjoint<T>> BitXor<R>
    for MultiwayUnion<T, I, A> {
    type Output = SymmetricDifference<T, MultiwayUnion<T, I, A>, R>;

    ghost can_bitxor = { CanDrawBoth ⟦<MultiwayUnion<T, I, A> as Draw<T>>⟧ R.Draw };

    ghost bitxor_gives = { MakesSymmetricDifference T.Integer.own
        ⟦<MultiwayUnion<T, I, A> as Draw<T>>⟧ R.Draw
        ⟦<SymmetricDifference<T, MultiwayUnion<T, I, A>, R> as Draw<T>>⟧ };

    fn bitxor(self, other: R) -> Self::Output {
        SymmetricDifference::from((self, other))
    }
}

impl<T: Integer, I: Draw<T>, A: Allocator, R: DrawDisjoint<T>> BitXor<R>
    for MultiwayIntersection<T, I, A> {
    type Output = SymmetricDifference<T, MultiwayIntersection<T, I, A>, R>;

    ghost can_bitxor = { CanDrawBoth ⟦<MultiwayIntersection<T, I, A> as Draw<T>>⟧ R.Draw };

    ghost bitxor_gives = { MakesSymmetricDifference T.Integer.own
        ⟦<MultiwayIntersection<T, I, A> as Draw<T>>⟧ R.Draw
        ⟦<SymmetricDifference<T, MultiwayIntersection<T, I, A>, R> as Draw<T>>⟧ };

    fn bitxor(self, other: R) -> Self::Output {
        SymmetricDifference::from((self, other))
    }
}

impl<T: Integer, I: Draw<T>, A: Allocator, R: DrawDisjoint<T>> BitXor<R>
    for MultiwaySymmetricDifference<T, I, A> {
    type Output = SymmetricDifference<T, MultiwaySymmetricDifference<T, I, A>, R>;

    ghost can_bitxor = { CanDrawBoth ⟦<MultiwaySymmetricDifference<T, I, A> as Draw<T>>⟧ R.Draw };

    ghost bitxor_gives = { MakesSymmetricDifference T.Integer.own
        ⟦<MultiwaySymmetricDifference<T, I, A> as Draw<T>>⟧ R.Draw
        ⟦<SymmetricDifference<T, MultiwaySymmetricDifference<T, I, A>, R> as Draw<T>>⟧ };

    fn bitxor(self, other: R) -> Self::Output {
        SymmetricDifference::from((self, other))
    }
}

impl<T: Integer, I: Draw<T>, A: Allocator, R: DrawDisjoint<T>> BitXor<R>
    for MultiwayAtLeast<T, I, A> {
    type Output = SymmetricDifference<T, MultiwayAtLeast<T, I, A>, R>;

    ghost can_bitxor = { CanDrawBoth ⟦<MultiwayAtLeast<T, I, A> as Draw<T>>⟧ R.Draw };

    ghost bitxor_gives = { MakesSymmetricDifference T.Integer.own
        ⟦<MultiwayAtLeast<T, I, A> as Draw<T>>⟧ R.Draw
        ⟦<SymmetricDifference<T, MultiwayAtLeast<T, I, A>, R> as Draw<T>>⟧ };

    fn bitxor(self, other: R) -> Self::Output {
        SymmetricDifference::from((self, other))
    }
}

impl<T: Integer, A: Allocator, R: DrawDisjoint<T>> BitXor<R> for DynSortedDisjoint<T, A> {
    type Output = SymmetricDifference<T, DynSortedDisjoint<T, A>, R>;

    ghost can_bitxor = { CanDrawBoth ⟦<DynSortedDisjoint<T, A> as Draw<T>>⟧ R.Draw };

    ghost bitxor_gives = { MakesSymmetricDifference T.Integer.own
        ⟦<DynSortedDisjoint<T, A> as Draw<T>>⟧ R.Draw
        ⟦<SymmetricDifference<T, DynSortedDisjoint<T, A>, R> as Draw<T>>⟧ };

    fn bitxor(self, other: R) -> Self::Output {
        SymmetricDifference::from((self, other))
    }
}
