//! The operator `-` on results of operations on many streams and on `DynSortedDisjoint`: the
//! difference of two streams.

ghost use Rattle.rsb_streams.specs.Results.{CanDrawBoth, MakesDifference};

use crate::dyn_sorted_disjoint::DynSortedDisjoint;
use crate::multiway_at_least::MultiwayAtLeast;
use crate::multiway_sym_diff_set::MultiwaySymmetricDifference;
use crate::operation_results::{MultiwayIntersection, MultiwayUnion};
use rsb_integer::Integer;
use rsb_streams::{Difference, Draw, DrawDisjoint};
use std::alloc::Allocator;
use std::ops::Sub;

impl<T: Integer, I: Draw<T>, A: Allocator, R: DrawDisjoint<T>> Sub<R> for MultiwayUnion<T, I, A> {
    type Output = Difference<T, MultiwayUnion<T, I, A>, R>;

    ghost can_sub = { CanDrawBoth ⟦<MultiwayUnion<T, I, A> as Draw<T>>⟧ R.Draw };

    ghost sub_gives = { MakesDifference T.Integer.own ⟦<MultiwayUnion<T, I, A> as Draw<T>>⟧ R.Draw
        ⟦<Difference<T, MultiwayUnion<T, I, A>, R> as Draw<T>>⟧ };

    fn sub(self, other: R) -> Self::Output {
        Difference::from((self, other))
    }
}

impl<T: Integer, I: Draw<T>, A: Allocator, R: DrawDisjoint<T>> Sub<R>
    for MultiwayIntersection<T, I, A> {
    type Output = Difference<T, MultiwayIntersection<T, I, A>, R>;

    ghost can_sub = { CanDrawBoth ⟦<MultiwayIntersection<T, I, A> as Draw<T>>⟧ R.Draw };

    ghost sub_gives = { MakesDifference T.Integer.own
        ⟦<MultiwayIntersection<T, I, A> as Draw<T>>⟧ R.Draw
        ⟦<Difference<T, MultiwayIntersection<T, I, A>, R> as Draw<T>>⟧ };

    fn sub(self, other: R) -> Self::Output {
        Difference::from((self, other))
    }
}

impl<T: Integer, I: Draw<T>, A: Allocator, R: DrawDisjoint<T>> Sub<R>
    for MultiwaySymmetricDifference<T, I, A> {
    type Output = Difference<T, MultiwaySymmetricDifference<T, I, A>, R>;

    ghost can_sub = { CanDrawBoth ⟦<MultiwaySymmetricDifference<T, I, A> as Draw<T>>⟧ R.Draw };

    ghost sub_gives = { MakesDifference T.Integer.own
        ⟦<MultiwaySymmetricDifference<T, I, A> as Draw<T>>⟧ R.Draw
        ⟦<Difference<T, MultiwaySymmetricDifference<T, I, A>, R> as Draw<T>>⟧ };

    fn sub(self, other: R) -> Self::Output {
        Difference::from((self, other))
    }
}

impl<T: Integer, I: Draw<T>, A: Allocator, R: DrawDisjoint<T>> Sub<R> for MultiwayAtLeast<T, I, A> {
    type Output = Difference<T, MultiwayAtLeast<T, I, A>, R>;

    ghost can_sub = { CanDrawBoth ⟦<MultiwayAtLeast<T, I, A> as Draw<T>>⟧ R.Draw };

    ghost sub_gives = { MakesDifference T.Integer.own ⟦<MultiwayAtLeast<T, I, A> as Draw<T>>⟧ R.Draw
        ⟦<Difference<T, MultiwayAtLeast<T, I, A>, R> as Draw<T>>⟧ };

    fn sub(self, other: R) -> Self::Output {
        Difference::from((self, other))
    }
}

impl<T: Integer, A: Allocator, R: DrawDisjoint<T>> Sub<R> for DynSortedDisjoint<T, A> {
    type Output = Difference<T, DynSortedDisjoint<T, A>, R>;

    ghost can_sub = { CanDrawBoth ⟦<DynSortedDisjoint<T, A> as Draw<T>>⟧ R.Draw };

    ghost sub_gives = { MakesDifference T.Integer.own ⟦<DynSortedDisjoint<T, A> as Draw<T>>⟧ R.Draw
        ⟦<Difference<T, DynSortedDisjoint<T, A>, R> as Draw<T>>⟧ };

    fn sub(self, other: R) -> Self::Output {
        Difference::from((self, other))
    }
}
