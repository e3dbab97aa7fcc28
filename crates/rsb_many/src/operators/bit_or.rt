//! The operator `|` on results of operations on many streams and on `DynSortedDisjoint`: the union
//! of two streams.

ghost use Rattle.rsb_streams.specs.Results.{CanDrawBoth, MakesUnionUndrawn};

use crate::dyn_sorted_disjoint::DynSortedDisjoint;
use crate::multiway_at_least::MultiwayAtLeast;
use crate::multiway_sym_diff_set::MultiwaySymmetricDifference;
use crate::operation_results::{MultiwayIntersection, MultiwayUnion};
use rsb_integer::Integer;
use rsb_streams::{Draw, DrawDisjoint, Union};
use std::alloc::Allocator;
use std::ops::BitOr;

impl<T: Integer, I: Draw<T>, A: Allocator, R: DrawDisjoint<T>> BitOr<R> for MultiwayUnion<T, I, A> {
    type Output = Union<T, MultiwayUnion<T, I, A>, R>;

    ghost can_bitor = { CanDrawBoth ⟦<MultiwayUnion<T, I, A> as Draw<T>>⟧ R.Draw };

    ghost bitor_gives = { MakesUnionUndrawn T.Integer.own
        ⟦<MultiwayUnion<T, I, A> as Draw<T>>⟧ R.Draw
        ⟦<Union<T, MultiwayUnion<T, I, A>, R> as Draw<T>>⟧ };

    fn bitor(self, other: R) -> Self::Output {
        Union::from((self, other))
    }
}

impl<T: Integer, I: Draw<T>, A: Allocator, R: DrawDisjoint<T>> BitOr<R>
    for MultiwayIntersection<T, I, A> {
    type Output = Union<T, MultiwayIntersection<T, I, A>, R>;

    ghost can_bitor = { CanDrawBoth ⟦<MultiwayIntersection<T, I, A> as Draw<T>>⟧ R.Draw };

    ghost bitor_gives = { MakesUnionUndrawn T.Integer.own
        ⟦<MultiwayIntersection<T, I, A> as Draw<T>>⟧ R.Draw
        ⟦<Union<T, MultiwayIntersection<T, I, A>, R> as Draw<T>>⟧ };

    fn bitor(self, other: R) -> Self::Output {
        Union::from((self, other))
    }
}

impl<T: Integer, I: Draw<T>, A: Allocator, R: DrawDisjoint<T>> BitOr<R>
    for MultiwaySymmetricDifference<T, I, A> {
    type Output = Union<T, MultiwaySymmetricDifference<T, I, A>, R>;

    ghost can_bitor = { CanDrawBoth ⟦<MultiwaySymmetricDifference<T, I, A> as Draw<T>>⟧ R.Draw };

    ghost bitor_gives = { MakesUnionUndrawn T.Integer.own
        ⟦<MultiwaySymmetricDifference<T, I, A> as Draw<T>>⟧ R.Draw
        ⟦<Union<T, MultiwaySymmetricDifference<T, I, A>, R> as Draw<T>>⟧ };

    fn bitor(self, other: R) -> Self::Output {
        Union::from((self, other))
    }
}

impl<T: Integer, I: Draw<T>, A: Allocator, R: DrawDisjoint<T>> BitOr<R>
    for MultiwayAtLeast<T, I, A> {
    type Output = Union<T, MultiwayAtLeast<T, I, A>, R>;

    ghost can_bitor = { CanDrawBoth ⟦<MultiwayAtLeast<T, I, A> as Draw<T>>⟧ R.Draw };

    ghost bitor_gives = { MakesUnionUndrawn T.Integer.own
        ⟦<MultiwayAtLeast<T, I, A> as Draw<T>>⟧ R.Draw
        ⟦<Union<T, MultiwayAtLeast<T, I, A>, R> as Draw<T>>⟧ };

    fn bitor(self, other: R) -> Self::Output {
        Union::from((self, other))
    }
}

impl<T: Integer, A: Allocator, R: DrawDisjoint<T>> BitOr<R> for DynSortedDisjoint<T, A> {
    type Output = Union<T, DynSortedDisjoint<T, A>, R>;

    ghost can_bitor = { CanDrawBoth ⟦<DynSortedDisjoint<T, A> as Draw<T>>⟧ R.Draw };

    ghost bitor_gives = { MakesUnionUndrawn T.Integer.own
        ⟦<DynSortedDisjoint<T, A> as Draw<T>>⟧ R.Draw
        ⟦<Union<T, DynSortedDisjoint<T, A>, R> as Draw<T>>⟧ };

    fn bitor(self, other: R) -> Self::Output {
        Union::from((self, other))
    }
}
