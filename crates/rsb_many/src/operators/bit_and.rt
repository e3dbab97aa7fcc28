//! The operator `&` on results of operations on many streams and on `DynSortedDisjoint`: the
//! intersection of two streams.

ghost use Rattle.rsb_streams.specs.Results.{CanDrawBoth, MakesIntersection};

use crate::dyn_sorted_disjoint::DynSortedDisjoint;
use crate::multiway_at_least::MultiwayAtLeast;
use crate::multiway_sym_diff_set::MultiwaySymmetricDifference;
use crate::operation_results::{MultiwayIntersection, MultiwayUnion};
use rsb_integer::Integer;
use rsb_streams::{Draw, DrawDisjoint, Intersection};
use std::alloc::Allocator;
use std::ops::BitAnd;

impl<T: Integer, I: Draw<T>, A: Allocator, R: DrawDisjoint<T>> BitAnd<R>
    for MultiwayUnion<T, I, A> {
    type Output = Intersection<T, MultiwayUnion<T, I, A>, R>;

    ghost can_bitand = { CanDrawBoth ⟦<MultiwayUnion<T, I, A> as Draw<T>>⟧ R.Draw };

    ghost bitand_gives = { MakesIntersection T.Integer.own
        ⟦<MultiwayUnion<T, I, A> as Draw<T>>⟧ R.Draw
        ⟦<Intersection<T, MultiwayUnion<T, I, A>, R> as Draw<T>>⟧ };

    fn bitand(self, other: R) -> Self::Output {
        Intersection::from((self, other))
    }
}

impl<T: Integer, I: Draw<T>, A: Allocator, R: DrawDisjoint<T>> BitAnd<R>
    for MultiwayIntersection<T, I, A> {
    type Output = Intersection<T, MultiwayIntersection<T, I, A>, R>;

    ghost can_bitand = { CanDrawBoth ⟦<MultiwayIntersection<T, I, A> as Draw<T>>⟧ R.Draw };

    ghost bitand_gives = { MakesIntersection T.Integer.own
        ⟦<MultiwayIntersection<T, I, A> as Draw<T>>⟧ R.Draw
        ⟦<Intersection<T, MultiwayIntersection<T, I, A>, R> as Draw<T>>⟧ };

    fn bitand(self, other: R) -> Self::Output {
        Intersection::from((self, other))
    }
}

impl<T: Integer, I: Draw<T>, A: Allocator, R: DrawDisjoint<T>> BitAnd<R>
    for MultiwaySymmetricDifference<T, I, A> {
    type Output = Intersection<T, MultiwaySymmetricDifference<T, I, A>, R>;

    ghost can_bitand = { CanDrawBoth ⟦<MultiwaySymmetricDifference<T, I, A> as Draw<T>>⟧ R.Draw };

    ghost bitand_gives = { MakesIntersection T.Integer.own
        ⟦<MultiwaySymmetricDifference<T, I, A> as Draw<T>>⟧ R.Draw
        ⟦<Intersection<T, MultiwaySymmetricDifference<T, I, A>, R> as Draw<T>>⟧ };

    fn bitand(self, other: R) -> Self::Output {
        Intersection::from((self, other))
    }
}

impl<T: Integer, I: Draw<T>, A: Allocator, R: DrawDisjoint<T>> BitAnd<R>
    for MultiwayAtLeast<T, I, A> {
    type Output = Intersection<T, MultiwayAtLeast<T, I, A>, R>;

    ghost can_bitand = { CanDrawBoth ⟦<MultiwayAtLeast<T, I, A> as Draw<T>>⟧ R.Draw };

    ghost bitand_gives = { MakesIntersection T.Integer.own
        ⟦<MultiwayAtLeast<T, I, A> as Draw<T>>⟧ R.Draw
        ⟦<Intersection<T, MultiwayAtLeast<T, I, A>, R> as Draw<T>>⟧ };

    fn bitand(self, other: R) -> Self::Output {
        Intersection::from((self, other))
    }
}

impl<T: Integer, A: Allocator, R: DrawDisjoint<T>> BitAnd<R> for DynSortedDisjoint<T, A> {
    type Output = Intersection<T, DynSortedDisjoint<T, A>, R>;

    ghost can_bitand = { CanDrawBoth ⟦<DynSortedDisjoint<T, A> as Draw<T>>⟧ R.Draw };

    ghost bitand_gives = { MakesIntersection T.Integer.own
        ⟦<DynSortedDisjoint<T, A> as Draw<T>>⟧ R.Draw
        ⟦<Intersection<T, DynSortedDisjoint<T, A>, R> as Draw<T>>⟧ };

    fn bitand(self, other: R) -> Self::Output {
        Intersection::from((self, other))
    }
}
