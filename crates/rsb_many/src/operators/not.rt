//! The operator `!` on results of operations on many streams and on `DynSortedDisjoint`: the
//! complement of a stream.

ghost use Rattle.rsb_streams.specs.Results.{MakesComplementUndrawn};

use crate::dyn_sorted_disjoint::DynSortedDisjoint;
use crate::multiway_at_least::MultiwayAtLeast;
use crate::multiway_sym_diff_set::MultiwaySymmetricDifference;
use crate::operation_results::{MultiwayIntersection, MultiwayUnion};
use rsb_integer::Integer;
use rsb_streams::{Draw, NotIter};
use std::alloc::Allocator;
use std::ops::Not;

impl<T: Integer, I: Draw<T>, A: Allocator> Not for MultiwayUnion<T, I, A> {
    type Output = NotIter<T, MultiwayUnion<T, I, A>>;

    ghost can_not = { ⟦<MultiwayUnion<T, I, A> as Draw<T>>⟧.can_draw };

    ghost not_gives = { MakesComplementUndrawn T.Integer.own
        ⟦<MultiwayUnion<T, I, A> as Draw<T>>⟧
        ⟦<NotIter<T, MultiwayUnion<T, I, A>> as Draw<T>>⟧ };

    fn not(self) -> Self::Output {
        NotIter::from(self)
    }
}

impl<T: Integer, I: Draw<T>, A: Allocator> Not for MultiwayIntersection<T, I, A> {
    type Output = NotIter<T, MultiwayIntersection<T, I, A>>;

    ghost can_not = { ⟦<MultiwayIntersection<T, I, A> as Draw<T>>⟧.can_draw };

    ghost not_gives = { MakesComplementUndrawn T.Integer.own
        ⟦<MultiwayIntersection<T, I, A> as Draw<T>>⟧
        ⟦<NotIter<T, MultiwayIntersection<T, I, A>> as Draw<T>>⟧ };

    fn not(self) -> Self::Output {
        NotIter::from(self)
    }
}

impl<T: Integer, I: Draw<T>, A: Allocator> Not for MultiwaySymmetricDifference<T, I, A> {
    type Output = NotIter<T, MultiwaySymmetricDifference<T, I, A>>;

    ghost can_not = { ⟦<MultiwaySymmetricDifference<T, I, A> as Draw<T>>⟧.can_draw };

    ghost not_gives = { MakesComplementUndrawn T.Integer.own
        ⟦<MultiwaySymmetricDifference<T, I, A> as Draw<T>>⟧
        ⟦<NotIter<T, MultiwaySymmetricDifference<T, I, A>> as Draw<T>>⟧ };

    fn not(self) -> Self::Output {
        NotIter::from(self)
    }
}

impl<T: Integer, I: Draw<T>, A: Allocator> Not for MultiwayAtLeast<T, I, A> {
    type Output = NotIter<T, MultiwayAtLeast<T, I, A>>;

    ghost can_not = { ⟦<MultiwayAtLeast<T, I, A> as Draw<T>>⟧.can_draw };

    ghost not_gives = { MakesComplementUndrawn T.Integer.own
        ⟦<MultiwayAtLeast<T, I, A> as Draw<T>>⟧
        ⟦<NotIter<T, MultiwayAtLeast<T, I, A>> as Draw<T>>⟧ };

    fn not(self) -> Self::Output {
        NotIter::from(self)
    }
}

impl<T: Integer, A: Allocator> Not for DynSortedDisjoint<T, A> {
    type Output = NotIter<T, DynSortedDisjoint<T, A>>;

    ghost can_not = { ⟦<DynSortedDisjoint<T, A> as Draw<T>>⟧.can_draw };

    ghost not_gives = { MakesComplementUndrawn T.Integer.own
        ⟦<DynSortedDisjoint<T, A> as Draw<T>>⟧
        ⟦<NotIter<T, DynSortedDisjoint<T, A>> as Draw<T>>⟧ };

    fn not(self) -> Self::Output {
        NotIter::from(self)
    }
}
