//! Streams whose ranges were collected one stream after another, and the operations on them. The
//! macros `union_dyn!`, `intersection_dyn!` and `symmetric_difference_dyn!` call these functions.
//! None of them is in range-set-blaze.

ghost use Rattle.std.specs.Prelude.{All, IfOk, IsOkAnd};
ghost use Rattle.rsb_many.specs.DynSortedDisjoint.{TakesOneMore};
ghost use Rattle.rsb_many.specs.MultiwayBegun.{
  BeginsIntersection,
  BeginsSymmetricDifference,
  BeginsUnion,
};
ghost use Rattle.rsb_many.specs.MultiwayResults.{
  MakesMultiwayIntersection,
  MakesMultiwaySymmetricDifference,
  MakesMultiwayUnion,
};

use crate::dyn_sorted_disjoint::{DynSortedDisjoint, one_more_taken};
use crate::multiway::MultiwaySortedDisjoint;
use crate::multiway_sym_diff_set::MultiwaySymmetricDifference;
use crate::operation_results::{MultiwayIntersection, MultiwayUnion};
use rsb_integer::Integer;
use rsb_streams::{Draw, DrawDisjoint};
use std::alloc::{AllocError, Allocator};

/// Returns the streams collected so far, followed by one more, whose ranges it collects. All must
/// be ready. An earlier error is passed on. On an error it drops every stream.
pub fn with_one_more<T: Integer, A: Allocator + Copy, I: DrawDisjoint<T>>(
    alloc: A,
    taken: Result<Vec<DynSortedDisjoint<T, A>, A>, AllocError>,
    stream: I,
) -> Result<Vec<DynSortedDisjoint<T, A>, A>, AllocError>
    requires taken { IfOk taken (λ before.
        All ⟦<DynSortedDisjoint<T, A> as Draw<T>>⟧.can_draw before.items) }
    requires can { I.can_draw stream }
    ensures ready { IfOk result (λ streams.
        All ⟦<DynSortedDisjoint<T, A> as Draw<T>>⟧.can_draw streams.items) }
    ensures more { IfOk result (λ streams. IsOkAnd taken (λ before.
        TakesOneMore ⟦<DynSortedDisjoint<T, A> as Draw<T>>⟧.may_give (I.may_give stream)
        before.items streams.items)) }
{
    one_more_taken(alloc, taken?, stream)
}

/// Returns the union of the collected streams, which is empty if there are none. They must be
/// ready. An earlier error is passed on. If allocation fails, it drops every stream.
pub fn union_of_taken<T: Integer, A: Allocator + Copy>(
    alloc: A,
    taken: Result<Vec<DynSortedDisjoint<T, A>, A>, AllocError>,
) -> Result<MultiwayUnion<T, DynSortedDisjoint<T, A>, A>, AllocError>
    requires { IfOk taken (λ streams.
        All ⟦<DynSortedDisjoint<T, A> as Draw<T>>⟧.can_draw streams.items) }
    ensures ready { IfOk result
        ⟦<MultiwayUnion<T, DynSortedDisjoint<T, A>, A> as Draw<T>>⟧.can_draw }
    ensures made { IfOk result (λ union. IsOkAnd taken (λ streams.
        MakesMultiwayUnion T.Integer.own ⟦<DynSortedDisjoint<T, A> as Draw<T>>⟧
        ⟦<MultiwayUnion<T, DynSortedDisjoint<T, A>, A> as Draw<T>>⟧ streams.items union)) }
    ensures begun { IfOk result (λ union. IsOkAnd taken (λ streams.
        BeginsUnion T.Integer.own ⟦<DynSortedDisjoint<T, A> as Draw<T>>⟧
        ⟦<MultiwayUnion<T, DynSortedDisjoint<T, A>, A> as Draw<T>>⟧ streams.items union)) }
{
    MultiwaySortedDisjoint::union(taken?, alloc)
}

/// Returns the intersection of the collected streams, which has every value if there are no
/// streams. They must be ready. An earlier error is passed on. If allocation fails, it drops every
/// stream.
pub fn intersection_of_taken<T: Integer, A: Allocator + Copy>(
    alloc: A,
    taken: Result<Vec<DynSortedDisjoint<T, A>, A>, AllocError>,
) -> Result<MultiwayIntersection<T, DynSortedDisjoint<T, A>, A>, AllocError>
    requires { IfOk taken (λ streams.
        All ⟦<DynSortedDisjoint<T, A> as Draw<T>>⟧.can_draw streams.items) }
    ensures ready { IfOk result
        ⟦<MultiwayIntersection<T, DynSortedDisjoint<T, A>, A> as Draw<T>>⟧.can_draw }
    ensures made { IfOk result (λ intersection. IsOkAnd taken (λ streams.
        MakesMultiwayIntersection T.Integer.own ⟦<DynSortedDisjoint<T, A> as Draw<T>>⟧
        ⟦<MultiwayIntersection<T, DynSortedDisjoint<T, A>, A> as Draw<T>>⟧ streams.items
        intersection)) }
    ensures begun { IfOk result (λ intersection. IsOkAnd taken (λ streams.
        BeginsIntersection T.Integer.own ⟦<DynSortedDisjoint<T, A> as Draw<T>>⟧
        ⟦<MultiwayIntersection<T, DynSortedDisjoint<T, A>, A> as Draw<T>>⟧ streams.items
        intersection)) }
{
    MultiwaySortedDisjoint::intersection(taken?, alloc)
}

/// Returns the symmetric difference of the collected streams, which is empty if there are none.
/// They must be ready. An earlier error is passed on. If allocation fails, it drops every stream.
pub fn symmetric_difference_of_taken<T: Integer, A: Allocator + Copy>(
    alloc: A,
    taken: Result<Vec<DynSortedDisjoint<T, A>, A>, AllocError>,
) -> Result<MultiwaySymmetricDifference<T, DynSortedDisjoint<T, A>, A>, AllocError>
    requires { IfOk taken (λ streams.
        All ⟦<DynSortedDisjoint<T, A> as Draw<T>>⟧.can_draw streams.items) }
    ensures ready { IfOk result
        ⟦<MultiwaySymmetricDifference<T, DynSortedDisjoint<T, A>, A> as Draw<T>>⟧.can_draw }
    ensures made { IfOk result (λ difference. IsOkAnd taken (λ streams.
        MakesMultiwaySymmetricDifference T.Integer.own ⟦<DynSortedDisjoint<T, A> as Draw<T>>⟧
        ⟦<MultiwaySymmetricDifference<T, DynSortedDisjoint<T, A>, A> as Draw<T>>⟧ streams.items
        difference)) }
    ensures begun { IfOk result (λ difference. IsOkAnd taken (λ streams.
        BeginsSymmetricDifference T.Integer.own ⟦<DynSortedDisjoint<T, A> as Draw<T>>⟧
        ⟦<MultiwaySymmetricDifference<T, DynSortedDisjoint<T, A>, A> as Draw<T>>⟧ streams.items
        difference)) }
{
    MultiwaySortedDisjoint::symmetric_difference(taken?, alloc)
}
