//! Operations on streams of different types, built by the macros.

ghost use Rattle.std.specs.Prelude.{IfOk};

use rsb_integer::Integer;
use rsb_many::{
    DynSortedDisjoint, MultiwaySymmetricDifference, MultiwayUnion, symmetric_difference_dyn,
    union_dyn,
};
use rsb_streams::{Draw, DrawDisjoint};
use std::alloc::{AllocError, Allocator};

/// Returns the union of two streams of any types.
pub fn some_of_two<T: Integer, I: DrawDisjoint<T>, J: DrawDisjoint<T>, A: Allocator + Copy>(
    alloc: A,
    streams: (I, J),
) -> Result<MultiwayUnion<T, DynSortedDisjoint<T, A>, A>, AllocError>
    requires { (I.can_draw streams.0) × (J.can_draw streams.1) }
    ensures { IfOk result ⟦<MultiwayUnion<T, DynSortedDisjoint<T, A>, A> as Draw<T>>⟧.can_draw }
{
    union_dyn!(alloc, streams.0, streams.1)
}

/// Returns the symmetric difference of three streams of any types: the values in an odd number of
/// them.
pub fn odd_of_three<
    T: Integer,
    I: DrawDisjoint<T>,
    J: DrawDisjoint<T>,
    K: DrawDisjoint<T>,
    A: Allocator + Copy,
>(
    alloc: A,
    streams: (I, J, K),
) -> Result<MultiwaySymmetricDifference<T, DynSortedDisjoint<T, A>, A>, AllocError>
    requires { (I.can_draw streams.0) × (J.can_draw streams.1) × (K.can_draw streams.2) }
    ensures { IfOk result
        ⟦<MultiwaySymmetricDifference<T, DynSortedDisjoint<T, A>, A> as Draw<T>>⟧.can_draw }
{
    symmetric_difference_dyn!(alloc, streams.0, streams.1, streams.2)
}
