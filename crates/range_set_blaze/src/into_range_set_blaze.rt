//! Conversion of streams into sets.

ghost use Rattle.std.specs.Prelude.{IfOk};

use crate::set::RangeSetBlaze;
use rsb_integer::Integer;
use rsb_streams::DrawDisjoint;
use std::alloc::{AllocError, Allocator};

/// Collects a stream of ranges into a set. A file must import this trait to call its method. Not in
/// range-set-blaze, where this is a method of `SortedDisjoint`.
pub trait IntoRangeSetBlaze<T: Integer>: DrawDisjoint<T> {
    /// Returns the set whose runs are the ranges of a ready stream. If allocation fails, no set is
    /// made.
    final fn into_range_set_blaze<A: Allocator + Copy>(
        self,
        alloc: A,
    ) -> Result<RangeSetBlaze<T, A>, AllocError>
    where
        Self: Sized,
        requires { Self.can_draw self }
        ensures runs { IfOk result (λ set. Self.may_give self set) }
    {
        RangeSetBlaze::from_sorted_disjoint(alloc, self)
    }
}

impl<T: Integer, I: DrawDisjoint<T>> IntoRangeSetBlaze<T> for I {}
