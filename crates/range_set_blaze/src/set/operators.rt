//! Std's operators on sets, and `Clone`. Each returns what the method of the same name returns.

ghost use Rattle.std.specs.Prelude.{◌≡◌, IfOk};
ghost use Rattle.rsb_integer.specs.Runs.{members};
ghost use Rattle.rsb_integer.specs.Selection.{
  difference,
  intersection,
  symmetric_difference,
  union,
  complement_in,
};
ghost use Rattle.rsb_streams.specs.RunCount.{
  HasFewerRunsThanBoth,
  HasOneRunMoreAtMost,
  HasRunsOfBothAtMost,
};
ghost use Rattle.rsb_storage.specs.Set.{IsSetOf};

use crate::set::RangeSetBlaze;
use rsb_integer::Integer;
use std::alloc::{AllocError, Allocator};
use std::ops::{BitAnd, BitOr, BitXor, Not, Sub};

/// `(&a | &b)?`: returns the values in either set. The result has at most as many runs as both sets
/// together. If allocation fails, no set is made.
impl<'a, 'b, T: Integer, A: Allocator + Copy, B: Allocator> BitOr<&'b RangeSetBlaze<T, B>>
    for &'a RangeSetBlaze<T, A> {
    type Output = Result<RangeSetBlaze<T, A>, AllocError>;

    ghost bitor_gives = { λ left right made. IfOk made (λ set.
        IsSetOf set (union (members left.now) (members right.now))) };

    fn bitor(self, other: &'b RangeSetBlaze<T, B>) -> Self::Output
        ensures members { IfOk result (λ set.
            IsSetOf set (union (members self.now) (members other.now))) }
        ensures run_count { IfOk result (λ set. HasRunsOfBothAtMost self.now other.now set) }
    {
        RangeSetBlaze::bitor(self, other)
    }
}

/// `(&a & &b)?`: returns the values in both sets. If either set is empty, the result is empty;
/// otherwise it has fewer runs than the two sets together. If allocation fails, no set is made.
impl<'a, 'b, T: Integer, A: Allocator + Copy, B: Allocator> BitAnd<&'b RangeSetBlaze<T, B>>
    for &'a RangeSetBlaze<T, A> {
    type Output = Result<RangeSetBlaze<T, A>, AllocError>;

    ghost bitand_gives = { λ left right made. IfOk made (λ set.
        IsSetOf set (intersection (members left.now) (members right.now))) };

    fn bitand(self, other: &'b RangeSetBlaze<T, B>) -> Self::Output
        ensures members { IfOk result (λ set.
            IsSetOf set (intersection (members self.now) (members other.now))) }
        ensures run_count { IfOk result (λ set. HasFewerRunsThanBoth self.now other.now set) }
    {
        RangeSetBlaze::bitand(self, other)
    }
}

/// `(&a - &b)?`: returns the values in the first set that are not in the second. The result has at
/// most as many runs as both sets together. If allocation fails, no set is made.
impl<'a, 'b, T: Integer, A: Allocator + Copy, B: Allocator> Sub<&'b RangeSetBlaze<T, B>>
    for &'a RangeSetBlaze<T, A> {
    type Output = Result<RangeSetBlaze<T, A>, AllocError>;

    ghost sub_gives = { λ left right made. IfOk made (λ set.
        IsSetOf set (difference (members left.now) (members right.now))) };

    fn sub(self, other: &'b RangeSetBlaze<T, B>) -> Self::Output
        ensures members { IfOk result (λ set.
            IsSetOf set (difference (members self.now) (members other.now))) }
        ensures run_count { IfOk result (λ set. HasRunsOfBothAtMost self.now other.now set) }
    {
        RangeSetBlaze::sub(self, other)
    }
}

/// `(&a ^ &b)?`: returns the values in exactly one of the sets. The result has at most as many runs
/// as both sets together. If allocation fails, no set is made.
impl<'a, 'b, T: Integer, A: Allocator + Copy, B: Allocator> BitXor<&'b RangeSetBlaze<T, B>>
    for &'a RangeSetBlaze<T, A> {
    type Output = Result<RangeSetBlaze<T, A>, AllocError>;

    ghost bitxor_gives = { λ left right made. IfOk made (λ set.
        IsSetOf set (symmetric_difference (members left.now) (members right.now))) };

    fn bitxor(self, other: &'b RangeSetBlaze<T, B>) -> Self::Output
        ensures members { IfOk result (λ set.
            IsSetOf set (symmetric_difference (members self.now) (members other.now))) }
        ensures run_count { IfOk result (λ set. HasRunsOfBothAtMost self.now other.now set) }
    {
        RangeSetBlaze::bitxor(self, other)
    }
}

/// `(!&a)?`: returns the values that the set lacks. The result has at most one more run than the
/// set. If allocation fails, no set is made.
impl<'a, T: Integer, A: Allocator + Copy> Not for &'a RangeSetBlaze<T, A> {
    type Output = Result<RangeSetBlaze<T, A>, AllocError>;

    ghost not_gives = { λ set made. IfOk made (λ lacking.
        IsSetOf lacking (complement_in T.value_count (members set.now))) };

    fn not(self) -> Self::Output
        ensures members { IfOk result (λ lacking.
            IsSetOf lacking (complement_in T.value_count (members self.now))) }
        ensures run_count { IfOk result (λ lacking. HasOneRunMoreAtMost self.now lacking) }
    {
        RangeSetBlaze::not(self)
    }
}

/// `set.clone()?`: returns a copy with the same runs. If allocation fails, no set is made.
impl<T: Integer, A: Allocator + Copy> Clone for RangeSetBlaze<T, A> {
    ghost is_clone = { λ set copy. copy ≡ set };

    fn clone(&self) -> Result<Self, AllocError> {
        RangeSetBlaze::clone(self)
    }
}
