//! Sets built from one set or from two.

ghost use Rattle.std.specs.Prelude.{◌≡◌, List, IfOk};
ghost use Rattle.rsb_integer.specs.Runs.{members, AreRuns, Interval};
ghost use Rattle.rsb_integer.specs.Selection.{
  difference,
  intersection,
  symmetric_difference,
  union,
  complement_in,
};
ghost use Rattle.rsb_streams.specs.Stream.{◌⊆◌, just};
ghost use Rattle.rsb_streams.specs.RunCount.{
  HasFewerRunsThanBoth,
  HasOneRunMoreAtMost,
  HasRunsOfBothAtMost,
};
ghost use Rattle.rsb_storage.specs.Set.{IsSetOf};

use crate::set::RangeSetBlaze;
use crate::set::disjoint_union::{chained, lies_below};
use crate::set::pieces::kept_of;
use rsb_integer::Integer;
use rsb_streams::DrawDisjoint;
use std::alloc::{AllocError, Allocator};

impl<T: Integer, A: Allocator + Copy> RangeSetBlaze<T, A> {
    /// Returns a copy of the set. If allocation fails, no set is made. (`Clone` of `RangeSetBlaze`:
    /// `set.clone()?`.)
    pub fn clone(&self) -> Result<Self, AllocError>
        ensures same { IfOk result (λ set. set ≡ self.now) }
    {
        let runs = self.runs.copied(self.alloc)?;
        Ok(RangeSetBlaze {
            runs,
            length: self.length,
            alloc: self.alloc,
        })
    }

    /// Returns the union of two sets: the values in either of them. Takes one pass over both. The
    /// result has at most as many runs as both sets together. If allocation fails, no set is made.
    /// (`BitOr` of `RangeSetBlaze`: `a.bitor(&b)?` for `&a | &b`.)
    pub fn bitor<B: Allocator>(&self, other: &RangeSetBlaze<T, B>) -> Result<Self, AllocError>
        ensures members { IfOk result (λ set.
            IsSetOf set (union (members self.now) (members other.now))) }
        ensures run_count { IfOk result (λ set. HasRunsOfBothAtMost self.now other.now set) }
    {
        if lies_below(self, other) {
            return chained(self.alloc, self, other);
        }
        if lies_below(other, self) {
            return chained(self.alloc, other, self);
        }
        union_of(self.alloc, self.ranges(), other.ranges())
    }

    /// Returns the intersection of two sets: the values in both of them. Takes one pass over both.
    /// If either set is empty, the result is empty; otherwise it has fewer runs than the two sets
    /// together. If allocation fails, no set is made. (`BitAnd` of `RangeSetBlaze`: `a.bitand(&b)?`
    /// for `&a & &b`.)
    pub fn bitand<B: Allocator>(&self, other: &RangeSetBlaze<T, B>) -> Result<Self, AllocError>
        ensures members { IfOk result (λ set.
            IsSetOf set (intersection (members self.now) (members other.now))) }
        ensures run_count { IfOk result (λ set. HasFewerRunsThanBoth self.now other.now set) }
    {
        kept_of(self.alloc, self, other, true)
    }

    /// Returns the difference of two sets: the values in this set that are not in the other. Takes
    /// one pass over both. The result has at most as many runs as both sets together. If allocation
    /// fails, no set is made. (`Sub` of `RangeSetBlaze`: `a.sub(&b)?` for `&a - &b`.)
    pub fn sub<B: Allocator>(&self, other: &RangeSetBlaze<T, B>) -> Result<Self, AllocError>
        ensures members { IfOk result (λ set.
            IsSetOf set (difference (members self.now) (members other.now))) }
        ensures run_count { IfOk result (λ set. HasRunsOfBothAtMost self.now other.now set) }
    {
        difference_of(self.alloc, self.ranges(), other.ranges())
    }

    /// Returns the symmetric difference of two sets: the values in exactly one of them. Takes one
    /// pass over both. The result has at most as many runs as both sets together. If allocation
    /// fails, no set is made. (`BitXor` of `RangeSetBlaze`: `a.bitxor(&b)?` for `&a ^ &b`.)
    pub fn bitxor<B: Allocator>(&self, other: &RangeSetBlaze<T, B>) -> Result<Self, AllocError>
        ensures members { IfOk result (λ set.
            IsSetOf set (symmetric_difference (members self.now) (members other.now))) }
        ensures run_count { IfOk result (λ set. HasRunsOfBothAtMost self.now other.now set) }
    {
        kept_of(self.alloc, self, other, false)
    }

    /// Returns the complement: the values that the set lacks. It has at most one more run than the
    /// set. If allocation fails, no set is made. (`Not` of `RangeSetBlaze`: `a.not()?` for `!&a`.)
    pub fn not(&self) -> Result<Self, AllocError>
        ensures members { IfOk result (λ set.
            IsSetOf set (complement_in T.value_count (members self.now))) }
        ensures run_count { IfOk result (λ set. HasOneRunMoreAtMost self.now set) }
    {
        Self::from_sorted_disjoint(self.alloc, self.ranges().complement())
    }
}

// Returns the union of two ready streams as a set.
fn union_of<T: Integer, A: Allocator + Copy, L: DrawDisjoint<T>, R: DrawDisjoint<T>>(
    alloc: A,
    left: L,
    right: R,
) -> Result<RangeSetBlaze<T, A>, AllocError>
    requires left { L.can_draw left }
    requires right { R.can_draw right }
    ensures members { (these those : List Interval) → L.may_give left ⊆ just these
        → R.may_give right ⊆ just those → AreRuns T.value_count (members these) these
        → AreRuns T.value_count (members those) those
        → IfOk result (λ set. IsSetOf set (union (members these) (members those))) }
    ensures run_count { (these those : List Interval) → L.may_give left ⊆ just these
        → R.may_give right ⊆ just those → AreRuns T.value_count (members these) these
        → AreRuns T.value_count (members those) those
        → IfOk result (HasRunsOfBothAtMost these those) }
{
    RangeSetBlaze::from_sorted_disjoint(alloc, left.union(right))
}

// Returns the intersection of two ready streams as a set.
pub(super) fn intersection_of<
    T: Integer,
    A: Allocator + Copy,
    L: DrawDisjoint<T>,
    R: DrawDisjoint<T>,
>(alloc: A, left: L, right: R) -> Result<RangeSetBlaze<T, A>, AllocError>
    requires left { L.can_draw left }
    requires right { R.can_draw right }
    ensures members { (these those : List Interval) → L.may_give left ⊆ just these
        → R.may_give right ⊆ just those → AreRuns T.value_count (members these) these
        → AreRuns T.value_count (members those) those
        → IfOk result (λ set. IsSetOf set (intersection (members these) (members those))) }
    ensures run_count { (these those : List Interval) → L.may_give left ⊆ just these
        → R.may_give right ⊆ just those → AreRuns T.value_count (members these) these
        → AreRuns T.value_count (members those) those
        → IfOk result (HasFewerRunsThanBoth these those) }
{
    RangeSetBlaze::from_sorted_disjoint(alloc, left.intersection(right))
}

// Returns the difference of two ready streams as a set.
fn difference_of<T: Integer, A: Allocator + Copy, L: DrawDisjoint<T>, R: DrawDisjoint<T>>(
    alloc: A,
    left: L,
    right: R,
) -> Result<RangeSetBlaze<T, A>, AllocError>
    requires left { L.can_draw left }
    requires right { R.can_draw right }
    ensures members { (these those : List Interval) → L.may_give left ⊆ just these
        → R.may_give right ⊆ just those → AreRuns T.value_count (members these) these
        → AreRuns T.value_count (members those) those
        → IfOk result (λ set. IsSetOf set (difference (members these) (members those))) }
    ensures run_count { (these those : List Interval) → L.may_give left ⊆ just these
        → R.may_give right ⊆ just those → AreRuns T.value_count (members these) these
        → AreRuns T.value_count (members those) those
        → IfOk result (HasRunsOfBothAtMost these those) }
{
    RangeSetBlaze::from_sorted_disjoint(alloc, left.difference(right))
}
