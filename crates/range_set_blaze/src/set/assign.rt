//! Intersection, difference and symmetric difference with another set, which replace the set
//! (docs/DECISIONS.md, assigned-anew).

ghost use Rattle.std.specs.Prelude.{◌≡◌, IsOk, OnErr, OnOk};
ghost use Rattle.rsb_integer.specs.Runs.{members};
ghost use Rattle.rsb_integer.specs.Selection.{
  difference,
  intersection,
  symmetric_difference,
  IsEmpty,
};
ghost use Rattle.rsb_streams.specs.RunCount.{HasFewerRunsThanBoth, HasRunsOfBothAtMost};
ghost use Rattle.rsb_storage.specs.Set.{IsSetOf};

use crate::set::RangeSetBlaze;
use rsb_integer::Integer;
use std::alloc::{AllocError, Allocator};

impl<T: Integer, A: Allocator + Copy> RangeSetBlaze<T, A> {
    /// Keeps only the members that are also in another set, in one pass over both sets. If
    /// allocation fails, the set is unchanged. Does not allocate if either set is empty. Write
    /// `a.bitand_assign(&b)?` for `a &= &b`. Not in range-set-blaze.
    pub fn bitand_assign<B: Allocator>(
        &mut self,
        other: &RangeSetBlaze<T, B>,
    ) -> Result<(), AllocError>
        ensures members { OnOk result
            (IsSetOf self.new (intersection (members self.old) (members other.now))) }
        ensures run_count { OnOk result (HasFewerRunsThanBoth self.old other.now self.new) }
        ensures err { OnErr result (self.new ≡ self.old) }
        ensures nothing { IsEmpty (members self.old) → IsOk result }
        ensures with_nothing { IsEmpty (members other.now) → IsOk result }
    {
        if self.is_empty() || other.is_empty() {
            self.clear();
            return Ok(());
        }
        *self = self.bitand(other)?;
        Ok(())
    }

    /// Removes the members of another set, in one pass over both sets. If allocation fails, the set
    /// is unchanged. Does not allocate if either set is empty. Write `a.sub_assign(&b)?` for
    /// `a -= &b`. Not in range-set-blaze.
    pub fn sub_assign<B: Allocator>(
        &mut self,
        other: &RangeSetBlaze<T, B>,
    ) -> Result<(), AllocError>
        ensures members { OnOk result
            (IsSetOf self.new (difference (members self.old) (members other.now))) }
        ensures run_count { OnOk result (HasRunsOfBothAtMost self.old other.now self.new) }
        ensures err { OnErr result (self.new ≡ self.old) }
        ensures nothing { IsEmpty (members self.old) → IsOk result }
        ensures with_nothing { IsEmpty (members other.now) → IsOk result }
    {
        if self.is_empty() || other.is_empty() {
            return Ok(());
        }
        *self = self.sub(other)?;
        Ok(())
    }

    /// Keeps the members that another set lacks, and adds those that only the other set has, in one
    /// pass over both sets. If allocation fails, the set is unchanged. Does not allocate if the
    /// other set is empty. Write `a.bitxor_assign(&b)?` for `a ^= &b`. Not in range-set-blaze.
    pub fn bitxor_assign<B: Allocator>(
        &mut self,
        other: &RangeSetBlaze<T, B>,
    ) -> Result<(), AllocError>
        ensures members { OnOk result
            (IsSetOf self.new (symmetric_difference (members self.old) (members other.now))) }
        ensures run_count { OnOk result (HasRunsOfBothAtMost self.old other.now self.new) }
        ensures err { OnErr result (self.new ≡ self.old) }
        ensures with_nothing { IsEmpty (members other.now) → IsOk result }
    {
        if other.is_empty() {
            return Ok(());
        }
        *self = self.bitxor(other)?;
        Ok(())
    }
}
