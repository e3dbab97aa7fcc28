//! Removal of values.

ghost use Rattle.std.specs.Prelude.{
  ◌≡◌,
  ◌↔◌,
  ◌+◌,
  ◌<◌,
  ◌≤◌,
  ℕ,
  [],
  Contains,
  IfOk,
  IfSome,
  IsFalse,
  IsNone,
  IsOk,
  IsSome,
  IsTrue,
  OnErr,
  OnOk,
};
ghost use Rattle.rsb_integer.specs.Runs.{members, IsCanonicalIn};
ghost use Rattle.range_set_blaze.specs.BothEnds.{TakesGreatest, TakesLeast};
ghost use Rattle.rsb_storage.specs.Storage.{run_of, IsKept};
ghost use Rattle.range_set_blaze.specs.Removal.{IsCutAbove, IsRemoved};
ghost use Rattle.rsb_streams.specs.RunCount.{HasOneRunMoreAtMost};
ghost use Rattle.rsb_storage.specs.Set.{only, IsLeast, Removes};

use crate::set::RangeSetBlaze;
use rsb_integer::Integer;
use rsb_storage::lengths::subtract_length;
use rsb_storage::run::{Run, is_below, known};
use rsb_storage::runs::Runs;
use std::alloc::{AllocError, Allocator};

impl<T: Integer, A: Allocator + Clone> RangeSetBlaze<T, A> {
    /// Removes a value and returns whether it was a member. The set gains at most one run. If
    /// allocation fails, the set is unchanged. (`RangeSetBlaze::remove`.)
    pub fn remove(&mut self, value: T) -> Result<bool, AllocError>
        ensures members { OnOk result (Removes self.old self.new (only (T.rank value))) }
        ensures removed { IfOk result (λ removed.
            IsTrue removed ↔ IsTrue (members self.old (T.rank value))) }
        ensures unchanged { IfOk result (λ removed. IsFalse removed → self.new ≡ self.old) }
        ensures run_count { HasOneRunMoreAtMost self.old self.new }
        ensures err { OnErr result (self.new ≡ self.old) }

        // Does not allocate if the value is not a member, or if it is the last value of its run.
        ensures absent { IsFalse (members self.old (T.rank value)) → IsOk result }
        ensures succeeds { IsFalse (members self.old (T.rank value + 1)) → IsOk result }
    {
        let length = self.length;
        let Some(length) = remove_value(&mut self.runs, known(value), length)? else {
            return Ok(false);
        };
        self.length = length;
        Ok(true)
    }

    /// Removes a value and returns it if it was a member. Otherwise returns `None`. The set gains
    /// at most one run. If allocation fails, the set is unchanged. (`RangeSetBlaze::take`.)
    pub fn take(&mut self, value: T) -> Result<Option<T>, AllocError>
        ensures members { OnOk result (Removes self.old self.new (only (T.rank value))) }
        ensures found { IfOk result (λ found.
            IsSome found ↔ IsTrue (members self.old (T.rank value))) }
        ensures value { IfOk result (λ found. IfSome found (λ member. member ≡ value)) }
        ensures unchanged { IfOk result (λ found. IsNone found → self.new ≡ self.old) }
        ensures run_count { HasOneRunMoreAtMost self.old self.new }
        ensures err { OnErr result (self.new ≡ self.old) }

        // Does not allocate if the value is not a member, or if it is the last value of its run.
        ensures absent { IsFalse (members self.old (T.rank value)) → IsOk result }
        ensures succeeds { IsFalse (members self.old (T.rank value + 1)) → IsOk result }
    {
        if self.remove(value)? {
            Ok(Some(value))
        } else {
            Ok(None)
        }
    }

    /// Removes the least member and returns it, or returns `None` if the set is empty. If
    /// allocation fails, the set is unchanged. (`RangeSetBlaze::pop_first`.)
    pub fn pop_first(&mut self) -> Result<Option<T>, AllocError>
        ensures none { IfOk result (λ found. IsNone found ↔ (self.old ≡ [])) }
        ensures unchanged { IfOk result (λ found. IsNone found → self.new ≡ self.old) }
        ensures takes { IfOk result (λ found.
            TakesLeast T.rank T.value_count (members self.old) found (members self.new)) }
        ensures err { OnErr result (self.new ≡ self.old) }

        // Does not allocate if the set is empty, or if its first run has only one member.
        ensures empty { self.old ≡ [] → IsOk result }
        ensures succeeds { (rank : ℕ) → IsLeast T.value_count (members self.old) rank
            → IsFalse (members self.old (rank + 1)) → IsOk result }
    {
        let Some(first) = self.first() else {
            return Ok(None);
        };
        self.remove(first)?;
        Ok(Some(first))
    }

    /// Removes the greatest member and returns it, or returns `None` if the set is empty. Does not
    /// allocate. (`RangeSetBlaze::pop_last`.)
    pub fn pop_last(&mut self) -> Option<T>
        ensures none { IsNone result ↔ (self.old ≡ []) }
        ensures unchanged { IsNone result → self.new ≡ self.old }
        ensures takes { TakesGreatest T.rank T.value_count (members self.old) result
            (members self.new) }
    {
        let last = self.last()?;
        // No run extends past the last value, so this does not allocate.
        self.remove(last).unwrap();
        Some(last)
    }
}

// Removes a value and returns the number of members that are left, or `None` if the value is not a
// member. `total` is the number of members before. If allocation fails, the runs are unchanged.
fn remove_value<T: Integer, A: Allocator + Clone>(
    runs: &mut Runs<T, A>,
    value: T,
    total: T::SafeLen,
) -> Result<Option<T::SafeLen>, AllocError>
    requires kept { IsKept T.value_count runs.old (T.SafeLen.number total) }
    requires value { T.rank value < T.value_count }
    ensures unchanged { IfOk result (λ found. IsNone found → runs.new ≡ runs.old) }
    ensures none { IfOk result (λ found. IsNone found → IsFalse (members runs.old (T.rank value))) }
    ensures some { IfOk result (λ found. IsSome found → IsTrue (members runs.old (T.rank value))) }
    ensures kept { IfOk result (λ found. IfSome found
        (λ length. IsKept T.value_count runs.new (T.SafeLen.number length))) }
    ensures removed { IfOk result (λ found. IsSome found
        → Removes runs.old runs.new (only (T.rank value))) }
    ensures err { OnErr result (runs.new ≡ runs.old) }
    ensures absent { IsFalse (members runs.old (T.rank value)) → IsOk result }
    ensures succeeds { IsFalse (members runs.old (T.rank value + 1)) → IsOk result }
{
    let Some(run) = runs.up_to(value) else {
        return Ok(None);
    };
    if run.ends_before(value) {
        return Ok(None);
    }
    let piece = Run::only(value);
    cut(runs, run, piece)?;
    let mut length = total;
    subtract_length(&mut length, piece);
    Ok(Some(length))
}

/// Removes consecutive values, given as `piece`, from the run that contains them. If allocation
/// fails, the runs are unchanged.
pub(crate) fn cut<T: Integer, A: Allocator + Clone>(
    runs: &mut Runs<T, A>,
    run: Run<T>,
    piece: Run<T>,
) -> Result<(), AllocError>
    requires canonical { IsCanonicalIn T.value_count runs.old }
    requires among { Contains runs.old (run_of T.rank run) }
    requires from { T.rank run.start ≤ T.rank piece.start }
    requires order { T.rank piece.start ≤ T.rank piece.end }
    requires to { T.rank piece.end ≤ T.rank run.end }
    ensures removed { OnOk result (IsRemoved T.value_count runs.old runs.new
        (run_of T.rank piece)) }
    ensures err { OnErr result (runs.new ≡ runs.old) }
    ensures succeeds { T.rank run.end ≤ T.rank piece.end → IsOk result }
{
    // The part above the piece is inserted first, since this may fail to allocate
    // (docs/DECISIONS.md, insert-at-start).
    put_above(runs, run, piece.end)?;
    if run.starts_before(piece.start) {
        let end = piece.start.sub_one();
        let start = run.start;
        runs.put(Run { start, end }).unwrap();
    } else {
        runs.remove(run.start);
    }
    Ok(())
}

// Inserts the part of a run above one of its values, if there is such a part. If allocation fails,
// the runs are unchanged.
fn put_above<T: Integer, A: Allocator + Clone>(
    runs: &mut Runs<T, A>,
    run: Run<T>,
    value: T,
) -> Result<(), AllocError>
    requires canonical { IsCanonicalIn T.value_count runs.old }
    requires among { Contains runs.old (run_of T.rank run) }
    requires from { T.rank run.start ≤ T.rank value }
    requires to { T.rank value ≤ T.rank run.end }
    ensures above { OnOk result (IsCutAbove T.value_count runs.old (run_of T.rank run)
        (T.rank value) runs.new) }
    ensures err { OnErr result (runs.new ≡ runs.old) }
    ensures succeeds { T.rank run.end ≤ T.rank value → IsOk result }
{
    if is_below(value, run.end) {
        let start = value.add_one();
        let end = run.end;
        runs.put(Run { start, end })?;
    }
    Ok(())
}
