//! Removal of the values between two bounds.

ghost use Rattle.std.specs.Prelude.{
  ◌≡◌,
  ◌↔◌,
  ◌+◌,
  ◌<◌,
  ◌≤◌,
  IfOk,
  IsFalse,
  IsOk,
  IsTrue,
  MatchOption,
  OnErr,
  OnOk,
};
ghost use Rattle.rsb_integer.specs.Runs.{covers, members, IsCanonicalIn};
ghost use Rattle.rsb_integer.specs.Selection.{intersection, IsEmpty};
ghost use Rattle.rsb_storage.specs.Storage.{run_of, IsKept};
ghost use Rattle.range_set_blaze.specs.RemoveRanges.{
  HasSome,
  IsCommon,
  IsLastMeeting,
  IsNarrowed,
  IsSameOutside,
  Lacks,
  RemovesFound,
};
ghost use Rattle.rsb_streams.specs.RunCount.{HasOneRunMoreAtMost};
ghost use Rattle.rsb_storage.specs.Set.{past_rank, ranks_in, Removes};

use crate::set::RangeSetBlaze;
use crate::set::remove::cut;
use rsb_integer::Integer;
use rsb_storage::bounds::run_between;
use rsb_storage::lengths::subtract_length;
use rsb_storage::run::{Run, greater};
use rsb_storage::runs::Runs;
use std::alloc::{AllocError, Allocator};
use std::ops::RangeBounds;

impl<T: Integer, A: Allocator + Clone> RangeSetBlaze<T, A> {
    /// Removes the values between two bounds and returns whether any of them was a member. If the
    /// bounds are empty or reversed, nothing is removed. The set gains at most one run. If
    /// allocation fails, the set is unchanged.
    ///
    /// It takes O(log n) time on a set of n runs, and as much again for each run that it removes.
    ///
    /// What is removed is unspecified for a `RangeBounds` type whose own contract does not specify
    /// its bounds, and for a `RangeInclusive` that was iterated to its end. Not in range-set-blaze.
    pub fn ranges_remove<R: RangeBounds<T>>(&mut self, range: R) -> Result<bool, AllocError>
        ensures members { R.has_bounds range → OnOk result (Removes self.old self.new
            (ranks_in T.rank T.value_count R.start_bound R.end_bound range)) }
        ensures removed { R.has_bounds range → IfOk result (λ removed. IsTrue removed ↔
            HasSome (members self.old)
            (ranks_in T.rank T.value_count R.start_bound R.end_bound range)) }
        ensures unchanged { IfOk result (λ removed. IsFalse removed → self.new ≡ self.old) }
        ensures run_count { HasOneRunMoreAtMost self.old self.new }
        ensures err { OnErr result (self.new ≡ self.old) }

        // Does not allocate if no member lies between the bounds, or if the value right past the
        // upper bound is not a member or does not exist.
        ensures nothing { R.has_bounds range → IsEmpty (intersection (members self.old)
            (ranks_in T.rank T.value_count R.start_bound R.end_bound range)) → IsOk result }
        ensures succeeds { R.has_bounds range → Lacks T.value_count self.old
            (past_rank T.rank T.value_count (R.end_bound range)) → IsOk result }
    {
        let Some(run) = run_between(&range) else {
            return Ok(false);
        };
        self.remove_run(run)
    }

    /// Removes the values of a run, and returns whether any of them was a member. If allocation
    /// fails, the set is unchanged.
    pub(crate) fn remove_run(&mut self, run: Run<T>) -> Result<bool, AllocError>
        requires order { T.rank run.start ≤ T.rank run.end }
        requires value { T.rank run.end < T.value_count }
        ensures members { OnOk result
            (Removes self.old self.new (covers (run_of T.rank run))) }
        ensures removed { IfOk result (λ removed. IsTrue removed ↔
            HasSome (members self.old) (covers (run_of T.rank run))) }
        ensures unchanged { IfOk result (λ removed. IsFalse removed → self.new ≡ self.old) }
        ensures run_count { HasOneRunMoreAtMost self.old self.new }
        ensures err { OnErr result (self.new ≡ self.old) }
        ensures nothing { IsEmpty (intersection (members self.old) (covers (run_of T.rank run)))
            → IsOk result }
        ensures succeeds { Lacks T.value_count self.old (T.rank run.end + 1) → IsOk result }
    {
        let length = self.length;
        let Some(length) = remove_window(&mut self.runs, run, length)? else {
            return Ok(false);
        };
        self.length = length;
        Ok(true)
    }
}

// Removes the values of a window and returns the number of members that are left, or `None` if no
// value of the window is a member. `total` is the number of members before. If allocation fails,
// the runs are unchanged.
fn remove_window<T: Integer, A: Allocator + Clone>(
    runs: &mut Runs<T, A>,
    window: Run<T>,
    total: T::SafeLen,
) -> Result<Option<T::SafeLen>, AllocError>
    requires kept { IsKept T.value_count runs.old (T.SafeLen.number total) }
    requires order { T.rank window.start ≤ T.rank window.end }
    requires value { T.rank window.end < T.value_count }
    ensures found { IfOk result (RemovesFound T.SafeLen.number T.value_count (run_of T.rank window)
        runs.old runs.new) }
    ensures err { OnErr result (runs.new ≡ runs.old) }
    ensures nothing { IsEmpty (intersection (members runs.old) (covers (run_of T.rank window)))
        → IsOk result }
    ensures succeeds { Lacks T.value_count runs.old (T.rank window.end + 1) → IsOk result }
{
    let Some(last) = last_meeting(runs, window) else {
        return Ok(None);
    };
    let mut length = total;
    // The last run comes first, since keeping its part past the window may fail to allocate.
    remove_common(runs, last, window, &mut length)?;
    Ok(Some(remove_others(runs, window, length)))
}

/// Returns the last run that has a value in common with a window, or `None` if there is none.
pub(crate) fn last_meeting<T: Integer, A: Allocator>(
    runs: &Runs<T, A>,
    window: Run<T>,
) -> Option<Run<T>>
    requires canonical { IsCanonicalIn T.value_count runs.now }
    requires order { T.rank window.start ≤ T.rank window.end }
    requires value { T.rank window.end < T.value_count }
    ensures { MatchOption result (IsEmpty (intersection (members runs.now)
        (covers (run_of T.rank window)))) (λ run. IsLastMeeting runs.now (run_of T.rank window)
        (run_of T.rank run)) }
{
    let run = runs.up_to(window.end)?;
    if run.ends_before(window.start) {
        return None;
    }
    Some(run)
}

// Removes the values of a window whose last value is not a member, and returns the number of
// members that are left.
fn remove_others<T: Integer, A: Allocator + Clone>(
    runs: &mut Runs<T, A>,
    window: Run<T>,
    total: T::SafeLen,
) -> T::SafeLen
    requires kept { IsKept T.value_count runs.old (T.SafeLen.number total) }
    requires order { T.rank window.start ≤ T.rank window.end }
    requires value { T.rank window.end < T.value_count }
    requires ends { IsFalse (members runs.old (T.rank window.end)) }
    ensures kept { IsKept T.value_count runs.new (T.SafeLen.number result) }
    ensures outside { IsSameOutside (run_of T.rank window) runs.old runs.new }
    ensures none { IsEmpty (intersection (members runs.new) (covers (run_of T.rank window))) }
{
    let mut length = total;
    while let Some(run) = last_meeting(runs, window) {
        // No run extends past the window, so this does not allocate.
        remove_common(runs, run, window, &mut length).unwrap();
    }
    length
}

// Removes the values that a window has in common with the last run that it meets, and subtracts
// their number from `length`.
fn remove_common<T: Integer, A: Allocator + Clone>(
    runs: &mut Runs<T, A>,
    run: Run<T>,
    window: Run<T>,
    length: &mut T::SafeLen,
) -> Result<(), AllocError>
    requires kept { IsKept T.value_count runs.old (T.SafeLen.number length.old) }
    requires order { T.rank window.start ≤ T.rank window.end }
    requires value { T.rank window.end < T.value_count }
    requires meets { IsLastMeeting runs.old (run_of T.rank window) (run_of T.rank run) }
    ensures narrowed { OnOk result (IsNarrowed T.value_count (run_of T.rank window) runs.old
        runs.new (T.SafeLen.number length.new)) }
    ensures fewer { OnOk result (T.SafeLen.number length.new < T.SafeLen.number length.old) }
    ensures err { OnErr result (runs.new ≡ runs.old) }
    ensures succeeds { T.rank run.end ≤ T.rank window.end → IsOk result }
{
    let piece = common(run, window);
    cut(runs, run, piece)?;
    subtract_length(length, piece);
    Ok(())
}

// Returns the values that a run and a window have in common.
fn common<T: Integer>(run: Run<T>, window: Run<T>) -> Run<T>
    requires run { (T.rank run.start < T.value_count) × (T.rank run.end < T.value_count) }
    requires window { (T.rank window.start < T.value_count) × (T.rank window.end < T.value_count) }
    ensures { IsCommon (run_of T.rank run) (run_of T.rank window) (run_of T.rank result) }
{
    let start = greater(run.start, window.start);
    let end = if run.ends_before(window.end) {
        run.end
    } else {
        window.end
    };
    Run { start, end }
}
