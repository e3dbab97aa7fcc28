//! The part of a set between two bounds: its runs, its gaps, the number of its members, and whether
//! it has all values or none.

ghost use Rattle.std.specs.Prelude.{◌≡◌, ◌↔◌, ◌<◌, ◌≤◌, IsTrue};
ghost use Rattle.rsb_integer.specs.Rank.{intervals_of};
ghost use Rattle.rsb_integer.specs.Runs.{members, AreRuns, IsCanonicalIn, covers};
ghost use Rattle.rsb_integer.specs.Selection.{count, difference, intersection, IsEmpty};
ghost use Rattle.rsb_storage.specs.Set.{ranks_in, IsSetOf, HasAll};
ghost use Rattle.rsb_storage.specs.Storage.{run_of};

use crate::set::RangeSetBlaze;
use crate::set::remove_ranges::last_meeting;
use rsb_integer::Integer;
use rsb_storage::bounds::run_between;
use rsb_storage::gaps::{gaps_between, no_gaps};
use rsb_storage::gaps_in::GapsIn;
use rsb_storage::ranges_in::RangesIn;
use rsb_storage::run::Run;
use rsb_storage::runs::Runs;
use rsb_storage::windows::{no_runs, runs_between};
use rsb_streams::DrawDisjoint;
use std::alloc::Allocator;
use std::ops::RangeBounds;

impl<T: Integer, A: Allocator> RangeSetBlaze<T, A> {
    /// Returns the runs between two bounds in ascending order, as a double-ended iterator. A run
    /// that crosses a bound is shortened to its values between the bounds. If the bounds are empty
    /// or reversed, there are no runs. Does not allocate. The call takes O(log n) time on a set of
    /// n runs.
    ///
    /// What it yields is unspecified for a `RangeBounds` type whose own contract does not specify
    /// its bounds, and for a `RangeInclusive` that was iterated to its end. Not in range-set-blaze.
    pub fn ranges_in<'a, R: RangeBounds<T>>(&'a self, range: R) -> RangesIn<'a, T>
        ensures members { R.has_bounds range → IsSetOf (intervals_of T.rank result)
            (intersection (members self.now)
            (ranks_in T.rank T.value_count R.start_bound R.end_bound range)) }
        ensures ready { IsCanonicalIn T.value_count (intervals_of T.rank result) }
        ensures runs { R.has_bounds range → AreRuns T.value_count
            (intersection (members self.now)
            (ranks_in T.rank T.value_count R.start_bound R.end_bound range))
            (intervals_of T.rank result) }
    {
        match run_between(&range) {
            Some(window) => runs_between(&self.runs, window),
            None => no_runs(&self.runs),
        }
    }

    /// Returns the number of members between two bounds. Does not allocate. It takes O(log n) time
    /// on a set of n runs, plus a step for each run between the bounds.
    ///
    /// The contract says nothing about a `RangeBounds` type whose own contract does not specify its
    /// bounds, or about a `RangeInclusive` that was iterated to its end. Not in range-set-blaze.
    pub fn len_in<R: RangeBounds<T>>(&self, range: R) -> T::SafeLen
        ensures { R.has_bounds range → T.SafeLen.number result ≡ count T.value_count
            (intersection (members self.now)
            (ranks_in T.rank T.value_count R.start_bound R.end_bound range)) }
    {
        self.ranges_in(range).members_len()
    }

    /// Returns the gaps between two bounds in ascending order, as a double-ended iterator. Together
    /// they contain the values between the bounds that are not members. If the bounds are empty or
    /// reversed, there are no gaps. Does not allocate. The call takes O(log n) time on a set of n
    /// runs.
    ///
    /// What it yields is unspecified for a `RangeBounds` type whose own contract does not specify
    /// its bounds, and for a `RangeInclusive` that was iterated to its end. Not in range-set-blaze.
    pub fn gaps_in<'a, R: RangeBounds<T>>(&'a self, range: R) -> GapsIn<'a, T>
        ensures members { R.has_bounds range → IsSetOf (intervals_of T.rank result) (difference
            (ranks_in T.rank T.value_count R.start_bound R.end_bound range) (members self.now)) }
        ensures ready { IsCanonicalIn T.value_count (intervals_of T.rank result) }
        ensures runs { R.has_bounds range → AreRuns T.value_count (difference
            (ranks_in T.rank T.value_count R.start_bound R.end_bound range) (members self.now))
            (intervals_of T.rank result) }
    {
        match run_between(&range) {
            Some(window) => gaps_between(&self.runs, window),
            None => no_gaps(&self.runs),
        }
    }
}

impl<T: Integer, A: Allocator> RangeSetBlaze<T, A> {
    /// Returns whether every value between two bounds is a member. If the bounds are empty or
    /// reversed, the result is `true`. Takes O(log n) time on a set of n runs, and does not
    /// allocate.
    ///
    /// The contract says nothing about a `RangeBounds` type whose own contract does not specify its
    /// bounds, or about a `RangeInclusive` that was iterated to its end. Not in range-set-blaze.
    pub fn contains_range<R: RangeBounds<T>>(&self, range: R) -> bool
        ensures { R.has_bounds range → (IsTrue result ↔ HasAll self.now
            (ranks_in T.rank T.value_count R.start_bound R.end_bound range)) }
    {
        match run_between(&range) {
            Some(window) => has_run(&self.runs, window),
            None => true,
        }
    }

    /// Returns whether no value between two bounds is a member. If the bounds are empty or
    /// reversed, the result is `true`. Takes O(log n) time on a set of n runs, and does not
    /// allocate.
    ///
    /// The contract says nothing about a `RangeBounds` type whose own contract does not specify its
    /// bounds, or about a `RangeInclusive` that was iterated to its end. Not in range-set-blaze.
    pub fn is_disjoint_range<R: RangeBounds<T>>(&self, range: R) -> bool
        ensures { R.has_bounds range → (IsTrue result ↔ IsEmpty (intersection (members self.now)
            (ranks_in T.rank T.value_count R.start_bound R.end_bound range))) }
    {
        match run_between(&range) {
            Some(window) => lacks_run(&self.runs, window),
            None => true,
        }
    }
}

// Returns whether every value of a window is a member.
fn has_run<T: Integer, A: Allocator>(runs: &Runs<T, A>, window: Run<T>) -> bool
    requires canonical { IsCanonicalIn T.value_count runs.now }
    requires order { T.rank window.start ≤ T.rank window.end }
    requires value { T.rank window.end < T.value_count }
    ensures { IsTrue result ↔ HasAll runs.now (covers (run_of T.rank window)) }
{
    match runs.up_to(window.start) {
        Some(run) => !run.ends_before(window.end),
        None => false,
    }
}

// Returns whether no value of a window is a member.
fn lacks_run<T: Integer, A: Allocator>(runs: &Runs<T, A>, window: Run<T>) -> bool
    requires canonical { IsCanonicalIn T.value_count runs.now }
    requires order { T.rank window.start ≤ T.rank window.end }
    requires value { T.rank window.end < T.value_count }
    ensures { IsTrue result ↔ IsEmpty (intersection (members runs.now)
        (covers (run_of T.rank window))) }
{
    last_meeting(runs, window).is_none()
}
