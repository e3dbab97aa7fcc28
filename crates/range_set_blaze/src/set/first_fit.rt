//! The first gap, or the first run, that has at least a given length.

ghost use Rattle.std.specs.Prelude.{
  ◌≡◌,
  ◌↔◌,
  ℕ,
  ◌+◌,
  ◌<◌,
  ◌≤◌,
  IfSome,
  IsFalse,
  IsNone,
  IsTrue,
  MatchOption,
};
ghost use Rattle.std.specs.Range.{range_inclusive_end, range_inclusive_start};
ghost use Rattle.rsb_integer.specs.Rank.{interval_of};
ghost use Rattle.rsb_integer.specs.Runs.{
  covers,
  from_to,
  length_of,
  members,
  AllEndBelow,
  IsCanonicalFrom,
  IsCanonicalIn,
  IsMaximalRun,
};
ghost use Rattle.rsb_integer.specs.Selection.{complement, intersection, IsEmpty, IsUniversal};
ghost use Rattle.rsb_storage.specs.FirstFit.{
  AllShorter,
  AllShorterBefore,
  HasAllFrom,
  IsFirstFit,
  IsFree,
};
ghost use Rattle.rsb_storage.specs.Storage.{run_of, runs_of};
ghost use Rattle.rsb_storage.specs.Split.{from_on};
ghost use Rattle.rsb_storage.specs.Starts.{runs_past};

use crate::set::RangeSetBlaze;
use rsb_integer::Integer;
use rsb_storage::entries::{next_in_range, next_run};
use rsb_storage::gaps::first_free;
use rsb_storage::run::{Run, known};
use rsb_storage::runs::Runs;
use std::alloc::Allocator;
use std::collections::btree_map::Range;
use std::ops::{Bound, RangeInclusive};

impl<T: Integer, A: Allocator> RangeSetBlaze<T, A> {
    /// Returns the first gap that has at least `len` values, or `None` if every gap is shorter. It
    /// returns the whole gap, which extends to the runs beside it or to the ends of the type. Does
    /// not allocate. The cost is linear in the number of runs up to the gap. Not in
    /// range-set-blaze.
    pub fn first_gap(&self, len: T::SafeLen) -> Option<RangeInclusive<T>>
        ensures gap { IfSome result (λ range. IsMaximalRun T.value_count
            (complement (members self.now)) (interval_of T.rank range)) }
        ensures long { IfSome result (λ range.
            T.SafeLen.number len ≤ length_of (interval_of T.rank range)) }
        ensures first { IfSome result (λ range. AllShorterBefore T.value_count
            (complement (members self.now)) (T.SafeLen.number len)
            (interval_of T.rank range).first) }
        ensures none { IsNone result → AllShorter T.value_count (complement (members self.now))
            (T.SafeLen.number len) }

        // The same facts about blocks of `len` values, as a table of free space needs them.
        ensures fits { IfSome result (λ range. IsFree T.value_count self.now
            (T.rank (range_inclusive_start range)) (T.SafeLen.number len)) }
        ensures lowest { IfSome result (λ range. (start : ℕ)
            → start < T.rank (range_inclusive_start range) → 0 < T.SafeLen.number len
            → ¬ (IsFree T.value_count self.now start (T.SafeLen.number len))) }
        ensures nowhere { IsNone result → (start : ℕ) → 0 < T.SafeLen.number len
            → ¬ (IsFree T.value_count self.now start (T.SafeLen.number len)) }

        // If `len` is at most 1, every value before the gap is a member. There is then no gap
        // exactly if every value of the type is a member.
        ensures before { T.SafeLen.number len ≤ 1 → IfSome result (λ range. (rank : ℕ)
            → rank < T.rank (range_inclusive_start range) → IsTrue (members self.now rank)) }
        ensures full { T.SafeLen.number len ≤ 1
            → IsNone result ↔ IsUniversal T.value_count (members self.now) }

        // The range in terms of its two ends, and the fact that none of its values is a member.
        ensures ends { IfSome result (λ range. interval_of T.rank range
            ≡ from_to (T.rank (range_inclusive_start range)) (T.rank (range_inclusive_end range))) }
        ensures free { IfSome result (λ range. (rank : ℕ)
            → IsTrue (covers (interval_of T.rank range) rank) → IsFalse (members self.now rank)) }
    {
        self.first_gap_from(T::min_value(), len)
    }

    /// Returns the first gap with at least `len` values at or above `value`, or `None` if there is
    /// none. If the gap starts below `value`, only its part at or above `value` counts, and only
    /// that part is returned. Does not allocate. It takes O(log n) time on a set of n runs, plus
    /// time linear in the number of runs between `value` and the gap. Not in range-set-blaze.
    pub fn first_gap_from(&self, value: T, len: T::SafeLen) -> Option<RangeInclusive<T>>
        ensures gap { IfSome result (λ range. IsMaximalRun T.value_count
            (intersection (complement (members self.now)) (from_on (T.rank value)))
            (interval_of T.rank range)) }
        ensures long { IfSome result (λ range.
            T.SafeLen.number len ≤ length_of (interval_of T.rank range)) }
        ensures first { IfSome result (λ range. AllShorterBefore T.value_count
            (intersection (complement (members self.now)) (from_on (T.rank value)))
            (T.SafeLen.number len) (interval_of T.rank range).first) }
        ensures none { IsNone result → AllShorter T.value_count
            (intersection (complement (members self.now)) (from_on (T.rank value)))
            (T.SafeLen.number len) }

        // The same facts about blocks of `len` values, as a table of free space needs them.
        ensures fits { IfSome result (λ range. IsFree T.value_count self.now
            (T.rank (range_inclusive_start range)) (T.SafeLen.number len)) }
        ensures lowest { IfSome result (λ range. (start : ℕ) → T.rank value ≤ start
            → start < T.rank (range_inclusive_start range) → 0 < T.SafeLen.number len
            → ¬ (IsFree T.value_count self.now start (T.SafeLen.number len))) }
        ensures nowhere { IsNone result → (start : ℕ) → T.rank value ≤ start
            → 0 < T.SafeLen.number len
            → ¬ (IsFree T.value_count self.now start (T.SafeLen.number len)) }

        // If `len` is at most 1, every value from `value` to the gap is a member. There is then no
        // gap exactly if every value from `value` on is a member.
        ensures before { T.SafeLen.number len ≤ 1 → IfSome result (λ range. (rank : ℕ)
            → T.rank value ≤ rank → rank < T.rank (range_inclusive_start range)
            → IsTrue (members self.now rank)) }
        ensures full { T.SafeLen.number len ≤ 1
            → IsNone result ↔ HasAllFrom T.value_count self.now (T.rank value) }

        // The range in terms of its two ends, and the fact that none of its values is a member.
        ensures from { IfSome result (λ range.
            T.rank value ≤ T.rank (range_inclusive_start range)) }
        ensures ends { IfSome result (λ range. interval_of T.rank range
            ≡ from_to (T.rank (range_inclusive_start range)) (T.rank (range_inclusive_end range))) }
        ensures free { IfSome result (λ range. (rank : ℕ)
            → IsTrue (covers (interval_of T.rank range) rank) → IsFalse (members self.now rank)) }
    {
        let gap = gap_from(&self.runs, known(value), len)?;
        Some(gap.start..=gap.end)
    }

    /// Returns the first run that has at least `len` values, or `None` if every run is shorter.
    /// Does not allocate. The cost is linear in the number of runs up to the one returned. Not in
    /// range-set-blaze.
    pub fn first_run(&self, len: T::SafeLen) -> Option<RangeInclusive<T>>
        ensures run { IfSome result (λ range. IsMaximalRun T.value_count (members self.now)
            (interval_of T.rank range)) }
        ensures long { IfSome result (λ range.
            T.SafeLen.number len ≤ length_of (interval_of T.rank range)) }
        ensures first { IfSome result (λ range. AllShorterBefore T.value_count (members self.now)
            (T.SafeLen.number len) (interval_of T.rank range).first) }
        ensures none { IsNone result → AllShorter T.value_count (members self.now)
            (T.SafeLen.number len) }

        // If `len` is at most 1, no value before the run is a member. There is then no run exactly
        // if the set is empty.
        ensures before { T.SafeLen.number len ≤ 1 → IfSome result (λ range. (rank : ℕ)
            → rank < T.rank (range_inclusive_start range) → IsFalse (members self.now rank)) }
        ensures empty { T.SafeLen.number len ≤ 1 → IsNone result ↔ IsEmpty (members self.now) }

        // The range in terms of its two ends, and the fact that each of its values is a member.
        ensures ends { IfSome result (λ range. interval_of T.rank range
            ≡ from_to (T.rank (range_inclusive_start range)) (T.rank (range_inclusive_end range))) }
        ensures has { IfSome result (λ range. (rank : ℕ)
            → IsTrue (covers (interval_of T.rank range) rank) → IsTrue (members self.now rank)) }
    {
        let run = long_run(&self.runs, len)?;
        Some(run.start..=run.end)
    }
}

// Returns the first run that has at least `len` values, or `None` if every run is shorter.
fn long_run<T: Integer, A: Allocator>(runs: &Runs<T, A>, len: T::SafeLen) -> Option<Run<T>>
    requires { IsCanonicalIn T.value_count runs.now }
    ensures { MatchOption result (AllShorter T.value_count (members runs.now)
        (T.SafeLen.number len)) (λ run. IsFirstFit T.value_count (members runs.now)
        (T.SafeLen.number len) (run_of T.rank run)) }
{
    let mut entries = runs.iter();
    while let Some(run) = next_run(&mut entries) {
        if is_long(run, len) {
            return Some(run);
        }
    }
    None
}

// Returns the first gap with at least `len` values at or above `value`, shortened to those values,
// or `None` if there is none.
fn gap_from<T: Integer, A: Allocator>(
    runs: &Runs<T, A>,
    value: T,
    len: T::SafeLen,
) -> Option<Run<T>>
    requires canonical { IsCanonicalIn T.value_count runs.now }
    requires value { T.rank value < T.value_count }
    ensures { MatchOption result (AllShorter T.value_count
        (intersection (complement (members runs.now)) (from_on (T.rank value)))
        (T.SafeLen.number len)) (λ gap. IsFirstFit T.value_count
        (intersection (complement (members runs.now)) (from_on (T.rank value)))
        (T.SafeLen.number len) (run_of T.rank gap)) }
{
    let start = first_free(runs, value)?;
    first_between(&mut runs.starting_after(start), start, len)
}

// Returns the first gap with at least `len` values that the runs leave at or above `from`, or
// `None` if there is none. The runs start after `from` and do not touch it.
fn first_between<T: Integer>(
    entries: &mut Range<'_, T, T>,
    from: T,
    len: T::SafeLen,
) -> Option<Run<T>>
    requires later { IsCanonicalFrom (T.rank from + 1) (runs_of T.rank entries.old) }
    requires within { AllEndBelow T.value_count (runs_of T.rank entries.old) }
    requires value { T.rank from < T.value_count }
    ensures { MatchOption result
        (AllShorter T.value_count (intersection (complement
        (members (runs_of T.rank entries.old))) (from_on (T.rank from))) (T.SafeLen.number len))
        (λ gap. IsFirstFit T.value_count (intersection (complement
        (members (runs_of T.rank entries.old))) (from_on (T.rank from))) (T.SafeLen.number len)
        (run_of T.rank gap)) }
{
    let mut start = from;
    while let Some(run) = next_in_range(entries) {
        let end = run.start.sub_one();
        let gap = Run { start, end };
        if is_long(gap, len) {
            return Some(gap);
        }
        start = run.end.checked_add_one()?;
    }
    let end = T::max_value();
    let gap = Run { start, end };
    if is_long(gap, len) { Some(gap) } else { None }
}

// Returns whether a run has at least `len` values.
fn is_long<T: Integer>(run: Run<T>, len: T::SafeLen) -> bool
    requires { T.rank run.start ≤ T.rank run.end }
    ensures { IsTrue result ↔ (T.SafeLen.number len ≤ length_of (run_of T.rank run)) }
{
    len <= T::safe_len(&(run.start..=run.end))
}
