//! The values between two bounds, as a run.

ghost use Rattle.std.specs.Prelude.{◌≡◌, ◌+◌, ◌<◌, ◌≤◌, IfSome, IsNone};
ghost use Rattle.std.specs.Range.Bound.{bound_map};
ghost use Rattle.rsb_storage.specs.Set.{first_rank, past_rank};

use crate::run::{Run, is_below, known, previous};
use rsb_integer::Integer;
use std::ops::{Bound, RangeBounds};

/// Returns the values between two bounds as a run, or `None` if there are none.
pub fn run_between<T: Integer, R: RangeBounds<T>>(range: &R) -> Option<Run<T>>
    ensures none { R.has_bounds range.now → IsNone result →
        past_rank T.rank T.value_count (R.end_bound range.now)
        ≤ first_rank T.rank (R.start_bound range.now) }
    ensures start { R.has_bounds range.now → IfSome result (λ run.
        T.rank run.start ≡ first_rank T.rank (R.start_bound range.now)) }
    ensures end { R.has_bounds range.now → IfSome result (λ run.
        T.rank run.end + 1 ≡ past_rank T.rank T.value_count (R.end_bound range.now)) }
    ensures order { IfSome result (λ run. T.rank run.start ≤ T.rank run.end) }
    ensures value { IfSome result (λ run. T.rank run.end < T.value_count) }
{
    let end = last_to(range.end_bound())?;
    let start = first_from(range.start_bound())?;
    if is_below(end, start) {
        return None;
    }
    Some(Run { start, end })
}

// Returns the first value that a lower bound allows, or `None` if there is none.
fn first_from<T: Integer>(bound: Bound<&T>) -> Option<T>
    ensures none { IsNone result
        → T.value_count ≤ first_rank T.rank (bound_map (λ value. value.now) bound.entry) }
    ensures first { IfSome result (λ first.
        T.rank first ≡ first_rank T.rank (bound_map (λ value. value.now) bound.entry)) }
    ensures value { IfSome result (λ first. T.rank first < T.value_count) }
{
    match bound {
        Bound::Included(first) => Some(known(*first)),
        Bound::Excluded(before) => before.checked_add_one(),
        Bound::Unbounded => Some(T::min_value()),
    }
}

// Returns the last value that an upper bound allows, or `None` if there is none.
fn last_to<T: Integer>(bound: Bound<&T>) -> Option<T>
    ensures none { IsNone result
        → past_rank T.rank T.value_count (bound_map (λ value. value.now) bound.entry) ≡ 0 }
    ensures last { IfSome result (λ last.
        T.rank last + 1 ≡ past_rank T.rank T.value_count
        (bound_map (λ value. value.now) bound.entry)) }
    ensures value { IfSome result (λ last. T.rank last < T.value_count) }
{
    match bound {
        Bound::Included(last) => Some(known(*last)),
        Bound::Excluded(past) => previous(known(*past)),
        Bound::Unbounded => Some(T::max_value()),
    }
}
