//! The gaps of a set within a window, which is given by its first and last values.

ghost use Rattle.std.specs.Prelude.{◌≡◌, ◌<◌, ◌≤◌, [], MatchOption};
ghost use Rattle.rsb_integer.specs.Rank.{intervals_of};
ghost use Rattle.rsb_integer.specs.Runs.{covers, members, IsCanonicalIn};
ghost use Rattle.rsb_integer.specs.Selection.{difference};
ghost use Rattle.rsb_storage.specs.FirstFit.{HasAllFrom, IsFirstFree};
ghost use Rattle.rsb_storage.specs.GapsIn.{HasAllTo, IsFreePart, IsLastFree};
ghost use Rattle.rsb_storage.specs.Set.{HasAll};
ghost use Rattle.rsb_storage.specs.Storage.{run_of};
ghost use Rattle.rsb_storage.specs.Set.{IsSetOf};

use crate::gaps_in::GapsIn;
use crate::look_up::run_at;
use crate::run::{Run, is_below, previous};
use crate::runs::Runs;
use rsb_integer::Integer;
use std::alloc::Allocator;

/// Returns the gaps within a window.
pub fn gaps_between<'a, T: Integer, A: Allocator>(
    runs: &'a Runs<T, A>,
    window: Run<T>,
) -> GapsIn<'a, T>
    requires canonical { IsCanonicalIn T.value_count runs.now }
    requires order { T.rank window.start ≤ T.rank window.end }
    requires value { T.rank window.end < T.value_count }
    ensures canonical { IsCanonicalIn T.value_count (intervals_of T.rank result) }
    ensures members { IsSetOf (intervals_of T.rank result)
        (difference (covers (run_of T.rank window)) (members runs.now)) }
{
    match free_part(runs, window) {
        Some(part) => GapsIn {
            rest: Some(part),
            entries: runs.starting_in(part),
        },
        None => no_gaps(runs),
    }
}

/// Returns an iterator over no gaps.
pub fn no_gaps<'a, T: Integer, A: Allocator>(runs: &'a Runs<T, A>) -> GapsIn<'a, T>
    ensures { result ≡ [] }
{
    GapsIn {
        rest: None,
        entries: runs.no_entries(),
    }
}

// Returns the part of a window from its first value that is not a member to its last one, or `None`
// if every value is a member.
fn free_part<T: Integer, A: Allocator>(runs: &Runs<T, A>, window: Run<T>) -> Option<Run<T>>
    requires canonical { IsCanonicalIn T.value_count runs.now }
    requires order { T.rank window.start ≤ T.rank window.end }
    requires value { T.rank window.end < T.value_count }
    ensures { MatchOption result (HasAll runs.now (covers (run_of T.rank window)))
        (λ part. IsFreePart runs.now (run_of T.rank window) (run_of T.rank part)) }
{
    let start = first_free(runs, window.start)?;
    let end = last_free(runs, window.end)?;
    if is_below(end, start) {
        return None;
    }
    Some(Run { start, end })
}

/// Returns the first value at or above the given one that is not a member, or `None` if there is
/// none.
pub fn first_free<T: Integer, A: Allocator>(runs: &Runs<T, A>, value: T) -> Option<T>
    requires canonical { IsCanonicalIn T.value_count runs.now }
    requires value { T.rank value < T.value_count }
    ensures { MatchOption result (HasAllFrom T.value_count runs.now (T.rank value))
        (λ free. IsFirstFree T.value_count runs.now (T.rank value) (T.rank free)) }
{
    let Some(run) = run_at(runs, value) else {
        return Some(value);
    };
    let free = run.end.checked_add_one()?;
    Some(free)
}

// Returns the last value at or below the given one that is not a member, or `None` if there is
// none.
fn last_free<T: Integer, A: Allocator>(runs: &Runs<T, A>, value: T) -> Option<T>
    requires canonical { IsCanonicalIn T.value_count runs.now }
    requires value { T.rank value < T.value_count }
    ensures { MatchOption result (HasAllTo runs.now (T.rank value))
        (λ free. IsLastFree runs.now (T.rank value) (T.rank free)) }
{
    match run_at(runs, value) {
        Some(run) => previous(run.start),
        None => Some(value),
    }
}
