//! The run that contains a value.

ghost use Rattle.std.specs.Prelude.{◌↔◌, ◌<◌, ◌≤◌, Contains, IfSome, IsFalse, IsNone, MatchOption};
ghost use Rattle.rsb_integer.specs.Runs.{members, IsCanonicalIn};
ghost use Rattle.rsb_storage.specs.Set.{IsRunAround};
ghost use Rattle.rsb_storage.specs.Split.{NoneOver};
ghost use Rattle.rsb_storage.specs.Storage.{run_of};

use crate::run::{Run, previous};
use crate::runs::Runs;
use rsb_integer::Integer;
use std::alloc::Allocator;

/// Returns the run that contains a value, or `None` if the value is not a member.
pub fn run_at<T: Integer, A: Allocator>(runs: &Runs<T, A>, value: T) -> Option<Run<T>>
    requires canonical { IsCanonicalIn T.value_count runs.now }
    requires value { T.rank value < T.value_count }
    ensures none { IsNone result ↔ IsFalse (members runs.now (T.rank value)) }
    ensures run { IfSome result (λ run. IsRunAround T.value_count (members runs.now) (T.rank value)
        (run_of T.rank run)) }
{
    let run = runs.up_to(value)?;
    if run.ends_before(value) {
        return None;
    }
    Some(run)
}

/// Returns the run that starts below a value and contains it, or `None` if there is none.
pub fn run_over<T: Integer, A: Allocator>(runs: &Runs<T, A>, key: T) -> Option<Run<T>>
    requires canonical { IsCanonicalIn T.value_count runs.now }
    requires value { T.rank key < T.value_count }
    ensures { MatchOption result (NoneOver runs.now (T.rank key))
        (λ run. Contains runs.now (run_of T.rank run) × (T.rank run.start < T.rank key)
        × (T.rank key ≤ T.rank run.end)) }
{
    let before = previous(key)?;
    let run = runs.up_to(before)?;
    if run.ends_before(key) {
        return None;
    }
    Some(run)
}
