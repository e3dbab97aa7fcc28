//! The runs of a set within a window, which is given by its first and last values.

ghost use Rattle.std.specs.Prelude.{◌≡◌, [], ◌<◌, ◌≤◌, MatchOption};
ghost use Rattle.rsb_integer.specs.Rank.{intervals_of};
ghost use Rattle.rsb_integer.specs.Runs.{covers, members, IsCanonicalIn};
ghost use Rattle.rsb_integer.specs.Selection.{intersection};
ghost use Rattle.rsb_storage.specs.Set.{IsSetOf};
ghost use Rattle.rsb_storage.specs.Split.{NoneOver};
ghost use Rattle.rsb_storage.specs.Storage.{run_of};
ghost use Rattle.rsb_storage.specs.Windows.{ReachesIn};

use crate::look_up::run_over;
use crate::ranges_in::RangesIn;
use crate::run::Run;
use crate::runs::Runs;
use rsb_integer::Integer;
use std::alloc::Allocator;

/// Returns the runs within a window, which is given by its first and last values.
pub fn runs_between<'a, T: Integer, A: Allocator>(
    runs: &'a Runs<T, A>,
    window: Run<T>,
) -> RangesIn<'a, T>
    requires canonical { IsCanonicalIn T.value_count runs.now }
    requires order { T.rank window.start ≤ T.rank window.end }
    requires value { T.rank window.end < T.value_count }
    ensures canonical { IsCanonicalIn T.value_count (intervals_of T.rank result) }
    ensures members { IsSetOf (intervals_of T.rank result)
        (intersection (members runs.now) (covers (run_of T.rank window))) }
{
    RangesIn {
        first: reaching_in(runs, window.start),
        entries: runs.starting_in(window),
        last: window.end,
    }
}

/// Returns an iterator over no runs.
pub fn no_runs<'a, T: Integer, A: Allocator>(runs: &'a Runs<T, A>) -> RangesIn<'a, T>
    ensures { result ≡ [] }
{
    RangesIn {
        first: None,
        entries: runs.no_entries(),
        last: T::min_value(),
    }
}

// Returns the part at or above a value of the run that starts before the value and contains it, or
// `None` if there is no such run.
fn reaching_in<T: Integer, A: Allocator>(runs: &Runs<T, A>, start: T) -> Option<Run<T>>
    requires canonical { IsCanonicalIn T.value_count runs.now }
    requires value { T.rank start < T.value_count }
    ensures { MatchOption result (NoneOver runs.now (T.rank start))
        (λ part. ReachesIn runs.now (T.rank start) (run_of T.rank part)) }
{
    let run = run_over(runs, start)?;
    let end = run.end;
    Some(Run { start, end })
}
