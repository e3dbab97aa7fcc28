//! Removal of the runs that a new run covers.

ghost use Rattle.std.specs.Prelude.{◌≡◌, ℕ, ◌+◌, ◌<◌, ◌≤◌, MatchOption};
ghost use Rattle.rsb_integer.specs.Runs.{length_of, members, IsCanonicalIn};
ghost use Rattle.rsb_integer.specs.Selection.{count};
ghost use Rattle.range_set_blaze.specs.Joining.{IsInside, IsOver, KnowsInside, NoneInside};
ghost use Rattle.rsb_storage.specs.Storage.{run_of};
ghost use Rattle.rsb_storage.specs.Starts.{without_start};

use rsb_integer::Integer;
use rsb_storage::lengths::subtract_length;
use rsb_storage::run::Run;
use rsb_storage::runs::Runs;
use std::alloc::Allocator;

/// Removes the runs that start inside `run`, past its start. Returns the number of members of the
/// remaining runs, not counting those of `run`. `last` is one of the runs to remove, if there are
/// any, and `before` is another one, if there are more, and starts before `last`. `total` is the
/// number of members of all runs except `run` before the call.
pub(crate) fn remove_swallowed<T: Integer, A: Allocator>(
    runs: &mut Runs<T, A>,
    run: Run<T>,
    last: Option<Run<T>>,
    before: Option<Run<T>>,
    total: T::SafeLen,
) -> T::SafeLen
    requires over { IsOver T.value_count runs.old (run_of T.rank run) (T.SafeLen.number total) }
    requires inside { KnowsInside T.rank runs.old (run_of T.rank run) last before }
    ensures canonical { IsCanonicalIn T.value_count runs.new }
    ensures members { (rank : ℕ) → members runs.new rank ≡ members runs.old rank }
    ensures counted { count T.value_count (members runs.new)
        ≡ T.SafeLen.number result + length_of (run_of T.rank run) }
{
    let mut others = total;
    let Some(last) = last else {
        return others;
    };
    remove_inside(runs, run, last, &mut others);
    let mut next = before;
    while let Some(inside) = next {
        remove_inside(runs, run, inside, &mut others);
        next = last_inside(runs, run);
    }
    others
}

// Removes a run that starts inside another, and subtracts its length from `others`.
fn remove_inside<T: Integer, A: Allocator>(
    runs: &mut Runs<T, A>,
    run: Run<T>,
    inside: Run<T>,
    others: &mut T::SafeLen,
)
    requires over { IsOver T.value_count runs.old (run_of T.rank run)
        (T.SafeLen.number others.old) }
    requires inside { IsInside runs.old (run_of T.rank run) (run_of T.rank inside) }
    ensures over { IsOver T.value_count runs.new (run_of T.rank run) (T.SafeLen.number others.new) }
    ensures members { (rank : ℕ) → members runs.new rank ≡ members runs.old rank }
    ensures left { runs.new ≡ without_start (T.rank inside.start) runs.old }
    ensures fewer { T.SafeLen.number others.new < T.SafeLen.number others.old }
{
    subtract_length(others, inside);
    runs.remove(inside.start);
}

// Returns the last run that starts inside `run`, past its start, or `None` if there is none.
fn last_inside<T: Integer, A: Allocator>(runs: &Runs<T, A>, run: Run<T>) -> Option<Run<T>>
    requires order { T.rank run.start ≤ T.rank run.end }
    requires value { T.rank run.end < T.value_count }
    ensures { MatchOption result (NoneInside runs.now (run_of T.rank run))
        (λ last. IsInside runs.now (run_of T.rank run) (run_of T.rank last)) }
{
    let last = runs.up_to(run.end)?;
    if run.starts_before(last.start) {
        Some(last)
    } else {
        None
    }
}
