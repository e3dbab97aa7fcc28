//! Takes gaps off both ends of a `GapsIn`.

ghost use Rattle.std.specs.Prelude.{◌≡◌, [], ◌∷◌, ◌++◌, MatchOption};
ghost use Rattle.rsb_storage.specs.GapsIn.{gaps_left, AreGapsLeft};
ghost use Rattle.rsb_storage.specs.Storage.{run_of};

use crate::entries::{last_run, next_in_range};
use crate::run::Run;
use rsb_integer::Integer;
use std::collections::btree_map::Range;

/// Removes the first gap and returns it, or returns `None` if there is none.
#[inline(always)]
pub(super) fn take_first<T: Integer>(
    rest: &mut Option<Run<T>>,
    entries: &mut Range<'_, T, T>,
) -> Option<Run<T>>
    requires { AreGapsLeft T.rank T.value_count rest.old entries.old }
    ensures gap { MatchOption result
        ((gaps_left T.rank rest.old entries.old ≡ [])
        × (gaps_left T.rank rest.new entries.new ≡ []))
        (λ gap. gaps_left T.rank rest.old entries.old
        ≡ run_of T.rank gap ∷ gaps_left T.rank rest.new entries.new) }
    ensures rest { AreGapsLeft T.rank T.value_count rest.new entries.new }
{
    let whole = (*rest)?;
    let Some(run) = next_in_range(entries) else {
        return rest.take();
    };
    *rest = Some(Run {
        start: run.end.add_one(),
        end: whole.end,
    });
    Some(Run {
        start: whole.start,
        end: run.start.sub_one(),
    })
}

/// Removes the last gap and returns it, or returns `None` if there is none.
pub(super) fn take_last<T: Integer>(
    rest: &mut Option<Run<T>>,
    entries: &mut Range<'_, T, T>,
) -> Option<Run<T>>
    requires { AreGapsLeft T.rank T.value_count rest.old entries.old }
    ensures gap { MatchOption result
        ((gaps_left T.rank rest.old entries.old ≡ [])
        × (gaps_left T.rank rest.new entries.new ≡ []))
        (λ gap. gaps_left T.rank rest.old entries.old
        ≡ gaps_left T.rank rest.new entries.new ++ run_of T.rank gap ∷ []) }
    ensures rest { AreGapsLeft T.rank T.value_count rest.new entries.new }
{
    let whole = (*rest)?;
    let Some(run) = last_run(entries) else {
        return rest.take();
    };
    *rest = Some(Run {
        start: whole.start,
        end: run.start.sub_one(),
    });
    Some(Run {
        start: run.end.add_one(),
        end: whole.end,
    })
}
