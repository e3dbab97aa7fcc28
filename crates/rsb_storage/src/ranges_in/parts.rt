//! Takes runs off both ends of a `RangesIn`, which consists of an optional held run, followed by
//! entries of a map.

ghost use Rattle.std.specs.Prelude.{◌≡◌, [], ◌∷◌, ◌++◌, MatchOption};
ghost use Rattle.rsb_storage.specs.Storage.{entry_of};
ghost use Rattle.rsb_storage.specs.Windows.{lesser_of, with_held};

use crate::entries::{last_run, next_in_range};
use crate::run::{Run, is_below, known};
use rsb_integer::Integer;
use std::collections::btree_map::Range;

/// Removes the held run and returns it. If no run is held, removes the first entry and returns its
/// run, or returns `None` if there is none.
#[inline(always)]
pub(super) fn take_first<T: Integer>(
    held: &mut Option<Run<T>>,
    entries: &mut Range<'_, T, T>,
) -> Option<Run<T>>
    ensures { MatchOption result
        ((with_held held.old entries.old ≡ []) × (with_held held.new entries.new ≡ []))
        (λ run. with_held held.old entries.old ≡ entry_of run ∷ with_held held.new entries.new) }
{
    if let Some(run) = held.take() {
        return Some(run);
    }
    let run = next_in_range(entries)?;
    Some(run)
}

/// Removes the last entry and returns its run. If there is none, removes the held run and returns
/// it, or returns `None` if no run is held.
pub(super) fn take_last<T: Integer>(
    held: &mut Option<Run<T>>,
    entries: &mut Range<'_, T, T>,
) -> Option<Run<T>>
    ensures { MatchOption result
        ((with_held held.old entries.old ≡ []) × (with_held held.new entries.new ≡ []))
        (λ run. with_held held.old entries.old
        ≡ with_held held.new entries.new ++ entry_of run ∷ []) }
{
    let Some(run) = last_run(entries) else {
        return held.take();
    };
    Some(run)
}

/// Returns the lesser of two values.
#[inline(always)]
pub(super) fn lesser<T: Integer>(left: T, right: T) -> T
    ensures { result ≡ lesser_of T.rank left right }
{
    if is_below(known(right), known(left)) {
        right
    } else {
        left
    }
}
