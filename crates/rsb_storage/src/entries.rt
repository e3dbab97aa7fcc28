//! The next or the last run of an iterator over the entries of a `BTreeMap`, which maps the start
//! of each run to its end.

ghost use Rattle.std.specs.Prelude.{◌≡◌, [], ◌∷◌, ◌++◌, IsNone, MatchOption};
ghost use Rattle.rsb_storage.specs.Storage.{entry_of};

use crate::run::Run;
use rsb_integer::Integer;
use std::collections::btree_map::{Iter, Range};

/// Removes the last of the entries and returns its run, or returns `None` if there are no entries.
pub fn last_run<T: Integer>(entries: &mut Range<'_, T, T>) -> Option<Run<T>>
    ensures run { MatchOption result (entries.old ≡ [])
        (λ run. entries.old ≡ entries.new ++ entry_of run ∷ []) }
    ensures none { IsNone result → entries.new ≡ [] }
{
    let entry = entries.next_back()?;
    Some(Run::of_entry(entry))
}

/// Removes the first of the entries and returns its run, or returns `None` if there are no entries.
pub fn next_run<T: Copy>(entries: &mut Iter<'_, T, T>) -> Option<Run<T>>
    ensures { MatchOption result (entries.old ≡ [])
        (λ run. entries.old ≡ entry_of run ∷ entries.new) }
{
    let entry = entries.next()?;
    Some(Run::of_entry(entry))
}

/// Does the same as `next_run`, for the entries of a range of keys.
#[inline(always)]
pub fn next_in_range<T: Integer>(entries: &mut Range<'_, T, T>) -> Option<Run<T>>
    ensures run { MatchOption result (entries.old ≡ [])
        (λ run. entries.old ≡ entry_of run ∷ entries.new) }
    ensures none { IsNone result → entries.new ≡ [] }
{
    let entry = entries.next()?;
    Some(Run::of_entry(entry))
}
