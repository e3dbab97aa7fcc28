//! The same as `held`, for entries that are owned.

ghost use Rattle.std.specs.Prelude.{◌≡◌, ◌<◌, ◌≤◌, None};
ghost use Rattle.rsb_storage.specs.Storage.{run_of};
ghost use Rattle.range_map_blaze.specs.Elements.{
  cut_first,
  cut_last,
  held_owned,
  HasTakenOwnFirst,
  HasTakenOwnLast,
};
ghost use Rattle.range_map_blaze.specs.Storage.{pieces_of};

use crate::map_value::MapValue;
use rsb_integer::Integer;
use rsb_storage::run::Run;
use std::alloc::Allocator;
use std::collections::btree_map::IntoIter;

/// A run of keys, and the value that they all have.
#[derive(Drop)]
pub struct OwnedPiece<T, V> {
    pub run: Run<T>,
    pub value: V,
}

/// Removes and returns the first piece of what is left: one that is held at the front, entries, and
/// one that is held at the back. Returns `None` if nothing is left.
pub(crate) fn first_owned<T: Integer, V: MapValue, A: Allocator>(
    front: &mut Option<OwnedPiece<T, V>>,
    entries: &mut IntoIter<T, (T, V), A>,
    back: &mut Option<OwnedPiece<T, V>>,
) -> Option<OwnedPiece<T, V>>
    ensures front { front.new ≡ None }
    ensures taken { HasTakenOwnFirst T.rank V.seen front.old entries.old back.old result entries.new
        back.new }
{
    if let Some(piece) = front.take() {
        return Some(piece);
    }
    let Some((start, rest)) = entries.next() else {
        return back.take();
    };
    let (end, value) = rest;
    let run = Run { start, end };
    Some(OwnedPiece { run, value })
}

/// Removes and returns the last piece of what is left. Returns `None` if nothing is left.
pub(crate) fn last_owned<T: Integer, V: MapValue, A: Allocator>(
    front: &mut Option<OwnedPiece<T, V>>,
    entries: &mut IntoIter<T, (T, V), A>,
    back: &mut Option<OwnedPiece<T, V>>,
) -> Option<OwnedPiece<T, V>>
    ensures back { back.new ≡ None }
    ensures taken { HasTakenOwnLast T.rank V.seen front.old entries.old back.old result front.new
        entries.new }
{
    if let Some(piece) = back.take() {
        return Some(piece);
    }
    let Some((start, rest)) = entries.next_back() else {
        return front.take();
    };
    let (end, value) = rest;
    let run = Run { start, end };
    Some(OwnedPiece { run, value })
}

/// Returns a run with a value without its first key, or `None` if it has no other.
pub(crate) fn without_first_owned<T: Integer, V: MapValue>(
    run: Run<T>,
    value: V,
) -> Option<OwnedPiece<T, V>>
    requires order { T.rank run.start ≤ T.rank run.end }
    requires value { T.rank run.end < T.value_count }
    ensures { held_owned T.rank V.seen result ≡ cut_first (run_of T.rank run, V.seen value) }
{
    if !run.starts_before(run.end) {
        return None;
    }
    let start = run.start.add_one();
    let run = Run {
        start,
        end: run.end,
    };
    Some(OwnedPiece { run, value })
}

/// Returns a run with a value without its last key, or `None` if it has no other.
pub(crate) fn without_last_owned<T: Integer, V: MapValue>(
    run: Run<T>,
    value: V,
) -> Option<OwnedPiece<T, V>>
    requires order { T.rank run.start ≤ T.rank run.end }
    requires value { T.rank run.end < T.value_count }
    ensures { held_owned T.rank V.seen result ≡ cut_last (run_of T.rank run, V.seen value) }
{
    if !run.starts_before(run.end) {
        return None;
    }
    let end = run.end.sub_one();
    let run = Run {
        start: run.start,
        end,
    };
    Some(OwnedPiece { run, value })
}
