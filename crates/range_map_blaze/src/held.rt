//! A piece that is taken from entries, and what is left of it without its first or its last key.

ghost use Rattle.std.specs.Prelude.{◌≡◌, ◌<◌, ◌≤◌, None};
ghost use Rattle.rsb_storage.specs.Storage.{run_of};
ghost use Rattle.range_map_blaze.specs.Elements.{
  cut_first,
  cut_last,
  held,
  HasTakenFirst,
  HasTakenLast,
};
ghost use Rattle.range_map_blaze.specs.Storage.{pieces_of};

use crate::map_value::MapValue;
use crate::pieces::Piece;
use rsb_integer::Integer;
use rsb_storage::run::Run;
use std::collections::btree_map::Range;

/// Removes and returns the first piece of what is left: one that is held at the front, entries, and
/// one that is held at the back. Returns `None` if nothing is left.
pub(crate) fn first_left<'a, T: Integer, V: MapValue>(
    front: &mut Option<Piece<'a, T, V>>,
    entries: &mut Range<'a, T, (T, V)>,
    back: &mut Option<Piece<'a, T, V>>,
) -> Option<Piece<'a, T, V>>
    ensures front { front.new ≡ None }
    ensures taken { HasTakenFirst T.rank V.seen front.old entries.old back.old result entries.new
        back.new }
{
    if let Some(piece) = front.take() {
        return Some(piece);
    }
    let Some((start, rest)) = entries.next() else {
        return back.take();
    };
    let run = Run {
        start: *start,
        end: rest.0,
    };
    Some(Piece {
        run,
        value: &rest.1,
    })
}

/// Removes and returns the last piece of what is left. Returns `None` if nothing is left.
pub(crate) fn last_left<'a, T: Integer, V: MapValue>(
    front: &mut Option<Piece<'a, T, V>>,
    entries: &mut Range<'a, T, (T, V)>,
    back: &mut Option<Piece<'a, T, V>>,
) -> Option<Piece<'a, T, V>>
    ensures back { back.new ≡ None }
    ensures taken { HasTakenLast T.rank V.seen front.old entries.old back.old result front.new
        entries.new }
{
    if let Some(piece) = back.take() {
        return Some(piece);
    }
    let Some((start, rest)) = entries.next_back() else {
        return front.take();
    };
    let run = Run {
        start: *start,
        end: rest.0,
    };
    Some(Piece {
        run,
        value: &rest.1,
    })
}

/// Returns a run with a value without its first key, or `None` if it has no other.
pub(crate) fn without_first<'a, T: Integer, V: MapValue>(
    run: Run<T>,
    value: &'a V,
) -> Option<Piece<'a, T, V>>
    requires order { T.rank run.start ≤ T.rank run.end }
    requires value { T.rank run.end < T.value_count }
    ensures { held T.rank V.seen result ≡ cut_first (run_of T.rank run, V.seen value.now) }
{
    if !run.starts_before(run.end) {
        return None;
    }
    let start = run.start.add_one();
    let run = Run {
        start,
        end: run.end,
    };
    Some(Piece { run, value })
}

/// Returns a run with a value without its last key, or `None` if it has no other.
pub(crate) fn without_last<'a, T: Integer, V: MapValue>(
    run: Run<T>,
    value: &'a V,
) -> Option<Piece<'a, T, V>>
    requires order { T.rank run.start ≤ T.rank run.end }
    requires value { T.rank run.end < T.value_count }
    ensures { held T.rank V.seen result ≡ cut_last (run_of T.rank run, V.seen value.now) }
{
    if !run.starts_before(run.end) {
        return None;
    }
    let end = run.end.sub_one();
    let run = Run {
        start: run.start,
        end,
    };
    Some(Piece { run, value })
}
