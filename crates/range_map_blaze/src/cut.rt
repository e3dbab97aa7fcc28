//! Changes of lists of pieces at a key, and of those that start between two keys.

ghost use Rattle.std.specs.Prelude.{
  ◌≡◌,
  ◌+◌,
  ◌-◌,
  ◌<◌,
  ◌≤◌,
  ℕ,
  ◌++◌,
  None,
  Contains,
  IfOk,
  IfSome,
  MatchOption,
  OnErr,
  OnOk,
};
ghost use Rattle.rsb_storage.specs.Storage.{run_of};
ghost use Rattle.range_map_blaze.specs.Ends.{IsStartPast};
ghost use Rattle.range_map_blaze.specs.Map.{
  value_at,
  IsJoinedEnd,
  IsJoinedStart,
  IsMapIn,
  IsPieceAround,
};
ghost use Rattle.range_map_blaze.specs.Parts.{after, before};
ghost use Rattle.range_map_blaze.specs.Storage.{
  pieces_below,
  pieces_from,
  pieces_past,
  without_inside,
  without_start,
  IsInside,
};

use crate::map_value::MapValue;
use crate::pieces::{Piece, Pieces};
use rsb_integer::Integer;
use rsb_storage::run::{Run, is_below, previous, reaches};
use std::alloc::{AllocError, Allocator};

/// Returns the piece that contains a key, or `None` if the key has no value.
pub(crate) fn piece_at<T: Integer, V: MapValue, A: Allocator>(
    pieces: &Pieces<T, V, A>,
    key: T,
) -> Option<Piece<'_, T, V>>
    requires canonical { IsMapIn T.value_count pieces.now }
    requires value { T.rank key < T.value_count }
    ensures around { MatchOption result (value_at pieces.now (T.rank key) ≡ None)
        (λ piece. IsPieceAround T.value_count (value_at pieces.now) (T.rank key)
        (run_of T.rank piece.run, V.seen piece.value.now)) }
    ensures among { IfSome result (λ piece.
        Contains pieces.now (run_of T.rank piece.run, V.seen piece.value.now)) }
{
    let piece = pieces.up_to(key)?;
    if piece.run.ends_before(key) {
        return None;
    }
    Some(piece)
}

/// Returns the start of a run joined with the piece that ends right below it, if that has the
/// value.
pub(crate) fn joined_start<T: Integer, V: MapValue, A: Allocator>(
    pieces: &Pieces<T, V, A>,
    start: T,
    value: &V,
) -> T
    requires canonical { IsMapIn T.value_count pieces.now }
    requires value { T.rank start < T.value_count }
    ensures { IsJoinedStart pieces.now (T.rank start) (V.seen value.now) (T.rank result) }
{
    let Some(key) = previous(start) else {
        return start;
    };
    let Some(piece) = piece_at(pieces, key) else {
        return start;
    };
    if piece.value == value {
        piece.run.start
    } else {
        start
    }
}

/// Returns the start of a run that lies past all keys, joined with the last piece if that ends right
/// below it and has the value. Returns `None` if a key is at or past the start.
pub(crate) fn start_past<T: Integer, V: MapValue, A: Allocator>(
    pieces: &Pieces<T, V, A>,
    start: T,
    value: &V,
) -> Option<T>
    requires canonical { IsMapIn T.value_count pieces.now }
    requires value { T.rank start < T.value_count }
    ensures { IfSome result (λ joined.
        IsStartPast pieces.now (T.rank start) (V.seen value.now) (T.rank joined)) }
{
    let Some(last) = pieces.last() else {
        return Some(start);
    };
    let run = last.run;
    if !run.ends_before(start) {
        return None;
    }
    if reaches(run.end, start) && last.value == value {
        Some(run.start)
    } else {
        Some(start)
    }
}

/// Returns the end of a run joined with the piece that starts right past it, if that has the value.
pub(crate) fn joined_end<T: Integer, V: MapValue, A: Allocator>(
    pieces: &Pieces<T, V, A>,
    end: T,
    value: &V,
) -> T
    requires canonical { IsMapIn T.value_count pieces.now }
    requires value { T.rank end < T.value_count }
    ensures { IsJoinedEnd T.value_count pieces.now (T.rank end) (V.seen value.now)
        (T.rank result) }
{
    let Some(key) = end.checked_add_one() else {
        return end;
    };
    let Some(piece) = piece_at(pieces, key) else {
        return end;
    };
    if piece.value == value {
        piece.run.end
    } else {
        end
    }
}

/// Inserts what lies past a key of the piece that contains it and the next key. Returns the start of
/// what it inserted, or `None` if there is no such piece. If allocation fails, or cloning the value
/// does, the pieces are unchanged.
pub(crate) fn open_after<T: Integer, V: MapValue, A: Allocator + Clone>(
    pieces: &mut Pieces<T, V, A>,
    end: T,
) -> Result<Option<T>, AllocError>
    requires canonical { IsMapIn T.value_count pieces.old }
    requires value { T.rank end < T.value_count }
    ensures past { OnOk result (pieces_past (T.rank end) pieces.new ≡ after (T.rank end) pieces.old) }
    ensures below { OnOk result ((rank : ℕ) → rank ≤ T.rank end + 1
        → pieces_below rank pieces.new ≡ pieces_below rank pieces.old) }
    ensures undone { IfOk result (λ opened. MatchOption opened (pieces.new ≡ pieces.old)
        (λ next. without_start (T.rank next) pieces.new ≡ pieces.old)) }
    ensures value { IfOk result (λ opened. IfSome opened (λ next. T.rank next < T.value_count)) }
    ensures err { OnErr result (pieces.new ≡ pieces.old) }
{
    let Some(next) = end.checked_add_one() else {
        return Ok(None);
    };
    let Some(piece) = piece_at(pieces, next) else {
        return Ok(None);
    };
    if !piece.run.starts_before(next) {
        return Ok(None);
    }
    let run = Run {
        start: next,
        end: piece.run.end,
    };
    let value = piece.value.clone()?;
    pieces.put(run, value)?;
    Ok(Some(next))
}

/// Removes what `open_after` inserted.
pub(crate) fn close_after<T: Integer, V: MapValue, A: Allocator>(
    pieces: &mut Pieces<T, V, A>,
    opened: Option<T>,
)
    requires value { IfSome opened (λ next. T.rank next < T.value_count) }
    ensures { MatchOption opened (pieces.new ≡ pieces.old)
        (λ next. pieces.new ≡ without_start (T.rank next) pieces.old) }
{
    if let Some(next) = opened {
        pieces.remove(next);
    }
}

/// Ends the pieces that start below a key right below it.
pub(crate) fn shorten_before<T: Integer, V: MapValue, A: Allocator>(
    pieces: &mut Pieces<T, V, A>,
    key: T,
)
    requires value { T.rank key < T.value_count }
    requires canonical { IsMapIn T.value_count (pieces_below (T.rank key) pieces.old) }
    ensures { pieces.new ≡ before (T.rank key) (pieces_below (T.rank key) pieces.old)
        ++ pieces_from (T.rank key) pieces.old }
{
    let Some(end) = previous(key) else {
        return;
    };
    let Some(piece) = pieces.up_to(end) else {
        return;
    };
    let run = piece.run;
    if run.ends_before(key) {
        return;
    }
    pieces.set_end(run.start, end);
}

/// Removes the pieces that start past `first`, and at or before `last`.
pub(crate) fn remove_inside<T: Integer, V: MapValue, A: Allocator>(
    pieces: &mut Pieces<T, V, A>,
    first: T,
    last: T,
)
    requires first { T.rank first < T.value_count }
    requires last { T.rank last < T.value_count }
    ensures { pieces.new ≡ without_inside (T.rank first) (T.rank last) pieces.old }
{
    let mut next = last_inside(pieces, first, last);
    while let Some(start) = next {
        pieces.remove(start);
        next = last_inside(pieces, first, last);
    }
}

// Returns the start of the last piece that starts past `first`, and at or before `last`, or `None`
// if there is none.
fn last_inside<T: Integer, V: MapValue, A: Allocator>(
    pieces: &Pieces<T, V, A>,
    first: T,
    last: T,
) -> Option<T>
    requires first { T.rank first < T.value_count }
    requires last { T.rank last < T.value_count }
    ensures { MatchOption result
        (without_inside (T.rank first) (T.rank last) pieces.now ≡ pieces.now)
        (λ start. IsInside pieces.now (T.rank first) (T.rank last) (T.rank start)) }
{
    let piece = pieces.up_to(last)?;
    let run = piece.run;
    if is_below(first, run.start) {
        Some(run.start)
    } else {
        None
    }
}
