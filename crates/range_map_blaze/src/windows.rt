//! The keys of a map between two bounds.

ghost use Rattle.std.specs.Prelude.{◌≡◌, ◌+◌, ◌<◌, ◌≤◌, ◌∷◌, ◌++◌, [], min, IfSome, MatchOption};
ghost use Rattle.rsb_integer.specs.Runs.{covers, from_to};
ghost use Rattle.rsb_storage.specs.Storage.{run_of};
ghost use Rattle.range_map_blaze.specs.Elements.{held};
ghost use Rattle.range_map_blaze.specs.Ends.{from_rank};
ghost use Rattle.range_map_blaze.specs.Map.{value_at, IsMapIn, IsWithin};
ghost use Rattle.range_map_blaze.specs.Storage.{pieces_from};

use crate::compare::lesser;
use crate::cut::piece_at;
use crate::elements::Iter;
use crate::held::last_left;
use crate::map_value::MapValue;
use crate::pieces::{Piece, Pieces};
use rsb_integer::Integer;
use rsb_storage::run::{Run, known, previous};
use std::alloc::Allocator;

/// Returns the keys of a window, each with its value. A window is given by its first and last keys.
pub(crate) fn pairs_between<'a, T: Integer, V: MapValue, A: Allocator>(
    pieces: &'a Pieces<T, V, A>,
    window: Run<T>,
) -> Iter<'a, T, V>
    requires canonical { IsMapIn T.value_count pieces.now }
    requires order { T.rank window.start ≤ T.rank window.end }
    requires value { T.rank window.end < T.value_count }
    ensures { IsWithin (value_at pieces.now) (covers (run_of T.rank window)) (value_at result) }
{
    let mut front = reaching_in(pieces, window.start);
    let mut entries = pieces.starting_in(window);
    let mut none = None;
    let last = last_left(&mut front, &mut entries, &mut none);
    let back = ended(last, window.end);
    Iter {
        front,
        entries,
        back,
    }
}

/// Returns an iterator over no keys.
pub(crate) fn no_pairs<'a, T: Integer, V: MapValue, A: Allocator>(
    pieces: &'a Pieces<T, V, A>,
) -> Iter<'a, T, V>
    ensures { result ≡ [] }
{
    Iter {
        front: None,
        entries: pieces.no_entries(),
        back: None,
    }
}

// Returns the part at or past a key of the piece that starts before the key and contains it, or
// `None` if there is no such piece.
fn reaching_in<'a, T: Integer, V: MapValue, A: Allocator>(
    pieces: &'a Pieces<T, V, A>,
    start: T,
) -> Option<Piece<'a, T, V>>
    requires canonical { IsMapIn T.value_count pieces.now }
    requires value { T.rank start < T.value_count }
    ensures starts { IfSome result (λ piece. piece.run.start ≡ start) }
    ensures from { held T.rank V.seen result ++ pieces_from (T.rank start) pieces.now
        ≡ from_rank (T.rank start) pieces.now }
{
    // Called only for its clause: there is no such piece at the least key.
    previous(start)?;
    let piece = piece_at(pieces, start)?;
    if !piece.run.starts_before(start) {
        return None;
    }
    let run = Run {
        start,
        end: piece.run.end,
    };
    Some(Piece {
        run,
        value: piece.value,
    })
}

// Returns a piece without its keys past `end`, or `None` for none.
fn ended<'a, T: Integer, V: MapValue>(
    last: Option<Piece<'a, T, V>>,
    end: T,
) -> Option<Piece<'a, T, V>>
    ensures { MatchOption last.entry (held T.rank V.seen result ≡ [])
        (λ piece. held T.rank V.seen result
        ≡ (
          from_to (T.rank piece.run.start) (min (T.rank piece.run.end) (T.rank end)),
          V.seen piece.value.now,
        ) ∷ []) }
{
    let piece = last?;
    let run = Run {
        start: piece.run.start,
        end: lesser(known(piece.run.end), known(end)),
    };
    Some(Piece {
        run,
        value: piece.value,
    })
}
