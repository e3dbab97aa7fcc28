//! The order of two maps, found from their entries.

ghost use Rattle.std.specs.Prelude.{◌≡◌, ◌<◌, ◌≤◌, [], ◌∷◌, min, MatchOption};
ghost use Rattle.rsb_storage.specs.Storage.{run_of};
ghost use Rattle.range_map_blaze.specs.Map.{IsMapIn};
ghost use Rattle.range_map_blaze.specs.Order.{map_cmp, pair_cmp};
ghost use Rattle.range_map_blaze.specs.Parts.{after};
ghost use Rattle.range_map_blaze.specs.Storage.{pieces_of};

use crate::map_value::MapValue;
use crate::pieces::Piece;
use rsb_integer::Integer;
use rsb_storage::run::{Run, is_below, known};
use std::cmp::Ordering;
use std::collections::btree_map::Iter;

/// Returns the order of two maps, given by their entries. Takes at most a step for each entry.
pub(crate) fn compare_entries<T: Integer, V: MapValue + Ord>(
    left: Iter<'_, T, (T, V)>,
    right: Iter<'_, T, (T, V)>,
) -> Ordering
    requires left { IsMapIn T.value_count (pieces_of T.rank V.seen left) }
    requires right { IsMapIn T.value_count (pieces_of T.rank V.seen right) }
    ensures { result ≡ map_cmp T.value_count V.cmp (pieces_of T.rank V.seen left.entry)
        (pieces_of T.rank V.seen right.entry) }
{
    let mut left = left;
    let mut right = right;
    let mut piece = next_piece(&mut left);
    let mut other = next_piece(&mut right);
    while let Some(mine) = piece {
        let Some(theirs) = other else {
            return Ordering::Greater;
        };
        let heads = order_of_heads(&mine, &theirs);
        if heads.is_ne() {
            return heads;
        }
        let run = mine.run;
        let value = mine.value;
        let also = theirs.run;
        let found = theirs.value;
        // Both have one value up to the end of the shorter piece.
        let end = lesser(run.end, also.end);
        piece = past(run, value, end, &mut left);
        other = past(also, found, end, &mut right);
    }
    match other {
        Some(_) => Ordering::Less,
        None => Ordering::Equal,
    }
}

// Removes and returns the first piece of entries, or returns `None` if there is none.
fn next_piece<'a, T: Integer, V: MapValue>(
    entries: &mut Iter<'a, T, (T, V)>,
) -> Option<Piece<'a, T, V>>
    ensures { MatchOption result
        ((pieces_of T.rank V.seen entries.old ≡ []) × (pieces_of T.rank V.seen entries.new ≡ []))
        (λ piece. pieces_of T.rank V.seen entries.old ≡ (run_of T.rank piece.run, V.seen piece.value.now)
        ∷ pieces_of T.rank V.seen entries.new) }
{
    let (start, rest) = entries.next()?;
    let run = Run {
        start: *start,
        end: rest.0,
    };
    Some(Piece {
        run,
        value: &rest.1,
    })
}

// Returns the order of the first pairs of two pieces.
fn order_of_heads<T: Integer, V: MapValue + Ord>(
    mine: &Piece<'_, T, V>,
    theirs: &Piece<'_, T, V>,
) -> Ordering
    requires mine { T.rank mine.now.run.start < T.value_count }
    requires theirs { T.rank theirs.now.run.start < T.value_count }
    ensures { result ≡ pair_cmp V.cmp
        (T.rank mine.now.run.start, V.seen mine.now.value.now)
        (T.rank theirs.now.run.start, V.seen theirs.now.value.now) }
{
    let starts = mine.run.start.cmp(&theirs.run.start);
    if starts.is_ne() {
        return starts;
    }
    mine.value.cmp(theirs.value)
}

// Returns what is left of a piece past a key in it, or if nothing is, the next piece.
fn past<'a, T: Integer, V: MapValue>(
    run: Run<T>,
    value: &'a V,
    end: T,
    rest: &mut Iter<'a, T, (T, V)>,
) -> Option<Piece<'a, T, V>>
    requires canonical { IsMapIn T.value_count
        ((run_of T.rank run, V.seen value.now) ∷ pieces_of T.rank V.seen rest.old) }
    requires from { T.rank run.start ≤ T.rank end }
    requires to { T.rank end ≤ T.rank run.end }
    ensures { MatchOption result
        ((after (T.rank end) ((run_of T.rank run, V.seen value.now)
        ∷ pieces_of T.rank V.seen rest.old) ≡ []) × (pieces_of T.rank V.seen rest.new ≡ []))
        (λ left. after (T.rank end) ((run_of T.rank run, V.seen value.now)
        ∷ pieces_of T.rank V.seen rest.old) ≡ (run_of T.rank left.run, V.seen left.value.now)
        ∷ pieces_of T.rank V.seen rest.new) }
{
    // Both ends are known to be values.
    let end = known(end);
    if !is_below(end, known(run.end)) {
        return next_piece(rest);
    }
    let start = end.add_one();
    let run = Run {
        start,
        end: run.end,
    };
    Some(Piece { run, value })
}

/// Returns the lesser of two values.
pub(crate) fn lesser<T: Integer>(left: T, right: T) -> T
    requires left { T.rank left < T.value_count }
    requires right { T.rank right < T.value_count }
    ensures { T.rank result ≡ min (T.rank left) (T.rank right) }
{
    if is_below(left, right) { left } else { right }
}
