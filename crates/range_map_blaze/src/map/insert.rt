//! Insertion of values.

ghost use Rattle.std.specs.Prelude.{◌≡◌, ◌+◌, ◌<◌, ◌≤◌, ◌∷◌, ◌++◌, length, IfOk, OnErr, OnOk};
ghost use Rattle.std.specs.Option.{option_map};
ghost use Rattle.rsb_integer.specs.Runs.{covers};
ghost use Rattle.rsb_storage.specs.Set.{only, ranks_in};
ghost use Rattle.rsb_storage.specs.Storage.{run_of};
ghost use Rattle.range_map_blaze.specs.Map.{value_at, IsMapIn, IsPut};
ghost use Rattle.range_map_blaze.specs.Parts.{after, before};

use crate::cut::{
    close_after, joined_end, joined_start, open_after, remove_inside, shorten_before, start_past,
};
use crate::map::RangeMapBlaze;
use crate::map_value::MapValue;
use crate::pieces::Pieces;
use rsb_integer::Integer;
use rsb_storage::bounds::run_between;
use rsb_storage::run::{Run, known};
use std::alloc::{AllocError, Allocator};
use std::ops::RangeBounds;

impl<T: Integer, V: MapValue, A: Allocator + Clone> RangeMapBlaze<T, V, A> {
    /// Gives the keys between two bounds a value. If the bounds are empty or reversed, nothing
    /// changes. The map gains at most two ranges. If allocation fails, or cloning a value does, the
    /// map is unchanged. (`RangeMapBlaze::ranges_insert`.)
    ///
    /// What is inserted is unspecified for a `RangeBounds` type whose own contract does not specify
    /// its bounds, and for a `RangeInclusive` that was iterated to its end.
    pub fn ranges_insert<R: RangeBounds<T>>(&mut self, range: R, value: V) -> Result<(), AllocError>
        ensures values { R.has_bounds range → OnOk result (IsPut (value_at self.old)
            (ranks_in T.rank T.value_count R.start_bound R.end_bound range) (V.seen value)
            (value_at self.new)) }
        ensures ranges { length self.new ≤ length self.old + 2 }
        ensures err { OnErr result (self.new ≡ self.old) }
    {
        let Some(run) = run_between(&range) else {
            return Ok(());
        };
        put_run(&mut self.pieces, run, value)
    }

    /// Gives a key a value, and returns the value that it had before, or `None` if it had none. The
    /// map gains at most two ranges. If allocation fails, or cloning a value does, the map is
    /// unchanged. (`RangeMapBlaze::insert`.)
    pub fn insert(&mut self, key: T, value: V) -> Result<Option<V>, AllocError>
        ensures values { OnOk result (IsPut (value_at self.old) (only (T.rank key)) (V.seen value)
            (value_at self.new)) }
        ensures found { IfOk result (λ found.
            option_map V.seen found ≡ value_at self.old (T.rank key)) }
        ensures ranges { length self.new ≤ length self.old + 2 }
        ensures err { OnErr result (self.new ≡ self.old) }
    {
        let found = self.cloned(key)?;
        put_run(&mut self.pieces, Run::only(known(key)), value)?;
        Ok(found)
    }
}

/// Gives the keys of a run a value. If the run lies past all keys, makes no look-up and clones
/// nothing. If allocation fails, or cloning a value does, the pieces are unchanged.
pub(crate) fn put_run<T: Integer, V: MapValue, A: Allocator + Clone>(
    pieces: &mut Pieces<T, V, A>,
    run: Run<T>,
    value: V,
) -> Result<(), AllocError>
    requires canonical { IsMapIn T.value_count pieces.old }
    requires order { T.rank run.start ≤ T.rank run.end }
    requires value { T.rank run.end < T.value_count }
    ensures canonical { IsMapIn T.value_count pieces.new }
    ensures put { OnOk result
        (IsPut (value_at pieces.old) (covers (run_of T.rank run)) (V.seen value)
        (value_at pieces.new)) }
    ensures count { length pieces.new ≤ length pieces.old + 2 }
    ensures err { OnErr result (pieces.new ≡ pieces.old) }
{
    // Pairs in ascending order are put without a search (docs/DECISIONS.md, past-all-keys).
    if let Some(start) = start_past(pieces, run.start, &value) {
        let run = Run {
            start,
            end: run.end,
        };
        pieces.put(run, value)?;
        return Ok(());
    }
    let start = joined_start(pieces, run.start, &value);
    let end = joined_end(pieces, run.end, &value);
    replace_run(pieces, Run { start, end }, value)?;
    Ok(())
}

// Gives the keys of a run a value, where the keys next to it do not have that value. If allocation
// fails, or cloning a value does, the pieces are unchanged.
fn replace_run<T: Integer, V: MapValue, A: Allocator + Clone>(
    pieces: &mut Pieces<T, V, A>,
    run: Run<T>,
    value: V,
) -> Result<(), AllocError>
    requires canonical { IsMapIn T.value_count pieces.old }
    requires order { T.rank run.start ≤ T.rank run.end }
    requires value { T.rank run.end < T.value_count }
    ensures pieces { OnOk result (pieces.new ≡ before (T.rank run.start) pieces.old
        ++ (run_of T.rank run, V.seen value) ∷ after (T.rank run.end) pieces.old) }
    ensures err { OnErr result (pieces.new ≡ pieces.old) }
{
    // What may fail comes first (docs/DECISIONS.md, cut-then-put).
    let opened = open_after(pieces, run.end)?;
    if let Err(refused) = pieces.put(run, value) {
        close_after(pieces, opened);
        return Err(refused);
    }
    remove_inside(pieces, run.start, run.end);
    shorten_before(pieces, run.start);
    Ok(())
}
