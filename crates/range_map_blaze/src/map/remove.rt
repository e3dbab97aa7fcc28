//! Removal of values.

ghost use Rattle.std.specs.Prelude.{
  ◌≡◌,
  ◌+◌,
  ◌<◌,
  ◌≤◌,
  ◌++◌,
  [],
  length,
  Contains,
  IfOk,
  IfSome,
  IsNone,
  OnErr,
  OnOk,
};
ghost use Rattle.std.specs.Option.{option_map};
ghost use Rattle.rsb_integer.specs.Rank.{interval_of};
ghost use Rattle.rsb_integer.specs.Runs.{covers};
ghost use Rattle.rsb_storage.specs.Set.{only, ranks_in};
ghost use Rattle.rsb_storage.specs.Storage.{run_of};
ghost use Rattle.range_map_blaze.specs.Map.{value_at, IsMapIn, IsWithout};
ghost use Rattle.range_map_blaze.specs.Parts.{after, before};

use crate::cut::{open_after, remove_inside, shorten_before};
use crate::map::RangeMapBlaze;
use crate::map_value::MapValue;
use crate::pieces::Pieces;
use rsb_integer::Integer;
use rsb_storage::bounds::run_between;
use rsb_storage::run::{Run, known, run_of_range};
use std::alloc::{AllocError, Allocator};
use std::ops::{RangeBounds, RangeInclusive};

impl<T: Integer, V: MapValue, A: Allocator + Clone> RangeMapBlaze<T, V, A> {
    /// Removes the values of the keys between two bounds. The map gains at most one range. If
    /// allocation fails, or cloning a value does, the map is unchanged. Not in range-set-blaze.
    ///
    /// What is removed is unspecified for a `RangeBounds` type whose own contract does not specify
    /// its bounds, and for a `RangeInclusive` that was iterated to its end.
    pub fn ranges_remove<R: RangeBounds<T>>(&mut self, range: R) -> Result<(), AllocError>
        ensures values { R.has_bounds range → OnOk result (IsWithout (value_at self.old)
            (ranks_in T.rank T.value_count R.start_bound R.end_bound range) (value_at self.new)) }
        ensures ranges { length self.new ≤ length self.old + 1 }
        ensures err { OnErr result (self.new ≡ self.old) }
    {
        let Some(run) = run_between(&range) else {
            return Ok(());
        };
        remove_run(&mut self.pieces, run)
    }

    /// Removes the value of a key and returns it, or returns `None` if the key has none. The map
    /// gains at most one range. If allocation fails, or cloning the value does, the map is
    /// unchanged. (`RangeMapBlaze::remove`.)
    pub fn remove(&mut self, key: T) -> Result<Option<V>, AllocError>
        ensures values { OnOk result
            (IsWithout (value_at self.old) (only (T.rank key)) (value_at self.new)) }
        ensures found { IfOk result (λ found.
            option_map V.seen found ≡ value_at self.old (T.rank key)) }
        ensures ranges { length self.new ≤ length self.old + 1 }
        ensures err { OnErr result (self.new ≡ self.old) }
    {
        let found = self.cloned(key)?;
        remove_run(&mut self.pieces, Run::only(known(key)))?;
        Ok(found)
    }

    /// Removes the values of the keys of a range. If allocation fails, the map is unchanged.
    pub(crate) fn remove_range(&mut self, range: RangeInclusive<T>) -> Result<(), AllocError>
        ensures values { OnOk result (IsWithout (value_at self.old)
            (covers (interval_of T.rank range)) (value_at self.new)) }
        ensures err { OnErr result (self.new ≡ self.old) }
    {
        let Some(run) = run_of_range(&range) else {
            return Ok(());
        };
        remove_run(&mut self.pieces, run)
    }

    /// Returns a clone of the value of a key, or `None` if the key has none.
    pub(crate) fn cloned(&self, key: T) -> Result<Option<V>, AllocError>
        ensures { IfOk result (λ found.
            option_map V.seen found ≡ value_at self.now (T.rank key)) }
    {
        let Some(value) = self.get(key) else {
            return Ok(None);
        };
        let copy = value.clone()?;
        Ok(Some(copy))
    }
}

/// Removes the values of the keys of a run. If allocation fails, or cloning a value does, the pieces
/// are unchanged.
pub(crate) fn remove_run<T: Integer, V: MapValue, A: Allocator + Clone>(
    pieces: &mut Pieces<T, V, A>,
    run: Run<T>,
) -> Result<(), AllocError>
    requires canonical { IsMapIn T.value_count pieces.old }
    requires order { T.rank run.start ≤ T.rank run.end }
    requires value { T.rank run.end < T.value_count }
    ensures canonical { IsMapIn T.value_count pieces.new }
    ensures removed { OnOk result (IsWithout (value_at pieces.old) (covers (run_of T.rank run))
        (value_at pieces.new)) }
    ensures count { length pieces.new ≤ length pieces.old + 1 }
    ensures err { OnErr result (pieces.new ≡ pieces.old) }
{
    clear_run(pieces, run)?;
    Ok(())
}

// Does the same. The contract states which pieces are left.
fn clear_run<T: Integer, V: MapValue, A: Allocator + Clone>(
    pieces: &mut Pieces<T, V, A>,
    run: Run<T>,
) -> Result<(), AllocError>
    requires canonical { IsMapIn T.value_count pieces.old }
    requires order { T.rank run.start ≤ T.rank run.end }
    requires value { T.rank run.end < T.value_count }
    ensures pieces { OnOk result (pieces.new ≡ before (T.rank run.start) pieces.old
        ++ after (T.rank run.end) pieces.old) }
    ensures err { OnErr result (pieces.new ≡ pieces.old) }
{
    open_after(pieces, run.end)?;
    pieces.remove(run.start);
    remove_inside(pieces, run.start, run.end);
    shorten_before(pieces, run.start);
    Ok(())
}
