//! Insertion of many pairs.

ghost use Rattle.std.specs.Prelude.{◌≡◌, [], IfOk, OnErr, OnOk};
ghost use Rattle.std.specs.Iterator.{ExtendsWithItems};
ghost use Rattle.rsb_integer.specs.Rank.{interval_of};
ghost use Rattle.rsb_integer.specs.Runs.{covers, from_to};
ghost use Rattle.rsb_streams.specs.Items.{GaveAll, GaveRun, IsEnding};
ghost use Rattle.range_map_blaze.specs.Map.{value_at, IsMapOf, IsPut, PutsAll};
ghost use Rattle.range_map_blaze.specs.Storage.{keyed, pieces_in};

use crate::map::RangeMapBlaze;
use crate::map::insert::put_run;
use crate::map_value::MapValue;
use rsb_integer::Integer;
use rsb_storage::run::{Run, known, run_of_range};
use std::alloc::{AllocError, Allocator};
use std::ops::RangeInclusive;

impl<T: Integer, V: MapValue, A: Allocator + Clone> RangeMapBlaze<T, V, A> {
    /// Gives the keys of each range its value, one pair after the other, so a later pair wins where
    /// ranges overlap. An empty range changes nothing. If allocation fails, or cloning a value does,
    /// a prefix of the pairs has been inserted. (`Extend<(RangeInclusive<T>, V)>` of
    /// `RangeMapBlaze`.)
    pub fn extend<J: IntoIterator<Item = (RangeInclusive<T>, V)>>(
        &mut self,
        pairs: J,
    ) -> Result<(), AllocError>
        requires ready { IsEnding J.into_iter_gives J.IntoIter.can_next J.IntoIter.remaining
            pairs }
        ensures values { ExtendsWithItems J.into_iter_gives J.IntoIter.next_gives
            (λ old items new. PutsAll old (pieces_in T.rank V.seen items) new) pairs self.old
            self.new result }
        ensures runs { OnOk result (GaveRun J.into_iter_gives J.IntoIter.next_gives pairs
            (λ items. PutsAll self.old (pieces_in T.rank V.seen items) self.new)) }
    {
        for pair in pairs {
            self.put_pair(pair)?;
        }
        Ok(())
    }

    /// Gives each key its value, one pair after the other, so a later pair wins. If allocation
    /// fails, or cloning a value does, a prefix of the pairs has been inserted. (`Extend<(T, V)>` of
    /// `RangeMapBlaze`.)
    pub fn extend_keys<J: IntoIterator<Item = (T, V)>>(
        &mut self,
        pairs: J,
    ) -> Result<(), AllocError>
        requires ready { IsEnding J.into_iter_gives J.IntoIter.can_next J.IntoIter.remaining
            pairs }
        ensures values { ExtendsWithItems J.into_iter_gives J.IntoIter.next_gives
            (λ old items new. PutsAll old (keyed T.rank V.seen items) new) pairs self.old
            self.new result }
        ensures runs { OnOk result (GaveRun J.into_iter_gives J.IntoIter.next_gives pairs
            (λ items. PutsAll self.old (keyed T.rank V.seen items) self.new)) }
    {
        for pair in pairs {
            self.put_key(pair)?;
        }
        Ok(())
    }

    // Gives the keys of a range a value. If allocation fails, the map is unchanged.
    pub(crate) fn put_pair(&mut self, pair: (RangeInclusive<T>, V)) -> Result<(), AllocError>
        ensures put { OnOk result (IsPut (value_at self.old) (covers (interval_of T.rank pair.0))
            (V.seen pair.1) (value_at self.new)) }
        ensures err { OnErr result (self.new ≡ self.old) }
    {
        let (range, value) = pair;
        let Some(run) = run_of_range(&range) else {
            return Ok(());
        };
        put_run(&mut self.pieces, run, value)
    }

    // Gives a key a value. If allocation fails, the map is unchanged.
    pub(crate) fn put_key(&mut self, pair: (T, V)) -> Result<(), AllocError>
        ensures put { OnOk result (IsPut (value_at self.old)
            (covers (from_to (T.rank pair.0) (T.rank pair.0))) (V.seen pair.1)
            (value_at self.new)) }
        ensures err { OnErr result (self.new ≡ self.old) }
    {
        let (key, value) = pair;
        put_run(&mut self.pieces, Run::only(known(key)), value)
    }

    /// Moves all values of another map here, where they win. If allocation fails, or cloning a value
    /// does, some of them have been copied here, and the other map is unchanged. Otherwise it is
    /// empty. (`RangeMapBlaze::append`.)
    pub fn append(&mut self, other: &mut Self) -> Result<(), AllocError>
        ensures values { OnOk result (PutsAll self.old other.old self.new) }
        ensures emptied { OnOk result (other.new ≡ []) }
        ensures err { OnErr result (other.new ≡ other.old) }
    {
        self.copy_all(other)?;
        other.clear();
        Ok(())
    }

    // Copies all values of another map here, where they win. If allocation fails, some have been
    // copied.
    pub(crate) fn copy_all(&mut self, other: &Self) -> Result<(), AllocError>
        ensures { OnOk result (PutsAll self.old other.now self.new) }
    {
        for (range, value) in other.range_values() {
            let copy = value.clone()?;
            self.put_pair((range, copy))?;
        }
        Ok(())
    }
}

impl<T: Integer, V: MapValue, A: Allocator + Copy> RangeMapBlaze<T, V, A> {
    /// Returns the map of ranges and values. A later pair wins where ranges overlap, and an empty
    /// range changes nothing. If allocation fails, or cloning a value does, no map is made.
    /// (`FromIterator<(RangeInclusive<T>, V)>` of `RangeMapBlaze`.)
    pub fn from_iter<J: IntoIterator<Item = (RangeInclusive<T>, V)>>(
        alloc: A,
        pairs: J,
    ) -> Result<Self, AllocError>
        requires ready { IsEnding J.into_iter_gives J.IntoIter.can_next J.IntoIter.remaining
            pairs }
        ensures values { IfOk result (λ map. GaveAll J.into_iter_gives J.IntoIter.next_gives pairs
            (λ items. IsMapOf (pieces_in T.rank V.seen items) map)) }
        ensures runs { IfOk result (λ map. GaveRun J.into_iter_gives J.IntoIter.next_gives pairs
            (λ items. IsMapOf (pieces_in T.rank V.seen items) map)) }
    {
        let mut map = RangeMapBlaze::new(alloc);
        map.extend(pairs)?;
        Ok(map)
    }

    /// Returns the map of keys and values. A later pair wins. If allocation fails, or cloning a value
    /// does, no map is made. (`FromIterator<(T, V)>` of `RangeMapBlaze`.)
    pub fn from_iter_keys<J: IntoIterator<Item = (T, V)>>(
        alloc: A,
        pairs: J,
    ) -> Result<Self, AllocError>
        requires ready { IsEnding J.into_iter_gives J.IntoIter.can_next J.IntoIter.remaining
            pairs }
        ensures values { IfOk result (λ map. GaveAll J.into_iter_gives J.IntoIter.next_gives pairs
            (λ items. IsMapOf (keyed T.rank V.seen items) map)) }
        ensures runs { IfOk result (λ map. GaveRun J.into_iter_gives J.IntoIter.next_gives pairs
            (λ items. IsMapOf (keyed T.rank V.seen items) map)) }
    {
        let mut map = RangeMapBlaze::new(alloc);
        map.extend_keys(pairs)?;
        Ok(map)
    }
}
