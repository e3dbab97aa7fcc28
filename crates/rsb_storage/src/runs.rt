//! The runs of a set, in a `BTreeMap`.

ghost use Rattle.std.specs.Prelude.{
  ◌≡◌,
  ◌↔◌,
  ◌+◌,
  ◌-◌,
  ◌^◌,
  ◌<◌,
  ◌≤◌,
  [],
  ◌++◌,
  length,
  slice_get,
  Contains,
  IfOk,
  IfSome,
  IsNone,
  IsOk,
  IsTrue,
  MatchOption,
  OnErr,
  OnOk,
  Some,
};
ghost use Rattle.rsb_integer.specs.Rank.{intervals_of};
ghost use Rattle.rsb_integer.specs.Runs.{Interval, IsCanonicalIn};
ghost use Rattle.rsb_storage.specs.Storage.{run_of, runs_of};
ghost use Rattle.rsb_storage.specs.Starts.{
  runs_below,
  runs_past,
  starting_from,
  with_run,
  without_start,
  IsLastBelow,
  IsLastTwo,
  NoneBelow,
  StartsWith,
};
ghost use Rattle.rsb_storage.specs.Windows.{starting_within};

use crate::entries::{last_run, next_in_range};
use crate::into_ranges_iter::IntoRangesIter;
use crate::ranges_iter::RangesIter;
use crate::run::{Run, known};
use rsb_integer::Integer;
use std::alloc::{AllocError, Allocator};
use std::collections::BTreeMap;
use std::collections::btree_map::{IntoIter, Iter, Range};
use std::marker::Model;
use std::ops::{Bound, RangeInclusive};

/// Runs with ascending starts. Contracts see them as the list of the intervals of their ranks.
#[derive(Drop)]
pub struct Runs<T: Integer, A: Allocator> {
    // Maps the start of each run to its end (docs/DECISIONS.md, tree-map).
    map: BTreeMap<T, T, A>,
}

impl<T: Integer, A: Allocator> Model for Runs<T, A> {
    ghost use Rattle.std.specs.Prelude.{List};
    ghost use Rattle.rsb_integer.specs.Runs.{Interval};
    ghost use Rattle.rsb_storage.specs.Storage.{runs_of};
    ghost use Rattle.rsb_storage.specs.Starts.{StartsAscendFrom};

    ghost Value = { List Interval };

    ghost view = { λ r. runs_of T.rank r.map.entries };

    ghost invariant = { λ r. StartsAscendFrom T.value_count 0 (runs_of T.rank r.map.entries) };
}

impl<T: Integer, A: Allocator> Runs<T, A> {
    /// Returns no runs. Does not allocate.
    pub fn new(alloc: A) -> Self
        ensures { result ≡ [] }
    {
        Runs {
            map: BTreeMap::new(alloc),
        }
    }

    /// Returns the number of runs.
    pub fn len(&self) -> usize
        ensures { result ≡ length self.now }
    {
        self.map.len()
    }

    /// Returns whether there are no runs.
    pub fn is_empty(&self) -> bool
        ensures { IsTrue result ↔ (self.now ≡ []) }
    {
        self.map.is_empty()
    }

    /// Removes all runs. Does not allocate.
    pub fn clear(&mut self)
        ensures { self.new ≡ [] }
    {
        self.map.clear();
    }

    /// Returns the first run, or `None` if there is none.
    pub fn first(&self) -> Option<Run<T>>
        ensures { MatchOption result (self.now ≡ [])
            (λ run. StartsWith self.now (run_of T.rank run)) }
    {
        let entry = self.map.first_key_value()?;
        Some(Run::of_entry(entry))
    }

    /// Returns the last run, or `None` if there is none.
    pub fn last(&self) -> Option<Run<T>>
        ensures none { IsNone result ↔ (self.now ≡ []) }
        ensures last { IfSome result (λ run. slice_get self.now (length self.now - 1)
            ≡ Some (run_of T.rank run)) }
    {
        let entry = self.map.last_key_value()?;
        Some(Run::of_entry(entry))
    }

    /// Returns the entries of the runs in ascending order.
    pub fn iter(&self) -> Iter<'_, T, T>
        ensures runs { runs_of T.rank result ≡ self.now }
        ensures fits { length self.now < 2 ^ 63 }
    {
        self.map.iter()
    }

    /// Returns the runs in ascending order, as ranges.
    pub fn ranges(&self) -> RangesIter<'_, T>
        ensures { intervals_of T.rank result ≡ self.now }
    {
        RangesIter {
            entries: self.iter(),
        }
    }

    /// Returns the runs in ascending order, as ranges, with an iterator that owns them. Does not
    /// allocate.
    pub fn into_ranges(self) -> IntoRangesIter<T, A>
        ensures { intervals_of T.rank result ≡ self }
    {
        IntoRangesIter {
            entries: self.into_entries(),
        }
    }

    /// Returns the entries of the runs in ascending order, as an iterator that owns them. Does not
    /// allocate.
    pub fn into_entries(self) -> IntoIter<T, T, A>
        ensures { runs_of T.rank result ≡ self }
    {
        self.map.into_iter()
    }

    /// Returns the last run that starts at or before a value, or `None` if there is none.
    pub fn up_to(&self, value: T) -> Option<Run<T>>
        requires { T.rank value < T.value_count }
        ensures { MatchOption result (NoneBelow self.now (T.rank value + 1))
            (λ run. IsLastBelow self.now (T.rank value + 1) (run_of T.rank run)) }
    {
        let mut entries = self.map.range(..=value);
        last_run(&mut entries)
    }

    /// Returns the last two runs that start at or before a value, the last one first
    /// (docs/DECISIONS.md, last-reached-first).
    pub fn last_two(&self, value: T) -> (Option<Run<T>>, Option<Run<T>>)
        requires { T.rank value < T.value_count }
        ensures two { IsLastTwo T.rank self.now (T.rank value + 1) result.0 result.1 }
        ensures none { IsNone result.0 → IsNone result.1 }
    {
        let mut entries = self.map.range(..=value);
        let Some(last) = last_run(&mut entries) else {
            return (None, None);
        };
        (Some(last), last_run(&mut entries))
    }

    /// Returns the first run that starts after a value, or `None` if there is none.
    pub fn after(&self, value: T) -> Option<Run<T>>
        requires { T.rank value < T.value_count }
        ensures { MatchOption result (runs_past (T.rank value) self.now ≡ [])
            (λ run. StartsWith (runs_past (T.rank value) self.now) (run_of T.rank run)) }
    {
        next_in_range(&mut self.starting_after(value))
    }

    /// Returns the entries of the runs that start after a value.
    #[inline(always)]
    pub fn starting_after(&self, value: T) -> Range<'_, T, T>
        requires { T.rank value < T.value_count }
        ensures { runs_of T.rank result ≡ runs_past (T.rank value) self.now }
    {
        self.map.range((Bound::Excluded(value), Bound::Unbounded))
    }

    /// Returns the entries of the runs that start within a window.
    pub fn starting_in(&self, window: Run<T>) -> Range<'_, T, T>
        requires order { T.rank window.start ≤ T.rank window.end }
        requires value { T.rank window.end < T.value_count }
        ensures { runs_of T.rank result ≡ starting_within (T.rank window.start)
            (T.rank window.end) self.now }
    {
        self.map.range(window.start..=window.end)
    }

    /// Returns an iterator over no entries.
    pub fn no_entries(&self) -> Range<'_, T, T>
        ensures { result ≡ [] }
    {
        let start = known(T::min_value());
        self.map.range(start..start)
    }

    /// Removes the run that starts at a value, if there is one.
    pub fn remove(&mut self, start: T)
        requires { T.rank start < T.value_count }
        ensures { self.new ≡ without_start (T.rank start) self.old }
    {
        self.map.remove(&start);
    }
}

impl<T: Integer, A: Allocator + Clone> Runs<T, A> {
    /// Returns the runs of a list of entries, built in one pass.
    pub fn from_entries(alloc: A, entries: Vec<(T, T), A>) -> Result<Self, AllocError>
        requires { IsCanonicalIn T.value_count (runs_of T.rank entries.items) }
        ensures { IfOk result (λ runs. runs ≡ runs_of T.rank entries.items) }
    {
        let map = BTreeMap::from_iter(alloc, entries)?;
        Ok(Runs { map })
    }

    /// Returns the runs of a list of ranges, built in one pass.
    pub fn from_ranges(alloc: A, ranges: Vec<RangeInclusive<T>, A>) -> Result<Self, AllocError>
        requires { IsCanonicalIn T.value_count (intervals_of T.rank ranges.items) }
        ensures { IfOk result (λ runs. runs ≡ intervals_of T.rank ranges.items) }
    {
        let entries = ranges.into_iter().map(|range| range.into_inner());
        let map = entries.collect(alloc)?;
        Ok(Runs { map })
    }

    /// Returns a copy of the runs, built in one pass. If allocation fails, no copy is made.
    pub fn copied(&self, alloc: A) -> Result<Self, AllocError>
        ensures { IfOk result (λ runs. runs ≡ self.now) }
    {
        // The map's own `clone` says only that `T`'s `clone` made the values, and is no faster.
        let entries = self.map.iter().map(|(start, end)| (*start, *end));
        let map = entries.collect(alloc)?;
        Ok(Runs { map })
    }

    /// Returns the runs of two lists, one after the other, built in one pass.
    pub fn chained<L: Allocator, H: Allocator>(
        alloc: A,
        low: &Runs<T, L>,
        high: &Runs<T, H>,
    ) -> Result<Self, AllocError>
        requires { IsCanonicalIn T.value_count (low.now ++ high.now) }
        ensures { IfOk result (λ runs. runs ≡ low.now ++ high.now) }
    {
        let entries = low
            .map
            .iter()
            .chain(high.map.iter())
            .map(|(start, end)| (*start, *end));
        let map = entries.collect(alloc)?;
        Ok(Runs { map })
    }

    /// Inserts a run, in place of any run with the same start. It does not allocate if there is
    /// such a run. If allocation fails, the runs are unchanged.
    pub fn put(&mut self, run: Run<T>) -> Result<(), AllocError>
        requires { T.rank run.start < T.value_count }
        ensures runs { OnOk result (self.new ≡ with_run (run_of T.rank run) self.old) }
        ensures err { OnErr result (self.new ≡ self.old) }
        ensures succeeds { (other : Interval) → Contains self.old other → other.first
            ≡ T.rank run.start → IsOk result }
    {
        // This also gives a new end to a run that starts here (docs/DECISIONS.md, insert-at-start).
        self.map.insert(run.start, run.end)?;
        Ok(())
    }

    /// Removes and returns the runs that start at a value or past it. If allocation fails, the runs
    /// are unchanged.
    pub fn split_off(&mut self, key: T) -> Result<Self, AllocError>
        requires { T.rank key < T.value_count }
        ensures low { OnOk result (self.new ≡ runs_below (T.rank key) self.old) }
        ensures high { IfOk result (λ high. high ≡ starting_from (T.rank key) self.old) }
        ensures err { OnErr result (self.new ≡ self.old) }
    {
        let map = self.map.split_off(&key)?;
        Ok(Runs { map })
    }
}
