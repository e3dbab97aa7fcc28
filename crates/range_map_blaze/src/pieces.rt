//! The pieces of a map, in a `BTreeMap`.

ghost use Rattle.std.specs.Prelude.{
  ◌≡◌,
  ◌↔◌,
  ◌+◌,
  ◌<◌,
  ◌≤◌,
  [],
  length,
  fold,
  IfOk,
  IsTrue,
  MatchOption,
  OnErr,
  OnOk,
};
ghost use Rattle.std.specs.Hash.{slice};
ghost use Rattle.rsb_integer.specs.Rank.{intervals_of};
ghost use Rattle.rsb_storage.specs.Starts.{EndsWith, StartsWith};
ghost use Rattle.rsb_storage.specs.Storage.{run_of};
ghost use Rattle.range_map_blaze.specs.Made.{fed_piece, IsSettled};
ghost use Rattle.range_map_blaze.specs.Map.{runs_of_keys, value_at, IsMapIn};
ghost use Rattle.range_map_blaze.specs.Storage.{
  pieces_below,
  pieces_from,
  pieces_in,
  pieces_of,
  with_end_at,
  with_piece,
  without_start,
  IsLastBelow,
  NoneBelow,
  StartsAscendFrom,
};

use crate::key_ranges::KeyRanges;
use crate::map_value::MapValue;
use crate::range_values::{IntoRangeValues, RangeValues};
use rsb_integer::Integer;
use rsb_storage::run::{Run, known};
use std::alloc::{AllocError, Allocator};
use std::collections::BTreeMap;
use std::collections::btree_map::{IntoIter, Iter, Range};
use std::hash::{Hash, Hasher};
use std::marker::Model;

/// A run of keys, and the value that they all have.
#[derive(Drop)]
pub struct Piece<'a, T, V> {
    pub run: Run<T>,
    pub value: &'a V,
}

/// Pieces with ascending starts. Contracts see them as the list of the intervals of their ranks,
/// each with its value.
#[derive(Drop)]
pub struct Pieces<T: Integer, V: MapValue, A: Allocator> {
    // Maps the start of each piece to its end and its value.
    map: BTreeMap<T, (T, V), A>,
}

impl<T: Integer, V: MapValue, A: Allocator> Model for Pieces<T, V, A> {
    ghost use Rattle.std.specs.Prelude.{List};
    ghost use Rattle.rsb_integer.specs.Runs.{Interval};
    ghost use Rattle.range_map_blaze.specs.Storage.{pieces_of, StartsAscendFrom};

    ghost Value = { List (Interval × V) };

    ghost view = { λ r. pieces_of T.rank V.seen r.map.entries };

    ghost invariant = { λ r. StartsAscendFrom T.value_count 0 (pieces_of T.rank V.seen r.map.entries) };
}

impl<T: Integer, V: MapValue, A: Allocator> Pieces<T, V, A> {
    /// Returns no pieces. Does not allocate.
    pub fn new(alloc: A) -> Self
        ensures { result ≡ [] }
    {
        Pieces {
            map: BTreeMap::new(alloc),
        }
    }

    /// Returns the number of pieces.
    pub fn len(&self) -> usize
        ensures { result ≡ length self.now }
    {
        self.map.len()
    }

    /// Returns whether there are no pieces.
    pub fn is_empty(&self) -> bool
        ensures { IsTrue result ↔ (self.now ≡ []) }
    {
        self.map.is_empty()
    }

    /// Removes all pieces. Does not allocate.
    pub fn clear(&mut self)
        ensures { self.new ≡ [] }
    {
        self.map.clear();
    }

    /// Returns the first piece, or `None` if there is none.
    pub fn first(&self) -> Option<Piece<'_, T, V>>
        ensures { MatchOption result (self.now ≡ [])
            (λ piece. StartsWith self.now (run_of T.rank piece.run, V.seen piece.value.now)) }
    {
        let (start, rest) = self.map.first_key_value()?;
        let run = Run {
            start: *start,
            end: rest.0,
        };
        Some(Piece {
            run,
            value: &rest.1,
        })
    }

    /// Returns the last piece, or `None` if there is none.
    pub fn last(&self) -> Option<Piece<'_, T, V>>
        ensures { MatchOption result (self.now ≡ [])
            (λ piece. EndsWith self.now (run_of T.rank piece.run, V.seen piece.value.now)) }
    {
        let mut items = self.map.iter();
        let (start, rest) = items.next_back()?;
        let run = Run {
            start: *start,
            end: rest.0,
        };
        Some(Piece {
            run,
            value: &rest.1,
        })
    }

    /// Returns the last piece that starts at or before a value, or `None` if there is none.
    pub fn up_to(&self, value: T) -> Option<Piece<'_, T, V>>
        requires { T.rank value < T.value_count }
        ensures last { MatchOption result (NoneBelow self.now (T.rank value + 1))
            (λ piece. IsLastBelow self.now (T.rank value + 1)
            (run_of T.rank piece.run, V.seen piece.value.now)) }
        ensures ascending { StartsAscendFrom T.value_count 0 self.now }
    {
        let mut entries = self.map.range(..=value);
        let (start, rest) = entries.next_back()?;
        let run = Run {
            start: *start,
            end: rest.0,
        };
        Some(Piece {
            run,
            value: &rest.1,
        })
    }

    /// Returns the pieces in ascending order, as ranges with references to values.
    pub fn range_values(&self) -> RangeValues<'_, T, V>
        ensures { pieces_in T.rank V.seen result ≡ self.now }
    {
        RangeValues {
            entries: self.map.iter(),
        }
    }

    /// Returns the pieces in ascending order, as ranges with values, with an iterator that owns them.
    /// Does not allocate.
    pub fn into_range_values(self) -> IntoRangeValues<T, V, A>
        ensures { pieces_in T.rank V.seen result ≡ self }
    {
        IntoRangeValues {
            entries: self.map.into_iter(),
        }
    }

    /// Returns the ranges of the pieces in ascending order, without values.
    pub fn key_ranges(&self) -> KeyRanges<'_, T, V>
        ensures { intervals_of T.rank result ≡ runs_of_keys self.now }
    {
        KeyRanges {
            entries: self.map.iter(),
        }
    }

    /// Returns the entries of the pieces, in ascending order.
    pub fn entries(&self) -> Iter<'_, T, (T, V)>
        ensures { pieces_of T.rank V.seen result ≡ self.now }
    {
        self.map.iter()
    }

    /// Returns the entries of the pieces, in ascending order, as the iterator over a part of them.
    pub fn all_entries(&self) -> Range<'_, T, (T, V)>
        ensures { pieces_of T.rank V.seen result ≡ self.now }
    {
        self.map.range(..)
    }

    /// Returns the entries of the pieces that start in a window, in ascending order.
    pub fn starting_in(&self, window: Run<T>) -> Range<'_, T, (T, V)>
        requires order { T.rank window.start ≤ T.rank window.end }
        requires value { T.rank window.end < T.value_count }
        ensures { pieces_of T.rank V.seen result ≡ pieces_below (T.rank window.end + 1)
            (pieces_from (T.rank window.start) self.now) }
    {
        self.map.range(window.start..=window.end)
    }

    /// Returns an iterator over no entries.
    pub fn no_entries(&self) -> Range<'_, T, (T, V)>
        ensures { result ≡ [] }
    {
        let start = known(T::min_value());
        self.map.range(start..start)
    }

    /// Returns the entries of the pieces, in ascending order, with an iterator that owns them.
    pub fn into_entries(self) -> IntoIter<T, (T, V), A>
        ensures { pieces_of T.rank V.seen result ≡ self }
    {
        self.map.into_iter()
    }

    /// Returns whether these pieces and others are the same.
    pub fn same(&self, other: &Self) -> bool
        requires { IsMapIn T.value_count self.now }
        ensures same { IsTrue result ↔ (self.now ≡ other.now) }
        ensures settled { IsSettled V.seen (value_at self.now) }
        ensures settled_other { IsSettled V.seen (value_at other.now) }
    {
        self.map == other.map
    }

    /// Removes the piece that starts at a value, if there is one.
    pub fn remove(&mut self, start: T)
        requires { T.rank start < T.value_count }
        ensures { self.new ≡ without_start (T.rank start) self.old }
    {
        self.map.remove(&start);
    }

    /// Gives the piece that starts at a value another end, if there is one.
    pub fn set_end(&mut self, start: T, end: T)
        requires { T.rank start < T.value_count }
        ensures { self.new ≡ with_end_at (T.rank start) (T.rank end) self.old }
    {
        let Some(rest) = self.map.get_mut(&start) else {
            return;
        };
        rest.0 = end;
    }
}

impl<T: Integer, V: MapValue, A: Allocator + Clone> Pieces<T, V, A> {
    /// Inserts a piece, in place of any piece with the same start. If allocation fails, the pieces
    /// are unchanged.
    pub fn put(&mut self, run: Run<T>, value: V) -> Result<(), AllocError>
        requires { T.rank run.start < T.value_count }
        ensures pieces { OnOk result (self.new ≡ with_piece (run_of T.rank run, V.seen value) self.old) }
        ensures err { OnErr result (self.new ≡ self.old) }
    {
        self.map.insert(run.start, (run.end, value))?;
        Ok(())
    }

    /// Removes and returns the pieces that start at a value or past it. If allocation fails, the
    /// pieces are unchanged.
    pub fn split_off(&mut self, key: T) -> Result<Self, AllocError>
        requires { T.rank key < T.value_count }
        ensures low { OnOk result (self.new ≡ pieces_below (T.rank key) self.old) }
        ensures high { IfOk result (λ high. high ≡ pieces_from (T.rank key) self.old) }
        ensures err { OnErr result (self.new ≡ self.old) }
    {
        let map = self.map.split_off(&key)?;
        Ok(Pieces { map })
    }
}

impl<T: Integer + Hash, V: MapValue + Hash, A: Allocator> Pieces<T, V, A> {
    /// Feeds a hasher the number of pieces, and then each piece.
    pub fn feed<H: Hasher>(&self, state: &mut H)
        requires { IsMapIn T.value_count self.now }
        ensures fed { state.new ≡ fold H.write state.old (slice
            (fed_piece (λ rank. T.hash_input (T.value_at rank)) V.hash_input) self.now) }
        ensures settled { IsSettled V.seen (value_at self.now) }
    {
        self.map.hash(state);
    }
}
