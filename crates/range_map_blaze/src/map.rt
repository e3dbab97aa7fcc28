//! The map type: its pieces in ascending order.
//!
//! Contracts see only the list of its pieces (docs/DECISIONS.md, map-as-pieces).

ghost use Rattle.std.specs.Prelude.{◌≡◌, ◌↔◌, ℕ, [], length, IsTrue};
ghost use Rattle.rsb_integer.specs.Runs.{members};
ghost use Rattle.rsb_streams.specs.Stream.{◌⊆◌, joined_runs, just};
ghost use Rattle.range_map_blaze.specs.Map.{keys, runs_of_keys, value_at, ArePieces, IsMapIn};
ghost use Rattle.range_map_blaze.specs.Storage.{pieces_in};

mod collect;
mod copy;
mod extend;
mod insert;
mod look_up;
mod operators;
mod order;
mod remove;
mod retain;
mod split;
mod text;
mod walks;
mod with_sets;

use crate::key_ranges::KeyRanges;
use crate::map_value::MapValue;
use crate::pieces::Pieces;
use crate::range_values::{IntoRangeValues, RangeValues};
use rsb_integer::Integer;
use rsb_streams::{Draw, SortedTouching, UnionIter};
use std::alloc::{Allocator, Global};
use std::marker::Model;

/// A map from ranges of integers to values. Contracts see it as the list of its pieces: the maximal
/// intervals of ranks that have one value, each with that value. (`RangeMapBlaze` in
/// range-set-blaze.)
#[derive(Drop)]
pub struct RangeMapBlaze<T: Integer, V: MapValue, A: Allocator = Global> {
    pieces: Pieces<T, V, A>,
    // The allocator of the pieces, which calls on this map use to make other maps and sets
    // (docs/DECISIONS.md, allocator-parameter).
    alloc: A,
}

impl<T: Integer, V: MapValue, A: Allocator> Model for RangeMapBlaze<T, V, A> {
    ghost use Rattle.std.specs.Prelude.{List};
    ghost use Rattle.rsb_integer.specs.Runs.{Interval};
    ghost use Rattle.range_map_blaze.specs.Map.{IsMapIn};

    ghost Value = { List (Interval × V) };

    ghost view = { λ m. m.pieces };

    ghost invariant = { λ m. IsMapIn T.value_count m.pieces };
}

impl<T: Integer, V: MapValue, A: Allocator + Copy> RangeMapBlaze<T, V, A> {
    /// Returns the empty map. Does not allocate. (`RangeMapBlaze::new`.)
    pub fn new(alloc: A) -> Self
        ensures { result ≡ [] }
    {
        RangeMapBlaze {
            pieces: Pieces::new(alloc),
            alloc,
        }
    }

    /// Returns the empty map. Does not allocate. (`Default` of `RangeMapBlaze`, whose `default`
    /// takes no allocator.)
    pub fn default(alloc: A) -> Self
        ensures { result ≡ [] }
    {
        Self::new(alloc)
    }
}

impl<T: Integer, V: MapValue, A: Allocator> RangeMapBlaze<T, V, A> {
    /// Returns the allocator of the map. Calls on the map use it to make other maps and sets. Not in
    /// range-set-blaze.
    // No clause names the allocator: contracts see only the pieces (docs/DECISIONS.md, map-as-pieces).
    pub fn allocator(&self) -> &A {
        &self.alloc
    }

    /// Returns the number of ranges, which are the maximal ones with one value.
    /// (`RangeMapBlaze::ranges_len`.)
    pub fn ranges_len(&self) -> usize
        ensures length { result ≡ length self.now }
        ensures pieces { ArePieces T.value_count (value_at self.now) self.now }
        ensures canonical { IsMapIn T.value_count self.now }
    {
        self.pieces.len()
    }

    /// Returns whether no key has a value. (`RangeMapBlaze::is_empty`.)
    pub fn is_empty(&self) -> bool
        ensures { IsTrue result ↔ (self.now ≡ []) }
    {
        self.pieces.is_empty()
    }

    /// Removes all values. Does not allocate. (`RangeMapBlaze::clear`.)
    pub fn clear(&mut self)
        ensures { self.new ≡ [] }
    {
        self.pieces.clear();
    }

    /// Returns the ranges in ascending order, each with a reference to its value, as a double-ended
    /// iterator. Does not allocate. (`RangeMapBlaze::range_values`.)
    pub fn range_values(&self) -> RangeValues<'_, T, V>
        ensures { pieces_in T.rank V.seen result ≡ self.now }
    {
        self.pieces.range_values()
    }

    /// Returns the ranges in ascending order, each with its value, as a double-ended iterator that
    /// owns them. Does not allocate. (`RangeMapBlaze::into_range_values`.)
    pub fn into_range_values(self) -> IntoRangeValues<T, V, A>
        ensures { pieces_in T.rank V.seen result ≡ self }
    {
        self.pieces.into_range_values()
    }

    /// Returns the keys in ascending order, as a stream of ranges: those of the map, joined if they
    /// touch. Does not allocate. (`RangeMapBlaze::ranges`.)
    pub fn ranges<'a>(&'a self) -> UnionIter<T, KeyRanges<'a, T, V>>
        ensures ready { ⟦<UnionIter<T, KeyRanges<'a, T, V>> as Draw<T>>⟧.can_draw result }
        ensures gives { ⟦<UnionIter<T, KeyRanges<'a, T, V>> as Draw<T>>⟧.may_give result
            ⊆ joined_runs T.value_count (just (runs_of_keys self.now)) }
        ensures canonical { IsMapIn T.value_count self.now }
        ensures keys { (rank : ℕ) → members (runs_of_keys self.now) rank ≡ keys self.now rank }
    {
        self.pieces.key_ranges().joined()
    }
}
