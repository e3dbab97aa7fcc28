//! Maps that are made from a map or an array, and those that std's traits make.

ghost use Rattle.std.specs.Prelude.{◌≡◌, [], IfOk, IsOk};
ghost use Rattle.range_map_blaze.specs.Map.{IsMapOf};
ghost use Rattle.range_map_blaze.specs.Storage.{keyed, pieces_in};

use crate::map::RangeMapBlaze;
use crate::map_value::MapValue;
use rsb_integer::Integer;
use std::alloc::{AllocError, Allocator};
use std::default::{Emptied, MadeWith};
use std::ops::RangeInclusive;

impl<T: Integer, V: MapValue, A: Allocator + Copy> RangeMapBlaze<T, V, A> {
    /// Returns a map with the same ranges and values, and the same allocator. If allocation fails, or
    /// cloning a value does, no map is made. (`Clone` of `RangeMapBlaze`.)
    pub fn clone(&self) -> Result<Self, AllocError>
        ensures { IfOk result (λ map. map ≡ self.now) }
    {
        let mut map = RangeMapBlaze::new(self.alloc);
        map.copy_all(self)?;
        // Called only for their clauses.
        map.ranges_len();
        self.ranges_len();
        Ok(map)
    }

    /// Returns the map of an array of ranges and values. A later pair wins where ranges overlap, and
    /// an empty range changes nothing. Moves the pairs into a list first. If allocation fails, or
    /// cloning a value does, no map is made. (`From<[(RangeInclusive<T>, V); N]>` of
    /// `RangeMapBlaze`.)
    pub fn from_array<const N: usize>(
        alloc: A,
        pairs: [(RangeInclusive<T>, V); N],
    ) -> Result<Self, AllocError>
        ensures { IfOk result (λ map. IsMapOf (pieces_in T.rank V.seen pairs) map) }
    {
        // The pairs go through a list (docs/DECISIONS.md, lists-for-arrays).
        Self::from_iter(alloc, Vec::from_array(alloc, pairs)?)
    }

    /// Returns the map of an array of keys and values. A later pair wins. Moves the pairs into a list
    /// first. If allocation fails, or cloning a value does, no map is made. (`From<[(T, V); N]>` of
    /// `RangeMapBlaze`.)
    pub fn from_array_keys<const N: usize>(alloc: A, pairs: [(T, V); N]) -> Result<Self, AllocError>
        ensures { IfOk result (λ map. IsMapOf (keyed T.rank V.seen pairs) map) }
    {
        Self::from_iter_keys(alloc, Vec::from_array(alloc, pairs)?)
    }
}

/// `map.clone()?`: returns a map with the same ranges and values. If allocation fails, or cloning a
/// value does, no map is made.
impl<T: Integer, V: MapValue, A: Allocator + Copy> Clone for RangeMapBlaze<T, V, A> {
    ghost is_clone = { λ map copy. copy ≡ map };

    fn clone(&self) -> Result<Self, AllocError> {
        RangeMapBlaze::clone(self)
    }
}

/// `mem::try_take(&mut map)?`: takes the map and leaves an empty one in its place. Does not
/// allocate.
impl<T: Integer, V: MapValue, A: Allocator + Copy> Emptied for RangeMapBlaze<T, V, A> {
    ghost is_emptied = { λ map. map ≡ [] };

    fn emptied(like: &Self) -> Result<Self, AllocError>
        ensures made { IfOk result (λ map. map ≡ []) }
        ensures succeeds { IsOk result }
    {
        Ok(RangeMapBlaze::new(like.alloc))
    }
}

/// `or_default` of a map of maps: inserts the empty map for an absent key.
impl<T: Integer, V: MapValue, A: Allocator + Copy> MadeWith<A> for RangeMapBlaze<T, V, A> {
    ghost is_made_with = { λ map. map ≡ [] };

    fn made_with(alloc: A) -> Self {
        RangeMapBlaze::new(alloc)
    }
}
