//! Walks over the keys of a map and their values.

ghost use Rattle.std.specs.Prelude.{◌≡◌};
ghost use Rattle.rsb_storage.specs.Set.{ranks_in};
ghost use Rattle.range_map_blaze.specs.Map.{value_at, IsWithin};

use crate::elements::{Iter, Keys, Values};
use crate::into_elements::{IntoIter, IntoKeys, IntoValues};
use crate::map::RangeMapBlaze;
use crate::map_value::MapValue;
use crate::windows::{no_pairs, pairs_between};
use rsb_integer::Integer;
use rsb_storage::bounds::run_between;
use std::alloc::Allocator;
use std::ops::RangeBounds;

impl<T: Integer, V: MapValue, A: Allocator> RangeMapBlaze<T, V, A> {
    /// Returns the keys in ascending order, each with a reference to its value, as a double-ended
    /// iterator. Does not allocate. (`RangeMapBlaze::iter`.)
    pub fn iter(&self) -> Iter<'_, T, V>
        ensures { result ≡ self.now }
    {
        Iter {
            front: None,
            entries: self.pieces.all_entries(),
            back: None,
        }
    }

    /// Returns the keys in ascending order, as a double-ended iterator. Does not allocate.
    /// (`RangeMapBlaze::keys`.)
    pub fn keys(&self) -> Keys<'_, T, V>
        ensures { result ≡ self.now }
    {
        Keys { pairs: self.iter() }
    }

    /// Returns a reference to the value of each key, in ascending order of the keys, as a
    /// double-ended iterator. Does not allocate. (`RangeMapBlaze::values`.)
    pub fn values(&self) -> Values<'_, T, V>
        ensures { result ≡ self.now }
    {
        Values { pairs: self.iter() }
    }

    /// Returns the keys between two bounds in ascending order, each with a reference to its value,
    /// as a double-ended iterator. If the bounds are empty or reversed, there are none. Does not
    /// allocate. The call takes O(log n) time on a map of n ranges. (`RangeMapBlaze::range`.)
    ///
    /// The contract says nothing about a `RangeBounds` type whose own contract does not specify its
    /// bounds, or about a `RangeInclusive` that was iterated to its end.
    pub fn range<R: RangeBounds<T>>(&self, range: R) -> Iter<'_, T, V>
        ensures { R.has_bounds range → IsWithin (value_at self.now)
            (ranks_in T.rank T.value_count R.start_bound R.end_bound range) (value_at result) }
    {
        // The values are lent (docs/DECISIONS.md, range-of-map-lends).
        match run_between(&range) {
            Some(window) => pairs_between(&self.pieces, window),
            None => no_pairs(&self.pieces),
        }
    }
}

impl<'a, T: Integer, V: MapValue, A: Allocator> IntoIterator for &'a RangeMapBlaze<T, V, A> {
    type Item = (T, &'a V);

    type IntoIter = Iter<'a, T, V>;

    ghost into_iter_gives = { λ map pairs. pairs ≡ map.now };

    fn into_iter(self) -> Iter<'a, T, V> {
        self.iter()
    }
}

impl<T: Integer, V: MapValue, A: Allocator> RangeMapBlaze<T, V, A> {
    /// Returns the keys in ascending order, as a double-ended iterator that owns the map. Does not
    /// allocate. (`RangeMapBlaze::into_keys`.)
    pub fn into_keys(self) -> IntoKeys<T, V, A>
        ensures { result ≡ self }
    {
        IntoKeys {
            front: None,
            entries: self.pieces.into_entries(),
            back: None,
        }
    }
}

impl<T: Integer, V: MapValue + Copy, A: Allocator> RangeMapBlaze<T, V, A> {
    /// Returns the value of each key, in ascending order of the keys, as a double-ended iterator
    /// that owns the map. Does not allocate. (`RangeMapBlaze::into_values`.)
    pub fn into_values(self) -> IntoValues<T, V, A>
        ensures { result ≡ self }
    {
        IntoValues {
            pairs: self.into_iter(),
        }
    }
}

/// The values are copied (docs/DECISIONS.md, copied-values).
impl<T: Integer, V: MapValue + Copy, A: Allocator> IntoIterator for RangeMapBlaze<T, V, A> {
    type Item = (T, V);

    type IntoIter = IntoIter<T, V, A>;

    ghost into_iter_gives = { λ map pairs. pairs ≡ map };

    fn into_iter(self) -> IntoIter<T, V, A> {
        IntoIter {
            front: None,
            entries: self.pieces.into_entries(),
            back: None,
        }
    }
}
