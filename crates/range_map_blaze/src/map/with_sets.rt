//! Maps and sets: the keys of a map as a set, a map of the members of a set, and changes at them.

ghost use Rattle.std.specs.Prelude.{IfOk, OnOk};
ghost use Rattle.rsb_integer.specs.Runs.{members};
ghost use Rattle.rsb_integer.specs.Selection.{complement_in};
ghost use Rattle.rsb_storage.specs.Set.{IsSetOf};
ghost use Rattle.range_map_blaze.specs.Map.{keys, none_at, value_at, IsPut, IsWithin, IsWithout};

use crate::map::RangeMapBlaze;
use crate::map_value::MapValue;
use range_set_blaze::RangeSetBlaze;
use rsb_integer::Integer;
use std::alloc::{AllocError, Allocator};

impl<T: Integer, V: MapValue, A: Allocator> RangeMapBlaze<T, V, A> {
    /// Returns the set of the keys. If allocation fails, no set is made. Not in range-set-blaze.
    pub fn key_set<B: Allocator + Copy>(&self, alloc: B) -> Result<RangeSetBlaze<T, B>, AllocError>
        ensures { IfOk result (λ set. IsSetOf set (keys self.now)) }
    {
        let set = RangeSetBlaze::from_sorted_disjoint(alloc, self.ranges())?;
        Ok(set)
    }
}

impl<T: Integer, V: MapValue, A: Allocator + Clone> RangeMapBlaze<T, V, A> {
    /// Gives all members of a set a value. If allocation fails, or cloning a value does, some runs of
    /// the set have been given the value. Not in range-set-blaze.
    pub fn put_set<B: Allocator>(
        &mut self,
        set: &RangeSetBlaze<T, B>,
        value: &V,
    ) -> Result<(), AllocError>
        ensures { OnOk result (IsPut (value_at self.old) (members set.now) (V.seen value.now)
            (value_at self.new)) }
    {
        for range in set.ranges() {
            let copy = value.clone()?;
            self.put_pair((range, copy))?;
        }
        Ok(())
    }

    /// Removes the values of all members of a set. If allocation fails, or cloning a value does, the
    /// values of some runs of the set have been removed. Not in range-set-blaze.
    pub fn remove_set<B: Allocator>(&mut self, set: &RangeSetBlaze<T, B>) -> Result<(), AllocError>
        ensures { OnOk result
            (IsWithout (value_at self.old) (members set.now) (value_at self.new)) }
    {
        for range in set.ranges() {
            self.remove_range(range)?;
        }
        Ok(())
    }

    /// Keeps only the values of the members of a set. If allocation fails, or cloning a value does,
    /// the values of some gaps of the set have been removed. Not in range-set-blaze.
    pub fn keep_set<B: Allocator>(&mut self, set: &RangeSetBlaze<T, B>) -> Result<(), AllocError>
        ensures { OnOk result
            (IsWithin (value_at self.old) (members set.now) (value_at self.new)) }
    {
        // Called only for its clauses.
        self.ranges_len();
        for gap in set.gaps_in(..) {
            self.remove_range(gap)?;
        }
        Ok(())
    }

    /// Returns the map without the values of the members of a set, as `remove_set` does in place. If
    /// allocation fails, or cloning a value does, no map is made. Not in range-set-blaze.
    pub fn difference_with_set<B: Allocator>(
        self,
        set: &RangeSetBlaze<T, B>,
    ) -> Result<Self, AllocError>
        ensures { IfOk result (λ map.
            IsWithout (value_at self) (members set.now) (value_at map)) }
    {
        let mut map = self;
        map.remove_set(set)?;
        Ok(map)
    }

    /// Returns the map with only the values of the members of a set, as `keep_set` does in place. If
    /// allocation fails, or cloning a value does, no map is made. Not in range-set-blaze.
    pub fn intersection_with_set<B: Allocator>(
        self,
        set: &RangeSetBlaze<T, B>,
    ) -> Result<Self, AllocError>
        ensures { IfOk result (λ map.
            IsWithin (value_at self) (members set.now) (value_at map)) }
    {
        let mut map = self;
        map.keep_set(set)?;
        Ok(map)
    }
}

impl<T: Integer, V: MapValue, A: Allocator + Copy> RangeMapBlaze<T, V, A> {
    /// Returns the map that gives all members of a set a value. If allocation fails, or cloning the
    /// value does, no map is made. Not in range-set-blaze.
    pub fn from_set<B: Allocator>(
        alloc: A,
        set: &RangeSetBlaze<T, B>,
        value: &V,
    ) -> Result<Self, AllocError>
        ensures { IfOk result (λ map.
            IsPut none_at (members set.now) (V.seen value.now) (value_at map)) }
    {
        let mut map = RangeMapBlaze::new(alloc);
        map.put_set(set, value)?;
        Ok(map)
    }

    /// Returns the set of the values of `T` that are no keys. If allocation fails, no set is made.
    /// Not in range-set-blaze.
    pub fn not(&self) -> Result<RangeSetBlaze<T, A>, AllocError>
        ensures { IfOk result (λ set. IsSetOf set (complement_in T.value_count (keys self.now))) }
    {
        let set = self.key_set(self.alloc)?;
        set.not()
    }

    /// Returns the map that gives a value to all keys that have none here, and nothing to the others.
    /// If allocation fails, or cloning the value does, no map is made.
    /// (`RangeMapBlaze::complement_with`.)
    pub fn complement_with(&self, value: &V) -> Result<Self, AllocError>
        ensures { IfOk result (λ map. IsPut none_at (complement_in T.value_count (keys self.now))
            (V.seen value.now) (value_at map)) }
    {
        let set = self.not()?;
        Self::from_set(self.alloc, &set, value)
    }
}
