//! Removal of the keys, and of the ranges, for which a closure returns false.

ghost use Rattle.std.specs.Prelude.{◌≡◌, ℕ, Bool, IfOk, OnErr, OnOk};
ghost use Rattle.std.specs.List.{filter};
ghost use Rattle.rsb_integer.specs.Runs.{covers, from_to, Interval};
ghost use Rattle.rsb_streams.specs.Sublists.{IsSublist};
ghost use Rattle.range_map_blaze.specs.Map.{value_at, IsPut};
ghost use Rattle.range_map_blaze.specs.Retain.{AnswersByPair, AnswersByPiece, IsKept, IsPartOf};

use crate::map::RangeMapBlaze;
use crate::map_value::MapValue;
use rsb_integer::Integer;
use std::alloc::{AllocError, Allocator};
use std::ops::RangeInclusive;

impl<T: Integer, V: MapValue, A: Allocator + Copy> RangeMapBlaze<T, V, A> {
    /// Calls `f` on each key and its value in ascending order, and keeps the keys for which it
    /// returns true. `f` must always be callable. Takes a step and an insertion for each key, and
    /// clones the values that it keeps. If allocation fails, or cloning a value does, the map is
    /// unchanged, and `f` was called on a prefix of the keys. (`RangeMapBlaze::retain`.)
    pub fn retain<F: FnMut(&T, &V) -> bool>(&mut self, f: F) -> Result<(), AllocError>
        requires { F.IsAlwaysCallable f }
        ensures within { OnOk result (IsPartOf (value_at self.new) (value_at self.old)) }

        // If the result of `f` depends only on the key and its value, the keys kept are those for
        // which it is true.
        ensures exact { (keeps : ℕ → V → Bool)
            → AnswersByPair T.rank T.value_count V.seen F.FnMut keeps f
            → OnOk result (IsKept keeps (value_at self.old) (value_at self.new)) }
        ensures err { OnErr result (self.new ≡ self.old) }
    {
        // What is kept is put into a new map (docs/DECISIONS.md, retain-in-a-new-map).
        let kept = self.kept_pairs(f)?;
        *self = kept;
        Ok(())
    }

    /// Calls `f` on each range and its value in ascending order, and keeps the ranges for which it
    /// returns true. `f` must always be callable. Clones the values that it keeps. If allocation
    /// fails, or cloning a value does, the map is unchanged, and `f` was called on a prefix of the
    /// ranges. (`RangeMapBlaze::ranges_retain`.)
    pub fn ranges_retain<F: FnMut(&RangeInclusive<T>, &V) -> bool>(
        &mut self,
        f: F,
    ) -> Result<(), AllocError>
        requires { F.IsAlwaysCallable f }
        ensures within { OnOk result (IsSublist self.new self.old) }

        // If the result of `f` depends only on the range and its value, the ranges kept are those
        // for which it is true.
        ensures exact { (keeps : Interval × V → Bool)
            → AnswersByPiece T.rank T.value_count V.seen F.FnMut keeps f
            → OnOk result (self.new ≡ filter keeps self.old) }
        ensures err { OnErr result (self.new ≡ self.old) }
    {
        let kept = self.kept_ranges(f)?;
        *self = kept;
        Ok(())
    }

    // Returns the map of the ranges for which `f` returns true.
    fn kept_ranges<F: FnMut(&RangeInclusive<T>, &V) -> bool>(
        &self,
        f: F,
    ) -> Result<Self, AllocError>
        requires { F.IsAlwaysCallable f }
        ensures within { IfOk result (λ kept. IsSublist kept self.now) }
        ensures exact { (keeps : Interval × V → Bool)
            → AnswersByPiece T.rank T.value_count V.seen F.FnMut keeps f
            → IfOk result (λ kept. kept ≡ filter keeps self.now) }
    {
        let mut f = f;
        let mut kept = RangeMapBlaze::new(self.alloc);
        // Called only for its clauses.
        self.ranges_len();
        for (range, value) in self.range_values() {
            if f(&range, value) {
                let copy = value.clone()?;
                kept.put_pair((range, copy))?;
            }
        }
        // Called only for its clauses.
        kept.ranges_len();
        Ok(kept)
    }

    // Returns the map of the keys for which `f` returns true.
    fn kept_pairs<F: FnMut(&T, &V) -> bool>(&self, f: F) -> Result<Self, AllocError>
        requires { F.IsAlwaysCallable f }
        ensures within { IfOk result (λ kept. IsPartOf (value_at kept) (value_at self.now)) }
        ensures exact { (keeps : ℕ → V → Bool)
            → AnswersByPair T.rank T.value_count V.seen F.FnMut keeps f
            → IfOk result (λ kept. IsKept keeps (value_at self.now) (value_at kept)) }
    {
        let mut f = f;
        let mut kept = RangeMapBlaze::new(self.alloc);
        for (key, value) in self.iter() {
            if f(&key, value) {
                kept.put_copy(key, value)?;
            }
        }
        Ok(kept)
    }

    // Gives a key a clone of a value.
    fn put_copy(&mut self, key: T, value: &V) -> Result<(), AllocError>
        ensures { OnOk result (IsPut (value_at self.old)
            (covers (from_to (T.rank key) (T.rank key))) (V.seen value.now) (value_at self.new)) }
    {
        let copy = value.clone()?;
        self.put_key((key, copy))
    }
}
