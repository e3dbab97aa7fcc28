//! Look-ups of keys, and how many there are.

ghost use Rattle.std.specs.Prelude.{
  ◌≡◌,
  ◌↔◌,
  ◌<◌,
  [],
  IfSome,
  IsNone,
  IsTrue,
  MatchOption,
  None,
  Some,
};
ghost use Rattle.std.specs.Option.{option_map};
ghost use Rattle.rsb_integer.specs.Rank.{interval_of};
ghost use Rattle.rsb_integer.specs.Selection.{count, IsUniversal};
ghost use Rattle.rsb_storage.specs.Set.{IsGreatest, IsLeast};
ghost use Rattle.range_map_blaze.specs.Map.{keys, value_at, IsPieceAround};

use crate::cut::piece_at;
use crate::map::RangeMapBlaze;
use crate::map_value::MapValue;
use rsb_integer::Integer;
use rsb_storage::run::known;
use rsb_streams::DrawDisjoint;
use std::alloc::Allocator;
use std::ops::RangeInclusive;

impl<T: Integer, V: MapValue, A: Allocator> RangeMapBlaze<T, V, A> {
    /// Returns the number of keys. Takes a step for each range, and does not allocate.
    /// (`RangeMapBlaze::len`.)
    pub fn len(&self) -> T::SafeLen
        ensures { T.SafeLen.number result ≡ count T.value_count (keys self.now) }
    {
        self.ranges().members_len()
    }

    /// Returns whether every value of `T` is a key. Does not allocate.
    /// (`RangeMapBlaze::is_universal`.)
    pub fn is_universal(&self) -> bool
        ensures { IsTrue result ↔ IsUniversal T.value_count (keys self.now) }
    {
        self.ranges().is_universal()
    }

    /// Returns the value of a key, or `None` if it has none. (`RangeMapBlaze::get`.)
    pub fn get(&self, key: T) -> Option<&V>
        ensures { option_map (λ value. V.seen value.now) result ≡ value_at self.now (T.rank key) }
    {
        let piece = piece_at(&self.pieces, known(key))?;
        Some(piece.value)
    }

    /// Returns a key and its value, or `None` if it has none. (`RangeMapBlaze::get_key_value`.)
    pub fn get_key_value(&self, key: T) -> Option<(T, &V)>
        ensures value { option_map (λ pair. V.seen pair.1.now) result
            ≡ value_at self.now (T.rank key) }
        ensures key { IfSome result (λ pair. pair.0 ≡ key) }
    {
        let piece = piece_at(&self.pieces, known(key))?;
        Some((key, piece.value))
    }

    /// Returns whether a key has a value. (`RangeMapBlaze::contains_key`.)
    pub fn contains_key(&self, key: T) -> bool
        ensures { result ≡ keys self.now (T.rank key) }
    {
        self.get(key).is_some()
    }

    /// Returns the maximal range around a key that has one value, and that value, or `None` if the
    /// key has none. Not in range-set-blaze.
    pub fn range_at(&self, key: T) -> Option<(RangeInclusive<T>, &V)>
        ensures { MatchOption result (value_at self.now (T.rank key) ≡ None)
            (λ pair. IsPieceAround T.value_count (value_at self.now) (T.rank key)
            (interval_of T.rank pair.0, V.seen pair.1.now)) }
    {
        let piece = piece_at(&self.pieces, known(key))?;
        let run = piece.run;
        Some((run.start..=run.end, piece.value))
    }

    /// Returns the least key and its value, or `None` if the map is empty.
    /// (`RangeMapBlaze::first_key_value`.)
    pub fn first_key_value(&self) -> Option<(T, &V)>
        ensures none { IsNone result ↔ (self.now ≡ []) }
        ensures key { IfSome result (λ pair.
            IsLeast T.value_count (keys self.now) (T.rank pair.0)) }
        ensures value { IfSome result (λ pair.
            value_at self.now (T.rank pair.0) ≡ Some (V.seen pair.1.now)) }
    {
        let piece = self.pieces.first()?;
        let run = piece.run;
        Some((run.start, piece.value))
    }

    /// Returns the greatest key and its value, or `None` if the map is empty.
    /// (`RangeMapBlaze::last_key_value`.)
    pub fn last_key_value(&self) -> Option<(T, &V)>
        ensures none { IsNone result ↔ (self.now ≡ []) }
        ensures key { IfSome result (λ pair.
            IsGreatest T.value_count (keys self.now) (T.rank pair.0)) }
        ensures value { IfSome result (λ pair.
            value_at self.now (T.rank pair.0) ≡ Some (V.seen pair.1.now)) }
    {
        let piece = self.pieces.last()?;
        let run = piece.run;
        Some((run.end, piece.value))
    }
}
