//! Maps split in two, and the removal of the first and the last key.

ghost use Rattle.std.specs.Prelude.{
  ◌≡◌,
  ◌↔◌,
  ◌+◌,
  ◌-◌,
  ◌<◌,
  ◌≤◌,
  ℕ,
  cond,
  [],
  IfOk,
  IfSome,
  IsNone,
  None,
  Some,
  OnErr,
  OnOk,
};
ghost use Rattle.std.specs.Option.{option_map};
ghost use Rattle.rsb_storage.specs.Set.{only, IsGreatest, IsLeast};
ghost use Rattle.rsb_storage.specs.Split.{from_on};
ghost use Rattle.range_map_blaze.specs.Map.{keys, value_at, IsMapIn, IsWithin, IsWithout};
ghost use Rattle.range_map_blaze.specs.Parts.{after, before};

use crate::cut::{close_after, open_after, shorten_before};
use crate::map::RangeMapBlaze;
use crate::map_value::MapValue;
use crate::pieces::Pieces;
use rsb_integer::Integer;
use rsb_storage::run::{known, previous};
use std::alloc::{AllocError, Allocator};

impl<T: Integer, V: MapValue, A: Allocator + Copy> RangeMapBlaze<T, V, A> {
    /// Removes the values of all keys at or above a key, and returns a map of these. If allocation
    /// fails, or cloning a value does, the map is unchanged. (`RangeMapBlaze::split_off`.)
    pub fn split_off(&mut self, key: T) -> Result<Self, AllocError>
        ensures below { OnOk result
            (IsWithout (value_at self.old) (from_on (T.rank key)) (value_at self.new)) }
        ensures from { IfOk result (λ high.
            IsWithin (value_at self.old) (from_on (T.rank key)) (value_at high)) }
        ensures err { OnErr result (self.new ≡ self.old) }
    {
        let alloc = self.alloc;
        let pieces = split_pieces(&mut self.pieces, known(key))?;
        Ok(RangeMapBlaze { pieces, alloc })
    }
}

impl<T: Integer, V: MapValue, A: Allocator + Clone> RangeMapBlaze<T, V, A> {
    /// Removes the least key and returns it with its value, or returns `None` if the map is empty.
    /// If allocation fails, or cloning the value does, the map is unchanged.
    /// (`RangeMapBlaze::pop_first`.)
    pub fn pop_first(&mut self) -> Result<Option<(T, V)>, AllocError>
        ensures none { IfOk result (λ found. IsNone found → (self.new ≡ self.old) × (self.old ≡ [])) }
        ensures key { IfOk result (λ found. IfSome found (λ pair.
            IsLeast T.value_count (keys self.old) (T.rank pair.0))) }
        ensures value { IfOk result (λ found. IfSome found (λ pair.
            value_at self.old (T.rank pair.0) ≡ Some (V.seen pair.1))) }
        ensures values { IfOk result (λ found. IfSome found (λ pair.
            IsWithout (value_at self.old) (only (T.rank pair.0)) (value_at self.new))) }
        ensures err { OnErr result (self.new ≡ self.old) }
    {
        let Some((key, _)) = self.first_key_value() else {
            return Ok(None);
        };
        self.take(key)
    }

    /// Removes the greatest key and returns it with its value, or returns `None` if the map is
    /// empty. If allocation fails, or cloning the value does, the map is unchanged.
    /// (`RangeMapBlaze::pop_last`.)
    pub fn pop_last(&mut self) -> Result<Option<(T, V)>, AllocError>
        ensures none { IfOk result (λ found. IsNone found → (self.new ≡ self.old) × (self.old ≡ [])) }
        ensures key { IfOk result (λ found. IfSome found (λ pair.
            IsGreatest T.value_count (keys self.old) (T.rank pair.0))) }
        ensures value { IfOk result (λ found. IfSome found (λ pair.
            value_at self.old (T.rank pair.0) ≡ Some (V.seen pair.1))) }
        ensures values { IfOk result (λ found. IfSome found (λ pair.
            IsWithout (value_at self.old) (only (T.rank pair.0)) (value_at self.new))) }
        ensures err { OnErr result (self.new ≡ self.old) }
    {
        let Some((key, _)) = self.last_key_value() else {
            return Ok(None);
        };
        self.take(key)
    }

    // Removes a key that has a value, and returns it with that value.
    fn take(&mut self, key: T) -> Result<Option<(T, V)>, AllocError>
        ensures key { IfOk result (λ found. IfSome found (λ pair. pair.0 ≡ key)) }
        ensures value { IfOk result (λ found.
            option_map (λ pair. V.seen pair.1) found ≡ value_at self.old (T.rank key)) }
        ensures values { OnOk result
            (IsWithout (value_at self.old) (only (T.rank key)) (value_at self.new)) }
        ensures err { OnErr result (self.new ≡ self.old) }
    {
        let Some(value) = self.remove(key)? else {
            return Ok(None);
        };
        Ok(Some((key, value)))
    }
}

// Removes and returns the parts of the pieces at or above a key. If allocation fails, or cloning a
// value does, the pieces are unchanged.
fn split_pieces<T: Integer, V: MapValue, A: Allocator + Clone>(
    pieces: &mut Pieces<T, V, A>,
    key: T,
) -> Result<Pieces<T, V, A>, AllocError>
    requires canonical { IsMapIn T.value_count pieces.old }
    requires value { T.rank key < T.value_count }
    ensures low { IsMapIn T.value_count pieces.new }
    ensures high { IfOk result (λ high. IsMapIn T.value_count high) }
    ensures below { OnOk result
        (IsWithout (value_at pieces.old) (from_on (T.rank key)) (value_at pieces.new)) }
    ensures from { IfOk result (λ high.
        IsWithin (value_at pieces.old) (from_on (T.rank key)) (value_at high)) }
    ensures err { OnErr result (pieces.new ≡ pieces.old) }
{
    let Some(end) = previous(key) else {
        let high = pieces.split_off(key)?;
        return Ok(high);
    };
    let high = split_after(pieces, end, key)?;
    Ok(high)
}

// Does the same for the next key after `end`. The contract states which pieces are left.
fn split_after<T: Integer, V: MapValue, A: Allocator + Clone>(
    pieces: &mut Pieces<T, V, A>,
    end: T,
    key: T,
) -> Result<Pieces<T, V, A>, AllocError>
    requires canonical { IsMapIn T.value_count pieces.old }
    requires next { T.rank end + 1 ≡ T.rank key }
    requires value { T.rank key < T.value_count }
    ensures low { OnOk result (pieces.new ≡ before (T.rank key) pieces.old) }
    ensures high { IfOk result (λ high. high ≡ after (T.rank end) pieces.old) }
    ensures err { OnErr result (pieces.new ≡ pieces.old) }
{
    let opened = open_after(pieces, end)?;
    let high = match pieces.split_off(key) {
        Ok(high) => high,
        Err(refused) => {
            close_after(pieces, opened);
            return Err(refused);
        }
    };
    shorten_before(pieces, key);
    Ok(high)
}
