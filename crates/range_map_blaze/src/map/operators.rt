//! Std's operators on maps. Each returns what the method of the same name returns.

ghost use Rattle.std.specs.Prelude.{◌≡◌, IfOk, IsSome, Some};
ghost use Rattle.rsb_integer.specs.Selection.{complement_in};
ghost use Rattle.rsb_storage.specs.Set.{IsSetOf};
ghost use Rattle.range_map_blaze.specs.Map.{keys, value_at};

use crate::map::RangeMapBlaze;
use crate::map_value::MapValue;
use range_set_blaze::RangeSetBlaze;
use rsb_integer::Integer;
use std::alloc::{AllocError, Allocator};
use std::ops::{Index, Not};

/// `(!&map)?`: returns the set of the values that are no keys. If allocation fails, no set is made.
impl<'a, T: Integer, V: MapValue, A: Allocator + Copy> Not for &'a RangeMapBlaze<T, V, A> {
    type Output = Result<RangeSetBlaze<T, A>, AllocError>;

    ghost not_gives = { λ map made. IfOk made (λ set.
        IsSetOf set (complement_in T.value_count (keys map.now))) };

    fn not(self) -> Self::Output {
        RangeMapBlaze::not(self)
    }
}

/// `map[key]`: returns the value of a key. Requires that the key has one.
impl<T: Integer, V: MapValue, A: Allocator> Index<T> for RangeMapBlaze<T, V, A> {
    type Output = V;

    ghost can_index = { λ map key. IsSome (value_at map (T.rank key)) };

    ghost index_gives = { λ map key value. value_at map (T.rank key) ≡ Some (V.seen value) };

    fn index(&self, key: T) -> &V {
        self.get(key).unwrap()
    }
}
