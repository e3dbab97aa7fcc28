//! Equality, order and hashes of maps. Maps compare as the lists of their pairs of key and value do.

ghost use Rattle.std.specs.Prelude.{◌≡◌, List, Some, refl};
ghost use Rattle.rsb_integer.specs.Runs.{Interval};
ghost use Rattle.range_map_blaze.specs.Made.{hashed_map};
ghost use Rattle.range_map_blaze.specs.Order.{map_cmp, map_eq};
ghost use Rattle.range_map_blaze.specs.laws.Order.{
  hashed-same,
  maps_equivalence,
  maps_partial_equivalence,
  maps_partial_order,
  maps_ties,
  maps_total,
};

use crate::compare::compare_entries;
use crate::map::RangeMapBlaze;
use crate::map_value::MapValue;
use rsb_integer::Integer;
use std::alloc::Allocator;
use std::cmp::Ordering;
use std::hash::{Hash, Hasher};

/// Two maps are equal if they have the same keys, each with equal values.
impl<T: Integer, V: MapValue, A: Allocator> PartialEq for RangeMapBlaze<T, V, A> {
    ghost eq = { map_eq T.value_count V.eq };

    ghost laws = { maps_partial_equivalence T.value_count V.Eq.laws };

    fn eq(&self, other: &Self) -> bool {
        self.pieces.same(&other.pieces)
    }
}

impl<T: Integer, V: MapValue, A: Allocator> Eq for RangeMapBlaze<T, V, A> {
    ghost laws = { maps_equivalence T.value_count V.Eq.laws };
}

impl<T: Integer, V: MapValue + Ord, A: Allocator> PartialOrd for RangeMapBlaze<T, V, A> {
    ghost partial_cmp = { λ left right. Some (map_cmp T.value_count V.cmp left right) };

    ghost laws = { maps_partial_order T.value_count V.eq V.cmp V.total V.matches_eq };

    fn partial_cmp(&self, other: &Self) -> Option<Ordering> {
        Some(self.cmp(other))
    }
}

/// Maps compare as the ascending lists of their pairs of key and value do.
impl<T: Integer, V: MapValue + Ord, A: Allocator> Ord for RangeMapBlaze<T, V, A> {
    ghost cmp = { map_cmp T.value_count V.cmp };

    ghost total = { maps_total T.value_count V.total };

    ghost matches_partial_cmp = { λ left right. refl };

    ghost matches_eq = { maps_ties T.value_count V.eq V.cmp V.matches_eq };

    fn cmp(&self, other: &Self) -> Ordering {
        compare_entries(self.pieces.entries(), other.pieces.entries())
    }
}

/// A map feeds the hasher the number of its ranges, and then each range and its value. Equal maps
/// feed the hasher the same input.
impl<T: Integer + Hash, V: MapValue + Hash, A: Allocator> Hash for RangeMapBlaze<T, V, A> {
    ghost hash_input = { hashed_map T.value_count V.eq V.seen
        (λ rank. T.hash_input (T.value_at rank)) V.hash_input };

    ghost respects_eq = { hashed-same V.eq V.seen V.exact T.value_count
        (λ rank. T.hash_input (T.value_at rank)) V.hash_input };

    fn hash<H: Hasher>(&self, state: &mut H) {
        self.pieces.feed(state);
    }
}
