//! Laws that callers rely on. Each function does nothing, and its clauses state the law.

ghost use Rattle.std.specs.Prelude.{◌≡◌, ◌↔◌, ℕ, ◌<◌, List, Option, IsTrue};
ghost use Rattle.std.specs.Option.{option_map};
ghost use Rattle.rsb_integer.specs.Runs.{Interval};
ghost use Rattle.range_map_blaze.specs.Made.{IsSettled};
ghost use Rattle.range_map_blaze.specs.Map.{value_at, ArePieces, IsMapIn};

use crate::map::RangeMapBlaze;
use crate::map_value::MapValue;
use rsb_integer::Integer;
use std::alloc::Allocator;

/// A canonical list of pieces has exactly the maximal pieces of the function from keys to values
/// that it represents. The lists of all maps are canonical (`RangeMapBlaze::ranges_len`). Not in
/// range-set-blaze.
pub fn ranges_are_maximal_pieces<T: Integer, V: MapValue>()
    ensures { (pieces : List (Interval × V)) → IsMapIn T.value_count pieces
        → ArePieces T.value_count (value_at pieces) pieces }
{}

/// Two maps that have the same value at every key are equal. Not in range-set-blaze.
pub fn equal_values_equal_maps<T: Integer, V: MapValue>()
    ensures { (pieces others : List (Interval × V)) → IsMapIn T.value_count pieces
        → IsMapIn T.value_count others
        → ((rank : ℕ) → rank < T.value_count → value_at pieces rank ≡ value_at others rank)
        → pieces ≡ others }
{}

/// Each function from keys to values is that of a canonical list, if its values are what contracts
/// see of them. So it has finitely many maximal pieces, and these are the list. Not in
/// range-set-blaze.
pub fn each_function_has_its_pieces<T: Integer, V: MapValue>()
    ensures { (value : ℕ → Option V) → IsSettled V.seen value
        → (pieces : List (Interval × V)) × IsMapIn T.value_count pieces
        × ((rank : ℕ) → rank < T.value_count → value_at pieces rank ≡ value rank) }
{}

/// Two maps are equal, by `==`, exactly if contracts see the same value, or none, at each key. Not in
/// range-set-blaze.
pub fn equal_maps_have_equal_values<T: Integer, V: MapValue, A: Allocator>()
    ensures { (left right : List (Interval × V))
        → IsTrue (⟦<RangeMapBlaze<T, V, A> as PartialEq>⟧.eq left right)
        ↔ ((rank : ℕ) → rank < T.value_count
        → option_map V.seen (value_at left rank) ≡ option_map V.seen (value_at right rank)) }
{}
