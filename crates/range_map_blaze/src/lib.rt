//! Maps from ranges of integers to values, kept as their maximal pieces.
#![tactic(auto)]

mod compare;
mod cut;
pub mod elements;
mod held;
pub mod into_elements;
pub mod key_ranges;
pub mod laws;
pub mod map;
pub mod map_value;
mod owned;
mod pieces;
pub mod range_values;
mod windows;

pub use elements::{Iter, Keys, Values};
pub use into_elements::{IntoIter, IntoKeys, IntoValues};
pub use key_ranges::KeyRanges;
pub use laws::{
    each_function_has_its_pieces, equal_maps_have_equal_values, equal_values_equal_maps,
    ranges_are_maximal_pieces,
};
pub use map::RangeMapBlaze;
pub use map_value::{MapValue, ShownValue};
pub use range_values::{IntoRangeValues, RangeValues};
pub use rsb_integer::Integer;
