//! Sets from iterators over values and over ranges, in any order.

pub(crate) mod by_reference;
mod by_value;
mod sorted;
pub(crate) mod values_as_ranges;
