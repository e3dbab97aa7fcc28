//! Tests of `range_set_bytes` and `range_set_byte_streams`.

mod element_types;
mod failures;
mod faults;
mod from_streams;
mod mutated;
mod rows;
mod streams;
