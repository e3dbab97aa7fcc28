//! Tests of lengths.

mod safe_length;
mod uint;
mod uint_plus_one;
