//! Tests of element types.

mod characters;
mod ends;
mod safe_len;
mod weekdays;
