//! Tests of `ip_matches`.

mod addresses;
mod ends;
mod kept;
mod many;
mod refusals;
