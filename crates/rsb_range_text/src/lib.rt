//! Reads ranges of integers from text.
#![tactic(auto)]

pub mod parse_error;
pub mod parse_integer;
pub mod ranges;

pub use parse_error::ParseError;
pub use parse_integer::ParseInteger;
pub use ranges::spelled_ranges;
