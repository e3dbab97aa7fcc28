//! The lines of a text that have an address of lists, as `grep` finds lines by patterns.
#![tactic(auto)]

pub mod address;
pub mod fault;
pub mod filter;
mod page;
pub mod text;

pub use crate::address::{FoundAddress, first_address};
pub use crate::fault::MatchFault;
pub use crate::filter::LineFilter;
pub use crate::text::{count_kept_lines, write_kept_lines};
