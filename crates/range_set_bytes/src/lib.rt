//! Sets of integers as bytes.
#![tactic(auto)]

pub mod fault;
pub mod laws;
mod lengths;
pub mod numbers;
pub mod ranked_integer;
pub mod read;
pub mod write;

pub use fault::{Fault, ReadError, Reason};
pub use ranked_integer::RankedInteger;
pub use read::from_bytes;
pub use write::to_bytes;
