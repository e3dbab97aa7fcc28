//! Sets of integers as bytes in streams: written and read in bounded memory.
#![tactic(auto)]

mod numbers;
mod page;
pub mod read;
mod source;
pub mod stream_error;
pub mod write;

pub use read::read_from;
pub use stream_error::StreamError;
pub use write::write_to;
