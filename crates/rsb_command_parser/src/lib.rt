//! Commands for ten sets, read from the lines that spell them.
#![tactic(auto)]

pub mod command;
pub mod fault;
pub mod input;
pub mod parse;
pub mod set_no;

pub use crate::command::Command;
pub use crate::fault::Fault;
pub use crate::input::read_commands;
pub use crate::parse::parse_commands;
pub use crate::set_no::SetNo;
