//! A program on ten sets, from the lines that spell its commands to the text of their replies.
#![tactic(auto)]

pub mod interpreter;
pub mod laws;
pub mod outside;
mod page;
pub mod program;
mod text;
mod transfer;

pub use crate::interpreter::{Reply, Stopped, run_commands};
pub use crate::program::{finish, run, start};
pub use rsb_command_parser::{Command, Fault, SetNo, parse_commands, read_commands};
