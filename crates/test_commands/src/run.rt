//! Tests of commands to ten sets, and of the program.

mod commands;
mod ends;
mod millions;
mod program;
mod refusals;
mod sessions;
