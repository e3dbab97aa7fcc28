//! Tests of any number of streams and of sets.

pub(crate) mod any_types;
mod at_least;
mod callers;
pub(crate) mod forms;
mod lookahead;
mod macro_arguments;
mod memory;
mod merges;
mod nested;
mod operators;
mod over_any;
mod own_types;
pub(crate) mod sets;
mod stream_lists;
mod sweeps;
mod texts;
pub(crate) mod thousand;
mod touching;
