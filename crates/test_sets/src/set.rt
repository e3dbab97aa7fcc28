//! Tests of sets, by subject.

mod additions;
mod assign;
mod calls;
mod cells;
mod from_slices;
mod insertions;
mod long_walk;
mod makings;
pub(crate) mod many_runs;
mod million_runs;
mod quiet;
mod refusals;
mod removals;
mod remove_ranges;
mod retained;
pub(crate) mod rows;
mod splits;
mod untouched;
