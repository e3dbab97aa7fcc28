// Written by tools/c/narrow from src/u64_sets.rt.
//! Sets of `u128`.

mod arrays;
mod bytes;
mod changes;
mod combinations;
mod comparisons;
mod first_fit;
pub(crate) mod handle;
mod in_place;
mod kept;
mod look_up;
pub(crate) mod run;
mod runs;
mod text;
