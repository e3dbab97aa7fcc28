// Written by tools/c/narrow from src/u64_lists.rt.
//! Lists of sets of `u128`, for calls on any number of sets.

mod handle;
mod kept;
mod many;
