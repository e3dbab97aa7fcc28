//! Lists of sets of `u64`, for calls on any number of sets.

mod handle;
mod kept;
mod many;
