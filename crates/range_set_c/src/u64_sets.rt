//! Sets of `u64`.

mod arrays;
mod bytes;
mod changes;
mod combinations;
mod comparisons;
mod first_fit;
pub(crate) mod handle;
mod in_place;
mod kept;
mod look_up;
mod run;
mod runs;
mod text;
