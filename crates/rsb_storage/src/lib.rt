//! The runs of a set in a map, and the streams over them. Users of sets call `range_set_blaze`.
#![tactic(auto)]

pub mod bounds;
pub mod entries;
pub mod gaps;
pub mod gaps_in;
pub mod into_ranges_iter;
pub mod lengths;
pub mod look_up;
mod operators;
pub mod ranges_in;
pub mod ranges_iter;
pub mod run;
pub mod runs;
pub mod windows;

pub use gaps_in::GapsIn;
pub use into_ranges_iter::IntoRangesIter;
pub use ranges_in::RangesIn;
pub use ranges_iter::RangesIter;
