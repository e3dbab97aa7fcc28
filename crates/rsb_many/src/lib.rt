//! Merges, sweeps and set algebra over any number of streams.
#![tactic(auto)]

pub(crate) mod drawn;
pub mod dyn_sorted_disjoint;
pub(crate) mod heads;
pub mod kmerge;
pub mod laws;
mod macros;
pub mod multiway;
pub mod multiway_at_least;
pub mod multiway_sweep;
pub mod multiway_sym_diff_set;
pub mod operation_results;
mod operators;
pub mod stream_list;
pub mod sweep_event;
pub(crate) mod sweep_pieces;
pub mod taken;

pub use dyn_sorted_disjoint::DynSortedDisjoint;
pub use kmerge::KMerge;
pub use multiway::MultiwaySortedDisjoint;
pub use multiway_at_least::MultiwayAtLeast;
pub use multiway_sweep::MultiwaySweep;
pub use multiway_sym_diff_set::MultiwaySymmetricDifference;
pub use operation_results::{MultiwayIntersection, MultiwayUnion};
pub use stream_list::Streams;
pub use sweep_event::SweepEvent;
