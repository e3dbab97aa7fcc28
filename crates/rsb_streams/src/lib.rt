//! Lazy streams of ranges. Every implementation of a stream proves the laws of its traits.
#![tactic(auto)]

pub mod assume_sorted_starts;
pub mod check_sorted_disjoint;
pub mod check_sorted_touching;
pub mod draw;
pub mod fill_gaps_iter;
pub mod laws;
pub mod merge;
pub mod not_iter;
mod not_sorted_disjoint;
mod not_sorted_touching;
mod odd_pieces;
pub mod operation_results;
mod operators;
mod out_of_place;
mod put_back;
pub mod range_once;
pub mod sorted_disjoint;
pub mod sorted_starts_in_vec;
pub mod sorted_touching;
mod std_markers;
pub mod sym_diff_iter;
pub mod union_iter;
pub mod unsorted_disjoint;

pub use assume_sorted_starts::AssumeSortedStarts;
pub use check_sorted_disjoint::CheckSortedDisjoint;
pub use check_sorted_touching::CheckSortedTouching;
pub use draw::Draw;
pub use fill_gaps_iter::FillGapsIter;
pub use merge::Merge;
pub use not_iter::NotIter;
pub use not_sorted_disjoint::NotSortedDisjoint;
pub use not_sorted_touching::NotSortedTouching;
pub use operation_results::{Difference, Intersection, SymmetricDifference, Union};
pub use range_once::RangeOnce;
pub use sorted_disjoint::{AnythingGoes, DrawDisjoint, SortedDisjoint, SortedStarts};
pub use sorted_starts_in_vec::SortedStartsInVec;
pub use sorted_touching::SortedTouching;
pub use sym_diff_iter::SymDiffIter;
pub use union_iter::UnionIter;
pub use unsorted_disjoint::UnsortedDisjoint;
