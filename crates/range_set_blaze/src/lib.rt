//! Sets of integers, kept as their maximal runs.
#![tactic(auto)]

pub mod into_iter;
pub mod into_range_set_blaze;
pub mod iter;
pub mod laws;
mod macros;
pub mod multiway;
pub mod prelude;
pub mod set;

pub use crate::prelude::{
    AnythingGoes, AssumeSortedStarts, CheckSortedDisjoint, CheckSortedTouching, Difference, Draw,
    DrawDisjoint, DynSortedDisjoint, Element, Enumerated, FillGapsIter, GapsIn, Integer,
    Intersection, IntoIter, IntoRangeSetBlaze, IntoRangesIter, Iter, KMerge, Merge,
    MultiwayAtLeast, MultiwayIntersection, MultiwayRangeSetBlaze, MultiwayRangeSetBlazeRef,
    MultiwaySortedDisjoint, MultiwaySweep, MultiwaySymmetricDifference, MultiwayUnion, NotIter,
    NotSortedDisjoint, NotSortedTouching, ParseError, ParseInteger, RangeOnce, RangeSetBlaze,
    RangesIn, RangesIter, SafeLength, SortedDisjoint, SortedStarts, SortedStartsInVec,
    SortedTouching, Streams, SweepEvent, SymDiffIter, SymmetricDifference, UInt, UIntPlusOne,
    Union, UnionIter, at_least_all, at_least_falls, at_least_one, canonical_lists_are_runs,
    cmp_counted, complement_twice, de_morgan, difference_by_complement, elements_stand_for_sets,
    equal_members_equal_lists, offsets_undo_length, one_filled_list, one_list_of_events,
    order_by_least_difference, ranges_are_maximal_runs, run_bounds_are_ends, some_list_of_events,
    stream_ranges_are_maximal_runs, symmetric_by_union,
};

/// The functions that the macros call.
pub use rsb_many::taken;
pub use rsb_range_text::parse_integer;
pub use rsb_storage::{gaps_in, into_ranges_iter, ranges_in, ranges_iter};
