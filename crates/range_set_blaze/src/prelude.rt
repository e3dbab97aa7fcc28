//! Every public name of this crate and of the crates that it is built on, except
//! `UnsortedDisjoint`, `spelled_ranges`, what the macros call, and what only `rsb_storage` uses for
//! storage: `Run`, `Runs` and the functions of its modules. `use range_set_blaze::prelude::*;`
//! imports them all (docs/DECISIONS.md, names-listed).

pub use crate::into_iter::IntoIter;
pub use crate::into_range_set_blaze::IntoRangeSetBlaze;
pub use crate::iter::Iter;
pub use crate::laws::{
    at_least_all, at_least_falls, at_least_one, canonical_lists_are_runs, cmp_counted,
    complement_twice, de_morgan, difference_by_complement, elements_stand_for_sets,
    equal_members_equal_lists, offsets_undo_length, one_filled_list, one_list_of_events,
    order_by_least_difference, ranges_are_maximal_runs, run_bounds_are_ends, some_list_of_events,
    stream_ranges_are_maximal_runs, symmetric_by_union,
};
pub use crate::multiway::{MultiwayRangeSetBlaze, MultiwayRangeSetBlazeRef};
pub use crate::set::RangeSetBlaze;
pub use crate::{intersection_dyn, symmetric_difference_dyn, union_dyn};
pub use rsb_integer::{Element, Enumerated, Integer};
pub use rsb_length::{SafeLength, UInt, UIntPlusOne};
pub use rsb_many::{
    DynSortedDisjoint, KMerge, MultiwayAtLeast, MultiwayIntersection, MultiwaySortedDisjoint,
    MultiwaySweep, MultiwaySymmetricDifference, MultiwayUnion, Streams, SweepEvent,
};
pub use rsb_range_text::{ParseError, ParseInteger};
pub use rsb_storage::{GapsIn, IntoRangesIter, RangesIn, RangesIter};
pub use rsb_streams::{
    AnythingGoes, AssumeSortedStarts, CheckSortedDisjoint, CheckSortedTouching, Difference, Draw,
    DrawDisjoint, FillGapsIter, Intersection, Merge, NotIter, NotSortedDisjoint, NotSortedTouching,
    RangeOnce, SortedDisjoint, SortedStarts, SortedStartsInVec, SortedTouching, SymDiffIter,
    SymmetricDifference, Union, UnionIter,
};
