//! Laws that callers cite.

ghost use Rattle.range_set_blaze.specs.Runs.{members, AreRuns};

use range_set_blaze::laws::{
    at_least_all, at_least_falls, at_least_one, canonical_lists_are_runs, complement_twice,
    de_morgan, difference_by_complement, elements_stand_for_sets, equal_members_equal_lists,
    offsets_undo_length, one_filled_list, one_list_of_events, order_by_least_difference,
    ranges_are_maximal_runs, run_bounds_are_ends, some_list_of_events,
    stream_ranges_are_maximal_runs, symmetric_by_union,
};
use range_set_blaze::{DrawDisjoint, Integer, RangeOnce, RangeSetBlaze, Union};
use rsb_user_types::{Side, Slot};
use std::alloc::{Allocator, Global};
use std::test::*;

/// Cites each law at a type. Each clause is proved at any type.
fn cite<T: Integer>() {
    canonical_lists_are_runs::<T>();
    equal_members_equal_lists::<T>();
    offsets_undo_length::<T>();
    order_by_least_difference::<T, Global>();
    run_bounds_are_ends::<T>();
    elements_stand_for_sets::<T>();
    one_filled_list::<T>();
    one_list_of_events::<T>();
    some_list_of_events::<T>();
    complement_twice::<T>();
    de_morgan::<T>();
    difference_by_complement::<T>();
    symmetric_by_union::<T>();
    at_least_one::<T>();
    at_least_all::<T>();
    at_least_falls::<T>();
}

#[test]
fn laws_can_be_cited_at_a_type_and_at_own_types() {
    cite::<u8>();
    cite::<Side>();
    cite::<Slot>();
}

/// Cites the two laws that state the first half of the headline.
fn cite_runs<T: Integer, A: Allocator, I: DrawDisjoint<T>>(set: &RangeSetBlaze<T, A>)
    ensures { AreRuns T.value_count (members set.now) set.now }
{
    ranges_are_maximal_runs(set);
    stream_ranges_are_maximal_runs::<T, I>();
}

#[test]
fn laws_of_runs_can_be_cited_at_a_type_and_at_own_types(rt: HostRuntime) {
    cite_runs::<u8, Global, RangeOnce<u8>>(&RangeSetBlaze::new(rt.alloc()));
    cite_runs::<Side, Global, Union<Side, RangeOnce<Side>, RangeOnce<Side>>>(&RangeSetBlaze::new(
        rt.alloc(),
    ));
}
