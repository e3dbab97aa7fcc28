//! What a user writes first: `use range_set_blaze::prelude::*;`, and nothing else from this
//! repository.

use range_set_blaze::prelude::*;
use std::alloc::{AllocError, Global};
use std::test::*;

/// Whether the macro and the operator make the same union of two sets.
fn are_united(
    alloc: Global,
    a: &RangeSetBlaze<u8>,
    b: &RangeSetBlaze<u8>,
) -> Result<bool, AllocError> {
    let either = union_dyn!(alloc, a.ranges(), b.ranges())?.into_range_set_blaze(alloc)?;
    Ok(either == (a | b)?)
}

/// Whether they make the same intersection.
fn are_met(
    alloc: Global,
    a: &RangeSetBlaze<u8>,
    b: &RangeSetBlaze<u8>,
) -> Result<bool, AllocError> {
    let both = intersection_dyn!(alloc, a.ranges(), b.ranges())?.into_range_set_blaze(alloc)?;
    Ok(both == (a & b)?)
}

/// Whether the macro and the method give the same symmetric difference.
fn are_told_apart(
    alloc: Global,
    a: &RangeSetBlaze<u8>,
    b: &RangeSetBlaze<u8>,
) -> Result<bool, AllocError> {
    let odd = symmetric_difference_dyn!(alloc, a.ranges(), b.ranges())?;
    Ok(odd.equal(a.ranges().symmetric_difference(b.ranges())))
}

// The test uses sets, streams, their traits, and the macros over many streams.
#[test]
fn the_prelude_is_enough_for_sets_and_streams(rt: HostRuntime) -> Result<(), Fail> {
    let alloc = rt.alloc();
    let a = RangeSetBlaze::from_iter(alloc, [1..=4u8, 8..=9])?;
    let b = RangeSetBlaze::from_array(alloc, [2, 3, 10])?;
    assert!(rt; are_united(alloc, &a, &b)? && are_met(alloc, &a, &b)?);
    assert!(rt; are_told_apart(alloc, &a, &b)?);
    assert!(rt; cmp_counted(&a, &b).1 == 1 && u8::safe_len(&(1..=4)) == 4);
    Ok(())
}

// The prelude has the name of every law.
#[test]
fn laws_can_be_cited_from_the_prelude() {
    elements_stand_for_sets::<u8>();
    one_list_of_events::<u8>();
    some_list_of_events::<u8>();
    order_by_least_difference::<u8, Global>();
    at_least_one::<u8>();
    one_filled_list::<u8>();
    run_bounds_are_ends::<u8>();
}
