//! Iterators that are dropped after one item from each of their ends.

use crate::set::refusals::built::{Building, built_gives};
use range_set_blaze::{MultiwaySweep, RangeSetBlaze, SweepEvent};
use std::alloc::{AllocError, Global};
use std::test::*;
use test_support::{Counting, Heap, HeapSet, Table, has, set_in, set_of};

/// Three runs.
const THREE: Table<'static> = &[(1, 2), (5, 5), (7, 9)];

/// Two runs, each of which overlaps some of those.
const TWO: Table<'static> = &[(2, 3), (9, 11)];

/// Whether the elements of a set come from both ends, before they are dropped.
fn lent_elements_begin(set: &HeapSet<'_>) -> bool {
    let mut elements = set.iter();
    elements.next() == Some(1) && elements.next_back() == Some(9)
}

/// Whether the runs of a set come from both ends, before they are dropped.
fn lent_runs_begin(set: &HeapSet<'_>) -> bool {
    let mut runs = set.ranges();
    runs.next() == Some(1..=2) && runs.next_back() == Some(7..=9)
}

/// Whether the elements between two bounds come from both ends, before they are dropped.
fn begins_between(set: &HeapSet<'_>) -> Result<bool, AllocError> {
    let mut elements = set.range(2..=8)?;
    Ok(elements.next() == Some(2) && elements.next_back() == Some(8))
}

/// Whether a sweep over the runs of a set gives the first event, before it is dropped.
fn sweep_begins(heap: &Heap, set: &HeapSet<'_>) -> Result<bool, AllocError> {
    let mut sweep = MultiwaySweep::new(heap, [set.ranges(), set.ranges()])?;
    let (range, input) = (1..=2, 0);
    Ok(sweep.next() == Some(SweepEvent::Start { range, input }))
}

/// Whether the elements of a set passed by value come from both ends, before they are dropped.
fn elements_begin(set: HeapSet<'_>) -> bool {
    let mut elements = set.into_iter();
    elements.next() == Some(1) && elements.next_back() == Some(9)
}

/// Whether the runs of a set passed by value come from both ends, before they are dropped.
fn runs_begin(set: HeapSet<'_>) -> bool {
    let mut runs = set.into_ranges();
    runs.next() == Some(1..=2) && runs.next_back() == Some(7..=9)
}

/// Whether all of these give the right first items.
fn all_begin(heap: &Heap, set: &HeapSet<'_>) -> Result<bool, AllocError> {
    Ok(
        lent_elements_begin(set)
            && lent_runs_begin(set)
            && begins_between(set)?
            && sweep_begins(heap, set)?
            && elements_begin(set.clone()?)
            && runs_begin(set.clone()?),
    )
}

/// Whether all of these leave a set in a heap unchanged, and none of them keeps memory.
fn are_dropped(heap: &Heap) -> Result<bool, AllocError> {
    let set = set_in(heap, THREE)?;
    let bytes = heap.bytes();
    Ok(all_begin(heap, &set)? && has(&set, THREE) && heap.bytes() == bytes)
}

/// Builds everything that is built from two sets. It expects no runs, so each result is dropped at
/// its first item.
fn begin_others(
    alloc: Global,
    heap: &Heap,
    one: &RangeSetBlaze<i32>,
    other: &RangeSetBlaze<i32>,
) -> Result<(), AllocError> {
    let mut next = Some(Building::FIRST);
    for _ in 0..u8::MAX {
        let Some(building) = next else {
            break;
        };
        built_gives(alloc, heap, building, one, other, &[])?;
        next = building.after();
    }
    Ok(())
}

/// Whether everything that is built from two sets by reference leaves them unchanged.
fn others_leave(alloc: Global, heap: &Heap) -> Result<bool, AllocError> {
    let one = set_of(alloc, THREE)?;
    let other = set_of(alloc, TWO)?;
    begin_others(alloc, heap, &one, &other)?;
    Ok(has(&one, THREE) && has(&other, TWO))
}

/// Whether the sets are unchanged, and no allocation is left.
fn all_is_left(alloc: Global) -> Result<bool, AllocError> {
    let heap = Counting::new(alloc);
    Ok(are_dropped(&heap)? && others_leave(alloc, &heap)? && heap.bytes() == 0)
}

#[test]
fn iterators_dropped_after_one_item_leave_the_set_and_no_memory(rt: HostRuntime) {
    assert!(rt; all_is_left(rt.alloc()) == Ok(true));
}
