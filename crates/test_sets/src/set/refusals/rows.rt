//! Rows worked by hand for what fails if an allocation fails, and what does not.

use crate::set::calls::Change;
use crate::set::refusals::changes::tried;
use range_set_blaze::RangeSetBlaze;
use std::alloc::{AllocError, Global};
use std::test::*;
use test_support::{Counting, Heap, HeapSet, Table, has, set_in};

/// Runs that fill a leaf of the map.
const FIFTEEN: Table<'static> = &[
    (1, 5),
    (11, 15),
    (21, 25),
    (31, 35),
    (41, 45),
    (51, 55),
    (61, 65),
    (71, 75),
    (81, 85),
    (91, 95),
    (101, 105),
    (111, 115),
    (121, 125),
    (131, 135),
    (141, 145),
];

/// Whether a removal in a heap that grants nothing returns this, or fails if no result is given,
/// and leaves the set of a table.
fn removes_with_nothing_granted(
    alloc: Global,
    before: Table<'_>,
    value: i32,
    answer: Option<bool>,
    after: Table<'_>,
) -> Result<bool, AllocError> {
    let heap = Counting::new(alloc);
    let mut set = set_in(&heap, before)?;
    heap.fail_after(0);
    let told = set.remove(value);
    Ok(told.ok() == answer && has(&set, after))
}

// A leaf with one run has room for a second, so a removal from {1..=5} never allocates. It does if
// fifteen runs fill a leaf, {1..=5} among them.
#[test]
fn a_cut_that_fails_leaves_the_runs_and_the_end_of_a_run_never_allocates(
    rt: HostRuntime,
) -> Result<(), Fail> {
    let alloc = rt.alloc();
    assert!(rt; removes_with_nothing_granted(alloc, FIFTEEN, 3, None, FIFTEEN)?);
    assert!(rt; removes_with_nothing_granted(alloc, &[(1, 5)], 3, Some(true), &[(1, 2), (4, 5)])?);
    assert!(rt; removes_with_nothing_granted(alloc, &[(1, 5)], 5, Some(true), &[(1, 4)])?);
    Ok(())
}

#[test]
fn the_only_value_is_popped_if_nothing_can_be_allocated(rt: HostRuntime) -> Result<(), Fail> {
    let heap = Counting::new(rt.alloc());
    let mut set = set_in(&heap, &[(7, 7)])?;
    heap.fail_after(0);
    assert!(rt; set.pop_first() == Ok(Some(7)) && set.is_empty());
    Ok(())
}

/// Returns the set of the even values from 0 to 198.
fn even_values(heap: &Heap) -> Result<HeapSet<'_>, AllocError> {
    RangeSetBlaze::from_iter_values(heap, (0..=198).step_by(2))
}

#[test]
fn a_hundred_runs_are_joined_if_nothing_can_be_allocated(rt: HostRuntime) -> Result<(), Fail> {
    let heap = Counting::new(rt.alloc());
    let mut set = even_values(&heap)?;
    assert!(rt; set.ranges_len() == 100);
    heap.fail_after(0);
    assert!(rt; set.ranges_insert(1..=197) == Ok(true) && has(&set, &[(0, 198)]));
    assert!(rt; set.len() == 199 && set.ranges_len() == 1);
    Ok(())
}

/// Removes 1, 3, 5 and so on, up to the first removal that fails, and returns that value.
fn first_refused(set: &mut HeapSet<'_>) -> Option<i32> {
    for place in 0..1000i32 {
        let value = place.saturating_mul(2).saturating_add(1);
        match set.remove(value) {
            Ok(true) => {}
            Ok(false) => return None,
            Err(AllocError) => return Some(value),
        }
    }
    None
}

/// Returns the runs of the values from 0 to 1999 except the odd ones below this one.
fn lacking_below(alloc: Global, odd: i32) -> Result<Vec<(i32, i32)>, AllocError> {
    let mut runs = Vec::new(alloc);
    for place in 0..odd / 2 {
        let value = place.saturating_mul(2);
        runs.push((value, value))?;
    }
    runs.push((odd.saturating_sub(1), 1999))?;
    Ok(runs)
}

#[test]
fn every_second_value_is_removed_until_an_allocation_fails(rt: HostRuntime) -> Result<(), Fail> {
    let heap = Counting::new(rt.alloc());
    let mut set = set_in(&heap, &[(0, 1999)])?;
    heap.fail_after(0);
    let refused = first_refused(&mut set).unwrap_or(0);
    let before = lacking_below(rt.alloc(), refused)?;
    let after = lacking_below(rt.alloc(), refused.saturating_add(2))?;
    assert!(rt; refused > 1 && has(&set, &before), "at {refused}");
    heap.fail_never();
    assert!(rt; set.remove(refused) == Ok(true) && has(&set, &after));
    Ok(())
}

/// Returns {1..=1}, and {10..=10, 20..=20, .., 1000..=1000} after it.
fn one_and_a_hundred(alloc: Global) -> Result<Vec<(i32, i32)>, AllocError> {
    let mut runs = Vec::from_array(alloc, [(1, 1)])?;
    for place in 1..=100i32 {
        let value = place.saturating_mul(10);
        runs.push((value, value))?;
    }
    Ok(runs)
}

/// Whether a set has at least one run, and its runs are a prefix of these.
fn has_front(set: &HeapSet<'_>, runs: Table<'_>) -> bool {
    let front = &runs[..set.ranges_len().min(runs.len())];
    !front.is_empty() && has(set, front)
}

/// Returns whether `append` of all runs except the first, to the set of the first, passes if the
/// heap grants the given number of allocations. Returns `None` if it leaves anything wrong: a
/// failed call adds a prefix of those runs, and their set stays equal to an earlier clone.
fn is_appended(heap: &Heap, granted: usize, runs: Table<'_>) -> Result<Option<bool>, AllocError> {
    let Some((first, others)) = runs.split_first() else {
        return Ok(None);
    };
    let mut set = set_in(heap, &[*first])?;
    let mut other = set_in(heap, others)?;
    let before = other.clone()?;
    let is_passed = tried(heap, granted, Change::Append, &mut set, &mut other).is_some();
    let is_left = if is_passed {
        has(&set, runs) && other.is_empty()
    } else {
        has_front(&set, runs) && other == before
    };
    Ok(is_left.then_some(is_passed))
}

#[test]
fn a_failed_append_adds_a_prefix_and_leaves_the_other_equal_to_its_clone(
    rt: HostRuntime,
) -> Result<(), Fail> {
    let heap = Counting::new(rt.alloc());
    let runs = one_and_a_hundred(rt.alloc())?;
    let mut refusals = 0u32;
    for granted in 0..100usize {
        let passed = is_appended(&heap, granted, &runs)?;
        assert!(rt; passed.is_some(), "with {granted} allocations");
        if passed == Some(false) {
            refusals = refusals.saturating_add(1);
        }
    }
    assert!(rt; refusals > 2 && refusals < 100);
    Ok(())
}
