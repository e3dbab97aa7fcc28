//! Ranges in any order: joined as they come, or sorted into a union.

use rsb_streams::{UnionIter, UnsortedDisjoint};
use std::alloc::Global;
use std::ops::RangeInclusive;
use std::test::Fail;
use test_support::{gives, list_of};

/// The ends of ranges, and of the ranges that result from them.
type Row = (&'static [(u8, u8)], &'static [(u8, u8)]);

/// Returns whether ranges are joined to exactly these as they come.
fn joins(
    alloc: Global,
    ranges: Vec<RangeInclusive<u8>>,
    wanted: &[(u8, u8)],
) -> Result<bool, Fail> {
    let joined = Vec::from_iter(alloc, UnsortedDisjoint::new(ranges.into_iter()))?;
    Ok(joined == list_of(alloc, wanted)?)
}

#[test]
fn single_values_are_joined_while_they_touch_what_was_gathered(
    rt: HostRuntime,
) -> Result<(), Fail> {
    let mut ranges = Vec::new(rt.alloc());
    for value in [3u8, 2, 1, 4, 5, 6, 7, 0, 8, 8, 8, 100, 1] {
        ranges.push(value..=value)?;
    }
    assert!(rt; joins(rt.alloc(), ranges, &[(0, 8), (100, 100), (1, 1)])?);
    Ok(())
}

/// Ranges, and what they are joined to as they come.
static JOINED: [Row; 5] = [
    (
        &[(255, 255), (254, 254), (0, 0), (1, 1), (3, 255), (2, 9)],
        &[(254, 255), (0, 1), (2, 255)],
    ),
    (&[(5, 4), (9, 9), (4, 3), (10, 12)], &[(9, 12)]),
    (&[(0, 255), (0, 255)], &[(0, 255)]),
    (&[(5, 4)], &[]),
    (&[], &[]),
];

#[test]
fn ranges_are_joined_as_they_come(rt: HostRuntime) -> Result<(), Fail> {
    for (ranges, wanted) in &JOINED {
        let list = list_of(rt.alloc(), ranges)?;
        assert!(rt; joins(rt.alloc(), list, wanted)?, "{ranges:?}");
    }
    Ok(())
}

#[test]
fn joined_ranges_promise_no_item(rt: HostRuntime) {
    let mut joined = UnsortedDisjoint::new([5u8..=4].into_iter());
    assert!(rt; joined.size_hint().0 == 0);
    assert!(rt; joined.next() == None);
}

/// Ranges, and their union.
static UNITED: [Row; 5] = [
    (&[], &[]),
    (&[(5, 4), (9, 8)], &[]),
    (&[(255, 255), (0, 0), (254, 254)], &[(0, 0), (254, 255)]),
    (&[(1, 0), (2, 2), (5, 9), (1, 2)], &[(1, 2), (5, 9)]),
    (&[(7, 255), (0, 3), (2, 6)], &[(0, 255)]),
];

#[test]
fn unions_of_ranges_in_any_order(rt: HostRuntime) -> Result<(), Fail> {
    for (ranges, wanted) in &UNITED {
        let union = UnionIter::from_iter(rt.alloc(), list_of(rt.alloc(), ranges)?)?;
        assert!(rt; gives(union, wanted), "{ranges:?}");
    }
    Ok(())
}

#[test]
fn union_sorts_seventy_thousand_ranges_that_descend(rt: HostRuntime) -> Result<(), Fail> {
    let mut ranges = Vec::new(rt.alloc());
    let mut wanted = Vec::new(rt.alloc());
    for i in 0..70_000i32 {
        let start = 700_000i32.saturating_sub(i.saturating_mul(10));
        ranges.push(start..=start.saturating_add(3))?;
        let wanted_start = i.saturating_mul(10).saturating_add(10);
        wanted.push((wanted_start, wanted_start.saturating_add(3)))?;
    }
    let union = UnionIter::from_iter(rt.alloc(), ranges)?;
    assert!(rt; gives(union, &wanted));
    Ok(())
}
