//! `ranges_insert`, `insert` and `replace`, on rows worked by hand.

use crate::set::calls::{Answer, Change};
use crate::set::rows::{changes, is_byte_run};
use range_set_blaze::RangeSetBlaze;
use std::alloc::{AllocError, Global};
use std::ops::Bound;
use std::test::*;
use test_support::{Table, has, set_of};

/// An insertion, the set before, what it returns, and the set after.
static TOLD: [(Change, Table<'static>, Answer, Table<'static>); 13] = [
    (
        Change::RangesInsert(4, 5),
        &[(1, 3)],
        Answer::Truth(true),
        &[(1, 5)],
    ),
    (
        Change::RangesInsert(4, 5),
        &[(1, 5)],
        Answer::Truth(false),
        &[(1, 5)],
    ),
    (
        Change::Insert(7),
        &[(1, 5)],
        Answer::Truth(true),
        &[(1, 5), (7, 7)],
    ),
    (
        Change::Insert(6),
        &[(1, 5), (7, 7)],
        Answer::Truth(true),
        &[(1, 7)],
    ),
    (
        Change::Insert(7),
        &[(1, 5), (7, 7)],
        Answer::Truth(false),
        &[(1, 5), (7, 7)],
    ),
    (
        Change::Replace(7),
        &[(1, 5), (7, 7)],
        Answer::Value(Some(7)),
        &[(1, 5), (7, 7)],
    ),
    (
        Change::Replace(9),
        &[(1, 5), (7, 7)],
        Answer::Value(None),
        &[(1, 5), (7, 7), (9, 9)],
    ),
    (
        Change::RangesInsert(1, 3),
        &[(4, 5)],
        Answer::Truth(true),
        &[(1, 5)],
    ),
    (
        Change::RangesInsert(5, 6),
        &[(1, 3)],
        Answer::Truth(true),
        &[(1, 3), (5, 6)],
    ),
    (
        Change::RangesInsert(3, 8),
        &[(1, 2), (5, 6), (9, 10)],
        Answer::Truth(true),
        &[(1, 10)],
    ),
    (
        Change::RangesInsert(4, 5),
        &[(1, 2), (5, 6), (9, 10)],
        Answer::Truth(true),
        &[(1, 2), (4, 6), (9, 10)],
    ),
    (
        Change::RangesInsert(0, 0),
        &[(i32::MIN, -1), (1, i32::MAX)],
        Answer::Truth(true),
        &[(i32::MIN, i32::MAX)],
    ),
    (
        Change::Replace(i32::MAX),
        &[],
        Answer::Value(None),
        &[(i32::MAX, i32::MAX)],
    ),
];

#[test]
fn an_insertion_tells_what_was_new(rt: HostRuntime) {
    for (call, before, answer, after) in &TOLD {
        assert!(rt;
            changes(rt.alloc(), *call, (before, &[]), *answer, (after, &[])) == Ok(true),
            "{after:?} of {before:?}"
        );
    }
}

/// Sets to insert a reversed range into.
static WITH_BOUNDS_REVERSED: [Table<'static>; 3] = [&[(1, 1)], &[], &[(i32::MIN, i32::MAX)]];

#[test]
fn a_reversed_range_adds_nothing(rt: HostRuntime) {
    for set in &WITH_BOUNDS_REVERSED {
        let call = Change::RangesInsert(5, 3);
        let answer = changes(
            rt.alloc(),
            call,
            (set, &[]),
            Answer::Truth(false),
            (set, &[]),
        );
        assert!(rt; answer == Ok(true), "into {set:?}");
    }
}

#[test]
fn a_range_that_touches_a_run_joins_it(rt: HostRuntime) -> Result<(), Fail> {
    let mut set = RangeSetBlaze::<u8>::new(rt.alloc());
    assert!(rt; set.ranges_insert(1..=3)? && is_byte_run(&set, 1, 3));
    assert!(rt; set.ranges_insert(4..=5)? && is_byte_run(&set, 1, 5));
    assert!(rt; !set.ranges_insert(4..=5)? && is_byte_run(&set, 1, 5));
    Ok(())
}

#[test]
fn the_full_range_adds_every_value(rt: HostRuntime) -> Result<(), Fail> {
    let mut set = RangeSetBlaze::<i32>::new(rt.alloc());
    assert!(rt; set.ranges_insert(..)? && set.len() == 4294967296);
    Ok(())
}

/// Whether inserting the values between two bounds into the set of a table reports this, and gives
/// the set of another.
fn adds(
    alloc: Global,
    bounds: (Bound<i32>, Bound<i32>),
    before: Table<'_>,
    is_new: bool,
    after: Table<'_>,
) -> Result<bool, AllocError> {
    let mut set = set_of(alloc, before)?;
    Ok(set.ranges_insert(bounds)? == is_new && has(&set, after))
}

/// A start and an end, the set before, whether something was new, and the set after.
static BOUNDED: [(Bound<i32>, Bound<i32>, Table<'static>, bool, Table<'static>); 6] = [
    (
        Bound::Unbounded,
        Bound::Unbounded,
        &[],
        true,
        &[(i32::MIN, i32::MAX)],
    ),
    (
        Bound::Unbounded,
        Bound::Unbounded,
        &[(6, 7)],
        true,
        &[(i32::MIN, i32::MAX)],
    ),
    (Bound::Excluded(5), Bound::Excluded(8), &[], true, &[(6, 7)]),
    (
        Bound::Included(5),
        Bound::Included(3),
        &[(6, 7)],
        false,
        &[(6, 7)],
    ),
    (
        Bound::Excluded(i32::MAX),
        Bound::Unbounded,
        &[(6, 7)],
        false,
        &[(6, 7)],
    ),
    (
        Bound::Unbounded,
        Bound::Excluded(i32::MIN),
        &[(6, 7)],
        false,
        &[(6, 7)],
    ),
];

#[test]
fn bounds_may_be_open_or_excluded(rt: HostRuntime) {
    for (start, end, before, is_new, after) in &BOUNDED {
        assert!(rt;
            adds(rt.alloc(), (*start, *end), before, *is_new, after) == Ok(true),
            "{start:?} to {end:?} into {before:?}"
        );
    }
}
