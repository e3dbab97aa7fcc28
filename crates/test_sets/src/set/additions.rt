//! `extend`, `extend_values`, `append`, `bitor_assign` and `bitor_assign_owned`, on rows worked by
//! hand.

use crate::set::calls::{Answer, Change};
use crate::set::rows::changes;
use range_set_blaze::RangeSetBlaze;
use std::alloc::{AllocError, Global};
use std::test::*;
use test_support::{Table, has, set_of};

/// Whether each call adds the second set to the first, and leaves or empties the second as it
/// should.
fn all_add(
    alloc: Global,
    set: Table<'_>,
    other: Table<'_>,
    after: Table<'_>,
) -> Result<bool, AllocError> {
    let nothing = Answer::Nothing;
    let sets = (set, other);
    Ok(
        changes(alloc, Change::Extend, sets, nothing, (after, other))?
            && changes(alloc, Change::BitorAssign, sets, nothing, (after, other))?
            && changes(alloc, Change::Append, sets, nothing, (after, &[]))?
            && changes(alloc, Change::BitorAssignOwned, sets, nothing, (after, &[]))?,
    )
}

/// A set, another that is added to it, and the result.
static ADDED: [(Table<'static>, Table<'static>, Table<'static>); 9] = [
    (&[], &[], &[]),
    (&[(1, 4)], &[], &[(1, 4)]),
    (&[], &[(1, 4)], &[(1, 4)]),
    (&[(1, 4)], &[(0, 0), (3, 5), (10, 10)], &[(0, 5), (10, 10)]),
    (&[(0, 5), (10, 10)], &[(7, 7)], &[(0, 5), (7, 7), (10, 10)]),
    (&[(1, 4)], &[(1, 4)], &[(1, 4)]),
    (&[(1, 4)], &[(2, 3)], &[(1, 4)]),
    (
        &[(1, 1), (3, 3), (5, 5), (7, 7)],
        &[(2, 2), (6, 6)],
        &[(1, 3), (5, 7)],
    ),
    (
        &[(i32::MAX, i32::MAX)],
        &[(i32::MIN, i32::MIN)],
        &[(i32::MIN, i32::MIN), (i32::MAX, i32::MAX)],
    ),
];

#[test]
fn other_sets_are_added(rt: HostRuntime) -> Result<(), Fail> {
    for (set, other, after) in &ADDED {
        assert!(rt; all_add(rt.alloc(), set, other, after)?);
    }
    Ok(())
}

/// Whether values are added in any order.
fn values_are_added(set: &mut RangeSetBlaze<i32>) -> Result<bool, AllocError> {
    set.extend_values([9, 0, 9, -3, 8])?;
    Ok(has(set, &[(-3, -3), (0, 4), (8, 9)]))
}

/// Whether ranges are then added in any order.
fn ranges_are_added(set: &mut RangeSetBlaze<i32>) -> Result<bool, AllocError> {
    set.extend([9..=12, 7..=6, -7..=-4, 10..=10, 5..=5])?;
    Ok(has(set, &[(-7, -3), (0, 5), (8, 12)]))
}

#[test]
fn ranges_and_values_are_added_in_any_order(rt: HostRuntime) -> Result<(), Fail> {
    let mut set = set_of(rt.alloc(), &[(1, 4)])?;
    assert!(rt; values_are_added(&mut set)? && ranges_are_added(&mut set)?);
    Ok(())
}
