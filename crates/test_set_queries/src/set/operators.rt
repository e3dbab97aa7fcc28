//! The operators on the runs of sets.

use range_set_blaze::RangeSetBlaze;
use std::alloc::{AllocError, Global};
use std::test::*;
use test_support::Operation::{
    self, Complement, Difference, Intersection, SymmetricDifference, Union,
};
use test_support::{Table, gives, set_of};

/// Whether an operator on the runs of two sets gives these.
fn make(
    operation: Operation,
    left: &RangeSetBlaze<i32>,
    right: &RangeSetBlaze<i32>,
    wanted: Table<'_>,
) -> bool {
    let (left, right) = (left.ranges(), right.ranges());
    match operation {
        Union => gives(left | right, wanted),
        Intersection => gives(left & right, wanted),
        Difference => gives(left - right, wanted),
        SymmetricDifference => gives(left ^ right, wanted),
        Complement => gives(!left, wanted),
    }
}

/// Whether an operator on the runs of two sets passed by value gives these.
fn owned_make(
    operation: Operation,
    left: RangeSetBlaze<i32>,
    right: RangeSetBlaze<i32>,
    wanted: Table<'_>,
) -> bool {
    let (left, right) = (left.into_ranges(), right.into_ranges());
    match operation {
        Union => gives(left | right, wanted),
        Intersection => gives(left & right, wanted),
        Difference => gives(left - right, wanted),
        SymmetricDifference => gives(left ^ right, wanted),
        Complement => gives(!left, wanted),
    }
}

// `LEAST` and `MOST` are the ends of the type.
const LEAST: i32 = i32::MIN;

const MOST: i32 = i32::MAX;

// `ONE` and `OTHER` touch and overlap, `SHORT` closes a gap of `LONG`, and `ALL` has every value.
const ONE: Table<'static> = &[(1, 3), (7, 10)];

const OTHER: Table<'static> = &[(4, 4), (9, 20)];

const LONG: Table<'static> = &[(1, 2), (5, 100)];

const SHORT: Table<'static> = &[(2, 6)];

const ALL: Table<'static> = &[(i32::MIN, i32::MAX)];

/// Two sets, an operation, and the result of its operator on their runs.
static OPERATED: [(Table<'static>, Table<'static>, Operation, Table<'static>); 22] = [
    (ONE, OTHER, Union, &[(1, 4), (7, 20)]),
    (ONE, OTHER, Intersection, &[(9, 10)]),
    (ONE, OTHER, Difference, &[(1, 3), (7, 8)]),
    (ONE, OTHER, SymmetricDifference, &[(1, 4), (7, 8), (11, 20)]),
    (ONE, OTHER, Complement, &[(LEAST, 0), (4, 6), (11, MOST)]),
    (OTHER, ALL, Union, ALL),
    (OTHER, ALL, Intersection, &[(4, 4), (9, 20)]),
    (OTHER, ALL, Difference, &[]),
    (
        OTHER,
        ALL,
        SymmetricDifference,
        &[(LEAST, 3), (5, 8), (21, MOST)],
    ),
    (OTHER, ALL, Complement, &[(LEAST, 3), (5, 8), (21, MOST)]),
    (LONG, SHORT, Union, &[(1, 100)]),
    (LONG, SHORT, Intersection, &[(2, 2), (5, 6)]),
    (LONG, SHORT, Difference, &[(1, 1), (7, 100)]),
    (
        LONG,
        SHORT,
        SymmetricDifference,
        &[(1, 1), (3, 4), (7, 100)],
    ),
    (LONG, SHORT, Complement, &[(LEAST, 0), (3, 4), (101, MOST)]),
    (&[], ALL, Union, ALL),
    (&[], ALL, Intersection, &[]),
    (&[], ALL, Difference, &[]),
    (&[], ALL, SymmetricDifference, ALL),
    (&[], ALL, Complement, ALL),
    (ALL, &[], Difference, ALL),
    (ALL, &[], Complement, &[]),
];

/// Whether an operator on the runs of the sets of two tables gives these, by reference and by
/// value.
fn both_make(
    alloc: Global,
    operation: Operation,
    left: Table<'_>,
    right: Table<'_>,
    wanted: Table<'_>,
) -> Result<bool, AllocError> {
    let one = set_of(alloc, left)?;
    let other = set_of(alloc, right)?;
    Ok(make(operation, &one, &other, wanted) && owned_make(operation, one, other, wanted))
}

#[test]
fn runs_make_others_whoever_owns_them(rt: HostRuntime) {
    for (left, right, operation, wanted) in &OPERATED {
        let is_right = both_make(rt.alloc(), *operation, left, right, wanted);
        assert!(rt; is_right == Ok(true), "{operation:?} of {left:?}");
    }
}
