//! The five operations, called as methods.

use crate::streams::operation_rows::{ENDS, GAPS, RANGES, Row};
use rsb_streams::{Difference, DrawDisjoint, Intersection, RangeOnce, Union};
use test_support::{OPERATIONS, Operation, gives, operation_gives, stream_of};

/// Returns the first operation whose result is not the one in the row.
fn wrong_operation(row: &Row) -> Option<Operation> {
    for operation in OPERATIONS {
        let (left, right) = (stream_of(row.left), stream_of(row.right));
        if !operation_gives(operation, left, right, row.wanted(operation)) {
            return Some(operation);
        }
    }
    None
}

/// Returns the position of the first row in which an operation fails, and that operation.
fn first_wrong(rows: &[Row]) -> Option<(usize, Operation)> {
    for place in 0..rows.len() {
        if let Some(operation) = wrong_operation(&rows[place]) {
            return Some((place, operation));
        }
    }
    None
}

#[test]
fn operations_on_ranges(rt: HostRuntime) {
    let wrong = first_wrong(&RANGES);
    assert!(rt; wrong.is_none(), "{wrong:?}");
}

#[test]
fn operations_on_streams_with_gaps(rt: HostRuntime) {
    let wrong = first_wrong(&GAPS);
    assert!(rt; wrong.is_none(), "{wrong:?}");
}

#[test]
fn operations_at_the_ends_of_the_type(rt: HostRuntime) {
    let wrong = first_wrong(&ENDS);
    assert!(rt; wrong.is_none(), "{wrong:?}");
}

/// Returns whether an operation on the ranges of two tables gives exactly the wanted ranges.
fn operation_of(
    operation: Operation,
    left: &[(u8, u8)],
    right: &[(u8, u8)],
    wanted: &[(u8, u8)],
) -> bool {
    operation_gives(operation, stream_of(left), stream_of(right), wanted)
}

#[test]
fn union_joins_what_touches(rt: HostRuntime) {
    assert!(rt;
        operation_of(
            Operation::Union,
            &[(0, 4), (250, 255)],
            &[(5, 249)],
            &[(0, 255)]
        )
    );
}

#[test]
fn union_joins_what_overlaps(rt: HostRuntime) {
    let left = RangeOnce::new(100..=499).union(RangeOnce::new(501..=999));
    let right = RangeOnce::new(-20..=-20).union(RangeOnce::new(400..=599));
    assert!(rt; operation_gives(Operation::Union, left, right, &[(-20, -20), (100, 999)]));
}

#[test]
fn complement_is_the_gap_between_the_ends_of_the_type(rt: HostRuntime) {
    assert!(rt;
        operation_of(
            Operation::Complement,
            &[(0, 9), (20, 255)],
            &[],
            &[(10, 19)]
        )
    );
}

#[test]
fn complements_of_nothing_and_of_everything(rt: HostRuntime) {
    assert!(rt; gives(RangeOnce::new(1u8..=0).complement(), &[(0, 255)]));
    assert!(rt; operation_of(Operation::Complement, &[(0, 255)], &[], &[]));
}

/// Two streams, and their symmetric difference.
static SYMMETRIC_DIFFERENCES: [(&[(u8, u8)], &[(u8, u8)], &[(u8, u8)]); 4] = [
    (&[(1, 5)], &[(3, 5)], &[(1, 2)]),
    (&[(1, 4)], &[(5, 8)], &[(1, 8)]),
    (&[(0, 255)], &[(255, 255)], &[(0, 254)]),
    (&[(0, 255)], &[(0, 255)], &[]),
];

#[test]
fn symmetric_differences_leave_out_what_both_have_and_join_what_touches(rt: HostRuntime) {
    for (left, right, wanted) in &SYMMETRIC_DIFFERENCES {
        assert!(rt;
            operation_of(Operation::SymmetricDifference, left, right, wanted),
            "{left:?} ^ {right:?}"
        );
    }
}

#[test]
fn results_are_made_of_pairs(rt: HostRuntime) {
    assert!(rt;
        gives(
            Union::from((RangeOnce::new(0u8..=9), RangeOnce::new(200..=255))),
            &[(0, 9), (200, 255)]
        )
    );
    let pair = (RangeOnce::new(0u8..=5), RangeOnce::new(3..=9));
    assert!(rt; gives(Intersection::from(pair), &[(3, 5)]));
    let pair = (RangeOnce::new(0u8..=5), RangeOnce::new(3..=9));
    assert!(rt; gives(Difference::from(pair), &[(0, 2)]));
}
