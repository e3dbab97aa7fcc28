//! Operations on the ranges of two sets.

use std::test::Fail;
use test_support::{OPERATIONS, Operation, operation_gives, set_of};

/// Returns what an operation on {1..=2, 5..=100} and {2..=6} gives.
fn wanted(operation: Operation) -> &'static [(i32, i32)] {
    match operation {
        Operation::Union => &[(1, 100)],
        Operation::Intersection => &[(2, 2), (5, 6)],
        Operation::Difference => &[(1, 1), (7, 100)],
        Operation::SymmetricDifference => &[(1, 1), (3, 4), (7, 100)],
        Operation::Complement => &[(-2147483648, 0), (3, 4), (101, 2147483647)],
    }
}

#[test]
fn operations_on_the_ranges_of_two_sets(rt: HostRuntime) -> Result<(), Fail> {
    let left = set_of(rt.alloc(), &[(1, 2), (5, 100)])?;
    let right = set_of(rt.alloc(), &[(2, 6)])?;
    for operation in OPERATIONS {
        let runs = wanted(operation);
        let is_given = operation_gives(operation, left.ranges(), right.ranges(), runs);
        assert!(rt; is_given, "{operation:?}");
    }
    Ok(())
}
