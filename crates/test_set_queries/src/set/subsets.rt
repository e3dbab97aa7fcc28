//! Subsets, supersets and disjoint sets.

use range_set_blaze::RangeSetBlaze;
use std::test::*;
use test_support::{Table, set_of};

/// Whether one set is a subset of another, whether the other is a subset of it, and whether they
/// are disjoint.
type Relation = (bool, bool, bool);

/// Whether two sets are related as `wanted` states, by the calls on either.
fn stand(one: &RangeSetBlaze<i32>, other: &RangeSetBlaze<i32>, wanted: Relation) -> bool {
    let is_in = one.is_subset(other) == wanted.0 && other.is_superset(one) == wanted.0;
    let has_it = other.is_subset(one) == wanted.1 && one.is_superset(other) == wanted.1;
    is_in && has_it && one.is_disjoint(other) == wanted.2 && other.is_disjoint(one) == wanted.2
}

/// Two sets, and how they are related.
static RELATED: [(Table<'static>, Table<'static>, Relation); 8] = [
    // A run in a longer one is a subset of it.
    (&[(1, 3)], &[(0, 5)], (true, false, false)),
    // The sets differ only in a later run.
    (&[(1, 3), (7, 8)], &[(0, 5), (9, 9)], (false, false, false)),
    // Runs that touch are disjoint.
    (&[(1, 2)], &[(3, 4)], (false, false, true)),
    (&[], &[(i32::MIN, i32::MAX)], (true, false, true)),
    (&[], &[], (true, true, true)),
    (&[(1, 3), (7, 8)], &[(1, 3), (7, 8)], (true, true, false)),
    // The gap between two runs is in neither of them.
    (&[(1, 5)], &[(1, 2), (4, 5)], (false, true, false)),
    (
        &[(i32::MIN, i32::MIN)],
        &[(i32::MAX, i32::MAX)],
        (false, false, true),
    ),
];

#[test]
fn two_sets_stand_so_to_each_other(rt: HostRuntime) -> Result<(), Fail> {
    for (left, right, relation) in &RELATED {
        let (one, other) = (set_of(rt.alloc(), left)?, set_of(rt.alloc(), right)?);
        assert!(rt; stand(&one, &other, *relation), "{left:?} and {right:?}");
    }
    Ok(())
}
