//! The loops over sets, at more than a million runs or values. No loop gives up at a size.
//!
//! The checked build of `rt try --test` takes minutes here, and `--seconds 900` lets it finish. So
//! `tools/test` runs the same calls only on seventy thousand runs, here and in `many_runs`.

use crate::set::calls::{Change, Making};
use crate::set::many_runs::{change, counts, makes};
use crate::set::rows::{
    elements_given, elements_given_back, elements_given_up, ranges_given, ranges_given_up,
};
use range_set_blaze::{DrawDisjoint, RangeSetBlaze};
use std::alloc::{AllocError, Global};
use std::test::*;
use test_support::{every_fifth, fed_by};

/// Returns a million and a hundred values, four apart, starting at `first`.
fn fourths(alloc: Global, first: i32) -> Result<RangeSetBlaze<i32>, AllocError> {
    let last = first.saturating_add(4_000_396);
    RangeSetBlaze::from_iter_values(alloc, (first..=last).step_by(4))
}

/// A making from the fourths starting at 0 and those starting at 2, and the numbers of runs and of
/// members of its result.
static MADE: [(Making, usize, u64); 9] = [
    (Making::Clone, 1_000_100, 1_000_100),
    (Making::Bitor, 2_000_200, 2_000_200),
    (Making::Sub, 1_000_100, 1_000_100),
    (Making::Bitxor, 2_000_200, 2_000_200),
    (Making::Not, 1_000_101, 4_293_967_196),
    (Making::FromIter, 2_000_200, 2_000_200),
    (Making::FromIterValues(2, 4_000_398), 1_000_100, 1_000_100),
    (Making::FromSortedDisjoint, 1_000_100, 1_000_100),
    (Making::IntoRangeSetBlaze, 1_000_100, 1_000_100),
];

#[test]
fn a_million_runs_make_sets(rt: HostRuntime) -> Result<(), Fail> {
    let (set, other) = (fourths(rt.alloc(), 0)?, fourths(rt.alloc(), 2)?);
    for (making, count, members) in &MADE {
        assert!(rt;
            makes(rt.alloc(), *making, (&set, &other), (*count, *members))?,
            "{count} runs"
        );
    }
    let both = (1_000_100, 1_000_100);
    assert!(rt; makes(rt.alloc(), Making::Bitand, (&set, &set), both)?);
    Ok(())
}

/// Changes, one after the other, of the fourths starting at 0. The other set has those starting at
/// 2. Each row has the numbers of runs and of members that the change leaves.
static CHANGED: [(Change, usize, u64); 8] = [
    (Change::Append, 2_000_200, 2_000_200),
    (Change::Extend, 2_000_200, 2_000_200),
    (Change::BitorAssign, 2_000_200, 2_000_200),
    (Change::BitorAssignOwned, 2_000_200, 2_000_200),
    (Change::Retain(2, 1), 2_000_200, 2_000_200),
    (Change::RangesRetain(2, 1), 2_000_200, 2_000_200),
    (Change::ExtendValues(1, 4_000_397), 1_000_100, 3_000_300),
    (Change::RangesRetain(1, 0), 0, 0),
];

#[test]
fn a_million_runs_are_changed(rt: HostRuntime) -> Result<(), Fail> {
    let mut set = fourths(rt.alloc(), 0)?;
    let other = fourths(rt.alloc(), 2)?;
    for (call, count, members) in &CHANGED {
        change(rt.alloc(), *call, &mut set, &other)?;
        assert!(rt; counts(&set, *count, *members), "{count} runs");
    }
    Ok(())
}

/// Whether a set gives this number of runs, and this number of elements from either end.
fn are_listed(set: &RangeSetBlaze<i32>, count: usize, members: u64) -> bool {
    ranges_given(set) == count
        && elements_given(set) == members
        && elements_given_back(set) == members
        && set.ranges().members_len() == members
}

/// Returns the number of elements between two bounds.
fn elements_between(set: &RangeSetBlaze<i32>) -> Result<u64, AllocError> {
    let mut between = 0u64;
    for _ in set.range(..)? {
        between = between.saturating_add(1);
    }
    Ok(between)
}

/// Whether two equal sets are equal by each call that reads both.
fn are_equal(set: &RangeSetBlaze<i32>, copy: &RangeSetBlaze<i32>) -> bool {
    set == copy
        && set.cmp(copy).is_eq()
        && set.is_subset(copy)
        && set.is_superset(copy)
        && fed_by(set) == fed_by(copy)
}

#[test]
fn a_million_runs_are_listed_compared_and_hashed(rt: HostRuntime) -> Result<(), Fail> {
    let set = fourths(rt.alloc(), 0)?;
    let copy = set.clone()?;
    assert!(rt; are_listed(&set, 1_000_100, 1_000_100) && are_equal(&set, &copy));
    assert!(rt; set.is_disjoint(&fourths(rt.alloc(), 2)?));
    assert!(rt; elements_between(&set)? == 1_000_100);
    assert!(rt; elements_given_up(set) == 1_000_100 && ranges_given_up(copy) == 1_000_100);
    Ok(())
}

#[test]
fn seventy_thousand_runs_are_listed_compared_and_hashed(rt: HostRuntime) -> Result<(), Fail> {
    let set = every_fifth(rt.alloc(), 0, 2)?;
    let copy = set.clone()?;
    assert!(rt; are_listed(&set, 70_000, 210_000) && are_equal(&set, &copy));
    assert!(rt; set.is_disjoint(&every_fifth(rt.alloc(), 3, 0)?));
    assert!(rt; elements_between(&set)? == 210_000);
    assert!(rt; elements_given_up(set) == 210_000 && ranges_given_up(copy) == 70_000);
    Ok(())
}

/// Whether a set of a million runs can be split after its first run, and the rest before its last
/// run.
fn is_split(alloc: Global) -> Result<bool, AllocError> {
    let mut set = fourths(alloc, 0)?;
    let later = set.split_off(4)?;
    let is_early = counts(&set, 1, 1) && counts(&later, 1_000_099, 1_000_099);
    let mut set = later;
    let last = set.split_off(4_000_396)?;
    Ok(is_early && counts(&set, 1_000_098, 1_000_098) && counts(&last, 1, 1))
}

#[test]
fn a_million_runs_are_split(rt: HostRuntime) -> Result<(), Fail> {
    assert!(rt; is_split(rt.alloc())?);
    Ok(())
}
