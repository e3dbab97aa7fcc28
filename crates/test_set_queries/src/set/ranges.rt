//! The runs of a set, by reference and by value, from both ends.

use crate::set::steps::End::{self, Back, Front};
use range_set_blaze::RangeSetBlaze;
use std::ops::RangeInclusive;
use std::test::*;
use test_support::{Table, gives, set_of};

/// The ends that runs are taken from, one after the other, and what each call then returns.
type Steps<'a> = &'a [(End, Option<(i32, i32)>)];

/// Whether a result is the range with these ends, or `None`.
fn is_run(found: Option<RangeInclusive<i32>>, wanted: Option<(i32, i32)>) -> bool {
    match (found, wanted) {
        (Some(range), Some((start, end))) => range == (start..=end),
        (None, None) => true,
        _ => false,
    }
}

/// Whether a set gives these runs, and always reports the number left.
fn come(set: &RangeSetBlaze<i32>, steps: Steps<'_>) -> bool {
    let mut ranges = set.ranges();
    let mut left = set.ranges_len();
    for (end, wanted) in steps {
        let is_told = ranges.len() == left && ranges.size_hint() == (left, Some(left));
        let found = match end {
            Front => ranges.next(),
            Back => ranges.next_back(),
        };
        if !is_told || !is_run(found, *wanted) {
            return false;
        }
        left = left.saturating_sub(1);
    }
    ranges.len() == left
}

/// Whether a set passed by value gives these runs, and always reports the number left.
fn owned_come(set: RangeSetBlaze<i32>, steps: Steps<'_>) -> bool {
    let mut left = set.ranges_len();
    let mut ranges = set.into_ranges();
    for (end, wanted) in steps {
        let is_told = ranges.len() == left && ranges.size_hint() == (left, Some(left));
        let found = match end {
            Front => ranges.next(),
            Back => ranges.next_back(),
        };
        if !is_told || !is_run(found, *wanted) {
            return false;
        }
        left = left.saturating_sub(1);
    }
    ranges.len() == left
}

/// A set, and which of its runs come from either end, one after the other.
static FROM_BOTH_ENDS: [(Table<'static>, Steps<'static>); 5] = [
    (&[], &[(Front, None), (Back, None)]),
    (
        &[(1, 2), (5, 5), (9, 12)],
        &[
            (Back, Some((9, 12))),
            (Front, Some((1, 2))),
            (Front, Some((5, 5))),
            (Back, None),
            (Front, None),
        ],
    ),
    (
        &[(1, 2), (5, 5), (9, 12)],
        &[
            (Back, Some((9, 12))),
            (Back, Some((5, 5))),
            (Back, Some((1, 2))),
            (Back, None),
        ],
    ),
    (&[(1, 2), (5, 5), (9, 12)], &[(Front, Some((1, 2)))]),
    (
        &[(i32::MIN, i32::MAX)],
        &[(Back, Some((i32::MIN, i32::MAX))), (Front, None)],
    ),
];

#[test]
fn ranges_come_from_both_ends(rt: HostRuntime) -> Result<(), Fail> {
    for (ranges, steps) in &FROM_BOTH_ENDS {
        let set = set_of(rt.alloc(), ranges)?;
        assert!(rt; come(&set, steps) && owned_come(set, steps), "{ranges:?}");
    }
    Ok(())
}

#[test]
fn a_clone_gives_the_same_ranges(rt: HostRuntime) -> Result<(), Fail> {
    let set = set_of(rt.alloc(), &[(1, 2), (5, 5), (9, 12)])?;
    let mut ranges = set.ranges();
    assert!(rt; ranges.next() == Some(1..=2));
    let copy = ranges.clone()?;
    assert!(rt; gives(ranges, &[(5, 5), (9, 12)]));
    assert!(rt; gives(copy, &[(5, 5), (9, 12)]));
    Ok(())
}
