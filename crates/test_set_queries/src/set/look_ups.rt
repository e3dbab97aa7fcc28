//! Look-ups of a value, and queries about a whole set.

use range_set_blaze::{Integer, RangeSetBlaze};
use std::test::*;
use test_support::{Table, has, set_of};

/// Whether a value is in the run or the gap with these ends, by each call that looks for it.
pub(crate) fn lies<T: Integer>(
    set: &RangeSetBlaze<T>,
    value: T,
    start: T,
    end: T,
    is_run: bool,
) -> bool {
    let member = if is_run { Some(value) } else { None };
    let run = if is_run { Some(start..=end) } else { None };
    set.contains(value) == is_run
        && set.get(value) == member
        && set.range_at(value) == run
        && set.range_or_gap_at(value) == (start..=end, is_run)
}

/// A value, the ends of the run or the gap of {1..=3, 7..=10} around it, and which it is.
static AROUND: [(i32, i32, i32, bool); 13] = [
    (i32::MIN, i32::MIN, 0, false),
    (0, i32::MIN, 0, false),
    (1, 1, 3, true),
    (2, 1, 3, true),
    (3, 1, 3, true),
    (4, 4, 6, false),
    (5, 4, 6, false),
    (6, 4, 6, false),
    (7, 7, 10, true),
    (8, 7, 10, true),
    (10, 7, 10, true),
    (11, 11, i32::MAX, false),
    (i32::MAX, 11, i32::MAX, false),
];

#[test]
fn values_are_found_with_their_runs(rt: HostRuntime) -> Result<(), Fail> {
    let set = set_of(rt.alloc(), &[(1, 3), (7, 10)])?;
    for (value, start, end, is_run) in &AROUND {
        assert!(rt; lies(&set, *value, *start, *end, *is_run), "at {value}");
    }
    Ok(())
}

/// A set, its least and its greatest member, and whether it is the universe.
static ENDS: [(Table<'static>, Option<i32>, Option<i32>, bool); 5] = [
    (&[], None, None, false),
    (&[(7, 7)], Some(7), Some(7), false),
    (&[(1, 3), (7, 10)], Some(1), Some(10), false),
    (
        &[(i32::MIN, i32::MAX)],
        Some(i32::MIN),
        Some(i32::MAX),
        true,
    ),
    (
        &[(i32::MIN, -1), (1, i32::MAX)],
        Some(i32::MIN),
        Some(i32::MAX),
        false,
    ),
];

#[test]
fn ends_and_number_of_runs_are_told(rt: HostRuntime) -> Result<(), Fail> {
    for (ranges, first, last, is_universal) in &ENDS {
        let set = set_of(rt.alloc(), ranges)?;
        let is_told = has(&set, ranges)
            && set.first() == *first
            && set.last() == *last
            && set.is_empty() == first.is_none()
            && set.is_universal() == *is_universal;
        assert!(rt; is_told, "{ranges:?}");
    }
    Ok(())
}
