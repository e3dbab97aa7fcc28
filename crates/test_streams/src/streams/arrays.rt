//! Arrays of ranges as streams, if they are known to be sorted by start, to ascend and perhaps
//! touch, or to be canonical.

use rsb_streams::{AssumeSortedStarts, CheckSortedDisjoint, CheckSortedTouching, UnionIter};
use test_support::gives;

#[test]
fn an_array_of_ranges_apart_is_a_stream(rt: HostRuntime) {
    let stream = CheckSortedDisjoint::new([1u8..=2, 4..=9]);
    assert!(rt; gives(stream, &[(1, 2), (4, 9)]));
}

#[test]
fn an_array_of_ranges_that_touch_is_a_stream(rt: HostRuntime) {
    let stream = CheckSortedTouching::new([1u8..=2, 3..=9, 11..=11]);
    assert!(rt; gives(stream, &[(1, 2), (3, 9), (11, 11)]));
}

#[test]
fn an_array_of_ranges_by_starts_is_joined(rt: HostRuntime) {
    let stream = AssumeSortedStarts::new([1u8..=3, 2..=5, 7..=7]);
    assert!(rt; gives(UnionIter::new(stream), &[(1, 5), (7, 7)]));
}
