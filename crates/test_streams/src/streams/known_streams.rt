//! Streams that are known to be sorted by start or canonical, and are used without a check.

use crate::streams::nested::{joined_again, known};
use rsb_streams::{CheckSortedDisjoint, Merge, RangeOnce};
use test_support::{gives, three_tens};

#[test]
fn what_is_known_to_be_sorted_is_joined(rt: HostRuntime) {
    let merged = Merge::new(RangeOnce::new(3u8..=9), RangeOnce::new(1..=2));
    assert!(rt; gives(joined_again(merged), &[(1, 9)]));
}

#[test]
fn what_is_known_to_be_canonical_is_complemented(rt: HostRuntime) {
    let nothing: CheckSortedDisjoint<u8, RangeOnce<u8>> = CheckSortedDisjoint::default();
    assert!(rt; gives(nothing, &[]));
    assert!(rt; gives(!known(three_tens()), &[(1, 9), (11, 19), (21, 255)]));
}
