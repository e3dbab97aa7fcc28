//! Debug texts. Their content is unspecified.

use crate::streams::nested::{joined_again, known, sorted, touching};
use rsb_streams::{DrawDisjoint, Merge, UnionIter};
use test_support::{is_shown, three_tens};

#[test]
fn results_of_operations_have_a_text(rt: HostRuntime) {
    let alloc = rt.alloc();
    assert!(rt; is_shown(alloc, three_tens().complement()));
    assert!(rt; is_shown(alloc, three_tens().union(three_tens())));
    assert!(rt; is_shown(alloc, three_tens().intersection(three_tens())));
    assert!(rt; is_shown(alloc, three_tens().difference(three_tens())));
    assert!(rt; is_shown(alloc, three_tens().symmetric_difference(three_tens())));
}

#[test]
fn other_streams_have_a_text(rt: HostRuntime) {
    let alloc = rt.alloc();
    assert!(rt; is_shown(alloc, Merge::new(three_tens(), three_tens())));
    assert!(rt; is_shown(alloc, known(three_tens())));
    assert!(rt; is_shown(alloc, touching(three_tens())));
    assert!(rt; is_shown(alloc, sorted(three_tens())));
    assert!(rt; is_shown(alloc, UnionIter::new(three_tens())));
    assert!(rt; is_shown(alloc, joined_again(three_tens())));
    assert!(rt; is_shown(alloc, three_tens().fill_gaps()));
}
