//! The merge of two streams by their starts.

use rsb_streams::Merge;
use test_support::{gives, stream_of};

/// Two streams of ranges, and their merge.
static MERGED: [(&[(u8, u8)], &[(u8, u8)], &[(u8, u8)]); 5] = [
    (
        &[(1, 2), (10, 11)],
        &[(2, 12)],
        &[(1, 2), (2, 12), (10, 11)],
    ),
    (&[], &[(3, 5)], &[(3, 5)]),
    (&[(3, 5)], &[], &[(3, 5)]),
    (&[], &[], &[]),
    (&[(255, 255)], &[(0, 0)], &[(0, 0), (255, 255)]),
];

#[test]
fn merge_gives_each_range_as_it_stands(rt: HostRuntime) {
    for (left, right, wanted) in &MERGED {
        let merge = Merge::new(stream_of(left), stream_of(right));
        assert!(rt; gives(merge, wanted), "{left:?} and {right:?}");
    }
}
