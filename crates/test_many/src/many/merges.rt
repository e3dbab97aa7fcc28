//! Merges of many streams.

use rsb_many::KMerge;
use std::test::Fail;
use test_support::{Ranges, gives, streams_of};

/// Four streams, of which one has no range.
static FOUR: [Ranges; 4] = [&[(1, 9), (20, 20)], &[(1, 2)], &[], &[(0, 0), (5, 255)]];

#[test]
fn a_merge_of_many_gives_all_ranges_by_their_starts(rt: HostRuntime) -> Result<(), Fail> {
    let merge = KMerge::new(rt.alloc(), streams_of(rt.alloc(), &FOUR)?)?;
    assert!(rt; gives(merge, &[(0, 0), (1, 9), (1, 2), (5, 255), (20, 20)]));
    Ok(())
}
