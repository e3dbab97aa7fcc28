//! Sets and threads.

use range_set_blaze::RangeSetBlaze;
use std::test::*;
use test_support::set_of;

// Requires that a value can be sent to other threads, and shared with them.
fn may_cross<X: Send + Sync>(_value: &X) {}

#[test]
fn sets_have_the_markers_of_threads(rt: HostRuntime) -> Result<(), Fail> {
    may_cross(&set_of(rt.alloc(), &[(1, 2)])?);
    may_cross(&RangeSetBlaze::<u128>::new(rt.alloc()));
    Ok(())
}

#[test]
fn windows_have_the_markers_of_threads(rt: HostRuntime) -> Result<(), Fail> {
    let set = set_of(rt.alloc(), &[(1, 2)])?;
    may_cross(&set.ranges_in(1..));
    may_cross(&set.gaps_in(1..));
    Ok(())
}
