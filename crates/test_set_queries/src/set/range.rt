//! `range`, the elements between two bounds.

use range_set_blaze::{IntoIter, RangeSetBlaze};
use std::alloc::AllocError;
use std::ops::{Bound, RangeBounds};
use std::test::*;
use test_support::set_of;

/// Whether members come in this order, and then nothing.
fn come(members: IntoIter<i32>, wanted: &[i32]) -> bool {
    members.eq(wanted.iter().copied())
}

/// Whether the members between two bounds are these, in order.
fn gives<R: RangeBounds<i32>>(
    set: &RangeSetBlaze<i32>,
    bounds: R,
    wanted: &[i32],
) -> Result<bool, AllocError> {
    Ok(come(set.range(bounds)?, wanted))
}

#[test]
fn elements_between_bounds_come_in_order(rt: HostRuntime) -> Result<(), Fail> {
    let set = set_of(rt.alloc(), &[(3, 3), (5, 5), (8, 8)])?;
    let inner = (Bound::Excluded(3), Bound::Excluded(8));
    assert!(rt;
        gives(&set, 4.., &[5, 8])?
            && gives(&set, ..=5, &[3, 5])?
            && gives(&set, .., &[3, 5, 8])?
            && gives(&set, inner, &[5])?
    );
    Ok(())
}

#[test]
fn bounds_with_nothing_between_them_give_nothing(rt: HostRuntime) -> Result<(), Fail> {
    let set = set_of(rt.alloc(), &[(3, 8)])?;
    let past = (Bound::Excluded(i32::MAX), Bound::Unbounded);
    assert!(rt;
        gives(&set, 5..=4, &[])?
            && gives(&set, 5..5, &[])?
            && gives(&set, ..i32::MIN, &[])?
            && gives(&set, past, &[])?
    );
    Ok(())
}
