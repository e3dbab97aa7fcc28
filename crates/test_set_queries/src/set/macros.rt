//! The macros over streams, as `range_set_blaze` defines them: on none, one, three and five
//! streams.

use range_set_blaze::prelude::*;
use std::test::*;
use test_support::gives;

/// Returns a stream of the range of five values from this one on.
fn range(start: u8) -> RangeOnce<u8>
    ensures { ⟦<RangeOnce<u8> as Draw<u8>>⟧.can_draw result }
{
    RangeOnce::new(start..=start.saturating_add(4))
}

#[test]
fn no_stream_gives_nothing_or_everything(rt: HostRuntime) -> Result<(), Fail> {
    let some: MultiwayUnion<u8, DynSortedDisjoint<u8>> = union_dyn!(rt.alloc())?;
    assert!(rt; gives(some, &[]));
    let all: MultiwayIntersection<u8, DynSortedDisjoint<u8>> = intersection_dyn!(rt.alloc())?;
    assert!(rt; gives(all, &[(0, 255)]));
    let odd: MultiwaySymmetricDifference<u8, DynSortedDisjoint<u8>> = symmetric_difference_dyn!(
        rt.alloc()
    )?;
    assert!(rt; gives(odd, &[]));
    Ok(())
}

#[test]
fn one_stream_gives_its_ranges(rt: HostRuntime) -> Result<(), Fail> {
    let alloc = rt.alloc();
    assert!(rt; gives(union_dyn!(alloc, range(1))?, &[(1, 5)]));
    assert!(rt; gives(intersection_dyn!(alloc, range(1),)?, &[(1, 5)]));
    assert!(rt; gives(symmetric_difference_dyn!(alloc, range(1))?, &[(1, 5)]));
    Ok(())
}

#[test]
fn each_of_three_streams_counts(rt: HostRuntime) -> Result<(), Fail> {
    let some = union_dyn!(rt.alloc(), range(1), range(2), range(3))?;
    assert!(rt; gives(some, &[(1, 7)]));
    let all = intersection_dyn!(rt.alloc(), range(1), range(2), range(3))?;
    assert!(rt; gives(all, &[(3, 5)]));
    let odd = symmetric_difference_dyn!(rt.alloc(), range(1), range(2), range(3))?;
    assert!(rt; gives(odd, &[(1, 1), (3, 5), (7, 7)]));
    Ok(())
}

#[test]
fn a_union_has_each_of_five_streams(rt: HostRuntime) -> Result<(), Fail> {
    let some = union_dyn!(rt.alloc(), range(1), range(2), range(3), range(4), range(5))?;
    assert!(rt; gives(some, &[(1, 9)]));
    Ok(())
}

#[test]
fn an_intersection_lies_in_each_of_five_streams(rt: HostRuntime) -> Result<(), Fail> {
    let all = intersection_dyn!(rt.alloc(), range(1), range(2), range(3), range(4), range(5))?;
    assert!(rt; gives(all, &[(5, 5)]));
    Ok(())
}

#[test]
fn each_of_five_streams_counts(rt: HostRuntime) -> Result<(), Fail> {
    let odd = symmetric_difference_dyn!(
        rt.alloc(),
        range(1),
        range(2),
        range(3),
        range(4),
        range(5)
    )?;
    assert!(rt; gives(odd, &[(1, 1), (3, 3), (5, 5), (7, 7), (9, 9)]));
    Ok(())
}
