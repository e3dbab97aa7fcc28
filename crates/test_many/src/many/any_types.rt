//! The macros on streams of different types: none, one, two, three and five of them.

use rsb_many::{
    DynSortedDisjoint, MultiwayIntersection, MultiwaySymmetricDifference, MultiwayUnion,
    intersection_dyn, symmetric_difference_dyn, union_dyn,
};
use rsb_streams::{DrawDisjoint, RangeOnce};
use std::alloc::{AllocError, Global};
use std::test::Fail;
use test_support::{Ranges, gives, odd_of_three, some_of_two, stream_of};

/// A stream of collected ranges.
type Taken = DynSortedDisjoint<u8>;

#[test]
fn of_no_stream_nothing_everything_nothing(rt: HostRuntime) -> Result<(), Fail> {
    let alloc = rt.alloc();
    let union: MultiwayUnion<u8, Taken> = union_dyn!(alloc)?;
    let intersection: MultiwayIntersection<u8, Taken> = intersection_dyn!(alloc)?;
    let odd: MultiwaySymmetricDifference<u8, Taken> = symmetric_difference_dyn!(alloc)?;
    assert!(rt; gives(union, &[]) && gives(intersection, &[(0, 255)]) && gives(odd, &[]));
    Ok(())
}

/// The ranges of one stream.
static ONE: Ranges = &[(1, 6), (8, 9)];

#[test]
fn of_one_stream_its_ranges(rt: HostRuntime) -> Result<(), Fail> {
    let alloc = rt.alloc();
    let union = union_dyn!(alloc, stream_of(ONE),)?;
    let intersection = intersection_dyn!(alloc, stream_of(ONE))?;
    let odd = symmetric_difference_dyn!(alloc, stream_of(ONE))?;
    assert!(rt; gives(union, ONE) && gives(intersection, ONE) && gives(odd, ONE));
    Ok(())
}

#[test]
fn what_one_of_two_streams_of_unlike_types_has_alone(rt: HostRuntime) -> Result<(), Fail> {
    let alloc = rt.alloc();
    let odd = symmetric_difference_dyn!(alloc, stream_of(ONE), RangeOnce::new(5..=8))?;
    assert!(rt; gives(odd, &[(1, 4), (7, 7), (9, 9)]));
    let some = some_of_two(alloc, (stream_of(ONE), RangeOnce::new(5..=8)))?;
    assert!(rt; gives(some, &[(1, 9)]));
    Ok(())
}

#[test]
fn what_some_of_three_streams_of_unlike_types_have(rt: HostRuntime) -> Result<(), Fail> {
    let alloc = rt.alloc();
    let one = stream_of(&[(1, 6), (8, 9), (11, 15)]);
    let other = stream_of(&[(5, 13), (18, 29)]);
    let third = RangeOnce::new(0..=41).complement();
    let some = union_dyn!(alloc, one, other, third)?;
    assert!(rt; gives(some, &[(1, 15), (18, 29), (42, 255)]));
    Ok(())
}

#[test]
fn what_three_streams_of_unlike_types_have_together(rt: HostRuntime) -> Result<(), Fail> {
    let alloc = rt.alloc();
    let one = stream_of(&[(1, 6), (8, 9), (11, 15)]);
    let other = stream_of(&[(5, 13), (18, 29)]);
    let third = RangeOnce::new(38..=42).complement();
    let all = intersection_dyn!(alloc, one, other, third)?;
    assert!(rt; gives(all, &[(5, 6), (8, 9), (11, 13)]));
    Ok(())
}

/// What an odd number of three streams have.
static ODD: [(u8, u8); 6] = [(1, 4), (7, 7), (10, 10), (14, 15), (18, 29), (38, 42)];

#[test]
fn what_lies_in_an_odd_number_of_streams_of_unlike_types(rt: HostRuntime) -> Result<(), Fail> {
    let one = stream_of(&[(1, 6), (8, 9), (11, 15)]);
    let other = stream_of(&[(5, 13), (18, 29)]);
    let odd = odd_of_three(rt.alloc(), (one, other, RangeOnce::new(38..=42)))?;
    assert!(rt; gives(odd, &ODD));
    Ok(())
}

/// Whether the union of five streams has what only one of them has.
fn five_are_united(alloc: Global) -> Result<bool, AllocError> {
    let union = union_dyn!(
        alloc,
        stream_of(&[(1, 2)]),
        RangeOnce::new(5..=6),
        stream_of(&[(10, 10)]),
        RangeOnce::new(0..=249).complement(),
        stream_of(&[(20, 25)]),
    )?;
    Ok(gives(union, &[(1, 2), (5, 6), (10, 10), (20, 25), (250, 255)]))
}

/// Whether the intersection of five streams lacks what only one of them lacks: the first 21..=29,
/// the next 0..=4, then 8..=9, 33..=35 and 15.
fn five_are_met(alloc: Global) -> Result<bool, AllocError> {
    let intersection = intersection_dyn!(
        alloc,
        stream_of(&[(0, 20), (30, 40)]),
        RangeOnce::new(5..=35),
        RangeOnce::new(8..=9).complement(),
        stream_of(&[(0, 32)]),
        RangeOnce::new(15..=15).complement(),
    )?;
    Ok(gives(intersection, &[(5, 7), (10, 14), (16, 20), (30, 32)]))
}

/// Whether the symmetric difference of five streams starts or ends wherever one of them does.
fn five_are_turned(alloc: Global) -> Result<bool, AllocError> {
    let odd = symmetric_difference_dyn!(
        alloc,
        stream_of(&[(1, 6), (8, 9), (11, 15)]),
        RangeOnce::new(5..=13),
        stream_of(&[(18, 29)]),
        RangeOnce::new(0..=19).complement(),
        stream_of(&[(25, 27), (250, 251)]),
    )?;
    let wanted = [
        (1, 4),
        (7, 7),
        (10, 10),
        (14, 15),
        (18, 19),
        (25, 27),
        (30, 249),
        (252, 255),
    ];
    Ok(gives(odd, &wanted))
}

#[test]
fn of_five_streams_each_one_counts(rt: HostRuntime) -> Result<(), Fail> {
    assert!(rt; five_are_united(rt.alloc())?);
    assert!(rt; five_are_met(rt.alloc())?);
    assert!(rt; five_are_turned(rt.alloc())?);
    Ok(())
}
