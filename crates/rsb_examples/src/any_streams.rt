//! Functions over any streams: a union of many, a nest, a filter, and streams of different types.

use range_set_blaze::{
    DrawDisjoint, Integer, IntoRangeSetBlaze, MultiwaySortedDisjoint, RangeOnce, RangeSetBlaze,
    Streams, union_dyn,
};
use std::alloc::{AllocError, Global};
use std::io;

/// Three sets and a range are combined in each way.
pub fn show(alloc: Global, rt: &impl Print) -> io::Result<()> {
    let one = RangeSetBlaze::from_iter(alloc, [1..=6, 8..=8, 11..=15])?;
    let other = RangeSetBlaze::from_iter(alloc, [5..=13, 18..=29])?;
    show_each(alloc, &one, &other, rt)
}

// Prints each combination of two sets, a third one and a range.
fn show_each(
    alloc: Global,
    one: &RangeSetBlaze<u32>,
    other: &RangeSetBlaze<u32>,
    rt: &impl Print,
) -> io::Result<()> {
    println!(rt;
        "outside of all: {} values",
        outside_both(alloc, one, other)?
    )?;
    show_set("in an odd number", odd_with_third(alloc, one, other)?, rt)?;
    show_set("outside the long ranges", outside_long(alloc, one)?, rt)?;
    let some = either(alloc, one.ranges(), RangeOnce::new(7..=8))?;
    show_set("either", some, rt)?;
    let rest = either_without(alloc, one.ranges(), other.ranges(), RangeOnce::new(3..=20))?;
    show_set("either without 3..=20", rest, rt)
}

// Prints a set after what it is.
fn show_set(what: &str, set: RangeSetBlaze<u32>, rt: &impl Print) -> io::Result<()> {
    println!(rt; "{what}: {set}")
}

// Returns the number of values that neither set has.
fn outside_both(
    alloc: Global,
    one: &RangeSetBlaze<u32>,
    other: &RangeSetBlaze<u32>,
) -> Result<u64, AllocError> {
    outside_all(alloc, &[one.clone()?, other.clone()?])
}

// Returns the number of values that no set has.
fn outside_all(alloc: Global, sets: &[RangeSetBlaze<u32>]) -> Result<u64, AllocError> {
    let mut streams = Streams::new(alloc);
    for set in sets {
        streams.push(set.ranges())?;
    }
    none_len(alloc, streams)
}

/// Returns the number of values that none of the streams has.
pub fn none_len<T: Integer, I: DrawDisjoint<T>>(
    alloc: Global,
    streams: Streams<T, I>,
) -> Result<T::SafeLen, AllocError> {
    Ok(streams.union(alloc)?.complement().members_len())
}

// Returns the values that are in an odd number of two sets, a third one and a range.
fn odd_with_third(
    alloc: Global,
    one: &RangeSetBlaze<u32>,
    other: &RangeSetBlaze<u32>,
) -> Result<RangeSetBlaze<u32>, AllocError> {
    let third = RangeSetBlaze::from_iter(alloc, [9..=20])?;
    odd(alloc, one, other, &third)
}

// Returns the values that are in an odd number of four: three sets and the range 0..=2.
fn odd(
    alloc: Global,
    one: &RangeSetBlaze<u32>,
    other: &RangeSetBlaze<u32>,
    third: &RangeSetBlaze<u32>,
) -> Result<RangeSetBlaze<u32>, AllocError> {
    let range = RangeOnce::new(0..=2);
    odd_of_four(alloc, one.ranges(), other.ranges(), third.ranges(), range)
}

/// Returns the set of the values that lie in an odd number of four streams.
pub fn odd_of_four<
    T: Integer,
    A: DrawDisjoint<T>,
    B: DrawDisjoint<T>,
    C: DrawDisjoint<T>,
    D: DrawDisjoint<T>,
>(alloc: Global, a: A, b: B, c: C, d: D) -> Result<RangeSetBlaze<T>, AllocError>
    requires a { A.can_draw a }
    requires b { B.can_draw b }
    requires c { C.can_draw c }
    requires d { D.can_draw d }
{
    let odd = a
        .symmetric_difference(b)
        .symmetric_difference(c)
        .symmetric_difference(d);
    odd.into_range_set_blaze(alloc)
}

/// Returns the set of the values outside the runs that have more than one value.
pub fn outside_long(
    alloc: Global,
    set: &RangeSetBlaze<u32>,
) -> Result<RangeSetBlaze<u32>, AllocError> {
    let long = set.ranges().filter(|range| range.start() < range.end());
    long.complement().into_range_set_blaze(alloc)
}

/// Returns the set of the values in one of two streams or in both, whatever their types.
pub fn either<T: Integer, L: DrawDisjoint<T>, R: DrawDisjoint<T>>(
    alloc: Global,
    left: L,
    right: R,
) -> Result<RangeSetBlaze<T>, AllocError>
    requires left { L.can_draw left }
    requires right { R.can_draw right }
{
    union_dyn!(alloc, left, right)?.into_range_set_blaze(alloc)
}

/// Returns the same without the values of a third stream.
pub fn either_without<T: Integer, L: DrawDisjoint<T>, R: DrawDisjoint<T>, W: DrawDisjoint<T>>(
    alloc: Global,
    left: L,
    right: R,
    without: W,
) -> Result<RangeSetBlaze<T>, AllocError>
    requires left { L.can_draw left }
    requires right { R.can_draw right }
    requires without { W.can_draw without }
{
    let rest = union_dyn!(alloc, left, right)? - without;
    rest.into_range_set_blaze(alloc)
}
