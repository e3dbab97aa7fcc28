//! Streams of more than a million ranges: no loop stops at a certain size.

use rsb_integer::Integer;
use rsb_streams::{CheckSortedDisjoint, DrawDisjoint, UnionIter};
use std::alloc::{AllocError, Global};
use std::ops::RangeInclusive;
use std::test::Fail;
use test_support::{Operation, gives, operation_gives};

/// A number above a million.
const MANY: i32 = 1_000_100;

/// Returns `MANY` ranges of one value each: `first` and every second value after it.
fn each_second(alloc: Global, first: i32) -> Result<Vec<RangeInclusive<i32>>, AllocError> {
    let ranges = (0..MANY).map(|place| {
        let value = first.saturating_add(place.saturating_mul(2));
        value..=value
    });
    Vec::from_iter(alloc, ranges)
}

/// Returns whether a stream has the given number of members.
fn has_members<T: Integer, I: DrawDisjoint<T>>(stream: I, wanted: T::SafeLen) -> bool
    requires { I.can_draw stream }
{
    stream.members_len() == wanted
}

/// Returns whether two streams are equal.
fn are_equal<T: Integer, I: DrawDisjoint<T>>(left: I, right: I) -> bool
    requires left { I.can_draw left }
    requires right { I.can_draw right }
{
    left.equal(right)
}

/// Returns whether a list is refused at its last position, where a range touches the one before.
fn is_refused_at_the_end(alloc: Global) -> Result<bool, AllocError> {
    let mut ranges = each_second(alloc, 0)?;
    ranges.push(2_000_199..=2_000_199)?;
    match CheckSortedDisjoint::try_new(ranges) {
        Ok(_) => Ok(false),
        Err(refused) => Ok(refused.position == 1_000_100),
    }
}

/// Returns whether a list is accepted, and has as many members as ranges.
fn is_accepted(alloc: Global) -> Result<bool, AllocError> {
    match CheckSortedDisjoint::try_new(each_second(alloc, 0)?) {
        Ok(stream) => Ok(has_members(stream, 1_000_100)),
        Err(_) => Ok(false),
    }
}

/// Returns whether the complement of a list has the right number of members.
fn is_complemented(alloc: Global) -> Result<bool, AllocError> {
    match CheckSortedDisjoint::try_new(each_second(alloc, 0)?) {
        Ok(stream) => Ok(has_members(stream.complement(), 4_293_967_196)),
        Err(_) => Ok(false),
    }
}

/// Returns whether an operation gives exactly these ranges. Its operands are every second value
/// starting at 0, and every second value starting at `first`.
fn makes(
    alloc: Global,
    operation: Operation,
    first: i32,
    wanted: &[(i32, i32)],
) -> Result<bool, AllocError> {
    let evens = CheckSortedDisjoint::try_new(each_second(alloc, 0)?);
    let others = CheckSortedDisjoint::try_new(each_second(alloc, first)?);
    match (evens, others) {
        (Ok(left), Ok(right)) => Ok(operation_gives(operation, left, right, wanted)),
        _ => Ok(false),
    }
}

/// Returns whether two lists of the same ranges are equal.
fn equals_itself(alloc: Global) -> Result<bool, AllocError> {
    let one = CheckSortedDisjoint::try_new(each_second(alloc, 0)?);
    let other = CheckSortedDisjoint::try_new(each_second(alloc, 0)?);
    match (one, other) {
        (Ok(left), Ok(right)) => Ok(are_equal(left, right)),
        _ => Ok(false),
    }
}

#[test]
fn a_list_of_a_million_ranges_is_tested_to_its_end(rt: HostRuntime) -> Result<(), Fail> {
    assert!(rt; is_accepted(rt.alloc())?);
    assert!(rt; is_refused_at_the_end(rt.alloc())?);
    Ok(())
}

#[test]
fn a_million_ranges_have_a_complement_and_equal_themselves(rt: HostRuntime) -> Result<(), Fail> {
    assert!(rt; is_complemented(rt.alloc())?);
    assert!(rt; equals_itself(rt.alloc())?);
    Ok(())
}

// The only range of the result contains all ranges of both streams.
#[test]
fn a_union_joins_a_million_ranges_of_each_stream(rt: HostRuntime) -> Result<(), Fail> {
    assert!(rt; makes(rt.alloc(), Operation::Union, 1, &[(0, 2_000_199)])?);
    Ok(())
}

#[test]
fn a_symmetric_difference_joins_a_million_ranges(rt: HostRuntime) -> Result<(), Fail> {
    assert!(rt;
        makes(
            rt.alloc(),
            Operation::SymmetricDifference,
            1,
            &[(0, 2_000_199)]
        )?
    );
    Ok(())
}

#[test]
fn a_symmetric_difference_leaves_out_a_million_ranges(rt: HostRuntime) -> Result<(), Fail> {
    assert!(rt; makes(rt.alloc(), Operation::SymmetricDifference, 0, &[])?);
    Ok(())
}

#[test]
fn a_difference_takes_a_million_ranges_away(rt: HostRuntime) -> Result<(), Fail> {
    assert!(rt; makes(rt.alloc(), Operation::Difference, 0, &[])?);
    Ok(())
}

#[test]
fn an_intersection_passes_over_a_million_ranges(rt: HostRuntime) -> Result<(), Fail> {
    assert!(rt; makes(rt.alloc(), Operation::Intersection, 1, &[])?);
    Ok(())
}

#[test]
fn a_million_ranges_in_any_order_are_united(rt: HostRuntime) -> Result<(), Fail> {
    let touching = UnionIter::from_iter(rt.alloc(), (0..MANY).map(|value| value..=value))?;
    assert!(rt; gives(touching, &[(0, 1_000_099)]));
    let descending = each_second(rt.alloc(), 0)?.into_iter().rev();
    let apart = UnionIter::from_iter(rt.alloc(), descending)?;
    assert!(rt; has_members(apart, 1_000_100));
    Ok(())
}
