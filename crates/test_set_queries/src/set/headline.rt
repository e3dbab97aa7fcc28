//! The calls on sets that the headline names, at two user-defined element types.

use range_set_blaze::laws::cmp_counted;
use range_set_blaze::{DrawDisjoint, Integer, RangeSetBlaze};
use rsb_user_types::{Side, Slot};
use std::alloc::{AllocError, Global};
use std::cmp::Ordering::{Equal, Greater, Less};
use std::hash::Hash;
use std::test::*;
use test_support::fed_by;

/// Returns the set of the least value of a type, and the set of every value.
fn least_and_all<T: Integer>(
    alloc: Global,
) -> Result<(RangeSetBlaze<T>, RangeSetBlaze<T>), AllocError> {
    let mut least = RangeSetBlaze::new(alloc);
    least.insert(T::min_value())?;
    Ok((least, RangeSetBlaze::universe(alloc)?))
}

/// Whether a set has one run, between these values.
fn is_run<T: Integer>(set: &RangeSetBlaze<T>, start: T, end: T) -> bool {
    let mut ranges = set.ranges();
    let Some(range) = ranges.next() else {
        return false;
    };
    *range.start() == start && *range.end() == end && ranges.next().is_none()
}

/// Whether two sets have the runs and the lengths of the least value and of all.
fn are_listed<T: Integer>(
    least: &RangeSetBlaze<T>,
    all: &RangeSetBlaze<T>,
    lengths: (T::SafeLen, T::SafeLen),
) -> bool {
    let (min, max) = (T::min_value(), T::max_value());
    is_run(least, min, min)
        && is_run(all, min, max)
        && least.len() == lengths.0
        && all.len() == lengths.1
        && all.ranges().members_len() == lengths.1
}

/// Whether the set of the least value is less than the set of all, by each comparison.
fn are_ordered<T: Integer>(least: &RangeSetBlaze<T>, all: &RangeSetBlaze<T>) -> bool {
    least.cmp(all) == Less
        && least != all
        && least == least
        && cmp_counted(least, all) == (Less, 2)
        && cmp_counted(all, least) == (Greater, 2)
        && cmp_counted(all, all) == (Equal, 2)
        && least.ranges().equal(least.ranges())
        && !least.ranges().equal(all.ranges())
}

/// Whether equal sets feed a hasher the same, and these two do not.
fn are_fed<T: Integer + Hash>(
    least: &RangeSetBlaze<T>,
    all: &RangeSetBlaze<T>,
) -> Result<bool, AllocError> {
    let copy = least.clone()?;
    Ok(fed_by(least) == fed_by(&copy) && fed_by(least) != fed_by(all))
}

/// Whether every call returns the right values for the set of the least value and for the set of
/// all.
fn are_read<T: Integer + Hash>(
    alloc: Global,
    lengths: (T::SafeLen, T::SafeLen),
) -> Result<bool, AllocError> {
    let (least, all) = least_and_all::<T>(alloc)?;
    Ok(are_listed(&least, &all, lengths) && are_ordered(&least, &all) && are_fed(&least, &all)?)
}

#[test]
fn sets_of_own_types_are_listed_counted_compared_and_hashed(rt: HostRuntime) -> Result<(), Fail> {
    assert!(rt; are_read::<Side>(rt.alloc(), (1, 2))?);
    assert!(rt; are_read::<Slot>(rt.alloc(), (1, 96))?);
    Ok(())
}
