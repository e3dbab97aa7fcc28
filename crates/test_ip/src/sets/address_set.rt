//! Sets of addresses of one family, in rows worked by hand.

use ip_sets::{Address, AddressSet};
use range_set_blaze::{CheckSortedDisjoint, DrawDisjoint, RangeOnce, UIntPlusOne};
use std::alloc::{AllocError, Allocator, Global};
use std::test::*;
use test_support::{gives, list_of};

/// Returns whether the set has exactly these ranges.
pub(crate) fn are<T: Address, A: Allocator>(set: &AddressSet<T, A>, wanted: &[(T, T)]) -> bool {
    if set.ranges_len() != wanted.len() {
        return false;
    }
    for (range, pair) in set.ranges().zip(wanted) {
        if range != (pair.0..=pair.1) {
            return false;
        }
    }
    true
}

/// Returns the set of the addresses of these ranges, which ascend and lie apart.
pub(crate) fn set_of<T: Address>(alloc: Global, ranges: &[(T, T)]) -> Result<AddressSet<T>, Fail> {
    let stream = CheckSortedDisjoint::try_new(list_of(alloc, ranges)?)?;
    Ok(AddressSet::from_ranges(alloc, stream)?)
}

/// Returns how many of these addresses a set has.
fn found<T: Address>(set: &AddressSet<T>, addresses: &[T]) -> usize {
    let mut found = 0usize;
    for address in addresses {
        if set.contains(*address) {
            found = found.saturating_add(1);
        }
    }
    found
}

/// Returns whether a set has exactly these runs, all of some addresses, and none of some others.
fn is_of<T: Address>(set: &AddressSet<T>, runs: &[(T, T)], all: &[T], none: &[T]) -> bool {
    are(set, runs)
        && gives(set.ranges(), runs)
        && found(set, all) == all.len()
        && found(set, none) == 0
}

/// The last address of each family.
const V4_LAST: u32 = u32::MAX;

const V6_LAST: u128 = u128::MAX;

/// The runs of a set of IPv4 addresses, how many addresses it has, some that it has, and some that
/// it lacks.
type V4Row = (&'static [(u32, u32)], u64, &'static [u32], &'static [u32]);

static V4_ROWS: [V4Row; 6] = [
    (&[], 0, &[], &[0, 5, V4_LAST]),
    (&[(0, 0)], 1, &[0], &[1, V4_LAST]),
    (&[(V4_LAST, V4_LAST)], 1, &[V4_LAST], &[0, V4_LAST - 1]),
    (&[(0, V4_LAST)], 4_294_967_296, &[0, 5, V4_LAST], &[]),
    (
        &[(1, V4_LAST - 1)],
        4_294_967_294,
        &[1, 5, V4_LAST - 1],
        &[0, V4_LAST],
    ),
    (
        &[(0, 5), (7, 7), (V4_LAST - 2, V4_LAST)],
        10,
        &[0, 5, 7, V4_LAST - 2, V4_LAST],
        &[6, 8, V4_LAST - 3],
    ),
];

/// Returns whether the calls of the set of a row return what the row says.
fn is_v4_row(alloc: Global, row: &V4Row) -> Result<bool, Fail> {
    let set = set_of(alloc, row.0)?;
    Ok(set.len() == row.1 && is_of(&set, row.0, row.2, row.3))
}

#[test]
fn a_set_has_the_ipv4_addresses_of_its_runs(rt: HostRuntime) -> Result<(), Fail> {
    for row in &V4_ROWS {
        assert!(rt; is_v4_row(rt.alloc(), row)?, "of {:?}", row.0);
    }
    Ok(())
}

/// The same for IPv6 addresses.
type V6Row = (
    &'static [(u128, u128)],
    UIntPlusOne<u128>,
    &'static [u128],
    &'static [u128],
);

static V6_ROWS: [V6Row; 6] = [
    (&[], UIntPlusOne::UInt(0), &[], &[0, 5, V6_LAST]),
    (&[(0, 0)], UIntPlusOne::UInt(1), &[0], &[1, V6_LAST]),
    (
        &[(V6_LAST, V6_LAST)],
        UIntPlusOne::UInt(1),
        &[V6_LAST],
        &[0, V6_LAST - 1],
    ),
    (
        &[(0, V6_LAST)],
        UIntPlusOne::MaxPlusOne,
        &[0, 5, V6_LAST],
        &[],
    ),
    (
        &[(1, V6_LAST - 1)],
        UIntPlusOne::UInt(V6_LAST - 1),
        &[1, 5, V6_LAST - 1],
        &[0, V6_LAST],
    ),
    (
        &[(0, 5), (7, 7), (V6_LAST - 2, V6_LAST)],
        UIntPlusOne::UInt(10),
        &[0, 5, 7, V6_LAST - 2, V6_LAST],
        &[6, 8, V6_LAST - 3],
    ),
];

/// Returns whether the calls of the set of a row return what the row says.
fn is_v6_row(alloc: Global, row: &V6Row) -> Result<bool, Fail> {
    let set = set_of(alloc, row.0)?;
    Ok(set.len() == row.1 && is_of(&set, row.0, row.2, row.3))
}

#[test]
fn a_set_has_the_ipv6_addresses_of_its_runs(rt: HostRuntime) -> Result<(), Fail> {
    for row in &V6_ROWS {
        assert!(rt; is_v6_row(rt.alloc(), row)?, "of {:?}", row.0);
    }
    Ok(())
}

/// Returns whether the set of all addresses except one has these runs.
fn all_but_one_are<T: Address>(
    alloc: Global,
    address: T,
    wanted: &[(T, T)],
) -> Result<bool, AllocError> {
    let others = RangeOnce::new(address..=address).complement();
    Ok(are(&AddressSet::from_ranges(alloc, others)?, wanted))
}

#[test]
fn a_set_is_made_from_any_stream(rt: HostRuntime) -> Result<(), Fail> {
    let alloc = rt.alloc();
    assert!(rt; all_but_one_are(alloc, 5, &[(0, 4), (6, V4_LAST)])?);
    assert!(rt; all_but_one_are(alloc, 0, &[(1, V4_LAST)])?);
    assert!(rt; all_but_one_are(alloc, V4_LAST, &[(0, V4_LAST - 1)])?);
    assert!(rt; all_but_one_are(alloc, 5, &[(0, 4), (6, V6_LAST)])?);
    assert!(rt; all_but_one_are(alloc, 0, &[(1, V6_LAST)])?);
    assert!(rt; all_but_one_are(alloc, V6_LAST, &[(0, V6_LAST - 1)])?);
    Ok(())
}

#[test]
fn ranges_come_one_by_one_and_then_no_more(rt: HostRuntime) -> Result<(), Fail> {
    let set = set_of(rt.alloc(), &[(0u32, 5), (7, V4_LAST)])?;
    let mut ranges = set.ranges();
    assert!(rt; ranges.next() == Some(0..=5));
    assert!(rt; ranges.next() == Some(7..=V4_LAST));
    assert!(rt; ranges.next().is_none() && ranges.next().is_none());
    Ok(())
}

/// Returns whether the ranges of a set, and a copy of them that is made after the first one, go on
/// with the same ranges.
fn copy_goes_on<T: Address + 'static>(
    set: &AddressSet<T>,
    rest: &[(T, T)],
) -> Result<bool, AllocError> {
    let mut ranges = set.ranges();
    let has_first = ranges.next().is_some();
    let copy = ranges.clone()?;
    Ok(has_first && gives(copy, rest) && gives(ranges, rest))
}

#[test]
fn a_copy_of_the_ranges_goes_on_alike(rt: HostRuntime) -> Result<(), Fail> {
    let v4 = set_of(rt.alloc(), &[(0, 5), (7, V4_LAST)])?;
    let v6 = set_of(rt.alloc(), &[(0, 5), (7, 7), (9, V6_LAST)])?;
    assert!(rt; copy_goes_on(&v4, &[(7, V4_LAST)])?);
    assert!(rt; copy_goes_on(&v6, &[(7, 7), (9, V6_LAST)])?);
    Ok(())
}
