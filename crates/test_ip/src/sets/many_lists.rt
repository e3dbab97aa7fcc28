//! Operations on 20,000 lists. No call gives up at a number of lists.

use crate::sets::operations::{Way, selects};
use ip_sets::{AddressList, AddressSet, Operation};
use range_set_blaze::RangeOnce;
use std::alloc::{AllocError, Global};
use std::test::*;

/// Returns a list of one address of each family.
fn single(alloc: Global, address: u32) -> Result<AddressList, AllocError> {
    let wide = u128::from(address);
    Ok(AddressList {
        v4: AddressSet::from_ranges(alloc, RangeOnce::new(address..=address))?,
        v6: AddressSet::from_ranges(alloc, RangeOnce::new(wide..=wide))?,
    })
}

/// Returns 20,000 lists of one address of each family: 7, and the given number more for each list
/// after the first.
fn many_lists(alloc: Global, step: u32) -> Result<Vec<AddressList>, AllocError> {
    let mut lists = Vec::new(alloc);
    for place in 0..20_000u32 {
        lists.push(single(alloc, place.saturating_mul(step).saturating_add(7))?)?;
    }
    Ok(lists)
}

/// The last IPv4 address.
const LAST: u32 = u32::MAX;

/// An operation, and the ranges of IPv4 addresses that it selects. It selects the same IPv6
/// addresses.
type Row = (Operation, &'static [(u32, u32)]);

/// What is selected from lists of different addresses.
static APART: [Row; 5] = [
    (Operation::Union, &[(7, 20_006)]),
    (Operation::Common, &[]),
    (Operation::Except, &[(7, 7)]),
    (Operation::Odd, &[(7, 20_006)]),
    (Operation::Complement, &[(0, 6), (20_007, LAST)]),
];

/// What is selected from lists of the same address.
static SAME: [Row; 4] = [
    (Operation::Common, &[(7, 7)]),
    (Operation::Odd, &[]),
    (Operation::AtLeast(20_000), &[(7, 7)]),
    (Operation::AtLeast(20_001), &[]),
];

/// Returns the first operation that does not select from the lists what its row says.
fn first_wrong(
    alloc: Global,
    way: Way,
    lists: &[AddressList],
    rows: &[Row],
) -> Result<Option<Operation>, AllocError> {
    for (operation, wanted) in rows {
        if !selects(alloc, way, *operation, lists, wanted)? {
            return Ok(Some(*operation));
        }
    }
    Ok(None)
}

#[test]
fn operations_on_many_lists_select_from_each(rt: HostRuntime) -> Result<(), Fail> {
    let lists = many_lists(rt.alloc(), 1)?;
    let wrong = first_wrong(rt.alloc(), Way::Combine, &lists, &APART)?;
    assert!(rt; wrong.is_none(), "at {wrong:?}");
    Ok(())
}

#[test]
fn streams_of_many_lists_select_from_each(rt: HostRuntime) -> Result<(), Fail> {
    let lists = many_lists(rt.alloc(), 1)?;
    let wrong = first_wrong(rt.alloc(), Way::Streams, &lists, &APART)?;
    assert!(rt; wrong.is_none(), "at {wrong:?}");
    Ok(())
}

#[test]
fn many_lists_of_the_same_address_are_counted(rt: HostRuntime) -> Result<(), Fail> {
    let lists = many_lists(rt.alloc(), 0)?;
    let wrong = first_wrong(rt.alloc(), Way::Combine, &lists, &SAME)?;
    assert!(rt; wrong.is_none(), "at {wrong:?}");
    Ok(())
}

#[test]
fn streams_of_the_same_address_are_counted(rt: HostRuntime) -> Result<(), Fail> {
    let lists = many_lists(rt.alloc(), 0)?;
    let wrong = first_wrong(rt.alloc(), Way::Streams, &lists, &SAME)?;
    assert!(rt; wrong.is_none(), "at {wrong:?}");
    Ok(())
}
