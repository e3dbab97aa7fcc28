//! Operations on lists of 70,000 runs of each family, more than 16 bits can count, and the blocks
//! of their sets. No call gives up at a size.

use crate::sets::address_set::set_of;
use crate::sets::operations::{Way, selects, v6};
use ip_sets::{AddressList, Block, Operation, blocks_of, set_blocks};
use range_set_blaze::{RangeSetBlaze, UIntPlusOne};
use std::alloc::{AllocError, Global};
use std::test::*;

/// Adds some parts of the eight addresses that start at `first`.
fn push_parts(
    ranges: &mut Vec<(u32, u32)>,
    first: u32,
    parts: &[(u32, u32)],
) -> Result<(), AllocError> {
    for (start, end) in parts {
        ranges.push((first.saturating_add(*start), first.saturating_add(*end)))?;
    }
    Ok(())
}

/// Returns these parts of each eight addresses, from 0 up to the given number of eights.
pub(crate) fn of_each_eight(
    alloc: Global,
    eights: u32,
    parts: &[(u32, u32)],
) -> Result<Vec<(u32, u32)>, AllocError> {
    let mut ranges = Vec::new(alloc);
    for place in 0..eights {
        push_parts(&mut ranges, place.saturating_mul(8), parts)?;
    }
    Ok(ranges)
}

/// Returns a list of 70,000 runs of each family. The runs start at `first` and at every eighth
/// address after it, and each has three addresses.
fn many_runs(alloc: Global, first: u32) -> Result<AddressList, Fail> {
    let runs = of_each_eight(alloc, 70_000, &[(first, first.saturating_add(2))])?;
    let v4 = set_of(alloc, &runs)?;
    let v6 = set_of(alloc, &v6(alloc, &runs)?)?;
    Ok(AddressList { v4, v6 })
}

/// Returns the list of the ranges that start at 0 and the list of those that start at 2.
fn two_lists(alloc: Global) -> Result<[AddressList; 2], Fail> {
    Ok([many_runs(alloc, 0)?, many_runs(alloc, 2)?])
}

/// An operation on the two lists, and the parts of each eight addresses that it selects.
type Row = (Operation, &'static [(u32, u32)]);

static ROWS: [Row; 4] = [
    (Operation::Union, &[(0, 4)]),
    (Operation::Common, &[(2, 2)]),
    (Operation::Except, &[(0, 1)]),
    (Operation::Odd, &[(0, 1), (3, 4)]),
];

static COUNTED: [Row; 3] = [
    (Operation::AtLeast(1), &[(0, 4)]),
    (Operation::AtLeast(2), &[(2, 2)]),
    (Operation::AtLeast(3), &[]),
];

/// Returns the first operation that does not select from the two lists what its row says.
fn first_wrong(alloc: Global, way: Way, rows: &[Row]) -> Result<Option<Operation>, Fail> {
    let lists = two_lists(alloc)?;
    for (operation, parts) in rows {
        let wanted = of_each_eight(alloc, 70_000, parts)?;
        if !selects(alloc, way, *operation, &lists, &wanted)? {
            return Ok(Some(*operation));
        }
    }
    Ok(None)
}

#[test]
fn operations_on_many_runs_select_each_of_them(rt: HostRuntime) -> Result<(), Fail> {
    let wrong = first_wrong(rt.alloc(), Way::Combine, &ROWS)?;
    assert!(rt; wrong.is_none(), "at {wrong:?}");
    Ok(())
}

#[test]
fn streams_of_many_runs_select_each_of_them(rt: HostRuntime) -> Result<(), Fail> {
    let wrong = first_wrong(rt.alloc(), Way::Streams, &ROWS)?;
    assert!(rt; wrong.is_none(), "at {wrong:?}");
    Ok(())
}

#[test]
fn runs_of_both_lists_are_counted_twice(rt: HostRuntime) -> Result<(), Fail> {
    let wrong = first_wrong(rt.alloc(), Way::Combine, &COUNTED)?;
    assert!(rt; wrong.is_none(), "at {wrong:?}");
    Ok(())
}

#[test]
fn runs_of_both_streams_are_counted_twice(rt: HostRuntime) -> Result<(), Fail> {
    let wrong = first_wrong(rt.alloc(), Way::Streams, &COUNTED)?;
    assert!(rt; wrong.is_none(), "at {wrong:?}");
    Ok(())
}

/// Returns what neither of the two lists has: the end of each eight addresses, and all addresses
/// after the last run.
fn outside(alloc: Global) -> Result<Vec<(u32, u32)>, AllocError> {
    let mut ranges = of_each_eight(alloc, 69_999, &[(5, 7)])?;
    ranges.push((559_997, u32::MAX))?;
    Ok(ranges)
}

#[test]
fn what_no_list_has_reaches_the_last_address(rt: HostRuntime) -> Result<(), Fail> {
    let lists = two_lists(rt.alloc())?;
    let (complement, wanted) = (Operation::Complement, outside(rt.alloc())?);
    assert!(rt; selects(rt.alloc(), Way::Combine, complement, &lists, &wanted)?);
    assert!(rt; selects(rt.alloc(), Way::Streams, complement, &lists, &wanted)?);
    Ok(())
}

#[test]
fn at_least_none_of_the_lists_have_every_address(rt: HostRuntime) -> Result<(), Fail> {
    let lists = two_lists(rt.alloc())?;
    let (at_least, every) = (Operation::AtLeast(0), [(0, u32::MAX)]);
    assert!(rt; selects(rt.alloc(), Way::Combine, at_least, &lists, &every)?);
    assert!(rt; selects(rt.alloc(), Way::Streams, at_least, &lists, &every)?);
    Ok(())
}

/// Whether a list of many runs has the first three of each eight addresses, and no others. Only
/// every 101st address is looked up.
fn has_three_of_eight(list: &AddressList) -> bool {
    for address in (0..560_000u32).step_by(101) {
        let is_in = address % 8 < 3;
        if list.v4.contains(address) != is_in || list.v6.contains(u128::from(address)) != is_in {
            return false;
        }
    }
    true
}

#[test]
fn a_set_has_the_addresses_of_many_runs(rt: HostRuntime) -> Result<(), Fail> {
    let list = many_runs(rt.alloc(), 0)?;
    assert!(rt; list.v4.ranges_len() == 70_000 && list.v6.ranges_len() == 70_000);
    assert!(rt; list.v4.len() == 210_000 && list.v6.len() == UIntPlusOne::UInt(210_000));
    assert!(rt; has_three_of_eight(&list));
    assert!(rt; list.v4.contains(559_994) && !list.v4.contains(559_995));
    assert!(rt; list.v6.contains(559_994) && !list.v6.contains(559_995));
    Ok(())
}

/// Whether a block is the one at this place: two addresses and then one address of each run.
fn is_at(block: &Block<u32>, place: u32) -> bool {
    let run = (place / 2).saturating_mul(8);
    if place % 2 == 0 {
        return block.first == run && block.length == 31;
    }
    block.first == run.saturating_add(2) && block.length == 32
}

/// Returns the IPv4 addresses of a list as a set that can change.
fn v4_set(alloc: Global, list: &AddressList) -> Result<RangeSetBlaze<u32>, AllocError> {
    let set = RangeSetBlaze::from_sorted_disjoint(alloc, list.v4.ranges())?;
    Ok(set)
}

/// Whether a set of IPv4 addresses has two blocks for each run.
fn has_two_blocks_a_run(alloc: Global, set: &RangeSetBlaze<u32>) -> Result<bool, AllocError> {
    let blocks = set_blocks(alloc, set)?;
    for (block, place) in blocks.iter().zip(0..140_000u32) {
        if !is_at(block, place) {
            return Ok(false);
        }
    }
    Ok(blocks.len() == 140_000)
}

#[test]
fn many_runs_have_their_blocks(rt: HostRuntime) -> Result<(), Fail> {
    let list = many_runs(rt.alloc(), 0)?;
    let set = v4_set(rt.alloc(), &list)?;
    assert!(rt; has_two_blocks_a_run(rt.alloc(), &set)?);
    let blocks = blocks_of(rt.alloc(), list.v6.ranges())?;
    assert!(rt; blocks.len() == 140_000);
    let last = Block {
        first: 559_994,
        length: 128,
    };
    assert!(rt; blocks.last() == Some(&last));
    Ok(())
}
