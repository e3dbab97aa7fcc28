//! Each allocation of each change fails in turn, on maps of 0, 1, 3 and 100 ranges. After a failure
//! the map is unchanged, and nothing leaks.

use crate::changes::{Change, carry_out};
use range_map_blaze::RangeMapBlaze;
use std::alloc::{AllocError, Global};
use std::test::*;
use test_support::{Counting, Heap};

/// A map in a heap that can fail.
type HeapMap<'a> = RangeMapBlaze<u8, u8, &'a Heap>;

/// The changes, which cut ranges, join them and replace them.
static CHANGES: [Change; 10] = [
    Change::Insert(1, 9),
    Change::Insert(100, 9),
    Change::RangesInsert(1, 1, 9),
    Change::RangesInsert(1, 200, 9),
    Change::RangesInsert(255, 255, 1),
    Change::Remove(1),
    Change::RangesRemove(1, 100),
    Change::PopFirst,
    Change::PopLast,
    Change::SplitOff(1),
];

/// Returns the map with the given number of ranges of two keys each, starting at 0.
fn map_of<'a>(heap: &'a Heap, ranges: u8) -> Result<HeapMap<'a>, AllocError> {
    let mut map = RangeMapBlaze::new(heap);
    for number in 0..ranges {
        let first = number.saturating_mul(2);
        map.ranges_insert(first..=first.saturating_add(1), number % 2 + 1)?;
    }
    Ok(map)
}

/// Whether the map is the one that `map_of` returns.
fn is_unchanged(map: &HeapMap<'_>, ranges: u8) -> bool {
    for number in 0..ranges {
        let first = number.saturating_mul(2);
        let value = number % 2 + 1;
        if map.get(first).copied() != Some(value)
            || map.get(first.saturating_add(1)).copied() != Some(value)
        {
            return false;
        }
    }
    map.ranges_len() == usize::from(ranges)
}

/// Whether a change leaves the map unchanged each time that an allocation fails, until it succeeds.
fn is_left(heap: &Heap, change: Change, ranges: u8) -> Result<bool, AllocError> {
    for granted in 0..20usize {
        heap.fail_never();
        let mut map = map_of(heap, ranges)?;
        heap.fail_after(granted);
        let told = carry_out(change, &mut map);
        heap.fail_never();
        if told.is_ok() {
            return Ok(true);
        }
        if !is_unchanged(&map, ranges) {
            return Ok(false);
        }
    }
    Ok(false)
}

#[test]
fn a_failed_allocation_leaves_the_map(rt: HostRuntime) -> Result<(), Fail> {
    let heap = Counting::new(rt.alloc());
    for ranges in [0, 1, 3, 100] {
        for change in CHANGES {
            assert!(rt; is_left(&heap, change, ranges)?, "{ranges} ranges");
        }
    }
    assert!(rt; heap.bytes() == 0);
    Ok(())
}
