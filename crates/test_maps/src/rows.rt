//! Rows worked by hand: changes of a map, one after the other, and the ranges that they leave.

use crate::changes::{Change, carry_out};
use range_map_blaze::RangeMapBlaze;
use std::alloc::{AllocError, Allocator, Global};
use std::test::*;

/// A range and its value.
pub(crate) type Row = (u8, u8, u8);

/// Each change, and the ranges that the map has after it.
static ROWS: [(Change, &[Row]); 18] = [
    (Change::RangesInsert(10, 19, 1), &[(10, 19, 1)]),
    (Change::RangesInsert(20, 29, 1), &[(10, 29, 1)]),
    (Change::RangesInsert(30, 39, 2), &[(10, 29, 1), (30, 39, 2)]),
    (
        Change::RangesInsert(15, 17, 3),
        &[(10, 14, 1), (15, 17, 3), (18, 29, 1), (30, 39, 2)],
    ),
    (
        Change::Insert(16, 1),
        &[
            (10, 14, 1),
            (15, 15, 3),
            (16, 16, 1),
            (17, 17, 3),
            (18, 29, 1),
            (30, 39, 2),
        ],
    ),
    (Change::RangesInsert(15, 17, 1), &[(10, 29, 1), (30, 39, 2)]),
    (
        Change::RangesInsert(25, 34, 3),
        &[(10, 24, 1), (25, 34, 3), (35, 39, 2)],
    ),
    (
        Change::Remove(12),
        &[(10, 11, 1), (13, 24, 1), (25, 34, 3), (35, 39, 2)],
    ),
    (
        Change::Insert(12, 1),
        &[(10, 24, 1), (25, 34, 3), (35, 39, 2)],
    ),
    (Change::RangesRemove(20, 36), &[(10, 19, 1), (37, 39, 2)]),
    (Change::RangesRemove(0, 9), &[(10, 19, 1), (37, 39, 2)]),
    (Change::PopFirst, &[(11, 19, 1), (37, 39, 2)]),
    (Change::PopLast, &[(11, 19, 1), (37, 38, 2)]),
    (Change::RangesInsert(20, 10, 3), &[(11, 19, 1), (37, 38, 2)]),
    (Change::RangesInsert(0, 255, 2), &[(0, 255, 2)]),
    (Change::Insert(255, 1), &[(0, 254, 2), (255, 255, 1)]),
    (Change::SplitOff(100), &[(0, 99, 2)]),
    (Change::SplitOff(0), &[]),
];

/// Whether the map has these ranges.
pub(crate) fn has_rows<A: Allocator>(map: &RangeMapBlaze<u8, u8, A>, rows: &[Row]) -> bool {
    let mut left = rows.iter();
    for (range, value) in map.range_values() {
        match left.next() {
            Some((first, last, wanted))
                if *range.start() == *first && *range.end() == *last && *value == *wanted => {}
            _ => return false,
        }
    }
    left.next().is_none()
}

/// Returns the first row that does not give its ranges.
fn first_wrong(alloc: Global) -> Result<Option<usize>, AllocError> {
    let mut map = RangeMapBlaze::new(alloc);
    for (row, (change, ranges)) in ROWS.iter().enumerate() {
        carry_out(*change, &mut map)?;
        if !has_rows(&map, ranges) {
            return Ok(Some(row));
        }
    }
    Ok(None)
}

#[test]
fn changes_leave_the_ranges_of_their_rows(rt: HostRuntime) -> Result<(), Fail> {
    let wrong = first_wrong(rt.alloc())?;
    assert!(rt; wrong.is_none(), "row {wrong:?}");
    Ok(())
}
