//! Several thousand changes of two sets, drawn from a fixed seed, beside one cell for each value.

use crate::set::calls::{Answer, Change, carry_out};
use crate::set::cells::{Cell, agree, cells, reckon};
use range_set_blaze::RangeSetBlaze;
use std::alloc::{AllocError, Global};
use std::mem;
use std::test::*;

/// Returns a change at the values starting at `first`.
fn drawn_change(first: i32, drawn: u32) -> Change {
    let [_, more, place, kind] = drawn.to_le_bytes();
    let value = first.saturating_add(i32::from(place));
    let other = first.saturating_add(i32::from(more));
    let near = value
        .saturating_add(i32::from(more / 8))
        .min(first.saturating_add(255));
    let rest = i32::from(place % 3);
    let changes = [
        Change::Insert(value),
        Change::Replace(value),
        Change::RangesInsert(value, other),
        Change::RangesInsert(value, near),
        Change::RangesInsert(value, near),
        Change::RangesInsert(value, near),
        Change::RangesInsert(value, near),
        Change::RangesInsert(value, near),
        Change::Remove(value),
        Change::Take(value),
        Change::PopFirst,
        Change::PopLast,
        Change::SplitOff(value),
        Change::Retain(i32::from(2 + more % 8), rest),
        Change::RangesRetain(i32::from(2 + more % 4), rest),
        if more < 40 {
            Change::Clear
        } else {
            Change::Remove(other)
        },
        Change::Extend,
        Change::ExtendValues(value, near),
        Change::Append,
        Change::BitorAssign,
        Change::BitorAssignOwned,
    ];
    changes[usize::from(kind) % 21]
}

/// Exchanges the two sets that the cells describe.
fn exchange(cells: &mut Vec<Cell>) {
    for cell in cells.iter_mut() {
        let is_member = cell.is_member;
        cell.is_member = cell.is_other;
        cell.is_other = is_member;
    }
}

/// Changes cells, and returns whether they give this result.
fn is_told(
    alloc: Global,
    change: Change,
    told: Answer,
    cells: &mut Vec<Cell>,
) -> Result<bool, AllocError> {
    Ok(reckon(alloc, change, cells)?.is(told))
}

/// Changes two sets and the cells that describe them, and returns whether the result and the sets
/// match the cells.
fn turns(
    alloc: Global,
    change: Change,
    set: &mut RangeSetBlaze<i32>,
    other: &mut RangeSetBlaze<i32>,
    cells: &mut Vec<Cell>,
) -> Result<bool, AllocError> {
    let told = carry_out(alloc, change, set, other)?;
    Ok(is_told(alloc, change, told, cells)? && agree(alloc, set, other, cells)?)
}

/// Returns the first of several thousand steps at which the result or a set does not match the
/// cells. At every ninth step the sets are exchanged.
fn first_wrong(alloc: Global, first: i32) -> Result<Option<u16>, AllocError> {
    let mut cells = cells(alloc, first, 256)?;
    let mut set = RangeSetBlaze::new(alloc);
    let mut other = RangeSetBlaze::new(alloc);
    let mut drawn = 20240229u32;
    for turn in 0..6000u16 {
        drawn = drawn.wrapping_mul(1664525).wrapping_add(1013904223);
        let change = drawn_change(first, drawn);
        if !turns(alloc, change, &mut set, &mut other, &mut cells)? {
            return Ok(Some(turn));
        }
        if turn % 9 == 8 {
            mem::swap(&mut set, &mut other);
            exchange(&mut cells);
        }
    }
    Ok(None)
}

#[test]
fn thousands_of_changes_leave_what_cells_tell(rt: HostRuntime) -> Result<(), Fail> {
    for first in [i32::MIN, -100, i32::MAX - 255] {
        let wrong = first_wrong(rt.alloc(), first)?;
        assert!(rt; wrong.is_none(), "turn {wrong:?}, from {first} on");
    }
    Ok(())
}
