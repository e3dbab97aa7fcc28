//! The results of changes and makings, computed without sets from a flag for each value.

use crate::set::calls::{Answer, Change, Making, is_kept};
use range_set_blaze::RangeSetBlaze;
use std::alloc::{AllocError, Allocator, Global};
use test_support::{Table, has, values_in};

/// Values that are all in a set or all outside it, with a flag for each of two sets.
#[derive(Clone, Copy)]
pub(crate) struct Cell {
    pub(crate) start: i32,
    pub(crate) end: i32,
    pub(crate) is_member: bool,
    pub(crate) is_other: bool,
}

/// One of the two sets that cells describe.
#[derive(Clone, Copy, PartialEq)]
pub(crate) enum Side {
    One,
    Other,
}

/// Returns a cell for each of the given number of values starting at `first`, and one cell each for
/// all values below and above. No value is a member of either set.
pub(crate) fn cells(alloc: Global, first: i32, count: i32) -> Result<Vec<Cell>, AllocError> {
    let mut cells = Vec::new(alloc);
    let last = first.saturating_add(count).saturating_sub(1);
    if let Some(below) = first.checked_sub(1) {
        cells.push(empty_cell(i32::MIN, below))?;
    }
    for value in first..=last {
        cells.push(empty_cell(value, value))?;
    }
    if let Some(above) = last.checked_add(1) {
        cells.push(empty_cell(above, i32::MAX))?;
    }
    Ok(cells)
}

/// Returns a cell that is in no set.
fn empty_cell(start: i32, end: i32) -> Cell {
    Cell {
        start,
        end,
        is_member: false,
        is_other: false,
    }
}

/// Returns the cells of two sets. The first has `count` runs of three values, whose starts are 8
/// apart, starting at 0. The other has `others` runs of two values, whose starts are 8 apart,
/// starting at 4.
pub(crate) fn spaced(alloc: Global, count: i32, others: i32) -> Result<Vec<Cell>, AllocError> {
    let mut cells = cells(alloc, -8, 824)?;
    for cell in cells.iter_mut() {
        let (place, rest) = (cell.start / 8, cell.start % 8);
        cell.is_member = cell.start >= 0 && place < count && rest < 3;
        cell.is_other = cell.start >= 0 && place < others && (rest == 4 || rest == 5);
    }
    Ok(cells)
}

/// Returns the runs of one of the two sets.
pub(crate) fn runs(
    alloc: Global,
    cells: &[Cell],
    side: Side,
) -> Result<Vec<(i32, i32)>, AllocError> {
    let mut runs = Vec::new(alloc);
    let mut run: Option<(i32, i32)> = None;
    for cell in cells {
        if side == Side::One && cell.is_member || side == Side::Other && cell.is_other {
            let start = run.map_or(cell.start, |ends| ends.0);
            run = Some((start, cell.end));
        } else if let Some(ends) = run {
            runs.push(ends)?;
            run = None;
        }
    }
    if let Some(ends) = run {
        runs.push(ends)?;
    }
    Ok(runs)
}

/// Whether the value of a cell is one of every fourth from `start` to `end`.
fn is_fourth(cell: &Cell, start: i32, end: i32) -> bool {
    start <= cell.start && cell.end <= end && cell.start.abs_diff(start) % 4 == 0
}

/// Whether a change adds the values of a cell.
fn is_added(change: Change, cell: &Cell) -> bool {
    match change {
        Change::ExtendValues(start, end) => is_fourth(cell, start, end),
        Change::StdExtendValues(start, end) => is_fourth(cell, start, end),
        Change::LentExtendValues(start, end) => is_fourth(cell, start, end),
        _ => cell.is_other,
    }
}

/// Whether a change is about the values of a cell. The first and last members of the set are given,
/// and the start of the run at the cell.
fn is_meant(change: Change, cell: &Cell, first: i32, last: i32, begin: i32) -> bool {
    match change {
        Change::Insert(value) => cell.start == value,
        Change::Replace(value) => cell.start == value,
        Change::RangesInsert(start, end) => start <= cell.start && cell.end <= end,
        Change::Remove(value) => cell.start == value,
        Change::Take(value) => cell.start == value,
        Change::RangesRemove(start, end) => start <= cell.start && cell.end <= end,
        Change::PopFirst => cell.start == first,
        Change::PopLast => cell.end == last,
        Change::SplitOff(key) => key <= cell.start,
        Change::Retain(divisor, rest) => !is_kept(cell.start, divisor, rest),
        Change::RangesRetain(divisor, rest) => !is_kept(begin, divisor, rest),
        Change::Clear => true,
        Change::Extend
        | Change::ExtendValues(_, _)
        | Change::Append
        | Change::BitorAssign
        | Change::BitorAssignOwned
        | Change::StdExtend
        | Change::StdExtendValues(_, _)
        | Change::LentExtend
        | Change::LentExtendValues(_, _) => is_added(change, cell),
        Change::BitandAssign => !cell.is_other,
        Change::SubAssign | Change::BitxorAssign => cell.is_other,
    }
}

/// Whether a change inserts the values that it is about, rather than removing them.
fn puts(change: Change) -> bool {
    let is_put = matches!(
        change,
        Change::Insert(_) | Change::Replace(_) | Change::RangesInsert(_, _)
    );
    is_put || change.adds()
}

/// Whether the values of a cell are in the set after a change. The first and last members of the
/// set are given, and the start of the run at the cell.
fn is_member_after(change: Change, cell: Cell, first: i32, last: i32, begin: i32) -> bool {
    let is_meant = is_meant(change, &cell, first, last, begin);
    if matches!(change, Change::BitxorAssign) {
        cell.is_member != is_meant
    } else if puts(change) {
        cell.is_member || is_meant
    } else {
        cell.is_member && !is_meant
    }
}

/// Whether the values of a cell are in the other set after a change.
fn is_other_after(change: Change, cell: Cell) -> bool {
    match change {
        Change::SplitOff(key) => cell.is_member && key <= cell.start,
        Change::Append | Change::BitorAssignOwned => false,
        _ => cell.is_other,
    }
}

/// Returns what a change returns if the set has these runs before and after it.
fn answer(change: Change, before: Table<'_>, after: Table<'_>) -> Answer {
    let members = values_in(before);
    let is_same = values_in(after) == members;
    match change {
        Change::Insert(_) | Change::RangesInsert(_, _) | Change::Remove(_) => Answer::Truth(
            !is_same,
        ),
        Change::RangesRemove(_, _) => Answer::Truth(!is_same),
        Change::Replace(value) => Answer::Value(is_same.then_some(value)),
        Change::Take(value) => Answer::Value((!is_same).then_some(value)),
        Change::PopFirst => Answer::Value(before.first().map(|ends| ends.0)),
        Change::PopLast => Answer::Value(before.last().map(|ends| ends.1)),
        Change::Retain(_, _) => Answer::Asked(members),
        Change::RangesRetain(_, _) => Answer::Asked(before.len() as u64),
        _ => Answer::Nothing,
    }
}

/// Changes cells by one of the calls, and returns what the call returns.
pub(crate) fn reckon(
    alloc: Global,
    change: Change,
    cells: &mut Vec<Cell>,
) -> Result<Answer, AllocError> {
    let before = runs(alloc, cells, Side::One)?;
    let first = before.first().map_or(0, |ends| ends.0);
    let last = before.last().map_or(0, |ends| ends.1);
    let mut begin = None;
    for cell in cells.iter_mut() {
        begin = match begin {
            _ if !cell.is_member => None,
            None => Some(cell.start),
            found => found,
        };
        let is_other = is_other_after(change, *cell);
        cell.is_member = is_member_after(change, *cell, first, last, begin.unwrap_or(0));
        cell.is_other = is_other;
    }
    let after = runs(alloc, cells, Side::One)?;
    Ok(answer(change, &before, &after))
}

/// Whether the values of a cell are in the set that a making makes.
fn selects(making: Making, cell: &Cell) -> bool {
    let (one, other) = (cell.is_member, cell.is_other);
    match making {
        Making::Bitor
        | Making::FromIter
        | Making::StdBitor
        | Making::Collect
        | Making::CollectLent => one || other,
        Making::Bitand | Making::StdBitand => one && other,
        Making::Sub | Making::StdSub => one && !other,
        Making::Bitxor | Making::StdBitxor => one != other,
        Making::Not | Making::StdNot => !one,
        Making::FromIterValues(start, end) => is_fourth(cell, start, end),
        Making::CollectValues(start, end) => is_fourth(cell, start, end),
        Making::CollectLentValues(start, end) => is_fourth(cell, start, end),
        Making::FromArray | Making::Parse => matches!(cell.start, 1 | 4 | 7 | 9),
        Making::From(start, end) => start <= cell.start && cell.end <= end,
        Making::Universe => true,
        Making::Clone
        | Making::FromSortedDisjoint
        | Making::IntoRangeSetBlaze
        | Making::StdClone
        | Making::Taken => one,
    }
}

/// Returns the runs of the set that a making makes from the sets that cells describe.
pub(crate) fn runs_made(
    alloc: Global,
    making: Making,
    cells: &[Cell],
) -> Result<Vec<(i32, i32)>, AllocError> {
    let mut made = Vec::new(alloc);
    for cell in cells {
        let mut cell = *cell;
        cell.is_member = selects(making, &cell);
        made.push(cell)?;
    }
    runs(alloc, &made, Side::One)
}

/// Whether two sets are those that cells describe.
pub(crate) fn agree<A: Allocator>(
    alloc: Global,
    set: &RangeSetBlaze<i32, A>,
    other: &RangeSetBlaze<i32, A>,
    cells: &[Cell],
) -> Result<bool, AllocError> {
    let one = runs(alloc, cells, Side::One)?;
    let others = runs(alloc, cells, Side::Other)?;
    Ok(has(set, &one) && has(other, &others))
}

/// Marks as members the cells that a change adds and the set contains, up to the first that it
/// lacks.
pub(crate) fn mark_front<A: Allocator>(
    change: Change,
    set: &RangeSetBlaze<i32, A>,
    cells: &mut Vec<Cell>,
) {
    let mut is_front = true;
    for cell in cells.iter_mut() {
        let is_added = is_added(change, cell);
        is_front = is_front && (!is_added || set.contains(cell.start));
        cell.is_member = cell.is_member || is_added && is_front;
    }
}
