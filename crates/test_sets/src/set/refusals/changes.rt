//! Calls that change a set.

use crate::set::calls::{Answer, Change, carry_out};
use crate::set::cells::{Cell, Side, agree, mark_front, reckon, runs, spaced};
use std::alloc::{AllocError, Global};
use std::test::*;
use test_support::{Counting, Heap, HeapSet, set_in};

/// The change that is tried first.
const FIRST: Change = Change::Insert(6);

/// Returns the change that is tried after another, or `None` after the last.
fn after(change: Change) -> Option<Change> {
    let next = match change {
        Change::Insert(_) => Change::Replace(6),
        Change::Replace(_) => Change::RangesInsert(4, 6),
        Change::RangesInsert(4, _) => Change::RangesInsert(1, 815),
        Change::RangesInsert(1, _) => Change::RangesInsert(-8, 815),
        Change::RangesInsert(_, _) => Change::Remove(1),
        Change::Remove(_) => Change::Take(1),
        Change::Take(_) => Change::RangesRemove(1, 1),
        Change::RangesRemove(1, _) => Change::RangesRemove(2, 8),
        Change::RangesRemove(2, _) => Change::RangesRemove(-8, 815),
        Change::RangesRemove(_, _) => Change::PopFirst,
        Change::PopFirst => Change::PopLast,
        Change::PopLast => Change::SplitOff(1),
        Change::SplitOff(_) => Change::Retain(2, 1),
        Change::Retain(_, _) => Change::RangesRetain(16, 0),
        Change::RangesRetain(_, _) => Change::Clear,
        Change::Clear => Change::ExtendValues(4, 800),
        Change::ExtendValues(_, _) => Change::StdExtendValues(4, 800),
        Change::StdExtendValues(_, _) => Change::Extend,
        Change::Extend => Change::StdExtend,
        Change::StdExtend => Change::LentExtendValues(4, 800),
        Change::LentExtendValues(_, _) => Change::LentExtend,
        Change::LentExtend => Change::Append,
        Change::Append => Change::BitorAssign,
        Change::BitorAssign => Change::BitorAssignOwned,
        Change::BitorAssignOwned => Change::BitandAssign,
        Change::BitandAssign => Change::SubAssign,
        Change::SubAssign => Change::BitxorAssign,
        Change::BitxorAssign => return None,
    };
    Some(next)
}

/// Whether a change allocates at one of its places at least, if the set has `count` runs and the
/// other set has `others`. A leaf of the map has room for fifteen runs. So an insertion beside one
/// or three runs does not allocate, nor does a removal from them.
fn wants(change: Change, count: i32, others: i32) -> bool {
    match change {
        Change::Insert(_) | Change::Replace(_) | Change::RangesInsert(4, _) => {
            count == 0 || count >= 15
        }
        // A run reaches the start of the new one, so only its end is moved.
        Change::RangesInsert(1, _) => count == 0,
        Change::RangesInsert(_, _) => count == 0 || count == 15,
        Change::Remove(_) | Change::Take(_) | Change::PopFirst => count >= 15,
        // The call removes a value within a run, or the end of one run and the start of the next.
        Change::RangesRemove(1 | 2, _) => count >= 15,
        Change::RangesRemove(_, _) => false,
        Change::SplitOff(_) | Change::Retain(_, _) => count > 0,
        Change::PopLast | Change::RangesRetain(_, _) | Change::Clear => false,
        Change::ExtendValues(_, _)
        | Change::StdExtendValues(_, _)
        | Change::LentExtendValues(_, _) => true,
        // The list of the ranges is allocated.
        Change::LentExtend => others > 0,
        Change::Extend | Change::StdExtend => grows(count, others),
        Change::Append | Change::BitorAssign => grows(count, others) || is_anew(count, others),
        // The runs of the smaller set are added to the larger one.
        Change::BitorAssignOwned => {
            let (few, more) = (count.min(others), count.max(others));
            few > 0 && grows(more, few) || is_anew(count, others)
        }
        // The two sets have no common member.
        Change::BitandAssign => false,
        Change::SubAssign => count > 0 && others > 0,
        Change::BitxorAssign => others > 0,
    }
}

/// Whether `others` more runs need another leaf of the map.
fn grows(count: i32, others: i32) -> bool {
    others > 0 && (count == 0 || count == 15 || others == 100)
}

/// Whether the runs are so many, compared with the others, that one new set is made from both sets.
fn is_anew(count: i32, others: i32) -> bool {
    count == 3 && others == 3
}

/// Returns what a change returns if the heap grants the given number of allocations, or `None` if
/// the change fails.
pub(crate) fn tried<'a>(
    heap: &'a Heap,
    granted: usize,
    change: Change,
    set: &mut HeapSet<'a>,
    other: &mut HeapSet<'a>,
) -> Option<Answer> {
    heap.fail_after(granted);
    let told = carry_out(heap, change, set, other);
    heap.fail_never();
    told.ok()
}

/// Whether two sets are what a failed change leaves. The first has a prefix of what was to be
/// added, and the other is unchanged. A set that was passed by value is first made again.
fn are_left<'a>(
    alloc: Global,
    heap: &'a Heap,
    change: Change,
    set: &HeapSet<'a>,
    other: &mut HeapSet<'a>,
    cells: &mut Vec<Cell>,
) -> Result<bool, AllocError> {
    if change.adds() {
        mark_front(change, set, cells);
    }
    if matches!(change, Change::BitorAssignOwned) {
        *other = set_in(heap, &runs(alloc, cells, Side::Other)?)?;
    }
    agree(alloc, set, other, cells)
}

/// Whether a change that passed returned what it should, and left two sets as it should.
fn is_passed<'a>(
    alloc: Global,
    change: Change,
    answer: Answer,
    set: &HeapSet<'a>,
    other: &HeapSet<'a>,
    cells: &mut Vec<Cell>,
) -> Result<bool, AllocError> {
    Ok(answer.is(reckon(alloc, change, cells)?) && agree(alloc, set, other, cells)?)
}

/// Whether a change that fails leaves as many bytes allocated as before. One that adds may leave a
/// prefix, and a split may leave the runs in two leaves that were in one.
fn leaves_bytes(change: Change) -> bool {
    !change.adds() && !matches!(change, Change::SplitOff(_))
}

/// Returns how many tries of a change fail before one passes. Each try is granted one allocation
/// more than the one before it. Returns `None` if a failed try leaves anything wrong or keeps
/// memory that it should not, or if the try that passes is wrong.
fn refusals<'a>(
    alloc: Global,
    heap: &'a Heap,
    change: Change,
    set: &mut HeapSet<'a>,
    other: &mut HeapSet<'a>,
    cells: &mut Vec<Cell>,
) -> Result<Option<u32>, AllocError> {
    for step in 0..150u32 {
        let bytes = heap.bytes();
        if let Some(answer) = tried(heap, step as usize, change, set, other) {
            let is_right = is_passed(alloc, change, answer, set, other, cells)?;
            return Ok(is_right.then_some(step));
        }
        if leaves_bytes(change) && heap.bytes() != bytes {
            return Ok(None);
        }
        if !are_left(alloc, heap, change, set, other, cells)? {
            return Ok(None);
        }
    }
    Ok(None)
}

/// Returns at how many places a change of a set of `count` runs is tried. These are each run and
/// one place past the last, but only one place for a change of all runs. A pop is tried at each
/// value.
fn places(change: Change, count: i32) -> i32 {
    match change {
        Change::PopFirst | Change::PopLast => count.saturating_mul(3).saturating_add(1),
        Change::RangesInsert(_, 815) | Change::RangesRemove(_, 815) => 1,
        _ if change.takes_other() => 1,
        _ => count.saturating_add(1),
    }
}

/// Returns whether some tries of a change of two sets fail, at the given number of places, eight
/// apart, starting with the last. Returns `None` if a try leaves anything wrong.
fn is_refused_somewhere<'a>(
    alloc: Global,
    heap: &'a Heap,
    change: Change,
    places: i32,
    set: &mut HeapSet<'a>,
    other: &mut HeapSet<'a>,
    cells: &mut Vec<Cell>,
) -> Result<Option<bool>, AllocError> {
    let mut is_refused = false;
    for place in 0..places {
        let moved = change.moved(places.saturating_sub(place + 1).saturating_mul(8));
        match refusals(alloc, heap, moved, set, other, cells)? {
            Some(times) => is_refused = is_refused || times > 0,
            None => return Ok(None),
        }
    }
    Ok(Some(is_refused))
}

/// Returns the set of one side of these cells, in a heap.
fn set_of_side<'a>(
    alloc: Global,
    heap: &'a Heap,
    cells: &[Cell],
    side: Side,
) -> Result<HeapSet<'a>, AllocError> {
    set_in(heap, &runs(alloc, cells, side)?)
}

/// Returns whether some tries of a change of the sets of these cells fail. Returns `None` if a try
/// leaves anything wrong.
fn is_refused(
    alloc: Global,
    heap: &Heap,
    change: Change,
    places: i32,
    cells: &mut Vec<Cell>,
) -> Result<Option<bool>, AllocError> {
    let mut set = set_of_side(alloc, heap, cells, Side::One)?;
    let mut other = set_of_side(alloc, heap, cells, Side::Other)?;
    is_refused_somewhere(alloc, heap, change, places, &mut set, &mut other, cells)
}

/// Whether a change fails as often as it should, and no memory is kept once the sets are dropped.
fn is_right(alloc: Global, change: Change, count: i32, others: i32) -> Result<bool, AllocError> {
    let heap = Counting::new(alloc);
    let mut cells = spaced(alloc, count, others)?;
    let places = places(change, count);
    let refused = is_refused(alloc, &heap, change, places, &mut cells)?;
    Ok(refused == Some(wants(change, count, others)) && heap.bytes() == 0)
}

/// Returns the place of the first change that does not fail as it should, if there is one. It tries
/// the changes that take another set, and also all others if that set is empty.
fn first_wrong(alloc: Global, count: i32, others: i32) -> Option<u8> {
    let mut next = Some(FIRST);
    for place in 0..u8::MAX {
        let change = next?;
        let is_tried = others == 0 || change.takes_other();
        if is_tried && is_right(alloc, change, count, others) != Ok(true) {
            return Some(place);
        }
        next = after(change);
    }
    Some(u8::MAX)
}

#[test]
fn each_allocation_of_a_change_fails_in_turn(rt: HostRuntime) {
    for count in [0, 1, 3, 15, 100] {
        for others in [0, 1, 3, 100] {
            let wrong = first_wrong(rt.alloc(), count, others);
            assert!(rt;
                wrong.is_none(),
                "the change at {wrong:?}, {count} runs, {others}"
            );
        }
    }
}
