//! Calls that take or make many ranges. Each of their allocations fails in turn. A change that fails
//! leaves what it says, and can be repeated. A call that makes something leaves the map. Nothing
//! leaks.

use crate::rows::{Row, has_rows};
use range_map_blaze::{RangeMapBlaze, RangeValues};
use range_set_blaze::RangeSetBlaze;
use std::alloc::{AllocError, Global};
use std::test::*;
use test_support::{Counting, Heap};

/// A map in a heap that can fail.
type HeapMap<'a> = RangeMapBlaze<u8, u8, &'a Heap>;

/// A change of a map by pairs, by another map, by a set or by a closure.
#[derive(Clone, Copy)]
enum Call {
    Extend,
    ExtendKeys,
    Append,
    PutSet,
    RemoveSet,
    KeepSet,
    Retain,
    RangesRetain,
}

/// A call that makes a map, or a set, of which a map is made.
#[derive(Clone, Copy)]
enum Maker {
    Clone,
    FromSet,
    FromIter,
    FromIterKeys,
    FromArray,
    FromArrayKeys,
    ComplementWith,
    DifferenceWithSet,
    IntersectionWithSet,
    Not,
    KeySet,
}

/// A change, and the ranges of the map after it, in two parts.
type Changed = (Call, &'static [Row], &'static [Row]);

/// The map that each call starts from.
const START: &[Row] = &[(0, 9, 1), (20, 29, 2)];

/// Thirteen more ranges of a map that is changed. Then one more range needs an allocation.
const REST: &[Row] = &[
    (100, 100, 9),
    (102, 102, 9),
    (104, 104, 9),
    (106, 106, 9),
    (108, 108, 9),
    (110, 110, 9),
    (112, 112, 9),
    (114, 114, 9),
    (116, 116, 9),
    (118, 118, 9),
    (120, 120, 9),
    (122, 122, 9),
    (124, 124, 9),
];

/// The map that is appended.
const OTHER: &[Row] = &[(9, 20, 4)];

/// Each change.
static CALLS: [Changed; 8] = [
    (
        Call::Extend,
        &[(0, 4, 1), (5, 6, 3), (7, 21, 1), (22, 31, 2)],
        REST,
    ),
    (
        Call::ExtendKeys,
        &[(0, 4, 1), (5, 5, 3), (6, 10, 1), (20, 30, 2)],
        REST,
    ),
    (Call::Append, &[(0, 8, 1), (9, 20, 4), (21, 29, 2)], REST),
    (Call::PutSet, &[(0, 4, 1), (5, 24, 7), (25, 29, 2)], REST),
    (Call::RemoveSet, &[(0, 4, 1), (25, 29, 2)], REST),
    (Call::KeepSet, &[(5, 9, 1), (20, 24, 2)], &[]),
    (Call::Retain, &[(6, 9, 1), (20, 29, 2)], REST),
    (Call::RangesRetain, &[(20, 29, 2)], &[]),
];

/// Each call that makes something, and the ranges of the map that is made.
static MAKERS: [(Maker, &[Row]); 11] = [
    (Maker::Clone, START),
    (Maker::FromSet, &[(5, 24, 7)]),
    (Maker::FromIter, &[(5, 6, 3), (8, 21, 1), (30, 31, 2)]),
    (Maker::FromIterKeys, &[(5, 5, 3), (10, 11, 1)]),
    (Maker::FromArray, &[(5, 6, 3), (7, 21, 1)]),
    (Maker::FromArrayKeys, &[(5, 6, 3), (30, 30, 2)]),
    (Maker::ComplementWith, &[(10, 19, 9), (30, 255, 9)]),
    (Maker::DifferenceWithSet, &[(0, 4, 1), (25, 29, 2)]),
    (Maker::IntersectionWithSet, &[(5, 9, 1), (20, 24, 2)]),
    (Maker::Not, &[(10, 19, 8), (30, 255, 8)]),
    (Maker::KeySet, &[(0, 9, 8), (20, 29, 8)]),
];

/// Changes a map.
fn change<'a>(
    call: Call,
    map: &mut HeapMap<'a>,
    other: &mut HeapMap<'a>,
    set: &RangeSetBlaze<u8>,
) -> Result<(), AllocError> {
    let heap = *map.allocator();
    match call {
        Call::Extend => map.extend(vec![in heap; (5..=6u8, 3u8), (30..=31, 2), (8..=21, 1)]?),
        Call::ExtendKeys => map.extend_keys(vec![in heap; (5u8, 3u8), (10, 1), (30, 2)]?),
        Call::Append => map.append(other),
        Call::PutSet => map.put_set(set, &7),
        Call::RemoveSet => map.remove_set(set),
        Call::KeepSet => map.keep_set(set),
        Call::Retain => map.retain(|key, _| *key > 5),
        Call::RangesRetain => map.ranges_retain(|_, value| *value == 2),
    }
}

/// Returns the map that a call makes of pairs or of a set.
fn made_of_pairs<'a>(
    maker: Maker,
    heap: &'a Heap,
    set: &RangeSetBlaze<u8>,
) -> Result<HeapMap<'a>, AllocError> {
    match maker {
        Maker::FromSet => RangeMapBlaze::from_set(heap, set, &7),
        Maker::FromIter => {
            let pairs = vec![in heap; (5..=6u8, 3u8), (30..=31, 2), (8..=21, 1)]?;
            RangeMapBlaze::from_iter(heap, pairs)
        }
        Maker::FromIterKeys => {
            let pairs = vec![in heap; (5u8, 3u8), (10, 1), (11, 1)]?;
            RangeMapBlaze::from_iter_keys(heap, pairs)
        }
        Maker::FromArray => RangeMapBlaze::from_array(heap, [(5..=6u8, 3u8), (7..=21, 1)]),
        _ => RangeMapBlaze::from_array_keys(heap, [(5u8, 3u8), (30, 2), (6, 3)]),
    }
}

/// Returns the map that a call makes of a map. If it makes a set, its members get the value 8.
fn made_of_map<'a>(
    maker: Maker,
    map: &HeapMap<'a>,
    set: &RangeSetBlaze<u8>,
) -> Result<HeapMap<'a>, AllocError> {
    let heap = *map.allocator();
    match maker {
        Maker::Clone => map.clone(),
        Maker::ComplementWith => map.complement_with(&9),
        Maker::DifferenceWithSet => map.clone()?.difference_with_set(set),
        Maker::IntersectionWithSet => map.clone()?.intersection_with_set(set),
        Maker::Not => RangeMapBlaze::from_set(heap, &(!map)?, &8),
        _ => RangeMapBlaze::from_set(heap, &map.key_set(heap)?, &8),
    }
}

/// Returns the map that a call makes.
fn make<'a>(
    maker: Maker,
    map: &HeapMap<'a>,
    set: &RangeSetBlaze<u8>,
) -> Result<HeapMap<'a>, AllocError> {
    match maker {
        Maker::FromSet
        | Maker::FromIter
        | Maker::FromIterKeys
        | Maker::FromArray
        | Maker::FromArrayKeys => made_of_pairs(maker, *map.allocator(), set),
        _ => made_of_map(maker, map, set),
    }
}

/// Puts rows into a map.
fn put_rows(map: &mut HeapMap<'_>, rows: &[Row]) -> Result<(), AllocError> {
    for (first, last, value) in rows {
        map.ranges_insert(*first..=*last, *value)?;
    }
    Ok(())
}

/// Returns the map of the rows, in a heap.
fn in_heap<'a>(heap: &'a Heap, rows: &[Row]) -> Result<HeapMap<'a>, AllocError> {
    let mut map = RangeMapBlaze::new(heap);
    put_rows(&mut map, rows)?;
    Ok(map)
}

/// Whether the next ranges of a map are these.
fn come_next(ranges: &mut RangeValues<'_, u8, u8>, rows: &[Row]) -> bool {
    for (first, last, value) in rows {
        match ranges.next() {
            Some((range, found))
                if *range.start() == *first && *range.end() == *last && *found == *value => {}
            _ => return false,
        }
    }
    true
}

/// Whether a map has the ranges of both parts.
fn has_both(map: &HeapMap<'_>, rows: &[Row], rest: &[Row]) -> bool {
    let mut ranges = map.range_values();
    come_next(&mut ranges, rows) && come_next(&mut ranges, rest) && ranges.next().is_none()
}

/// Returns the value of a key in rows, or 0 if it has none.
fn value_in(rows: &[Row], key: u8) -> u8 {
    for (first, last, value) in rows {
        if *first <= key && key <= *last {
            return *value;
        }
    }
    0
}

/// Whether each key has the value that it has at the start, or in the rows of both parts.
fn is_between(map: &HeapMap<'_>, rows: &[Row], rest: &[Row]) -> bool {
    for key in 0..=255u8 {
        let value = map.get(key).copied().unwrap_or(0);
        let before = value_in(START, key).max(value_in(REST, key));
        let after = value_in(rows, key).max(value_in(rest, key));
        if value != before && value != after {
            return false;
        }
    }
    true
}

/// Whether a failed change has left what it says: the map unchanged, or partly changed.
fn is_left(changed: &Changed, map: &HeapMap<'_>, other: &HeapMap<'_>) -> bool {
    let (call, rows, rest) = changed;
    let is_kept = match call {
        Call::Retain | Call::RangesRetain => has_both(map, START, REST),
        _ => is_between(map, rows, rest),
    };
    is_kept && has_rows(other, OTHER)
}

/// Whether a change that fails, at each of its allocations, leaves what it says and can be repeated.
fn is_repeatable(
    heap: &Heap,
    changed: &Changed,
    set: &RangeSetBlaze<u8>,
) -> Result<bool, AllocError> {
    let (call, rows, rest) = changed;
    for granted in 0..60usize {
        heap.fail_never();
        let mut map = in_heap(heap, START)?;
        put_rows(&mut map, REST)?;
        let mut other = in_heap(heap, OTHER)?;
        heap.fail_after(granted);
        let told = change(*call, &mut map, &mut other, set);
        heap.fail_never();
        if told.is_ok() {
            return Ok(granted > 0 && has_both(&map, rows, rest));
        }
        let is_partly = is_left(changed, &map, &other);
        change(*call, &mut map, &mut other, set)?;
        if !is_partly || !has_both(&map, rows, rest) {
            return Ok(false);
        }
    }
    Ok(false)
}

/// Whether a call that makes something fails at each of its allocations, leaves the map each time,
/// and then makes it.
fn is_made(
    heap: &Heap,
    maker: Maker,
    set: &RangeSetBlaze<u8>,
    rows: &[Row],
) -> Result<bool, AllocError> {
    heap.fail_never();
    let map = in_heap(heap, START)?;
    for granted in 0..60usize {
        heap.fail_after(granted);
        let told = make(maker, &map, set);
        heap.fail_never();
        if !has_rows(&map, START) {
            return Ok(false);
        }
        if let Ok(made) = told {
            return Ok(granted > 0 && has_rows(&made, rows));
        }
    }
    Ok(false)
}

#[test]
fn failed_changes_can_be_repeated(rt: HostRuntime) -> Result<(), Fail> {
    let heap = Counting::new(rt.alloc());
    let set = RangeSetBlaze::from(rt.alloc(), 5..=24u8)?;
    for (row, changed) in CALLS.iter().enumerate() {
        assert!(rt; is_repeatable(&heap, changed, &set)?, "row {row}");
    }
    assert!(rt; heap.bytes() == 0);
    Ok(())
}

#[test]
fn failed_makers_leave_the_map(rt: HostRuntime) -> Result<(), Fail> {
    let heap = Counting::new(rt.alloc());
    let set = RangeSetBlaze::from(rt.alloc(), 5..=24u8)?;
    for (row, (maker, rows)) in MAKERS.iter().enumerate() {
        assert!(rt; is_made(&heap, *maker, &set, rows)?, "row {row}");
    }
    assert!(rt; heap.bytes() == 0);
    Ok(())
}
