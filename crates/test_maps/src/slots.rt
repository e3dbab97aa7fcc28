//! Thousands of changes of a map from bytes, drawn from a fixed seed, beside one slot for each key.

use crate::changes::{Change, carry_out};
use range_map_blaze::RangeMapBlaze;
use std::alloc::{AllocError, Global};
use std::test::*;

/// Returns a drawn change. Its values are from 1 to 3.
fn drawn_change(drawn: u32) -> Change {
    let [value, last, first, kind] = drawn.to_le_bytes();
    let value = value % 3 + 1;
    let near = first.saturating_add(last / 16);
    let changes = [
        Change::Insert(first, value),
        Change::Insert(near, value),
        Change::RangesInsert(first, near, value),
        Change::RangesInsert(first, near, value),
        Change::RangesInsert(first, near, value),
        Change::RangesInsert(near, first, value),
        Change::Remove(first),
        Change::RangesRemove(first, near),
        Change::RangesRemove(first, near),
        Change::PopFirst,
        Change::PopLast,
        if last < 20 {
            Change::SplitOff(first)
        } else {
            Change::RangesInsert(first, last, value)
        },
    ];
    changes[usize::from(kind) % 12]
}

/// Writes a value, or 0 for none, to the slots of consecutive keys.
fn fill(slots: &mut Vec<u8>, first: u8, last: u8, value: u8) {
    for (key, slot) in slots.iter_mut().enumerate() {
        if usize::from(first) <= key && key <= usize::from(last) {
            *slot = value;
        }
    }
}

/// Returns the first key whose slot is not empty.
fn first_full(slots: &Vec<u8>) -> Option<u8> {
    (0..=255u8).find(|key| slots.get(usize::from(*key)).is_some_and(|slot| *slot != 0))
}

/// Returns the last key whose slot is not empty.
fn last_full(slots: &Vec<u8>) -> Option<u8> {
    (0..=255u8).rev().find(|key| slots.get(usize::from(*key)).is_some_and(|slot| *slot != 0))
}

/// Empties a slot, if there is one, and returns its value.
fn take(slots: &mut Vec<u8>, key: Option<u8>) -> u8 {
    let Some(key) = key else {
        return 0;
    };
    let value = slot_of(slots, key);
    fill(slots, key, key, 0);
    value
}

/// Returns the value in the slot of a key, or 0 for none.
fn slot_of(slots: &Vec<u8>, key: u8) -> u8 {
    slots.get(usize::from(key)).copied().unwrap_or(0)
}

/// Carries out a change on the slots, and returns the value that it returns, or 0 for none.
fn reckon(change: Change, slots: &mut Vec<u8>) -> u8 {
    match change {
        Change::Insert(key, value) => {
            let old = slot_of(slots, key);
            fill(slots, key, key, value);
            old
        }
        Change::RangesInsert(first, last, value) => {
            fill(slots, first, last, value);
            0
        }
        Change::Remove(key) => take(slots, Some(key)),
        Change::RangesRemove(first, last) => {
            fill(slots, first, last, 0);
            0
        }
        Change::PopFirst => {
            let key = first_full(slots);
            take(slots, key)
        }
        Change::PopLast => {
            let key = last_full(slots);
            take(slots, key)
        }
        Change::SplitOff(key) => {
            let found = (key..=255u8).find(|other| slot_of(slots, *other) != 0);
            let value = found.map(|other| slot_of(slots, other)).unwrap_or(0);
            fill(slots, key, 255, 0);
            value
        }
    }
}

/// Whether the map has exactly what the slots have, in ranges that are as long as possible.
fn agree(map: &RangeMapBlaze<u8, u8>, slots: &Vec<u8>) -> bool {
    let mut before = 0u8;
    let mut starts = 0usize;
    for key in 0..=255u8 {
        let slot = slot_of(slots, key);
        if map.get(key).copied().unwrap_or(0) != slot {
            return false;
        }
        if slot != 0 && slot != before {
            starts = starts.saturating_add(1);
        }
        before = slot;
    }
    starts == map.ranges_len()
}

/// Returns the first of several thousand changes after which the map does not match the slots, or
/// whose result does not.
fn first_wrong(alloc: Global) -> Result<Option<u16>, AllocError> {
    let mut slots = vec![in alloc; 0u8; 256]?;
    let mut map = RangeMapBlaze::new(alloc);
    let mut drawn = 20240229u32;
    for turn in 0..4000u16 {
        drawn = drawn.wrapping_mul(1664525).wrapping_add(1013904223);
        let change = drawn_change(drawn);
        let told = carry_out(change, &mut map)?;
        if told != reckon(change, &mut slots) || !agree(&map, &slots) {
            return Ok(Some(turn));
        }
    }
    Ok(None)
}

#[test]
fn thousands_of_changes_leave_what_slots_tell(rt: HostRuntime) -> Result<(), Fail> {
    let wrong = first_wrong(rt.alloc())?;
    assert!(rt; wrong.is_none(), "turn {wrong:?}");
    Ok(())
}
