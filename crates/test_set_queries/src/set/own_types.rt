//! Sets over user-defined element types.

use range_set_blaze::{Integer, RangeSetBlaze};
use rsb_user_types::{Side, Slot};
use std::alloc::{AllocError, Global};
use std::cmp::Ordering;
use std::test::*;
use test_support::{fills, gives, slot, slots};

/// Whether adding the upper side to a set of the lower one makes it full and greater, with an empty
/// complement.
fn is_filled(low: &RangeSetBlaze<Side>) -> Result<bool, AllocError> {
    let mut sides = low.clone()?;
    let is_new = sides.insert(Side::Hi)? && sides.ranges_len() == 1 && sides.is_universal();
    Ok(is_new && low.cmp(&sides) == Ordering::Less && sides.not()?.is_empty())
}

/// Whether two ranges, one of them reversed, add only the upper side, and the complement is the
/// lower one.
fn is_added(alloc: Global) -> Result<bool, AllocError> {
    let mut high = RangeSetBlaze::<Side>::new(alloc);
    high.extend([Side::Hi..=Side::Lo, Side::Hi..=Side::Hi])?;
    let is_high = gives(high.ranges(), &[(Side::Hi, Side::Hi)]);
    Ok(is_high && gives(high.not()?.ranges(), &[(Side::Lo, Side::Lo)]))
}

#[test]
fn two_sides_are_filled_left_out_ordered_and_added(rt: HostRuntime) -> Result<(), Fail> {
    let mut low = RangeSetBlaze::<Side>::new(rt.alloc());
    assert!(rt; low.insert(Side::Lo)? && !low.is_universal());
    assert!(rt; is_filled(&low)? && is_added(rt.alloc())?);
    Ok(())
}

/// Returns the slots from one number to another by their ends, and whether they are booked.
fn piece(first: u8, last: u8, is_booked: bool) -> (Slot, Slot, bool) {
    (slot(first), slot(last), is_booked)
}

/// Returns the runs and gaps of a day with twelve booked slots.
fn day() -> [(Slot, Slot, bool); 5] {
    [
        piece(0, 31, false),
        piece(32, 39, true),
        piece(40, 47, false),
        piece(48, 51, true),
        piece(52, 95, false),
    ]
}

/// Whether the booked slots come with the gaps between them, and the number of free slots is right.
fn leave_free(booked: &RangeSetBlaze<Slot>) -> Result<bool, AllocError> {
    Ok(fills(booked.ranges(), &day()) && booked.not()?.len() == 84)
}

/// Whether some slots minus the booked ones are those in the gaps.
fn lie_between(alloc: Global, booked: &RangeSetBlaze<Slot>) -> Result<bool, AllocError> {
    let free = RangeSetBlaze::from(alloc, slots(32, 67))?.sub(booked)?;
    Ok(gives(free.ranges(), &[(slot(40), slot(47)), (slot(52), slot(67))]))
}

/// Whether the text of the booked slots is right.
fn are_written(alloc: Global, booked: &RangeSetBlaze<Slot>) -> Result<bool, AllocError> {
    Ok(format!(in alloc; "{booked}")?.as_str() == "32..=39, 48..=51")
}

/// Whether free slots become booked, and those still free are in the gaps.
fn are_booked(alloc: Global) -> Result<bool, AllocError> {
    let mut booked = RangeSetBlaze::<Slot>::from(alloc, slots(32, 39))?;
    let is_changed = booked.ranges_insert(slots(48, 51))? && leave_free(&booked)?;
    Ok(is_changed && lie_between(alloc, &booked)? && are_written(alloc, &booked)?)
}

#[test]
fn free_slots_lie_between_those_that_are_booked(rt: HostRuntime) -> Result<(), Fail> {
    assert!(rt; slot(95).get() == 95 && Slot::new(96).is_none());
    assert!(rt; are_booked(rt.alloc())?);
    Ok(())
}

/// Whether values that a set lacks can be inserted one by one, and make it full.
fn come<T: Integer>(set: &mut RangeSetBlaze<T>, values: &[T]) -> Result<bool, AllocError> {
    for value in values {
        if set.contains(*value) || !set.insert(*value)? || !set.contains(*value) {
            return Ok(false);
        }
    }
    Ok(set.ranges_len() == 1 && set.is_universal())
}

/// Whether members of a set can be removed one by one, and leave it empty.
fn go<T: Integer>(set: &mut RangeSetBlaze<T>, values: &[T]) -> Result<bool, AllocError> {
    for value in values {
        if !set.remove(*value)? || set.range_at(*value).is_some() {
            return Ok(false);
        }
    }
    Ok(set.is_empty())
}

/// Whether all values of a type, in some order, can be inserted into a set one by one and then
/// removed.
fn come_and_go<T: Integer>(alloc: Global, values: &[T]) -> Result<bool, AllocError> {
    let mut set = RangeSetBlaze::new(alloc);
    Ok(come(&mut set, values)? && go(&mut set, values)?)
}

/// Returns the slots of a day, in an order that jumps.
fn all_slots(alloc: Global) -> Result<Vec<Slot>, AllocError> {
    let mut slots = Vec::new(alloc);
    for turn in 0..96u16 {
        let number = turn.saturating_mul(5) % 96;
        slots.push(slot(number as u8))?;
    }
    Ok(slots)
}

#[test]
fn all_values_of_own_types_come_and_go(rt: HostRuntime) -> Result<(), Fail> {
    assert!(rt; come_and_go(rt.alloc(), &[Side::Hi, Side::Lo])?);
    assert!(rt; come_and_go(rt.alloc(), &all_slots(rt.alloc())?)?);
    Ok(())
}
