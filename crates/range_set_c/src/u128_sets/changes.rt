// Written by tools/c/narrow from src/u64_sets/changes.rt.
//! Changes to one set.
//!
//! A call returns `UNCHANGED` if the set was already as requested, and `CHANGED` if it is only now.
//! It returns `NO_MEMORY` if an allocation fails, and the set is then unchanged. `rsb_u128_clear`
//! and `rsb_u128_free` always succeed, and return nothing.

ghost use Rattle.std.specs.Prelude.{◌≡◌, ◌+◌, ◌<◌, ◌^◌, [], IsFalse, IsTrue};
ghost use Rattle.rsb_integer.specs.Runs.{members, covers, from_to};
ghost use Rattle.rsb_integer.specs.Selection.{intersection, IsEmpty, LacksSome};
ghost use Rattle.range_set_blaze.specs.RemoveRanges.{HasSome, Lacks};
ghost use Rattle.range_set_blaze.specs.Set.{only, Adds, IsReached, Removes};
ghost use Rattle.range_set_c.specs.Answer.{IsChanged, IsRefused, IsStatus, IsUnchanged, Succeeds};
ghost use Rattle.range_set_c.specs.U128Values.{number};

use super::handle::Handle;
use crate::nullable_box::NullableBox;
use crate::status::{CHANGED, NO_MEMORY, UNCHANGED};
use crate::u128_values::Value;
use std::alloc::Global;

/// Adds the values from `first` to `last`: none if `last` is below `first`. It cannot return
/// `NO_MEMORY` if there is nothing to add, or if `first` or the value before it is a member.
#[unsafe(no_mangle)]
pub extern "C" fn rsb_u128_insert_range(
    alloc: Global,
    set: &mut Handle,
    first: Value,
    last: Value,
) -> u32
    ensures answer { IsStatus result }
    ensures members { Succeeds result
        → Adds set.old.kept.set set.new.kept.set (covers (from_to (number first) (number last))) }
    ensures unchanged { IsUnchanged result
        → ¬ LacksSome (members set.old.kept.set) (covers (from_to (number first) (number last))) }
    ensures changed { IsChanged result
        → LacksSome (members set.old.kept.set) (covers (from_to (number first) (number last))) }
    ensures refused { IsRefused result → set.new.kept.set ≡ set.old.kept.set }
    ensures nothing { number last < number first → IsUnchanged result }
    ensures spared { IsReached set.old.kept.set (number first) → Succeeds result }
{
    let first = first.number();
    let last = last.number();
    if last < first {
        return UNCHANGED;
    }
    let Ok(mut kept) = set.as_box().take_or_make(alloc) else {
        return NO_MEMORY;
    };
    let answer = match kept.set.ranges_insert(first..=last) {
        Ok(true) => CHANGED,
        Ok(false) => UNCHANGED,
        Err(_) => NO_MEMORY,
    };
    *set.as_box() = NullableBox::of(kept);
    answer
}

/// Adds a value. It cannot return `NO_MEMORY` if the value or the one before it is a member.
#[unsafe(no_mangle)]
pub extern "C" fn rsb_u128_insert(alloc: Global, set: &mut Handle, value: Value) -> u32
    ensures answer { IsStatus result }
    ensures members { Succeeds result → Adds set.old.kept.set set.new.kept.set
        (only (number value)) }
    ensures unchanged { IsUnchanged result → IsTrue (members set.old.kept.set (number value)) }
    ensures changed { IsChanged result → IsFalse (members set.old.kept.set (number value)) }
    ensures refused { IsRefused result → set.new.kept.set ≡ set.old.kept.set }
    ensures spared { IsTrue (members set.old.kept.set (number value)) → IsUnchanged result }
    ensures reached { IsReached set.old.kept.set (number value) → Succeeds result }
{
    let value = value.number();
    let Ok(mut kept) = set.as_box().take_or_make(alloc) else {
        return NO_MEMORY;
    };
    let answer = match kept.set.insert(value) {
        Ok(true) => CHANGED,
        Ok(false) => UNCHANGED,
        Err(_) => NO_MEMORY,
    };
    *set.as_box() = NullableBox::of(kept);
    answer
}

/// Removes a value. It cannot return `NO_MEMORY` if the value is not a member.
#[unsafe(no_mangle)]
pub extern "C" fn rsb_u128_remove(set: &mut Handle, value: Value) -> u32
    ensures answer { IsStatus result }
    ensures members { Succeeds result → Removes set.old.kept.set set.new.kept.set
        (only (number value)) }
    ensures unchanged { IsUnchanged result → IsFalse (members set.old.kept.set (number value)) }
    ensures changed { IsChanged result → IsTrue (members set.old.kept.set (number value)) }
    ensures refused { IsRefused result → set.new.kept.set ≡ set.old.kept.set }
    ensures spared { IsFalse (members set.old.kept.set (number value)) → IsUnchanged result }
{
    let value = value.number();
    let Some(kept) = set.as_box().open() else {
        return UNCHANGED;
    };
    match kept.set.remove(value) {
        Ok(true) => CHANGED,
        Ok(false) => UNCHANGED,
        Err(_) => NO_MEMORY,
    }
}

/// Removes the values from `first` to `last`: none if `last` is below `first`. It cannot return
/// `NO_MEMORY` if none of them is a member, or if the value after `last` is not a member or does
/// not exist.
#[unsafe(no_mangle)]
pub extern "C" fn rsb_u128_remove_range(set: &mut Handle, first: Value, last: Value) -> u32
    ensures answer { IsStatus result }
    ensures members { Succeeds result
        → Removes set.old.kept.set set.new.kept.set
        (covers (from_to (number first) (number last))) }
    ensures unchanged { IsUnchanged result
        → ¬ HasSome (members set.old.kept.set) (covers (from_to (number first) (number last))) }
    ensures changed { IsChanged result
        → HasSome (members set.old.kept.set) (covers (from_to (number first) (number last))) }
    ensures refused { IsRefused result → set.new.kept.set ≡ set.old.kept.set }
    ensures nothing { IsEmpty (intersection (members set.old.kept.set)
        (covers (from_to (number first) (number last)))) → IsUnchanged result }
    ensures spared { Lacks (2 ^ 128) set.old.kept.set (number last + 1) → Succeeds result }
{
    let first = first.number();
    let last = last.number();
    let Some(kept) = set.as_box().open() else {
        return UNCHANGED;
    };
    match kept.set.ranges_remove(first..=last) {
        Ok(true) => CHANGED,
        Ok(false) => UNCHANGED,
        Err(_) => NO_MEMORY,
    }
}

/// Removes all members.
#[unsafe(no_mangle)]
pub extern "C" fn rsb_u128_clear(set: &mut Handle)
    ensures { set.new.kept.set ≡ [] }
{
    if let Some(kept) = set.as_box().open() {
        kept.set.clear();
    }
}

/// Frees the memory of the set and leaves a null handle, which is the empty set.
#[unsafe(no_mangle)]
pub extern "C" fn rsb_u128_free(alloc: Global, set: &mut Handle)
    ensures { set.new.kept.set ≡ [] }
{
    *set.as_box() = NullableBox::empty(alloc);
}
