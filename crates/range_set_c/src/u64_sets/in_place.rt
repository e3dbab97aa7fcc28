//! Changes to one set by another, which is unchanged.
//!
//! A call returns `UNCHANGED` if the set was already as requested, and then does not allocate. It
//! returns `CHANGED` if it is only now. It returns `NO_MEMORY` if an allocation fails, and the set
//! is then unchanged.

ghost use Rattle.std.specs.Prelude.{◌≡◌, ◌^◌};
ghost use Rattle.rsb_integer.specs.Runs.{members};
ghost use Rattle.rsb_integer.specs.Selection.{
  intersection,
  symmetric_difference,
  AreDisjoint,
  IsEmpty,
  IsSubset,
};
ghost use Rattle.range_set_blaze.specs.Set.{Adds, IsSetOf, Removes};
ghost use Rattle.range_set_c.specs.Answer.{IsChanged, IsRefused, IsStatus, IsUnchanged, Succeeds};

use super::handle::Handle;
use crate::nullable_box::NullableBox;
use crate::status::{CHANGED, NO_MEMORY, UNCHANGED};
use range_set_blaze::RangeSetBlaze;
use std::alloc::Global;

/// Adds all members of another set, which is unchanged. It cannot return `NO_MEMORY` if each of
/// them is already a member.
#[unsafe(no_mangle)]
pub extern "C" fn rsb_u64_union_with(alloc: Global, set: &mut Handle, other: &mut Handle) -> u32
    ensures answer { IsStatus result }
    ensures unchanged { IsUnchanged result →
        IsSubset (2 ^ 64) (members other.old.kept.set) (members set.old.kept.set) }
    ensures kept { IsUnchanged result → set.new.kept.set ≡ set.old.kept.set }
    ensures changed { IsChanged result →
        ¬ IsSubset (2 ^ 64) (members other.old.kept.set) (members set.old.kept.set) }
    ensures members { IsChanged result →
        Adds set.old.kept.set set.new.kept.set (members other.old.kept.set) }
    ensures refused { IsRefused result → set.new.kept.set ≡ set.old.kept.set }
    ensures spared { IsSubset (2 ^ 64) (members other.old.kept.set) (members set.old.kept.set)
        → IsUnchanged result }
    ensures other { other.new.kept.set ≡ other.old.kept.set }
{
    let none = RangeSetBlaze::new(alloc);
    let nothing = RangeSetBlaze::new(alloc);
    if other.set_or(&none).is_subset(set.set_or(&nothing)) {
        return UNCHANGED;
    }
    let made = set.set_or(&none).bitor(other.set_or(&nothing));
    set.set_to(alloc, made)
}

/// Keeps only the members that are also in another set. It cannot return `NO_MEMORY` if each
/// member is, or if the other set is empty.
#[unsafe(no_mangle)]
pub extern "C" fn rsb_u64_intersect_with(alloc: Global, set: &mut Handle, other: &mut Handle) -> u32
    ensures answer { IsStatus result }
    ensures unchanged { IsUnchanged result →
        IsSubset (2 ^ 64) (members set.old.kept.set) (members other.old.kept.set) }
    ensures kept { IsUnchanged result → set.new.kept.set ≡ set.old.kept.set }
    ensures changed { IsChanged result →
        ¬ IsSubset (2 ^ 64) (members set.old.kept.set) (members other.old.kept.set) }
    ensures members { IsChanged result → IsSetOf set.new.kept.set
        (intersection (members set.old.kept.set) (members other.old.kept.set)) }
    ensures refused { IsRefused result → set.new.kept.set ≡ set.old.kept.set }
    ensures spared { IsSubset (2 ^ 64) (members set.old.kept.set) (members other.old.kept.set)
        → IsUnchanged result }
    ensures with_nothing { IsEmpty (members other.old.kept.set) → Succeeds result }
    ensures other { other.new.kept.set ≡ other.old.kept.set }
{
    let nothing = RangeSetBlaze::new(alloc);
    let other = other.set_or(&nothing);
    let Some(kept) = set.as_box().open() else {
        return UNCHANGED;
    };
    if kept.set.is_subset(other) {
        return UNCHANGED;
    }
    match kept.set.bitand_assign(other) {
        Ok(()) => CHANGED,
        Err(_) => NO_MEMORY,
    }
}

/// Removes all members of another set. It cannot return `NO_MEMORY` if the sets have no member in
/// common.
#[unsafe(no_mangle)]
pub extern "C" fn rsb_u64_subtract(alloc: Global, set: &mut Handle, other: &mut Handle) -> u32
    ensures answer { IsStatus result }
    ensures unchanged { IsUnchanged result →
        AreDisjoint (2 ^ 64) (members set.old.kept.set) (members other.old.kept.set) }
    ensures kept { IsUnchanged result → set.new.kept.set ≡ set.old.kept.set }
    ensures changed { IsChanged result →
        ¬ AreDisjoint (2 ^ 64) (members set.old.kept.set) (members other.old.kept.set) }
    ensures members { IsChanged result →
        Removes set.old.kept.set set.new.kept.set (members other.old.kept.set) }
    ensures refused { IsRefused result → set.new.kept.set ≡ set.old.kept.set }
    ensures spared { AreDisjoint (2 ^ 64) (members set.old.kept.set) (members other.old.kept.set)
        → IsUnchanged result }
    ensures other { other.new.kept.set ≡ other.old.kept.set }
{
    let nothing = RangeSetBlaze::new(alloc);
    let other = other.set_or(&nothing);
    let Some(kept) = set.as_box().open() else {
        return UNCHANGED;
    };
    if kept.set.is_disjoint(other) {
        return UNCHANGED;
    }
    match kept.set.sub_assign(other) {
        Ok(()) => CHANGED,
        Err(_) => NO_MEMORY,
    }
}

/// Removes the members that another set has too, and adds those that only the other set has. It
/// cannot return `NO_MEMORY` if the other set is empty.
#[unsafe(no_mangle)]
pub extern "C" fn rsb_u64_xor_with(alloc: Global, set: &mut Handle, other: &mut Handle) -> u32
    ensures answer { IsStatus result }
    ensures unchanged { IsUnchanged result → IsEmpty (members other.old.kept.set) }
    ensures kept { IsUnchanged result → set.new.kept.set ≡ set.old.kept.set }
    ensures changed { IsChanged result → ¬ IsEmpty (members other.old.kept.set) }
    ensures members { IsChanged result → IsSetOf set.new.kept.set
        (symmetric_difference (members set.old.kept.set) (members other.old.kept.set)) }
    ensures refused { IsRefused result → set.new.kept.set ≡ set.old.kept.set }
    ensures spared { IsEmpty (members other.old.kept.set) → IsUnchanged result }
    ensures other { other.new.kept.set ≡ other.old.kept.set }
{
    let nothing = RangeSetBlaze::new(alloc);
    let other = other.set_or(&nothing);
    if other.is_empty() {
        return UNCHANGED;
    }
    let Ok(mut kept) = set.as_box().take_or_make(alloc) else {
        return NO_MEMORY;
    };
    let answer = match kept.set.bitxor_assign(other) {
        Ok(()) => CHANGED,
        Err(_) => NO_MEMORY,
    };
    *set.as_box() = NullableBox::of(kept);
    answer
}
