// Written by tools/c/narrow from src/u64_lists/many.rt.
//! Sets built from all sets of a list.
//!
//! C fills a list with copies of sets, and then builds a set from all of them at once. An export
//! takes a list because it cannot take an array of pointers to handles (docs/DECISIONS.md,
//! many-by-lists).

ghost use Rattle.std.specs.Prelude.{◌≡◌, ◌⊎◌, ◌^◌, [], ◌∷◌, ◌++◌, IfOk, OnErr, OnOk};
ghost use Rattle.rsb_integer.specs.Selection.{all_of, any_of, at_least, odd_of};
ghost use Rattle.range_set_blaze.specs.Multiway.{IsMadeOf};
ghost use Rattle.range_set_c.specs.Answer.{IsChanged, IsRefused};

use super::handle::Handle;
use super::kept::Kept;
use crate::nullable_box::{Empty, NullableBox};
use crate::status::{CHANGED, NO_MEMORY};
use crate::u128_sets::handle::Handle as SetHandle;
use range_set_blaze::{MultiwayRangeSetBlazeRef, RangeSetBlaze};
use std::alloc::{AllocError, Global};

/// Adds a copy of a set at the end of a list, and returns `CHANGED`. If an allocation fails, it
/// returns `NO_MEMORY`, and the list is unchanged.
#[unsafe(no_mangle)]
pub extern "C" fn rsb_u128_sets_add(alloc: Global, list: &mut Handle, set: &mut SetHandle) -> u32
    ensures answer { IsChanged result ⊎ IsRefused result }
    ensures added { IsChanged result
        → list.new.kept ≡ list.old.kept ++ set.old.kept.set ∷ [] }
    ensures refused { IsRefused result → list.new.kept ≡ list.old.kept }
    ensures set { set.new.kept.set ≡ set.old.kept.set }
{
    let empty = RangeSetBlaze::new(alloc);
    let Ok(copy) = set.set_or(&empty).clone() else {
        return NO_MEMORY;
    };
    let Ok(mut kept) = list.as_box().take_or_make(alloc) else {
        return NO_MEMORY;
    };
    let answer = match kept.add(copy) {
        Ok(()) => CHANGED,
        Err(_) => NO_MEMORY,
    };
    *list.as_box() = NullableBox::of(kept);
    answer
}

/// Sets `out` to the union of the sets of a list: empty if the list is. Returns `CHANGED`. If an
/// allocation fails, it returns `NO_MEMORY`, and `out` is unchanged.
#[unsafe(no_mangle)]
pub extern "C" fn rsb_u128_sets_union(alloc: Global, out: &mut SetHandle, list: &mut Handle) -> u32
    ensures answer { IsChanged result ⊎ IsRefused result }
    ensures members { IsChanged result
        → IsMadeOf (2 ^ 128) any_of list.old.kept out.new.kept.set }
    ensures refused { IsRefused result → out.new.kept.set ≡ out.old.kept.set }
    ensures list { list.new.kept ≡ list.old.kept }
{
    let empty = Kept::new(alloc);
    let made = list.list_or(&empty).union(alloc);
    out.set_to(alloc, made)
}

/// Sets `out` to the intersection of the sets of a list: every value if the list is empty. Returns
/// `CHANGED`. If an allocation fails, it returns `NO_MEMORY`, and `out` is unchanged.
#[unsafe(no_mangle)]
pub extern "C" fn rsb_u128_sets_intersection(
    alloc: Global,
    out: &mut SetHandle,
    list: &mut Handle,
) -> u32
    ensures answer { IsChanged result ⊎ IsRefused result }
    ensures members { IsChanged result
        → IsMadeOf (2 ^ 128) all_of list.old.kept out.new.kept.set }
    ensures refused { IsRefused result → out.new.kept.set ≡ out.old.kept.set }
    ensures list { list.new.kept ≡ list.old.kept }
{
    let empty = Kept::new(alloc);
    let made = list.list_or(&empty).intersection(alloc);
    out.set_to(alloc, made)
}

/// Sets `out` to the values in an odd number of the sets of a list: empty if the list is. Returns
/// `CHANGED`. If an allocation fails, it returns `NO_MEMORY`, and `out` is unchanged.
#[unsafe(no_mangle)]
pub extern "C" fn rsb_u128_sets_symmetric_difference(
    alloc: Global,
    out: &mut SetHandle,
    list: &mut Handle,
) -> u32
    ensures answer { IsChanged result ⊎ IsRefused result }
    ensures members { IsChanged result
        → IsMadeOf (2 ^ 128) odd_of list.old.kept out.new.kept.set }
    ensures refused { IsRefused result → out.new.kept.set ≡ out.old.kept.set }
    ensures list { list.new.kept ≡ list.old.kept }
{
    let empty = Kept::new(alloc);
    let made = list.list_or(&empty).symmetric_difference(alloc);
    out.set_to(alloc, made)
}

/// Sets `out` to the values in at least `k` of the sets of a list: every value if `k` is 0, and
/// none if the list has fewer than `k` sets. A set that was added twice counts twice. Returns
/// `CHANGED`. If an allocation fails, it returns `NO_MEMORY`, and `out` is unchanged.
#[unsafe(no_mangle)]
pub extern "C" fn rsb_u128_sets_at_least(
    alloc: Global,
    out: &mut SetHandle,
    list: &mut Handle,
    k: usize,
) -> u32
    ensures answer { IsChanged result ⊎ IsRefused result }
    ensures members { IsChanged result
        → IsMadeOf (2 ^ 128) (at_least k) list.old.kept out.new.kept.set }
    ensures refused { IsRefused result → out.new.kept.set ≡ out.old.kept.set }
    ensures list { list.new.kept ≡ list.old.kept }
{
    let empty = Kept::new(alloc);
    let made = list.list_or(&empty).at_least(alloc, k);
    out.set_to(alloc, made)
}

/// Frees the memory of the list and leaves a null handle, which is the empty list.
#[unsafe(no_mangle)]
pub extern "C" fn rsb_u128_sets_free(alloc: Global, list: &mut Handle)
    ensures { list.new.kept ≡ [] }
{
    *list.as_box() = NullableBox::empty(alloc);
}

impl Kept {
    // Adds a set at the end. If allocation fails, the list is unchanged and the set is dropped.
    fn add(&mut self, set: RangeSetBlaze<u128, Global>) -> Result<(), AllocError>
        ensures added { OnOk result (self.new ≡ self.old ++ set ∷ []) }
        ensures err { OnErr result (self.new ≡ self.old) }
    {
        self.sets.push(set)?;
        Ok(())
    }

    // Returns the values in at least one of the sets.
    fn union(&self, alloc: Global) -> Result<RangeSetBlaze<u128, Global>, AllocError>
        ensures { IfOk result (λ set. IsMadeOf (2 ^ 128) any_of self.now set) }
    {
        MultiwayRangeSetBlazeRef::union(&self.sets, alloc)
    }

    // Returns the values in all of the sets.
    fn intersection(&self, alloc: Global) -> Result<RangeSetBlaze<u128, Global>, AllocError>
        ensures { IfOk result (λ set. IsMadeOf (2 ^ 128) all_of self.now set) }
    {
        MultiwayRangeSetBlazeRef::intersection(&self.sets, alloc)
    }

    // Returns the values in an odd number of the sets.
    fn symmetric_difference(&self, alloc: Global) -> Result<RangeSetBlaze<u128, Global>, AllocError>
        ensures { IfOk result (λ set. IsMadeOf (2 ^ 128) odd_of self.now set) }
    {
        MultiwayRangeSetBlazeRef::symmetric_difference(&self.sets, alloc)
    }

    // Returns the values in at least `k` of the sets.
    fn at_least(&self, alloc: Global, k: usize) -> Result<RangeSetBlaze<u128, Global>, AllocError>
        ensures { IfOk result (λ set. IsMadeOf (2 ^ 128) (at_least k) self.now set) }
    {
        MultiwayRangeSetBlazeRef::at_least(&self.sets, alloc, k)
    }
}
