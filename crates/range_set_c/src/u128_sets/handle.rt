// Written by tools/c/narrow from src/u64_sets/handle.rt.
//! The handle that C holds (docs/DECISIONS.md, handle-one-pointer).

ghost use Rattle.std.specs.Prelude.{◌≡◌, ◌⊎◌, [], IfOk, IsOk};
ghost use Rattle.range_set_c.specs.Answer.{IsChanged, IsRefused};
ghost use Rattle.range_set_c.specs.NullableBox.{nullable_owns};
ghost use Rattle.range_set_c.specs.contracts.u128_sets.kept.Kept.{the_row};
ghost use Rattle.range_set_c.specs.contracts.u128_sets.kept.KeptEmpty.TheImpl.{ghosts};
ghost use Rattle.range_set_c.specs.declared.u128_sets.kept.Kept.{Kept};

use super::kept::Kept;
use crate::nullable_box::NullableBox;
use crate::status::{CHANGED, NO_MEMORY};
use range_set_blaze::RangeSetBlaze;
use std::alloc::{AllocError, Global};
use std::marker::Model;

/// A set of `u128`. C sees a struct with one pointer. If it is null, the set is empty.
#[repr(C)]
pub struct Handle {
    at: *mut u8,
    alloc: Global,
    pub ghost kept: { Kept } by { the_row.coded },
}

impl Model for Handle {
    ghost also_owns = { λ handle.
        nullable_owns the_row ghosts.empty handle.alloc handle.at handle.kept };
}

impl Handle {
    ghost use Rattle.range_set_c.specs.U128Handle.{EndsAsBox, EndsAsItWas};
    ghost use types.Logic.{sem};

    /// Returns the set, or the given empty set if the handle is null. It writes to neither the
    /// handle nor the set.
    pub(crate) fn set_or<'a>(
        &'a mut self,
        empty: &'a RangeSetBlaze<u128, Global>,
    ) -> &'a RangeSetBlaze<u128, Global>
        requires { empty.now ≡ [] }
        ensures* same { sem 𝓛 (EndsAsItWas self.entry) }
        ensures set { result.now ≡ self.old.kept.set }
    {
        match self.as_box().open() {
            Some(kept) => &kept.set,
            None => empty,
        }
    }

    /// Replaces the set with the one in `made` and returns `CHANGED`. If `made` is an error or an
    /// allocation fails, it returns `NO_MEMORY`, and the handle is unchanged.
    pub(crate) fn set_to(
        &mut self,
        alloc: Global,
        made: Result<RangeSetBlaze<u128, Global>, AllocError>,
    ) -> u32
        ensures answer { IsChanged result ⊎ IsRefused result }
        ensures made { IsChanged result → IsOk made }
        ensures set { IsChanged result → IfOk made (λ set. self.new.kept.set ≡ set) }
        ensures refused { IsRefused result → self.new.kept.set ≡ self.old.kept.set }
    {
        let Ok(set) = made else {
            return NO_MEMORY;
        };
        let Ok(kept) = Box::new(alloc, Kept { set }) else {
            return NO_MEMORY;
        };
        *self.as_box() = NullableBox::of(kept);
        CHANGED
    }

    /// Returns the handle as the type that all share (docs/DECISIONS.md, handle-by-cast).
    pub(crate) fn as_box(&mut self) -> &mut NullableBox<Kept>
        ensures* writes_back { sem 𝓛 (EndsAsBox self.entry result) }
        ensures kept { result.now.value ≡ self.old.kept }
    {
        unsafe { &mut *(&raw mut *self).cast::<NullableBox<Kept>>() }
    }
}
