// Written by tools/c/narrow from src/u64_lists/handle.rt.
//! The handle to a list that C holds (docs/DECISIONS.md, handle-one-pointer).

ghost use Rattle.std.specs.Prelude.{◌≡◌, List, []};
ghost use Rattle.rsb_integer.specs.Runs.{Interval};
ghost use Rattle.range_set_c.specs.NullableBox.{nullable_owns};
ghost use Rattle.range_set_c.specs.contracts.u128_lists.kept.Kept.{the_row};
ghost use Rattle.range_set_c.specs.contracts.u128_lists.kept.KeptEmpty.TheImpl.{ghosts};

use super::kept::Kept;
use crate::nullable_box::NullableBox;
use std::alloc::Global;
use std::marker::Model;

/// A list of sets of `u128`. C sees a struct with one pointer. If it is null, the list is empty.
#[repr(C)]
pub struct Handle {
    at: *mut u8,
    alloc: Global,
    pub ghost kept: { List (List Interval) } by { the_row.coded },
}

impl Model for Handle {
    ghost also_owns = { λ handle.
        nullable_owns the_row ghosts.empty handle.alloc handle.at handle.kept };
}

impl Handle {
    ghost use Rattle.range_set_c.specs.U128ListHandle.{EndsAsBox, EndsAsItWas};
    ghost use types.Logic.{sem};

    /// Returns the list, or the given empty list if the handle is null. It writes to neither the
    /// handle nor the list.
    pub(crate) fn list_or<'a>(&'a mut self, empty: &'a Kept) -> &'a Kept
        requires { empty.now ≡ [] }
        ensures* same { sem 𝓛 (EndsAsItWas self.entry) }
        ensures list { result.now ≡ self.old.kept }
    {
        match self.as_box().open() {
            Some(kept) => kept,
            None => empty,
        }
    }

    /// Returns the handle as the type that all share (docs/DECISIONS.md, handle-by-cast).
    pub(crate) fn as_box(&mut self) -> &mut NullableBox<Kept>
        ensures* writes_back { sem 𝓛 (EndsAsBox self.entry result) }
        ensures kept { result.now.value ≡ self.old.kept }
    {
        unsafe { &mut *(&raw mut *self).cast::<NullableBox<Kept>>() }
    }
}
