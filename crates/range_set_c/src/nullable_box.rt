//! A box or null as one pointer, for a handle that crosses to C.

ghost use Rattle.std.specs.Prelude.{◌≡◌, IfOk, MatchOption, OnErr};
ghost use Rattle.range_set_c.specs.NullableBox.{nullable_owns};

use crate::unboxed::Unboxed;
use std::alloc::{AllocError, Global};
use std::marker::Model;
use std::mem;

/// A type with an empty value, which a null pointer stands for.
pub(crate) trait Empty: Sized + Drop {
    ghost empty: { Self };

    /// Returns the empty value, which owns no memory.
    fn new(alloc: Global) -> Self
        ensures { result ≡ empty };
}

/// A value in a box, or null, which stands for the empty value. A handle has the same layout.
#[repr(C)]
pub(crate) struct NullableBox<T: Empty> {
    at: *mut T,
    alloc: Global,
    pub(crate) ghost value: { T },
}

impl<T: Empty> Model for NullableBox<T> {
    ghost also_owns = { λ boxed. nullable_owns T.row T.empty boxed.alloc boxed.at boxed.value };
}

impl<T: Empty> NullableBox<T> {
    ghost use Rattle.std.specs.Borrow.{LendsIf};
    ghost use Rattle.range_set_c.specs.contracts.nullable_box.NullableBox.{the_row};
    ghost use types.Logic.{sem};

    /// Returns null.
    pub(crate) fn empty(alloc: Global) -> Self
        ensures { result.value ≡ T.empty }
    {
        NullableBox {
            at: std::ptr::null_mut(),
            alloc,
        }
    }

    /// Returns a box.
    pub(crate) fn of(boxed: Box<T>) -> Self
        ensures { result.value ≡ boxed.value }
    {
        NullableBox::of_parts(Unboxed::of(boxed))
    }

    /// Returns the value, or `None` if there is no box.
    pub(crate) fn open(&mut self) -> Option<&mut T>
        ensures* writes_back { sem 𝓛 (LendsIf (the_row T.row T.Empty) T.row self.entry result
            (λ value. record self.old { value = value }) self.old) }
        ensures value { MatchOption result (self.old.value ≡ T.empty)
            (λ value. value.now ≡ self.old.value) }
    {
        let at = self.at;
        if at.is_null() {
            return None;
        }
        unsafe { Some(&mut *at) }
    }

    /// Takes the box out, leaves null, and returns the box. If there is none, it returns a new box
    /// with the empty value. If its allocation fails, there was no box, and there is none.
    pub(crate) fn take_or_make(&mut self, alloc: Global) -> Result<Box<T>, AllocError>
        ensures taken { IfOk result (λ boxed. boxed.value ≡ self.old.value) }
        ensures left { self.new.value ≡ T.empty }
        ensures err { OnErr result (self.old.value ≡ T.empty) }
    {
        if let Some(boxed) = self.take(alloc) {
            return Ok(boxed);
        }
        Ok(Box::new(alloc, T::new(alloc))?)
    }

    // Takes the box out, leaves null, and returns the box, or `None` if there was none.
    fn take(&mut self, alloc: Global) -> Option<Box<T>>
        ensures taken { MatchOption result (self.old.value ≡ T.empty)
            (λ boxed. boxed.value ≡ self.old.value) }
        ensures left { self.new.value ≡ T.empty }
    {
        mem::replace(self, NullableBox::empty(alloc)).into_box()
    }

    // Returns the box, or `None` if there is none.
    fn into_box(self) -> Option<Box<T>>
        ensures { MatchOption result (self.value ≡ T.empty) (λ boxed. boxed.value ≡ self.value) }
    {
        let parts = self.into_parts()?;
        Some(parts.into_box())
    }

    fn of_parts(parts: Unboxed<T, Global>) -> Self
        ensures { result.value ≡ parts.value }
    {
        let Unboxed { at, alloc } = parts;
        NullableBox { at, alloc }
    }

    fn into_parts(self) -> Option<Unboxed<T, Global>>
        ensures { MatchOption result (self.value ≡ T.empty) (λ parts. parts.value ≡ self.value) }
    {
        let NullableBox { at, alloc } = self;
        if at.is_null() {
            return None;
        }
        Some(Unboxed { at, alloc })
    }
}

// Frees the value and its memory.
impl<T: Empty> Drop for NullableBox<T> {
    fn drop(self) {
        drop(self.into_box());
    }
}
