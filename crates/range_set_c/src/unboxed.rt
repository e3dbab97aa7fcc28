//! A boxed value as a pointer, for a handle that crosses to C.

ghost use Rattle.std.specs.Prelude.{◌≡◌};
ghost use Rattle.std.specs.Box.Ownership.{box_owns};

use std::alloc::Allocator;
use std::marker::Model;

/// What a box owns: the value at a pointer, and the right to free its memory.
pub(crate) struct Unboxed<T, A: Allocator> {
    pub(crate) at: *mut T,
    pub(crate) alloc: A,
    pub(crate) ghost value: { T },
}

impl<T, A: Allocator> Model for Unboxed<T, A> {
    ghost also_owns = { λ unboxed.
        box_owns (A.dealloc_token unboxed.alloc) T.row unboxed.at unboxed.value };
}

impl<T, A: Allocator> Unboxed<T, A> {
    /// Takes a box apart into its pointer and its allocator.
    pub(crate) fn of(boxed: Box<T, A>) -> Self
    where
        T: Drop,
        ensures { result.value ≡ boxed.value }
    {
        let (at, alloc) = Box::into_raw_with_allocator(boxed);
        Unboxed { at, alloc }
    }

    /// Puts a box together again.
    pub(crate) fn into_box(self) -> Box<T, A>
        ensures { result.value ≡ self.value }
    {
        let Unboxed { at, alloc } = self;
        unsafe { Box::from_raw(alloc, at) }
    }
}
