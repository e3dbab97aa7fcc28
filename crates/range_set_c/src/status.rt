//! What a call that changes a set returns, and a call that reads or writes text or bytes. A call
//! that clears or frees a set always succeeds, and returns nothing.

/// The set was already as requested, and is unchanged.
pub const UNCHANGED: u32 = 0;

/// The set is now as requested, and was not before; or `out` is now the set that was requested.
pub const CHANGED: u32 = 1;

/// An allocation failed, and every set is unchanged.
pub const NO_MEMORY: u32 = 2;

/// The text does not list ranges of numbers of the type, and the set is unchanged.
pub const BAD_TEXT: u32 = 3;

/// The buffer is too small for the text or the bytes, and is unchanged.
pub const NO_ROOM: u32 = 4;

/// The bytes are not those of a set of the type, and the set is unchanged.
pub const BAD_BYTES: u32 = 5;
