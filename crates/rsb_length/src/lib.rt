//! Lengths of ranges: whole numbers from 0 up to a maximum.
#![tactic(auto)]

pub mod safe_length;
pub mod uint;
pub mod uint_plus_one;

pub use safe_length::SafeLength;
pub use uint::UInt;
pub use uint_plus_one::UIntPlusOne;
