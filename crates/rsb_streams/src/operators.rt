//! The operators on streams. The right side is a stream (docs/DECISIONS.md, other-is-a-stream).

mod bit_and;
mod bit_or;
mod bit_xor;
mod not;
mod sub;
