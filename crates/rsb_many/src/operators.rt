//! The operators on results of operations on many streams and on `DynSortedDisjoint`.

mod bit_and;
mod bit_or;
mod bit_xor;
mod not;
mod sub;
