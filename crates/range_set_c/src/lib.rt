//! Sets of `u32`, `u64` and `u128` for C and for languages that call C.
//!
//! `include/range_set.h` declares the exports, and lists the duties of a caller that no proof can
//! check. The clauses of an export are about `kept.set`, the set that a handle points to, as the
//! list of its runs. An export takes each handle by `&mut` (docs/DECISIONS.md, handle-by-mut), and
//! its handles are different sets (docs/DECISIONS.md, handles-apart).
#![tactic(auto)]

mod bad_bytes;
mod long_run;
mod nullable_box;
mod status;
mod u128_lists;
mod u128_sets;
mod u128_values;
mod u32_lists;
mod u32_sets;
mod u64_lists;
mod u64_sets;
mod unboxed;
