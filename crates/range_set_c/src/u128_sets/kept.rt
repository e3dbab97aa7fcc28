// Written by tools/c/narrow from src/u64_sets/kept.rt.
//! What a handle points to. It uses no other type of this crate, so that the clauses of a handle
//! can name the memory of the set.

ghost use Rattle.std.specs.Prelude.{◌≡◌, []};

use crate::nullable_box::Empty;
use range_set_blaze::RangeSetBlaze;
use std::alloc::Global;

/// A set in its own box.
#[derive(Drop)]
pub struct Kept {
    pub set: RangeSetBlaze<u128, Global>,
}

impl Empty for Kept {
    ghost empty = { record { set = [] } };

    fn new(alloc: Global) -> Kept {
        Kept {
            set: RangeSetBlaze::new(alloc),
        }
    }
}
