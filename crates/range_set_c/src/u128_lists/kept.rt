// Written by tools/c/narrow from src/u64_lists/kept.rt.
//! What a handle to a list points to. It uses no other type of this crate, so that the clauses of a
//! handle can name the memory of the list.

ghost use Rattle.std.specs.Prelude.{◌≡◌, []};

use crate::nullable_box::Empty;
use crate::u128_values::Value;
use range_set_blaze::RangeSetBlaze;
use std::alloc::Global;
use std::marker::Model;

/// Sets, in the order in which they were added. Contracts see the list of the sets.
#[derive(Drop)]
pub struct Kept {
    pub(super) sets: Vec<RangeSetBlaze<u128, Global>, Global>,
}

impl Model for Kept {
    ghost use Rattle.std.specs.Prelude.{List};
    ghost use Rattle.rsb_integer.specs.Runs.{Interval};

    ghost Value = { List (List Interval) };

    ghost view = { λ kept. kept.sets.items };
}

impl Empty for Kept {
    ghost empty = { [] };

    fn new(alloc: Global) -> Kept {
        Kept {
            sets: Vec::new(alloc),
        }
    }
}
