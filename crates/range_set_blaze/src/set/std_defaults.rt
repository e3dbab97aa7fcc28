//! `Emptied` and `MadeWith` for sets, as std's collections have them, and the allocator of a set.

ghost use Rattle.std.specs.Prelude.{◌≡◌, [], IfOk, IsOk};

use crate::set::RangeSetBlaze;
use rsb_integer::Integer;
use std::alloc::{AllocError, Allocator};
use std::default::{Emptied, MadeWith};

/// `mem::try_take(&mut set)?`: takes the set and leaves an empty one in its place. Does not
/// allocate.
impl<T: Integer, A: Allocator + Copy> Emptied for RangeSetBlaze<T, A> {
    ghost is_emptied = { λ set. set ≡ [] };

    fn emptied(like: &Self) -> Result<Self, AllocError>
        ensures made { IfOk result (λ set. set ≡ []) }
        ensures succeeds { IsOk result }
    {
        Ok(RangeSetBlaze::new(like.alloc))
    }
}

/// `or_default` of a map of sets: inserts the empty set for an absent key.
impl<T: Integer, A: Allocator + Copy> MadeWith<A> for RangeSetBlaze<T, A> {
    ghost is_made_with = { λ set. set ≡ [] };

    fn made_with(alloc: A) -> Self {
        RangeSetBlaze::new(alloc)
    }
}

impl<T: Integer, A: Allocator> RangeSetBlaze<T, A> {
    /// Returns the allocator of the set. Calls on the set use it to make other sets. Not in
    /// range-set-blaze.
    // No clause names the allocator: contracts see only the runs (docs/DECISIONS.md, set-as-runs).
    pub fn allocator(&self) -> &A {
        &self.alloc
    }
}
