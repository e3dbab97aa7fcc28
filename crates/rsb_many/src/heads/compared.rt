//! A list of heads, with a count of the comparisons of their keys
//! (docs/DECISIONS.md, count-without-brand).

ghost use Rattle.std.specs.Prelude.{◌≡◌, ◌+◌, ◌<◌, ◌≤◌, ℕ, [], length, All, IfOk};
ghost use Rattle.std.specs.Vec.{vec_capacity};
ghost use Rattle.rsb_many.specs.Heads.{key_of, HasValues};
ghost use Rattle.rsb_many.specs.HeapOrder.{key_at};
ghost use Rattle.rsb_many.specs.Keys.{comes_before};

use crate::heads::Head;
use rsb_integer::Integer;
use std::alloc::{AllocError, Allocator, Global};
use std::marker::Model;

/// The number of comparisons made so far. It has no bytes, and its methods do nothing at run time.
/// Only this module makes and raises a count.
#[derive(Debug, Drop)]
struct Comparisons {
    ghost made: { ℕ },
}

impl Model for Comparisons {
    ghost use Rattle.std.specs.Borrow.{ftrue};

    ghost also_owns = { λ _. ftrue };
}

impl Comparisons {
    /// Returns a count of no comparisons.
    fn none() -> Self
        ensures { result.made ≡ 0 }
    {
        Comparisons {}
    }

    // Returns a count that is greater by one.
    fn and_one(&self) -> Self
        ensures { result.made ≡ self.now.made + 1 }
    {
        Comparisons {}
    }

    /// Counts one more comparison.
    fn count(&mut self)
        ensures { self.new.made ≡ self.old.made + 1 }
    {
        *self = self.and_one();
    }
}

/// Heads in a list, and the number of comparisons of their keys so far. The list and its count are
/// one value, so no comparison can be added to another count.
#[derive(Debug, Drop)]
pub(super) struct ComparedHeads<T: Integer, A: Allocator = Global> {
    pub(super) heads: Vec<Head<T>, A>,
    comparisons: Comparisons,
}

impl<T: Integer, A: Allocator> ComparedHeads<T, A> {
    /// Returns an empty list with room for the given number of heads, and a count of no
    /// comparisons.
    pub(super) fn with_room(alloc: A, room: usize) -> Result<Self, AllocError>
        ensures none { IfOk result (λ list. list.heads.items ≡ []) }
        ensures room { IfOk result (λ list. room ≤ vec_capacity list.heads) }
        ensures compared { IfOk result (λ list. list.comparisons.made ≡ 0) }
    {
        Ok(ComparedHeads {
            heads: Vec::with_capacity(alloc, room)?,
            comparisons: Comparisons::none(),
        })
    }

    /// Returns whether the head at a place comes before another. No other function compares keys.
    #[inline(always)]
    pub(super) fn comes_first(&mut self, place: usize, other: &Head<T>) -> bool
        requires place { place < length self.old.heads.items }
        requires values { All (HasValues T.rank T.value_count) self.old.heads.items }
        requires other { HasValues T.rank T.value_count other.now }
        ensures first { (none : Head T) → result
            ≡ comes_before (key_at T.rank self.old.heads.items none place)
            (key_of T.rank other.now) }
        ensures heads { self.new.heads ≡ self.old.heads }
        ensures compared { self.new.comparisons.made ≡ self.old.comparisons.made + 1 }
    {
        self.comparisons.count();
        let one = &self.heads[place];
        let order = one.at.cmp(&other.at);
        let is_tied = one.started == other.started;
        let wins_tie = (is_tied & (one.input < other.input)) | (!one.started & other.started);
        order.is_lt() | (order.is_eq() & wins_tie)
    }
}
