//! Ranges that come in any order, collected into a list and sorted by start.

ghost use Rattle.std.specs.Prelude.{IfOk};
ghost use Rattle.rsb_streams.specs.Items.{GaveAll, IsEnding};
ghost use Rattle.rsb_streams.specs.SortedStartsInVec.{GivesRunsOf};

use crate::assume_sorted_starts::AssumeSortedStarts;
use crate::draw::Draw;
use crate::union_iter::UnionIter;
use crate::unsorted_disjoint::UnsortedDisjoint;
use rsb_integer::Integer;
use std::alloc::{AllocError, Allocator, Global};
use std::ops::RangeInclusive;
use std::vec::IntoIter;

/// The ranges of a list that are known to be sorted by start. (`SortedStartsInVec` in
/// range-set-blaze.)
pub type SortedStartsInVec<T, A = Global> = AssumeSortedStarts<T, IntoIter<RangeInclusive<T>, A>>;

impl<T: Integer, A: Allocator> UnionIter<T, SortedStartsInVec<T, A>> {
    /// Returns the union of the given ranges, which may come in any order and may be empty.
    /// Requires that `ranges` converts into an iterator that ends and whose `next` can be called.
    /// It collects the ranges, joined as `UnsortedDisjoint` joins them, so ranges that are nearly
    /// in order need little memory. Then it sorts them once, in place. If allocation fails, it
    /// returns the error and builds nothing. (`FromIterator` of `UnionIter`.)
    pub fn from_iter<J: IntoIterator<Item = RangeInclusive<T>>>(
        alloc: A,
        ranges: J,
    ) -> Result<UnionIter<T, SortedStartsInVec<T, A>>, AllocError>
        requires { IsEnding J.into_iter_gives J.IntoIter.can_next J.IntoIter.remaining ranges }
        ensures ready { IfOk result
            ⟦<UnionIter<T, SortedStartsInVec<T, A>> as Draw<T>>⟧.can_draw }
        ensures gives { IfOk result (λ stream.
            GaveAll J.into_iter_gives J.IntoIter.next_gives ranges
            (GivesRunsOf T.rank T.value_count
            (⟦<UnionIter<T, SortedStartsInVec<T, A>> as Draw<T>>⟧.may_give stream))) }
    {
        let joined = UnsortedDisjoint::new(ranges.into_iter());
        let mut kept = Vec::from_iter(alloc, joined)?;
        kept.sort_unstable_by_key(|range| *range.start());
        Ok(UnionIter::new(AssumeSortedStarts::new(kept)))
    }
}
