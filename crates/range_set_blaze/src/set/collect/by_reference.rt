//! `FromIterator` and `Extend` for sets, from references to values and to ranges.

ghost use Rattle.std.specs.Iterator.{ExtendsWithItems};
ghost use Rattle.std.specs.Prelude.{OnOk, ◌≡◌};
ghost use Rattle.rsb_streams.specs.Items.{GaveRun, IsEnding};
ghost use Rattle.range_set_blaze.specs.Algebra.{ranks_of, AddsItems, AddsValues, IsSetOfItems};
ghost use Rattle.range_set_blaze.specs.Lent.{pointed_to, lent_steps, HaveSameRanks};
ghost use Rattle.rsb_storage.specs.Set.{IsSetOf};

use crate::set::RangeSetBlaze;
use rsb_integer::Integer;
use rsb_storage::run::run_of_range;
use std::alloc::{AllocError, Allocator};
use std::ops::RangeInclusive;

/// `values.iter().collect(alloc)?`: returns the set of the values, which may come in any order. If
/// allocation fails, no set is made. (`FromIterator<&T>` of `RangeSetBlaze`.)
impl<'a, T: Integer + 'a, A: Allocator + Copy> FromIterator<&'a T> for RangeSetBlaze<T, A> {
    type Alloc = A;

    ghost from_iter_gives = { λ values set. IsSetOf set (ranks_of T.rank (pointed_to values)) };

    fn from_iter<J: IntoIterator<Item = &'a T>>(alloc: A, values: J) -> Result<Self, AllocError> {
        RangeSetBlaze::from_iter_values(alloc, values.into_iter().copied())
    }
}

/// `ranges.iter().collect(alloc)?`: returns the set of the values of the ranges, which may come in
/// any order and may be empty. If allocation fails, no set is made.
/// (`FromIterator<&RangeInclusive<T>>` of `RangeSetBlaze`.)
impl<'a, T: Integer + 'a, A: Allocator + Copy> FromIterator<&'a RangeInclusive<T>>
    for RangeSetBlaze<T, A> {
    type Alloc = A;

    ghost from_iter_gives = { λ ranges set. IsSetOfItems T.rank (pointed_to ranges) set };

    fn from_iter<J: IntoIterator<Item = &'a RangeInclusive<T>>>(
        alloc: A,
        ranges: J,
    ) -> Result<Self, AllocError> {
        RangeSetBlaze::from_iter(alloc, LentRanges::new(ranges.into_iter()))
    }
}

/// `Extend::extend(&mut set, values.iter())?`: adds the values, which may come in any order. If
/// allocation fails, a prefix of the values has been added. Not in range-set-blaze.
impl<'a, T: Integer + 'a, A: Allocator + Clone> Extend<&'a T> for RangeSetBlaze<T, A> {
    ghost extend_gives = { λ old values new. AddsValues T.rank old (pointed_to values) new };

    fn extend<J: IntoIterator<Item = &'a T>>(&mut self, values: J) -> Result<(), AllocError>
        requires { IsEnding J.into_iter_gives J.IntoIter.can_next J.IntoIter.remaining values }
        ensures ran { ExtendsWithItems J.into_iter_gives J.IntoIter.next_gives
            (λ old items new. AddsValues T.rank old (pointed_to items) new) values self.old self.new
            result }
        ensures runs { OnOk result (GaveRun J.into_iter_gives J.IntoIter.next_gives values
            (λ items. AddsValues T.rank self.old (pointed_to items) self.new)) }
    {
        for value in values {
            self.insert(*value)?;
        }
        Ok(())
    }
}

/// `Extend::extend(&mut set, ranges.iter())?`: adds the values of the ranges, which may come in any
/// order. If allocation fails, a prefix of the ranges has been added. Not in range-set-blaze.
impl<'a, T: Integer + 'a, A: Allocator + Clone> Extend<&'a RangeInclusive<T>>
    for RangeSetBlaze<T, A> {
    ghost extend_gives = { λ old ranges new. AddsItems T.rank old (pointed_to ranges) new };

    fn extend<J: IntoIterator<Item = &'a RangeInclusive<T>>>(
        &mut self,
        ranges: J,
    ) -> Result<(), AllocError>
        requires { IsEnding J.into_iter_gives J.IntoIter.can_next J.IntoIter.remaining ranges }
        ensures ran { ExtendsWithItems J.into_iter_gives J.IntoIter.next_gives
            (λ old items new. AddsItems T.rank old (pointed_to items) new) ranges self.old self.new
            result }
        ensures runs { OnOk result (GaveRun J.into_iter_gives J.IntoIter.next_gives ranges
            (λ items. AddsItems T.rank self.old (pointed_to items) self.new)) }
    {
        for range in ranges {
            self.add_range(range_like(range))?;
        }
        Ok(())
    }
}

/// An iterator over ranges, from one over references to ranges. Each range has the members of the
/// one that the inner iterator gives.
// The contract of `cloned` would require that each clone succeeds. The bound `T: Copy` does not
// guarantee this, nor that a clone equals its original.
#[derive(Drop)]
pub(crate) struct LentRanges<I> {
    ranges: I,
}

impl<I> LentRanges<I> {
    /// Wraps an iterator over references to ranges. Draws nothing yet.
    pub(crate) fn new(ranges: I) -> Self
        ensures { result.ranges ≡ ranges }
    {
        LentRanges { ranges }
    }
}

impl<'a, T: Integer + 'a, I: Iterator<Item = &'a RangeInclusive<T>>> Iterator for LentRanges<I> {
    type Item = RangeInclusive<T>;

    ghost can_next = { λ s. I.can_next s.ranges };

    ghost next_gives = { lent_steps T.rank I.next_gives };

    ghost remaining = { λ s. I.remaining s.ranges };

    fn next(&mut self) -> Option<RangeInclusive<T>> {
        let range = self.ranges.next()?;
        Some(range_like(range))
    }
}

// Returns a range with the same members. It is an empty range if `range` was iterated to its end.
fn range_like<T: Integer>(range: &RangeInclusive<T>) -> RangeInclusive<T>
    ensures { HaveSameRanks T.rank result range.now }
{
    let Some(run) = run_of_range(range) else {
        return T::exhausted_range();
    };
    run.start..=run.end
}
