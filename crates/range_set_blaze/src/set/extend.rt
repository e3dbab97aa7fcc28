//! Insertion of many ranges and values.

ghost use Rattle.std.specs.Prelude.{◌≡◌, [], IfOk, OnErr, OnOk};
ghost use Rattle.std.specs.Iterator.{ExtendsWithItems};
ghost use Rattle.rsb_integer.specs.Rank.{interval_of, intervals_of};
ghost use Rattle.rsb_integer.specs.Runs.{covers, members};
ghost use Rattle.rsb_streams.specs.Items.{GaveAll, GaveRun, IsEnding};
ghost use Rattle.range_set_blaze.specs.Algebra.{ranks_of, AddsPrefixOf, AddsItems, AddsValues};
ghost use Rattle.rsb_storage.specs.Set.{Adds, IsSetOf};

use crate::set::RangeSetBlaze;
use crate::set::collect::values_as_ranges::Singles;
use rsb_integer::Integer;
use rsb_storage::run::run_of_range;
use rsb_streams::UnsortedDisjoint;
use std::alloc::{AllocError, Allocator};
use std::ops::RangeInclusive;

impl<T: Integer, A: Allocator + Clone> RangeSetBlaze<T, A> {
    /// Adds the values of the given ranges, which may come in any order. An empty range adds
    /// nothing. If allocation fails, a prefix of the ranges has been added. For values, write
    /// `extend_values`. (`Extend<RangeInclusive>` of `RangeSetBlaze`.)
    pub fn extend<J: IntoIterator<Item = RangeInclusive<T>>>(
        &mut self,
        ranges: J,
    ) -> Result<(), AllocError>
        requires ready { IsEnding J.into_iter_gives J.IntoIter.can_next J.IntoIter.remaining
            ranges }
        ensures members { ExtendsWithItems J.into_iter_gives J.IntoIter.next_gives
            (AddsItems T.rank) ranges self.old self.new result }
        ensures runs { OnOk result (GaveRun J.into_iter_gives J.IntoIter.next_gives ranges
            (λ items. AddsItems T.rank self.old items self.new)) }
    {
        for range in ranges {
            self.add_range(range)?;
        }
        Ok(())
    }

    /// Adds the given values, which may come in any order. If allocation fails, a prefix of the
    /// values has been added. (`Extend<T>` of `RangeSetBlaze`.)
    pub fn extend_values<J: IntoIterator<Item = T>>(&mut self, values: J) -> Result<(), AllocError>
        requires ready { IsEnding J.into_iter_gives J.IntoIter.can_next J.IntoIter.remaining
            values }
        ensures members { ExtendsWithItems J.into_iter_gives J.IntoIter.next_gives
            (AddsValues T.rank) values self.old self.new result }
        ensures runs { OnOk result (GaveRun J.into_iter_gives J.IntoIter.next_gives values
            (λ items. AddsValues T.rank self.old items self.new)) }
    {
        for value in values {
            self.insert(value)?;
        }
        Ok(())
    }

    // Adds the values of a range. If allocation fails, the set is unchanged.
    pub(super) fn add_range(&mut self, range: RangeInclusive<T>) -> Result<(), AllocError>
        ensures members { OnOk result
            (Adds self.old self.new (covers (interval_of T.rank range))) }
        ensures err { OnErr result (self.new ≡ self.old) }
    {
        if let Some(run) = run_of_range(&range) {
            self.insert_run(run)?;
        }
        Ok(())
    }
}

impl<T: Integer, A: Allocator + Copy> RangeSetBlaze<T, A> {
    /// Returns the set of the values of the given ranges, which may come in any order and may be
    /// empty. Sorts once unless they come in order, and makes one pass. If allocation fails, no set
    /// is made. For values, write `from_iter_values` or `values.collect(alloc)?`.
    /// (`FromIterator<RangeInclusive<T>>` of `RangeSetBlaze`.)
    pub fn from_iter<J: IntoIterator<Item = RangeInclusive<T>>>(
        alloc: A,
        ranges: J,
    ) -> Result<Self, AllocError>
        requires ready { IsEnding J.into_iter_gives J.IntoIter.can_next J.IntoIter.remaining
            ranges }
        ensures members { IfOk result (λ set.
            GaveAll J.into_iter_gives J.IntoIter.next_gives ranges
            (λ items. IsSetOf set (members (intervals_of T.rank items)))) }
        ensures runs { IfOk result (λ set.
            GaveRun J.into_iter_gives J.IntoIter.next_gives ranges
            (λ items. IsSetOf set (members (intervals_of T.rank items)))) }
    {
        let joined = UnsortedDisjoint::new(ranges.into_iter());
        let kept = Vec::from_iter(alloc, joined)?;
        Self::from_list(alloc, kept)
    }

    /// Returns the set of the given values, which may come in any order. Sorts once unless they
    /// come in order, and makes one pass. If allocation fails, no set is made. (`FromIterator<T>`
    /// of `RangeSetBlaze`.)
    pub fn from_iter_values<J: IntoIterator<Item = T>>(
        alloc: A,
        values: J,
    ) -> Result<Self, AllocError>
        requires ready { IsEnding J.into_iter_gives J.IntoIter.can_next J.IntoIter.remaining
            values }
        ensures members { IfOk result (λ set.
            GaveAll J.into_iter_gives J.IntoIter.next_gives values
            (λ items. IsSetOf set (ranks_of T.rank items))) }
        ensures runs { IfOk result (λ set.
            GaveRun J.into_iter_gives J.IntoIter.next_gives values
            (λ items. IsSetOf set (ranks_of T.rank items))) }
    {
        let singles = Singles::new(values.into_iter());
        Self::from_iter(alloc, singles)
    }

    /// Returns the set of the values of an array, which may be in any order. Moves the values into
    /// a list first. If allocation fails, no set is made. (`From<[T; N]>` of `RangeSetBlaze`.)
    pub fn from_array<const N: usize>(alloc: A, values: [T; N]) -> Result<Self, AllocError>
        ensures members { IfOk result (λ set. IsSetOf set (ranks_of T.rank values)) }
    {
        // The values go through a list (docs/DECISIONS.md, lists-for-arrays).
        Self::from_iter_values(alloc, Vec::from_array(alloc, values)?)
    }

    /// Adds the members of another set. Inserts its runs one by one if it has few, and otherwise
    /// takes one pass over both sets. If allocation fails, a prefix of the other set's runs has
    /// been added. (`BitOrAssign` of `RangeSetBlaze`: `a.bitor_assign(&b)?` for `a |= &b`.)
    pub fn bitor_assign<B: Allocator>(
        &mut self,
        other: &RangeSetBlaze<T, B>,
    ) -> Result<(), AllocError>
        ensures members { OnOk result (Adds self.old self.new (members other.now)) }
        ensures err { OnErr result (AddsPrefixOf self.old self.new other.now) }
    {
        if is_few(other.ranges_len(), self.ranges_len()) {
            return self.extend(other.ranges());
        }
        *self = self.bitor(other)?;
        Ok(())
    }

    /// Adds the members of another set, given by value. If the other set has more runs, adds this
    /// set to the other one and keeps that one, with its allocator. If allocation fails, a prefix
    /// of the other set's runs has been added, and the other set is dropped. (`BitOrAssign` of
    /// `RangeSetBlaze`, for a set by value.)
    pub fn bitor_assign_owned(&mut self, other: Self) -> Result<(), AllocError>
        ensures members { OnOk result (Adds self.old self.new (members other)) }
        ensures err { OnErr result (AddsPrefixOf self.old self.new other) }
    {
        if other.ranges_len() <= self.ranges_len() {
            return self.bitor_assign(&other);
        }
        let mut larger = other;
        larger.bitor_assign(&*self)?;
        *self = larger;
        Ok(())
    }

    /// Moves all members of another set into this one and leaves the other set empty. If allocation
    /// fails, a prefix of the other set's runs has been added, and the other set is unchanged.
    /// (`RangeSetBlaze::append`.)
    pub fn append(&mut self, other: &mut Self) -> Result<(), AllocError>
        ensures members { OnOk result (Adds self.old self.new (members other.old)) }
        ensures emptied { OnOk result (other.new ≡ []) }
        ensures err { OnErr result (AddsPrefixOf self.old self.new other.old) }
        ensures other { OnErr result (other.new ≡ other.old) }
    {
        // If allocation fails, the other set is unchanged (docs/DECISIONS.md, append-direction).
        self.bitor_assign(&*other)?;
        other.clear();
        Ok(())
    }
}

// Returns whether it costs less to insert `some` runs one by one into a set of `others` runs than
// to take one pass over all of them.
fn is_few(some: usize, others: usize) -> bool {
    let Some(depth) = others.checked_ilog2() else {
        return some == 0;
    };
    some.saturating_mul(depth as usize + 1) < others.saturating_add(some)
}
