//! `FromIterator` and `Extend` for sets. Each calls the inherent method of the set and returns its
//! result.

ghost use Rattle.std.specs.Iterator.{ExtendsWithItems};
ghost use Rattle.std.specs.Prelude.{OnOk};
ghost use Rattle.rsb_streams.specs.Items.{GaveRun, IsEnding};
ghost use Rattle.range_set_blaze.specs.Algebra.{ranks_of, AddsItems, AddsValues, IsSetOfItems};
ghost use Rattle.rsb_storage.specs.Set.{IsSetOf};

use crate::set::RangeSetBlaze;
use rsb_integer::Integer;
use std::alloc::{AllocError, Allocator};
use std::ops::RangeInclusive;

/// `values.collect(alloc)?`: returns the set of the values, which may come in any order. If
/// allocation fails, no set is made.
impl<T: Integer, A: Allocator + Copy> FromIterator<T> for RangeSetBlaze<T, A> {
    type Alloc = A;

    ghost from_iter_gives = { λ values set. IsSetOf set (ranks_of T.rank values) };

    fn from_iter<J: IntoIterator<Item = T>>(alloc: A, values: J) -> Result<Self, AllocError> {
        RangeSetBlaze::from_iter_values(alloc, values)
    }
}

/// `ranges.collect(alloc)?`: returns the set of the values of the ranges, which may come in any
/// order and may be empty. If allocation fails, no set is made.
impl<T: Integer, A: Allocator + Copy> FromIterator<RangeInclusive<T>> for RangeSetBlaze<T, A> {
    type Alloc = A;

    ghost from_iter_gives = { IsSetOfItems T.rank };

    fn from_iter<J: IntoIterator<Item = RangeInclusive<T>>>(
        alloc: A,
        ranges: J,
    ) -> Result<Self, AllocError> {
        RangeSetBlaze::from_iter(alloc, ranges)
    }
}

/// `Extend::extend(&mut set, values)?`: adds the values, which may come in any order. If allocation
/// fails, a prefix of the values has been added.
impl<T: Integer, A: Allocator + Clone> Extend<T> for RangeSetBlaze<T, A> {
    ghost extend_gives = { AddsValues T.rank };

    fn extend<J: IntoIterator<Item = T>>(&mut self, values: J) -> Result<(), AllocError>
        requires { IsEnding J.into_iter_gives J.IntoIter.can_next J.IntoIter.remaining values }
        ensures ran { ExtendsWithItems J.into_iter_gives J.IntoIter.next_gives
            (AddsValues T.rank) values self.old self.new result }
        ensures runs { OnOk result (GaveRun J.into_iter_gives J.IntoIter.next_gives values
            (λ items. AddsValues T.rank self.old items self.new)) }
    {
        self.extend_values(values)
    }
}

/// `Extend::extend(&mut set, ranges)?`: adds the values of the ranges, which may come in any order.
/// If allocation fails, a prefix of the ranges has been added.
impl<T: Integer, A: Allocator + Clone> Extend<RangeInclusive<T>> for RangeSetBlaze<T, A> {
    ghost extend_gives = { AddsItems T.rank };

    fn extend<J: IntoIterator<Item = RangeInclusive<T>>>(
        &mut self,
        ranges: J,
    ) -> Result<(), AllocError>
        requires { IsEnding J.into_iter_gives J.IntoIter.can_next J.IntoIter.remaining ranges }
        ensures ran { ExtendsWithItems J.into_iter_gives J.IntoIter.next_gives
            (AddsItems T.rank) ranges self.old self.new result }
        ensures runs { OnOk result (GaveRun J.into_iter_gives J.IntoIter.next_gives ranges
            (λ items. AddsItems T.rank self.old items self.new)) }
    {
        RangeSetBlaze::extend(self, ranges)
    }
}
