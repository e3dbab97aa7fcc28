//! The ranges of a map and their values, one after the other.

ghost use Rattle.std.specs.Prelude.{length};
ghost use Rattle.std.specs.Iterator.{at_most};
ghost use Rattle.std.specs.Map.Iter.{TakesFirst, TakesLast};

use rsb_integer::Integer;
use std::alloc::Allocator;
use std::collections::btree_map::{IntoIter, Iter};
use std::iter::FusedIterator;
use std::marker::Model;
use std::ops::RangeInclusive;

/// A double-ended iterator over the ranges of a map, in ascending order, each with a reference to
/// its value. Contracts see it as the list of the ranges still to come, each with its value.
/// (`RangeValuesIter` in range-set-blaze.)
#[derive(Drop)]
pub struct RangeValues<'a, T: Integer, V> {
    pub(crate) entries: Iter<'a, T, (T, V)>,
}

impl<'a, T: Integer, V> Model for RangeValues<'a, T, V> {
    ghost use Rattle.std.specs.Prelude.{List};
    ghost use Rattle.std.specs.declared.ops.RangeInclusive.{RangeInclusive};
    ghost use Rattle.range_map_blaze.specs.Storage.{range_values_of};

    ghost Value = { List (RangeInclusive T × V) };

    ghost view = { λ s. range_values_of s.entries };
}

impl<'a, T: Integer, V> Iterator for RangeValues<'a, T, V> {
    type Item = (RangeInclusive<T>, &'a V);

    ghost next_gives = { TakesFirst (λ item. (item.0, item.1.now)) };

    ghost remaining = { λ s. at_most (length s) };

    fn next(&mut self) -> Option<(RangeInclusive<T>, &'a V)> {
        let (start, rest) = self.entries.next()?;
        Some((*start..=rest.0, &rest.1))
    }

    fn size_hint(&self) -> (usize, Option<usize>) {
        self.entries.size_hint()
    }
}

impl<'a, T: Integer, V> FusedIterator for RangeValues<'a, T, V> {}

impl<'a, T: Integer, V> DoubleEndedIterator for RangeValues<'a, T, V> {
    ghost next_back_gives = { TakesLast (λ item. (item.0, item.1.now)) };

    fn next_back(&mut self) -> Option<(RangeInclusive<T>, &'a V)> {
        let (start, rest) = self.entries.next_back()?;
        Some((*start..=rest.0, &rest.1))
    }
}

impl<'a, T: Integer, V> ExactSizeIterator for RangeValues<'a, T, V> {
    fn len(&self) -> usize {
        self.entries.len()
    }
}

/// A double-ended iterator over the ranges of a map, in ascending order, each with its value, which
/// owns them. Contracts see it as the list of the ranges still to come, each with its value.
/// (`IntoRangeValuesIter` in range-set-blaze.)
#[derive(Drop)]
pub struct IntoRangeValues<T: Integer, V: Drop, A: Allocator> {
    pub(crate) entries: IntoIter<T, (T, V), A>,
}

impl<T: Integer, V: Drop, A: Allocator> Model for IntoRangeValues<T, V, A> {
    ghost use Rattle.std.specs.Prelude.{List};
    ghost use Rattle.std.specs.declared.ops.RangeInclusive.{RangeInclusive};
    ghost use Rattle.range_map_blaze.specs.Storage.{range_values_of};

    ghost Value = { List (RangeInclusive T × V) };

    ghost view = { λ s. range_values_of s.entries };
}

impl<T: Integer, V: Drop, A: Allocator> Iterator for IntoRangeValues<T, V, A> {
    type Item = (RangeInclusive<T>, V);

    ghost next_gives = { TakesFirst (λ item. item) };

    ghost remaining = { λ s. at_most (length s) };

    fn next(&mut self) -> Option<(RangeInclusive<T>, V)> {
        let (start, rest) = self.entries.next()?;
        let (end, value) = rest;
        Some((start..=end, value))
    }

    fn size_hint(&self) -> (usize, Option<usize>) {
        self.entries.size_hint()
    }
}

impl<T: Integer, V: Drop, A: Allocator> FusedIterator for IntoRangeValues<T, V, A> {}

impl<T: Integer, V: Drop, A: Allocator> DoubleEndedIterator for IntoRangeValues<T, V, A> {
    ghost next_back_gives = { TakesLast (λ item. item) };

    fn next_back(&mut self) -> Option<(RangeInclusive<T>, V)> {
        let (start, rest) = self.entries.next_back()?;
        let (end, value) = rest;
        Some((start..=end, value))
    }
}

impl<T: Integer, V: Drop, A: Allocator> ExactSizeIterator for IntoRangeValues<T, V, A> {
    fn len(&self) -> usize {
        self.entries.len()
    }
}
