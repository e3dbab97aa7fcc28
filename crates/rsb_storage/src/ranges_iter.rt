//! The runs of a set, one after the other.

ghost use Rattle.std.specs.Iterator.{YieldsFirst, YieldsLast, item_count};
ghost use Rattle.rsb_integer.specs.Rank.{intervals_of};
ghost use Rattle.rsb_integer.specs.Runs.{IsCanonicalIn};
ghost use Rattle.rsb_streams.specs.Listed.{listed_may_give};
ghost use Rattle.rsb_streams.specs.laws.Listed.{listed-answers, listed-keeps};
ghost use Rattle.rsb_streams.specs.laws.Stream.{canonical_stream-starts, drawn-itself};

use rsb_integer::Integer;
use rsb_streams::{Draw, DrawDisjoint, SortedDisjoint, SortedStarts};
use std::collections::btree_map::Iter;
use std::iter::FusedIterator;
use std::marker::Model;
use std::ops::RangeInclusive;

/// A double-ended iterator over the runs of a set, in ascending order. Contracts see it as the list
/// of the ranges still to come. (`RangesIter` in range-set-blaze.)
#[derive(Clone, Debug, Drop)]
pub struct RangesIter<'a, T: Integer> {
    pub(crate) entries: Iter<'a, T, T>,
}

impl<'a, T: Integer> Model for RangesIter<'a, T> {
    ghost use Rattle.std.specs.Prelude.{List};
    ghost use Rattle.std.specs.declared.ops.RangeInclusive.{RangeInclusive};
    ghost use Rattle.rsb_integer.specs.Rank.{ranges_of};

    ghost Value = { List (RangeInclusive T) };

    ghost view = { λ s. ranges_of s.entries };
}

impl<'a, T: Integer> Iterator for RangesIter<'a, T> {
    type Item = RangeInclusive<T>;

    ghost can_next = { λ s. IsCanonicalIn T.value_count (intervals_of T.rank s) };

    ghost next_gives = { YieldsFirst (λ s. s) };

    ghost remaining = { item_count (λ s. s) };

    #[inline(always)]
    fn next(&mut self) -> Option<RangeInclusive<T>> {
        let (start, end) = self.entries.next()?;
        Some(*start..=*end)
    }

    fn size_hint(&self) -> (usize, Option<usize>) {
        self.entries.size_hint()
    }
}

impl<'a, T: Integer> FusedIterator for RangesIter<'a, T> {}

impl<'a, T: Integer> DoubleEndedIterator for RangesIter<'a, T> {
    ghost can_next_back = { λ s. IsCanonicalIn T.value_count (intervals_of T.rank s) };

    ghost next_back_gives = { YieldsLast (λ s. s) };

    fn next_back(&mut self) -> Option<RangeInclusive<T>> {
        let (start, end) = self.entries.next_back()?;
        Some(*start..=*end)
    }
}

impl<'a, T: Integer> ExactSizeIterator for RangesIter<'a, T> {
    fn len(&self) -> usize {
        self.entries.len()
    }
}

impl<'a, T: Integer> Draw<T> for RangesIter<'a, T> {
    ghost can_draw = { ⟦<RangesIter<'a, T> as Iterator>⟧.can_next };

    ghost draw_gives = { ⟦<RangesIter<'a, T> as Iterator>⟧.next_gives };

    ghost draws_left = { ⟦<RangesIter<'a, T> as Iterator>⟧.remaining };

    ghost may_give = { listed_may_give T.rank (λ s. s) };

    #[inline(always)]
    fn draw(&mut self) -> Option<RangeInclusive<T>> {
        self.next()
    }

    ghost answers = { listed-answers T.rank (λ s. s) };

    ghost sorted = { λ s canonical. canonical_stream-starts T.value_count _ _
        (listed-keeps T.rank (λ s. s) T.value_count s canonical) };
}

impl<'a, T: Integer> SortedStarts<T> for RangesIter<'a, T> {
    ghost drawn = { drawn-itself };
}

impl<'a, T: Integer> DrawDisjoint<T> for RangesIter<'a, T> {
    ghost canonical = { λ s canonical.
        (listed-keeps T.rank (λ s. s) T.value_count s canonical).all };
}

impl<'a, T: Integer> SortedDisjoint<T> for RangesIter<'a, T> {}
