//! The runs of a set passed by value, one after the other.

ghost use Rattle.std.specs.Iterator.{YieldsFirst, YieldsLast, item_count};
ghost use Rattle.rsb_integer.specs.Rank.{intervals_of};
ghost use Rattle.rsb_integer.specs.Runs.{IsCanonicalIn};
ghost use Rattle.rsb_streams.specs.Listed.{listed_may_give};
ghost use Rattle.rsb_streams.specs.laws.Listed.{listed-answers, listed-keeps};
ghost use Rattle.rsb_streams.specs.laws.Stream.{canonical_stream-starts, drawn-itself};

use rsb_integer::Integer;
use rsb_streams::{Draw, DrawDisjoint, SortedDisjoint, SortedStarts};
use std::alloc::{Allocator, Global};
use std::collections::btree_map::IntoIter;
use std::iter::FusedIterator;
use std::marker::Model;
use std::ops::RangeInclusive;

/// An owning, double-ended iterator over the runs of a set, in ascending order. Contracts see it as
/// the list of the ranges still to come. (`IntoRangesIter` in range-set-blaze.)
#[derive(Drop)]
#[derive_where(Debug)]
pub struct IntoRangesIter<T: Integer, A: Allocator = Global> {
    pub(crate) entries: IntoIter<T, T, A>,
}

impl<T: Integer, A: Allocator> Model for IntoRangesIter<T, A> {
    ghost use Rattle.std.specs.Prelude.{List};
    ghost use Rattle.std.specs.declared.ops.RangeInclusive.{RangeInclusive};
    ghost use Rattle.rsb_integer.specs.Rank.{ranges_of};

    ghost Value = { List (RangeInclusive T) };

    ghost view = { λ s. ranges_of s.entries };
}

impl<T: Integer, A: Allocator> Iterator for IntoRangesIter<T, A> {
    type Item = RangeInclusive<T>;

    ghost can_next = { λ s. IsCanonicalIn T.value_count (intervals_of T.rank s) };

    ghost next_gives = { YieldsFirst (λ s. s) };

    ghost remaining = { item_count (λ s. s) };

    fn next(&mut self) -> Option<RangeInclusive<T>> {
        let (start, end) = self.entries.next()?;
        Some(start..=end)
    }

    fn size_hint(&self) -> (usize, Option<usize>) {
        self.entries.size_hint()
    }
}

impl<T: Integer, A: Allocator> FusedIterator for IntoRangesIter<T, A> {}

impl<T: Integer, A: Allocator> DoubleEndedIterator for IntoRangesIter<T, A> {
    ghost can_next_back = { λ s. IsCanonicalIn T.value_count (intervals_of T.rank s) };

    ghost next_back_gives = { YieldsLast (λ s. s) };

    fn next_back(&mut self) -> Option<RangeInclusive<T>> {
        let (start, end) = self.entries.next_back()?;
        Some(start..=end)
    }
}

impl<T: Integer, A: Allocator> ExactSizeIterator for IntoRangesIter<T, A> {
    fn len(&self) -> usize {
        self.entries.len()
    }
}

impl<T: Integer, A: Allocator> Draw<T> for IntoRangesIter<T, A> {
    ghost can_draw = { ⟦<IntoRangesIter<T, A> as Iterator>⟧.can_next };

    ghost draw_gives = { ⟦<IntoRangesIter<T, A> as Iterator>⟧.next_gives };

    ghost draws_left = { ⟦<IntoRangesIter<T, A> as Iterator>⟧.remaining };

    ghost may_give = { listed_may_give T.rank (λ s. s) };

    fn draw(&mut self) -> Option<RangeInclusive<T>> {
        self.next()
    }

    ghost answers = { listed-answers T.rank (λ s. s) };

    ghost sorted = { λ s canonical. canonical_stream-starts T.value_count _ _
        (listed-keeps T.rank (λ s. s) T.value_count s canonical) };
}

impl<T: Integer, A: Allocator> SortedStarts<T> for IntoRangesIter<T, A> {
    ghost drawn = { drawn-itself };
}

impl<T: Integer, A: Allocator> DrawDisjoint<T> for IntoRangesIter<T, A> {
    ghost canonical = { λ s canonical.
        (listed-keeps T.rank (λ s. s) T.value_count s canonical).all };
}

impl<T: Integer, A: Allocator> SortedDisjoint<T> for IntoRangesIter<T, A> {}
