//! The runs of a set between two bounds, one after the other.

ghost use Rattle.std.specs.Iterator.{YieldsFirst, YieldsLast, item_count};
ghost use Rattle.rsb_integer.specs.Rank.{intervals_of};
ghost use Rattle.rsb_integer.specs.Runs.{IsCanonicalIn};
ghost use Rattle.rsb_streams.specs.Listed.{listed_may_give};
ghost use Rattle.rsb_streams.specs.laws.Listed.{listed-answers, listed-keeps};
ghost use Rattle.rsb_streams.specs.laws.Stream.{canonical_stream-starts, drawn-itself};

mod operators;
mod parts;

use crate::ranges_in::parts::{lesser, take_first, take_last};
use crate::run::Run;
use rsb_integer::Integer;
use rsb_streams::{Draw, DrawDisjoint, SortedDisjoint, SortedStarts};
use std::collections::btree_map::Range;
use std::iter::FusedIterator;
use std::marker::Model;
use std::ops::RangeInclusive;

/// A double-ended iterator over the runs of a set between two bounds, in ascending order. A run
/// that crosses a bound is shortened to its values between the bounds. Contracts see it as the list
/// of the ranges still to come. Not in range-set-blaze.
#[derive(Clone, Debug, Drop)]
pub struct RangesIn<'a, T: Integer> {
    // The part at or above the lower bound of a run that starts before it, if there is such a run.
    pub(crate) first: Option<Run<T>>,
    // The runs that start between the bounds.
    pub(crate) entries: Range<'a, T, T>,
    // The last value between the bounds.
    pub(crate) last: T,
}

impl<'a, T: Integer> Model for RangesIn<'a, T> {
    ghost use Rattle.std.specs.Prelude.{List};
    ghost use Rattle.std.specs.declared.ops.RangeInclusive.{RangeInclusive};
    ghost use Rattle.rsb_storage.specs.Windows.{ranges_up_to, with_held};

    ghost Value = { List (RangeInclusive T) };

    ghost view = { λ s. ranges_up_to T.rank s.last (with_held s.first s.entries) };
}

impl<'a, T: Integer> Iterator for RangesIn<'a, T> {
    type Item = RangeInclusive<T>;

    ghost can_next = { λ s. IsCanonicalIn T.value_count (intervals_of T.rank s) };

    ghost next_gives = { YieldsFirst (λ s. s) };

    ghost remaining = { item_count (λ s. s) };

    #[inline(always)]
    fn next(&mut self) -> Option<RangeInclusive<T>> {
        let run = take_first(&mut self.first, &mut self.entries)?;
        Some(run.start..=lesser(run.end, self.last))
    }
}

impl<'a, T: Integer> FusedIterator for RangesIn<'a, T> {}

impl<'a, T: Integer> DoubleEndedIterator for RangesIn<'a, T> {
    ghost can_next_back = { λ s. IsCanonicalIn T.value_count (intervals_of T.rank s) };

    ghost next_back_gives = { YieldsLast (λ s. s) };

    fn next_back(&mut self) -> Option<RangeInclusive<T>> {
        let run = take_last(&mut self.first, &mut self.entries)?;
        Some(run.start..=lesser(run.end, self.last))
    }
}

impl<'a, T: Integer> Draw<T> for RangesIn<'a, T> {
    ghost can_draw = { ⟦<RangesIn<'a, T> as Iterator>⟧.can_next };

    ghost draw_gives = { ⟦<RangesIn<'a, T> as Iterator>⟧.next_gives };

    ghost draws_left = { ⟦<RangesIn<'a, T> as Iterator>⟧.remaining };

    ghost may_give = { listed_may_give T.rank (λ s. s) };

    #[inline(always)]
    fn draw(&mut self) -> Option<RangeInclusive<T>> {
        self.next()
    }

    ghost answers = { listed-answers T.rank (λ s. s) };

    ghost sorted = { λ s canonical. canonical_stream-starts T.value_count _ _
        (listed-keeps T.rank (λ s. s) T.value_count s canonical) };
}

impl<'a, T: Integer> SortedStarts<T> for RangesIn<'a, T> {
    ghost drawn = { drawn-itself };
}

impl<'a, T: Integer> DrawDisjoint<T> for RangesIn<'a, T> {
    ghost canonical = { λ s canonical.
        (listed-keeps T.rank (λ s. s) T.value_count s canonical).all };
}

impl<'a, T: Integer> SortedDisjoint<T> for RangesIn<'a, T> {}
