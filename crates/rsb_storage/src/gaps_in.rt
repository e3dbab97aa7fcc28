//! An iterator over the gaps of a set between two bounds.

ghost use Rattle.std.specs.Prelude.{⊤, ◌≡◌};
ghost use Rattle.std.specs.Iterator.{YieldsFirst, YieldsLast, item_count};
ghost use Rattle.rsb_integer.specs.Rank.{intervals_of};
ghost use Rattle.rsb_integer.specs.Runs.{IsCanonicalIn};
ghost use Rattle.rsb_streams.specs.Listed.{listed_may_give};
ghost use Rattle.rsb_streams.specs.laws.Listed.{listed-answers, listed-keeps};
ghost use Rattle.rsb_streams.specs.laws.Stream.{canonical_stream-starts, drawn-itself};

mod operators;
mod parts;

use crate::gaps_in::parts::{take_first, take_last};
use crate::run::Run;
use rsb_integer::Integer;
use rsb_streams::{Draw, DrawDisjoint, SortedDisjoint, SortedStarts};
use std::alloc::AllocError;
use std::collections::btree_map::Range;
use std::iter::FusedIterator;
use std::marker::Model;
use std::ops::RangeInclusive;

/// A double-ended iterator over the gaps of a set between two bounds, in ascending order. A gap
/// that crosses a bound is shortened to its values between the bounds. Contracts see it as the list
/// of the ranges still to come. Not in range-set-blaze.
#[derive(Debug, Drop)]
pub struct GapsIn<'a, T: Integer> {
    // The first and the last value still to come, or `None` if there is none.
    pub(crate) rest: Option<Run<T>>,
    // The runs between those two values.
    pub(crate) entries: Range<'a, T, T>,
}

impl<'a, T: Integer> Model for GapsIn<'a, T> {
    ghost use Rattle.std.specs.Prelude.{List};
    ghost use Rattle.std.specs.declared.ops.RangeInclusive.{RangeInclusive};
    ghost use Rattle.rsb_storage.specs.GapsIn.{gaps_left, ranges_at, AreGapsLeft};

    ghost Value = { List (RangeInclusive T) };

    ghost view = { λ s. ranges_at T.value_at (gaps_left T.rank s.rest s.entries) };

    ghost invariant = { λ s. AreGapsLeft T.rank T.value_count s.rest s.entries };
}

/// `gaps.clone()?`: returns a copy with the same ranges still to come. It never fails.
impl<'a, T: Integer> Clone for GapsIn<'a, T> {
    ghost is_clone = { λ gaps copy. copy ≡ gaps };

    ghost is_infallible = { λ _. ⊤ };

    fn clone(&self) -> Result<Self, AllocError> {
        Ok(GapsIn {
            rest: self.rest,
            entries: self.entries.clone()?,
        })
    }
}

impl<'a, T: Integer> Iterator for GapsIn<'a, T> {
    type Item = RangeInclusive<T>;

    ghost can_next = { λ s. IsCanonicalIn T.value_count (intervals_of T.rank s) };

    ghost next_gives = { YieldsFirst (λ s. s) };

    ghost remaining = { item_count (λ s. s) };

    #[inline(always)]
    fn next(&mut self) -> Option<RangeInclusive<T>> {
        let gap = take_first(&mut self.rest, &mut self.entries)?;
        Some(gap.start..=gap.end)
    }
}

impl<'a, T: Integer> FusedIterator for GapsIn<'a, T> {}

impl<'a, T: Integer> DoubleEndedIterator for GapsIn<'a, T> {
    ghost can_next_back = { λ s. IsCanonicalIn T.value_count (intervals_of T.rank s) };

    ghost next_back_gives = { YieldsLast (λ s. s) };

    fn next_back(&mut self) -> Option<RangeInclusive<T>> {
        let gap = take_last(&mut self.rest, &mut self.entries)?;
        Some(gap.start..=gap.end)
    }
}

impl<'a, T: Integer> Draw<T> for GapsIn<'a, T> {
    ghost can_draw = { ⟦<GapsIn<'a, T> as Iterator>⟧.can_next };

    ghost draw_gives = { ⟦<GapsIn<'a, T> as Iterator>⟧.next_gives };

    ghost draws_left = { ⟦<GapsIn<'a, T> as Iterator>⟧.remaining };

    ghost may_give = { listed_may_give T.rank (λ s. s) };

    #[inline(always)]
    fn draw(&mut self) -> Option<RangeInclusive<T>> {
        self.next()
    }

    ghost answers = { listed-answers T.rank (λ s. s) };

    ghost sorted = { λ s canonical. canonical_stream-starts T.value_count _ _
        (listed-keeps T.rank (λ s. s) T.value_count s canonical) };
}

impl<'a, T: Integer> SortedStarts<T> for GapsIn<'a, T> {
    ghost drawn = { drawn-itself };
}

impl<'a, T: Integer> DrawDisjoint<T> for GapsIn<'a, T> {
    ghost canonical = { λ s canonical.
        (listed-keeps T.rank (λ s. s) T.value_count s canonical).all };
}

impl<'a, T: Integer> SortedDisjoint<T> for GapsIn<'a, T> {}
