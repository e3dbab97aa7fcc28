//! The runs of a set of addresses, one after the other.

ghost use Rattle.std.specs.Iterator.{YieldsFirst, item_count};
ghost use Rattle.range_set_blaze.specs.Rank.{intervals_of};
ghost use Rattle.range_set_blaze.specs.Runs.{IsCanonicalIn};
ghost use Rattle.rsb_streams.specs.Listed.{listed_may_give};
ghost use Rattle.rsb_streams.specs.laws.Listed.{listed-answers, listed-keeps};
ghost use Rattle.rsb_streams.specs.laws.Stream.{canonical_stream-starts, drawn-itself};

use crate::blocks::Address;
use range_set_blaze::{Draw, DrawDisjoint, SortedDisjoint, SortedStarts};
use std::iter::FusedIterator;
use std::marker::Model;
use std::ops::RangeInclusive;
use std::slice::Iter;

/// An iterator over the runs of a set of addresses, in ascending order. Contracts see it as the
/// list of the ranges still to come.
#[derive(Clone, Drop)]
pub struct AddressRanges<'a, T: Address> {
    pub(crate) runs: Iter<'a, (T, T)>,
}

impl<'a, T: Address> Model for AddressRanges<'a, T> {
    ghost use Rattle.std.specs.Prelude.{List};
    ghost use Rattle.std.specs.Slice.Iter.{iter_rest};
    ghost use Rattle.std.specs.declared.ops.RangeInclusive.{RangeInclusive};
    ghost use Rattle.range_set_blaze.specs.Rank.{ranges_of};

    ghost Value = { List (RangeInclusive T) };

    ghost view = { λ s. ranges_of (iter_rest s.runs) };
}

impl<'a, T: Address> Iterator for AddressRanges<'a, T> {
    type Item = RangeInclusive<T>;

    ghost can_next = { λ s. IsCanonicalIn T.value_count (intervals_of T.rank s) };

    ghost next_gives = { YieldsFirst (λ s. s) };

    ghost remaining = { item_count (λ s. s) };

    #[inline(always)]
    fn next(&mut self) -> Option<RangeInclusive<T>> {
        let run = self.runs.next()?;
        Some(run.0..=run.1)
    }
}

impl<'a, T: Address> FusedIterator for AddressRanges<'a, T> {}

impl<'a, T: Address> Draw<T> for AddressRanges<'a, T> {
    ghost can_draw = { ⟦<AddressRanges<'a, T> as Iterator>⟧.can_next };

    ghost draw_gives = { ⟦<AddressRanges<'a, T> as Iterator>⟧.next_gives };

    ghost draws_left = { ⟦<AddressRanges<'a, T> as Iterator>⟧.remaining };

    ghost may_give = { listed_may_give T.rank (λ s. s) };

    #[inline(always)]
    fn draw(&mut self) -> Option<RangeInclusive<T>> {
        self.next()
    }

    ghost answers = { listed-answers T.rank (λ s. s) };

    ghost sorted = { λ s canonical. canonical_stream-starts T.value_count _ _
        (listed-keeps T.rank (λ s. s) T.value_count s canonical) };
}

impl<'a, T: Address> SortedStarts<T> for AddressRanges<'a, T> {
    ghost drawn = { drawn-itself };
}

impl<'a, T: Address> DrawDisjoint<T> for AddressRanges<'a, T> {
    ghost canonical = { λ s canonical.
        (listed-keeps T.rank (λ s. s) T.value_count s canonical).all };
}

impl<'a, T: Address> SortedDisjoint<T> for AddressRanges<'a, T> {}
