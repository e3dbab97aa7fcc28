//! The ranges of a map, one after the other, without their values. They may touch.

ghost use Rattle.std.specs.Iterator.{YieldsFirst, item_count};
ghost use Rattle.rsb_integer.specs.Rank.{intervals_of};
ghost use Rattle.rsb_streams.specs.Listed.{listed_may_give};
ghost use Rattle.rsb_streams.specs.laws.Listed.{listed-answers};
ghost use Rattle.rsb_streams.specs.laws.Stream.{drawn-itself};
ghost use Rattle.rsb_streams.specs.Touching.{IsTouchingIn};
ghost use Rattle.rsb_streams.specs.laws.Touching.{touching-starts};
ghost use Rattle.range_map_blaze.specs.KeyRanges.{listed-touches};

use rsb_integer::Integer;
use rsb_streams::{Draw, SortedStarts, SortedTouching};
use std::collections::btree_map::Iter;
use std::iter::FusedIterator;
use std::marker::Model;
use std::ops::RangeInclusive;

/// An iterator over the ranges of a map, in ascending order. Ranges that touch have different
/// values. Contracts see it as the list of the ranges still to come. Not in range-set-blaze.
#[derive(Drop)]
pub struct KeyRanges<'a, T: Integer, V> {
    pub(crate) entries: Iter<'a, T, (T, V)>,
}

impl<'a, T: Integer, V> Model for KeyRanges<'a, T, V> {
    ghost use Rattle.std.specs.Prelude.{List};
    ghost use Rattle.std.specs.declared.ops.RangeInclusive.{RangeInclusive};
    ghost use Rattle.range_map_blaze.specs.Storage.{key_ranges_of};

    ghost Value = { List (RangeInclusive T) };

    ghost view = { λ s. key_ranges_of s.entries };
}

impl<'a, T: Integer, V> Iterator for KeyRanges<'a, T, V> {
    type Item = RangeInclusive<T>;

    ghost can_next = { λ s. IsTouchingIn T.value_count (intervals_of T.rank s) };

    ghost next_gives = { YieldsFirst (λ s. s) };

    ghost remaining = { item_count (λ s. s) };

    fn next(&mut self) -> Option<RangeInclusive<T>> {
        let (start, rest) = self.entries.next()?;
        Some(*start..=rest.0)
    }
}

impl<'a, T: Integer, V> FusedIterator for KeyRanges<'a, T, V> {}

impl<'a, T: Integer, V> Draw<T> for KeyRanges<'a, T, V> {
    ghost can_draw = { ⟦<KeyRanges<'a, T, V> as Iterator>⟧.can_next };

    ghost draw_gives = { ⟦<KeyRanges<'a, T, V> as Iterator>⟧.next_gives };

    ghost draws_left = { ⟦<KeyRanges<'a, T, V> as Iterator>⟧.remaining };

    ghost may_give = { listed_may_give T.rank (λ s. s) };

    fn draw(&mut self) -> Option<RangeInclusive<T>> {
        self.next()
    }

    ghost answers = { listed-answers T.rank (λ s. s) };

    ghost sorted = { λ s touching. touching-starts T.value_count _ _
        (listed-touches T.rank T.value_count s touching) };
}

impl<'a, T: Integer, V> SortedStarts<T> for KeyRanges<'a, T, V> {
    ghost drawn = { drawn-itself };
}

impl<'a, T: Integer, V> SortedTouching<T> for KeyRanges<'a, T, V> {
    ghost touching = { λ s touching. (listed-touches T.rank T.value_count s touching).all };
}
