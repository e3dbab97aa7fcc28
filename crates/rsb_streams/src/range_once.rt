//! One range as a stream.

ghost use Rattle.std.specs.Iterator.{YieldsFirst, YieldsLast, item_count};
ghost use Rattle.rsb_integer.specs.Rank.{interval_of, intervals_of};
ghost use Rattle.rsb_integer.specs.Runs.{IsCanonicalIn};
ghost use Rattle.rsb_streams.specs.Listed.{listed_may_give};
ghost use Rattle.rsb_streams.specs.laws.Listed.{listed-answers, listed-keeps};
ghost use Rattle.rsb_streams.specs.Stream.{◌⊆◌, just, run_if_any, IsReadyAnd};
ghost use Rattle.rsb_streams.specs.laws.Stream.{canonical_stream-starts, drawn-itself};

use crate::draw::Draw;
use crate::sorted_disjoint::{DrawDisjoint, SortedDisjoint, SortedStarts};
use rsb_integer::Integer;
use std::iter::FusedIterator;
use std::marker::Model;
use std::ops::RangeInclusive;

/// One range as a stream that gives it from either end. Contracts see the stream as the list of the
/// ranges still to come. (`RangeOnce` in range-set-blaze.)
#[derive(Drop)]
pub struct RangeOnce<T> {
    range: Option<RangeInclusive<T>>,
}

impl<T> Model for RangeOnce<T> {
    ghost use Rattle.std.specs.Prelude.{List, option_to_list};
    ghost use Rattle.std.specs.declared.ops.RangeInclusive.{RangeInclusive};

    ghost Value = { List (RangeInclusive T) };

    ghost view = { λ s. option_to_list s.range };
}

impl<T: Integer> RangeOnce<T> {
    /// Returns a stream of the range, or of no ranges if it is empty. Does not allocate.
    /// (`RangeOnce::new`.)
    pub fn new(range: RangeInclusive<T>) -> Self
        ensures ready { ⟦<RangeOnce<T> as Draw<T>>⟧.can_draw result }
        ensures gives { ⟦<RangeOnce<T> as Draw<T>>⟧.may_give result
            ⊆ just (run_if_any (interval_of T.rank range)) }
    {
        RangeOnce::from(range)
    }
}

impl<T: Integer> From<RangeInclusive<T>> for RangeOnce<T> {
    ghost from_gives = { λ range result.
        IsReadyAnd ⟦<RangeOnce<T> as Draw<T>>⟧.can_draw result
        (⟦<RangeOnce<T> as Draw<T>>⟧.may_give result
        ⊆ just (run_if_any (interval_of T.rank range))) };

    fn from(range: RangeInclusive<T>) -> Self {
        // After these calls, both ends are known to be values.
        range.start().checked_add_one();
        range.end().checked_add_one();
        if range.is_empty() {
            return RangeOnce { range: None };
        }
        RangeOnce { range: Some(range) }
    }
}

impl<T: Integer> Iterator for RangeOnce<T> {
    type Item = RangeInclusive<T>;

    ghost can_next = { λ s. IsCanonicalIn T.value_count (intervals_of T.rank s) };

    ghost next_gives = { YieldsFirst (λ s. s) };

    ghost remaining = { item_count (λ s. s) };

    fn next(&mut self) -> Option<RangeInclusive<T>> {
        self.range.take()
    }

    fn size_hint(&self) -> (usize, Option<usize>) {
        let len = self.len();
        (len, Some(len))
    }
}

impl<T: Integer> DoubleEndedIterator for RangeOnce<T> {
    ghost next_back_gives = { YieldsLast (λ s. s) };

    fn next_back(&mut self) -> Option<RangeInclusive<T>> {
        self.range.take()
    }
}

impl<T: Integer> ExactSizeIterator for RangeOnce<T> {
    fn len(&self) -> usize {
        match &self.range {
            Some(_) => 1,
            None => 0,
        }
    }
}

impl<T: Integer> FusedIterator for RangeOnce<T> {}

impl<T: Integer> Draw<T> for RangeOnce<T> {
    ghost can_draw = { ⟦<RangeOnce<T> as Iterator>⟧.can_next };

    ghost draw_gives = { ⟦<RangeOnce<T> as Iterator>⟧.next_gives };

    ghost draws_left = { ⟦<RangeOnce<T> as Iterator>⟧.remaining };

    ghost may_give = { listed_may_give T.rank (λ s. s) };

    fn draw(&mut self) -> Option<RangeInclusive<T>> {
        self.next()
    }

    ghost answers = { listed-answers T.rank (λ s. s) };

    ghost sorted = { λ s canonical. canonical_stream-starts T.value_count _ _
        (listed-keeps T.rank (λ s. s) T.value_count s canonical) };
}

impl<T: Integer> SortedStarts<T> for RangeOnce<T> {
    ghost drawn = { drawn-itself };
}

impl<T: Integer> DrawDisjoint<T> for RangeOnce<T> {
    ghost canonical = { λ s canonical.
        (listed-keeps T.rank (λ s. s) T.value_count s canonical).all };
}

impl<T: Integer> SortedDisjoint<T> for RangeOnce<T> {}
