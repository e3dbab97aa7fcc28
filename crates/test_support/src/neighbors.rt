//! A user-defined stream of ranges that may touch: the ranges of a table.

ghost use Rattle.std.specs.Prelude.{◌+◌, ◌≤◌, ◌<◌, MatchOption, length};
ghost use Rattle.std.specs.Iterator.{at_most};
ghost use Rattle.std.proofs.Common.{arith, rules};
ghost use Rattle.rsb_integer.specs.Rank.{interval_of};
ghost use Rattle.rsb_streams.specs.laws.Ascending.{touching-keeps};
ghost use Rattle.rsb_streams.specs.Calls.{gives_by};
ghost use Rattle.rsb_streams.specs.laws.Calls.{gives_by-answers};
ghost use Rattle.rsb_streams.specs.laws.Stream.{drawn-itself};
ghost use Rattle.rsb_streams.specs.laws.Touching.{touching-starts};

use rsb_integer::Integer;
use rsb_streams::{Draw, SortedStarts, SortedTouching};
use std::iter::FusedIterator;
use std::ops::RangeInclusive;

/// A stream of the ranges of a table. It ends before the first range that is empty, or that does
/// not start past the end of the one before.
#[derive(Drop)]
pub struct Neighbors<'a> {
    /// The ends of the ranges that are left.
    ends: &'a [(u8, u8)],
    /// The least value that the next range may contain.
    low: u16,
}

impl<'a> Iterator for Neighbors<'a> {
    type Item = RangeInclusive<u8>;

    // A range starts at the least value or later, and the next one starts past its end.
    ghost next_gives = { λ s item t. MatchOption item (Unit {0}) (λ range.
        (s.low ≤ (interval_of ⟦<u8 as Integer>⟧.rank range).first)
        × ((interval_of ⟦<u8 as Integer>⟧.rank range).first
        ≤ (interval_of ⟦<u8 as Integer>⟧.rank range).last)
        × ((interval_of ⟦<u8 as Integer>⟧.rank range).last < 256)
        × ((interval_of ⟦<u8 as Integer>⟧.rank range).last + 1 ≤ t.low)
        × (length t.ends.now < length s.ends.now)) };

    ghost remaining = { λ s. at_most (length s.ends.now) };

    fn next(&mut self) -> Option<RangeInclusive<u8>> {
        let (first, others) = self.ends.split_first()?;
        let (start, end) = *first;
        if u16::from(start) < self.low || end < start {
            return None;
        }
        self.ends = others;
        self.low = u16::from(end) + 1;
        Some(start..=end)
    }
}

impl<'a> FusedIterator for Neighbors<'a> {}

impl<'a> Draw<u8> for Neighbors<'a> {
    ghost can_draw = { ⟦<Neighbors<'a> as Iterator>⟧.can_next };

    ghost draw_gives = { ⟦<Neighbors<'a> as Iterator>⟧.next_gives };

    ghost draws_left = { ⟦<Neighbors<'a> as Iterator>⟧.remaining };

    // The lists that its calls may give.
    ghost may_give = { gives_by ⟦<u8 as Integer>⟧.rank ⟦<Neighbors<'a> as Iterator>⟧.next_gives };

    fn draw(&mut self) -> Option<RangeInclusive<u8>> {
        self.next()
    }

    ghost answers = { gives_by-answers ⟦<u8 as Integer>⟧.rank
        ⟦<Neighbors<'a> as Iterator>⟧.next_gives };

    // No range starts before the least value.
    ghost sorted = { λ s can. touching-starts ⟦<u8 as Integer>⟧.value_count _ _
        (touching-keeps ⟦<u8 as Integer>⟧.rank ⟦<u8 as Integer>⟧.value_count
        ⟦<Neighbors<'a> as Iterator>⟧.can_next ⟦<Neighbors<'a> as Iterator>⟧.next_gives
        ⟦<Neighbors<'a> as Iterator>⟧.remaining (λ s. s.low)
        (λ s t range can call. Prim.search (rules, arith)) s can tt) };
}

impl<'a> SortedStarts<u8> for Neighbors<'a> {
    ghost drawn = { drawn-itself };
}

impl<'a> SortedTouching<u8> for Neighbors<'a> {
    ghost touching = { λ s can.
        (touching-keeps ⟦<u8 as Integer>⟧.rank ⟦<u8 as Integer>⟧.value_count
        ⟦<Neighbors<'a> as Iterator>⟧.can_next ⟦<Neighbors<'a> as Iterator>⟧.next_gives
        ⟦<Neighbors<'a> as Iterator>⟧.remaining (λ s. s.low)
        (λ s t range can call. Prim.search (rules, arith)) s can tt).all };
}

/// Returns a stream of the ranges of a table, which may touch.
pub fn neighbors_of<'a>(ends: &'a [(u8, u8)]) -> Neighbors<'a>
    ensures { ⟦<Neighbors<'a> as Draw<u8>>⟧.can_draw result }
{
    Neighbors { ends, low: 0 }
}
