//! The ranges of a table, as a stream and as a list.

ghost use Rattle.std.specs.Prelude.{◌+◌, ◌≤◌, ◌<◌, MatchOption, length};
ghost use Rattle.std.specs.Iterator.{at_most};
ghost use Rattle.std.proofs.Common.{arith, rules};
ghost use Rattle.rsb_integer.specs.Rank.{interval_of};
ghost use Rattle.rsb_streams.specs.laws.Ascending.{ascending-keeps};
ghost use Rattle.rsb_streams.specs.Calls.{gives_by};
ghost use Rattle.rsb_streams.specs.laws.Calls.{gives_by-answers};
ghost use Rattle.rsb_streams.specs.laws.Stream.{canonical_stream-starts, drawn-itself};

use rsb_integer::Integer;
use rsb_streams::{Draw, DrawDisjoint, SortedDisjoint, SortedStarts};
use std::alloc::{AllocError, Global};
use std::iter::FusedIterator;
use std::ops::RangeInclusive;

/// A stream of the ranges of a table. It ends before the first range that is empty, or that does
/// not leave a gap after the one before.
#[derive(Clone, Debug, Drop)]
pub struct Listed<'a> {
    /// The ends of the ranges that are left.
    ends: &'a [(u8, u8)],
    /// The least value that the next range may contain.
    low: u16,
}

impl<'a> Iterator for Listed<'a> {
    type Item = RangeInclusive<u8>;

    // A range starts at the least value or later, and the next one leaves a gap after it.
    ghost next_gives = { λ s item t. MatchOption item (Unit {0}) (λ range.
        (s.low ≤ (interval_of ⟦<u8 as Integer>⟧.rank range).first)
        × ((interval_of ⟦<u8 as Integer>⟧.rank range).first
        ≤ (interval_of ⟦<u8 as Integer>⟧.rank range).last)
        × ((interval_of ⟦<u8 as Integer>⟧.rank range).last < 256)
        × ((interval_of ⟦<u8 as Integer>⟧.rank range).last + 2 ≤ t.low)
        × (length t.ends.now < length s.ends.now)) };

    ghost remaining = { λ s. at_most (length s.ends.now) };

    fn next(&mut self) -> Option<RangeInclusive<u8>> {
        let (first, others) = self.ends.split_first()?;
        let (start, end) = *first;
        if u16::from(start) < self.low || end < start {
            return None;
        }
        self.ends = others;
        self.low = u16::from(end) + 2;
        Some(start..=end)
    }
}

impl<'a> FusedIterator for Listed<'a> {}

impl<'a> Draw<u8> for Listed<'a> {
    ghost can_draw = { ⟦<Listed<'a> as Iterator>⟧.can_next };

    ghost draw_gives = { ⟦<Listed<'a> as Iterator>⟧.next_gives };

    ghost draws_left = { ⟦<Listed<'a> as Iterator>⟧.remaining };

    // The lists that its calls may give.
    ghost may_give = { gives_by ⟦<u8 as Integer>⟧.rank ⟦<Listed<'a> as Iterator>⟧.next_gives };

    fn draw(&mut self) -> Option<RangeInclusive<u8>> {
        self.next()
    }

    ghost answers = { gives_by-answers ⟦<u8 as Integer>⟧.rank
        ⟦<Listed<'a> as Iterator>⟧.next_gives };

    // No range starts before the least value.
    ghost sorted = { λ s can. canonical_stream-starts ⟦<u8 as Integer>⟧.value_count _ _
        (ascending-keeps ⟦<u8 as Integer>⟧.rank ⟦<u8 as Integer>⟧.value_count
        ⟦<Listed<'a> as Iterator>⟧.can_next ⟦<Listed<'a> as Iterator>⟧.next_gives
        ⟦<Listed<'a> as Iterator>⟧.remaining (λ s. s.low)
        (λ s t range can call. Prim.search (rules, arith)) s can tt) };
}

impl<'a> SortedStarts<u8> for Listed<'a> {
    ghost drawn = { drawn-itself };
}

impl<'a> DrawDisjoint<u8> for Listed<'a> {
    ghost canonical = { λ s can.
        (ascending-keeps ⟦<u8 as Integer>⟧.rank ⟦<u8 as Integer>⟧.value_count
        ⟦<Listed<'a> as Iterator>⟧.can_next ⟦<Listed<'a> as Iterator>⟧.next_gives
        ⟦<Listed<'a> as Iterator>⟧.remaining (λ s. s.low)
        (λ s t range can call. Prim.search (rules, arith)) s can tt).all };
}

impl<'a> SortedDisjoint<u8> for Listed<'a> {}

/// Returns a stream of the ranges of a table.
pub fn stream_of<'a>(ends: &'a [(u8, u8)]) -> Listed<'a>
    ensures { ⟦<Listed<'a> as Draw<u8>>⟧.can_draw result }
{
    Listed { ends, low: 0 }
}

/// Returns a stream of the values 0, 10 and 20.
pub fn three_tens() -> Listed<'static>
    ensures { ⟦<Listed<'static> as Draw<u8>>⟧.can_draw result }
{
    stream_of(&[(0, 0), (10, 10), (20, 20)])
}

/// Returns the ranges of a table as a list, in the order of the table.
pub fn list_of<T: Integer>(
    alloc: Global,
    ends: &[(T, T)],
) -> Result<Vec<RangeInclusive<T>>, AllocError> {
    let mut ranges = Vec::new(alloc);
    for (start, end) in ends {
        ranges.push(*start..=*end)?;
    }
    Ok(ranges)
}
