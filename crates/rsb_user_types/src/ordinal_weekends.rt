//! An example of a user-defined stream: the weekends of a year.

ghost use Rattle.std.specs.Prelude.{◌≡◌, ◌+◌, ◌-◌, ◌^◌, ◌<◌, ◌≤◌, MatchOption};
ghost use Rattle.std.specs.Iterator.{at_most};
ghost use Rattle.std.proofs.Common.{arith, rules};
ghost use Rattle.range_set_blaze.specs.Rank.{interval_of};
ghost use Rattle.range_set_blaze.specs.laws.Ascending.{ascending-keeps};
ghost use Rattle.range_set_blaze.specs.Calls.{gives_by};
ghost use Rattle.range_set_blaze.specs.laws.Calls.{gives_by-answers};
ghost use Rattle.range_set_blaze.specs.Stream.{◌⊆◌, just};
ghost use Rattle.range_set_blaze.specs.laws.Stream.{canonical_stream-starts, drawn-itself};
ghost use Rattle.rsb_user_types.specs.Weekends.{weekends};

use range_set_blaze::{Draw, DrawDisjoint, Integer, SortedDisjoint, SortedStarts};
use std::iter::FusedIterator;
use std::ops::RangeInclusive;

/// A stream of the weekends of a year of 365 days that begins on a Sunday. Days are numbered from
/// 1, so the ranges are 1..=1, 7..=8, and so on every seven days to 364..=365. Not in
/// range-set-blaze.
#[derive(Clone, Debug, Drop)]
pub struct OrdinalWeekends {
    // The Saturday of the next weekend, or the first day of the year.
    start: u16,
    // The Sunday of that weekend.
    end: u16,
}

impl OrdinalWeekends {
    /// Returns all weekends of the year. It does not allocate. Not in range-set-blaze.
    pub fn new() -> Self
        ensures ready { ⟦<OrdinalWeekends as Draw<i32>>⟧.can_draw result }
        ensures gives { ⟦<OrdinalWeekends as Draw<i32>>⟧.may_give result ⊆ just weekends }
    {
        OrdinalWeekends { start: 1, end: 1 }
    }
}

impl Iterator for OrdinalWeekends {
    type Item = RangeInclusive<i32>;

    ghost can_next = { λ s. s.start ≤ s.end };

    // The next weekend begins on the sixth day after the Sunday of this one.
    ghost next_gives = { λ s item t. MatchOption item (365 < s.end) (λ range. (s.end ≤ 365)
        × (interval_of ⟦<i32 as Integer>⟧.rank range
        ≡ record { first = 2 ^ 31 + s.start; last = 2 ^ 31 + s.end })
        × (t.start ≡ s.end + 6) × (t.end ≡ s.end + 7)) };

    ghost remaining = { λ s. at_most (372 - s.end) };

    fn next(&mut self) -> Option<RangeInclusive<i32>> {
        if self.end > 365 {
            return None;
        }
        let weekend = i32::from(self.start)..=i32::from(self.end);
        self.start = self.end + 6;
        self.end += 7;
        Some(weekend)
    }
}

impl FusedIterator for OrdinalWeekends {}

impl Draw<i32> for OrdinalWeekends {
    ghost can_draw = { ⟦<OrdinalWeekends as Iterator>⟧.can_next };

    ghost draw_gives = { ⟦<OrdinalWeekends as Iterator>⟧.next_gives };

    ghost draws_left = { ⟦<OrdinalWeekends as Iterator>⟧.remaining };

    // A list may be given if calls of `next` can give it.
    ghost may_give = { gives_by ⟦<i32 as Integer>⟧.rank
        ⟦<OrdinalWeekends as Iterator>⟧.next_gives };

    fn draw(&mut self) -> Option<RangeInclusive<i32>> {
        self.next()
    }

    ghost answers = { gives_by-answers ⟦<i32 as Integer>⟧.rank
        ⟦<OrdinalWeekends as Iterator>⟧.next_gives };

    // No range starts before the next weekend.
    ghost sorted = { λ s can. canonical_stream-starts ⟦<i32 as Integer>⟧.value_count _ _
        (ascending-keeps ⟦<i32 as Integer>⟧.rank ⟦<i32 as Integer>⟧.value_count
        ⟦<OrdinalWeekends as Iterator>⟧.can_next ⟦<OrdinalWeekends as Iterator>⟧.next_gives
        ⟦<OrdinalWeekends as Iterator>⟧.remaining (λ s. 2 ^ 31 + s.start)
        (λ s t range can call. Prim.search (rules, arith)) s can tt) };
}

impl SortedStarts<i32> for OrdinalWeekends {
    ghost drawn = { drawn-itself };
}

impl DrawDisjoint<i32> for OrdinalWeekends {
    ghost canonical = { λ s can.
        (ascending-keeps ⟦<i32 as Integer>⟧.rank ⟦<i32 as Integer>⟧.value_count
        ⟦<OrdinalWeekends as Iterator>⟧.can_next ⟦<OrdinalWeekends as Iterator>⟧.next_gives
        ⟦<OrdinalWeekends as Iterator>⟧.remaining (λ s. 2 ^ 31 + s.start)
        (λ s t range can call. Prim.search (rules, arith)) s can tt).all };
}

impl SortedDisjoint<i32> for OrdinalWeekends {}
