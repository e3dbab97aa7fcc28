//! A stream that counts its ranges as they are drawn.

ghost use Rattle.std.specs.Prelude.{◌≡◌};

use range_set_blaze::{Draw, DrawDisjoint, Integer, SortedDisjoint, SortedStarts};
use std::cell::Cell;
use std::iter::FusedIterator;
use std::marker::Model;
use std::ops::RangeInclusive;

/// A stream that gives the ranges of another stream, and counts them in a cell that it borrows. The
/// count stops at the greatest `usize`, and the end of the stream is not counted. Not in
/// range-set-blaze.
///
/// Contracts see it as the other stream, so the laws of that stream hold for it. Contracts cannot
/// see what a cell holds.
#[derive(Drop)]
pub struct Counted<'a, I> {
    iter: I,
    drawn: &'a Cell<usize>,
}

impl<'a, I> Model for Counted<'a, I> {
    ghost Value = { I };

    ghost view = { λ s. s.iter };
}

impl<'a, I> Counted<'a, I> {
    /// Returns the stream, which counts each range from now on. It does not allocate. Not in
    /// range-set-blaze.
    pub fn new(iter: I, drawn: &'a Cell<usize>) -> Self
        ensures { result ≡ iter }
    {
        Counted { iter, drawn }
    }

    /// Counts a range.
    fn count_one(&self) {
        self.drawn.set(self.drawn.get().saturating_add(1));
    }
}

impl<'a, I: Iterator> Iterator for Counted<'a, I> {
    type Item = I::Item;

    ghost can_next = { I.can_next };

    ghost next_gives = { I.next_gives };

    ghost remaining = { I.remaining };

    fn next(&mut self) -> Option<I::Item> {
        let range = self.iter.next()?;
        self.count_one();
        Some(range)
    }
}

impl<'a, I: FusedIterator> FusedIterator for Counted<'a, I> {}

impl<'a, T: Integer, I: Draw<T>> Draw<T> for Counted<'a, I> {
    ghost can_draw = { I.can_draw };

    ghost draw_gives = { I.draw_gives };

    ghost draws_left = { I.draws_left };

    ghost may_give = { I.may_give };

    // Streams built on this one draw by this call, so it counts as `next` does.
    fn draw(&mut self) -> Option<RangeInclusive<T>> {
        let range = self.iter.draw()?;
        self.count_one();
        Some(range)
    }

    ghost answers = { I.answers };

    ghost sorted = { I.sorted };
}

impl<'a, T: Integer, I: SortedStarts<T>> SortedStarts<T> for Counted<'a, I> {
    ghost drawn = { I.drawn };
}

impl<'a, T: Integer, I: DrawDisjoint<T>> DrawDisjoint<T> for Counted<'a, I> {
    ghost canonical = { I.canonical };
}

impl<'a, T: Integer, I: SortedDisjoint<T>> SortedDisjoint<T> for Counted<'a, I> {}
