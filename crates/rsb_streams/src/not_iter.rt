//! The complement of a stream.

ghost use Rattle.rsb_streams.specs.NotIter.{not_iter, ComplementsUndrawn};
ghost use Rattle.rsb_streams.specs.laws.NotIter.{not_iter-disjoint};
ghost use Rattle.rsb_streams.specs.Results.{MakesComplement, MakesComplementUndrawn};
ghost use Rattle.rsb_streams.specs.laws.Stream.{canonical_stream-starts, drawn-itself};

use crate::draw::Draw;
use crate::sorted_disjoint::{DrawDisjoint, SortedDisjoint, SortedStarts};
use rsb_integer::Integer;
use std::iter::FusedIterator;
use std::ops::RangeInclusive;

/// The gaps of a stream, from the least value of the type to the greatest. It holds no range of the
/// stream. (`NotIter` in range-set-blaze.)
#[derive(Clone, Debug, Drop)]
pub struct NotIter<T, I> {
    iter: I,
    // Where the next gap would start, or `None` after a range or a gap reached the greatest value.
    start: Option<T>,
}

impl<T: Integer, I: DrawDisjoint<T>> NotIter<T, I> {
    /// Returns the complement of a ready stream. Draws nothing yet. (`NotIter::new`.)
    pub fn new(iter: I) -> Self
        requires { I.can_draw iter }
        ensures made { MakesComplement T.Integer.own I.Draw ⟦<NotIter<T, I> as Draw<T>>⟧
            iter result }
        ensures undrawn { ComplementsUndrawn iter result }
    {
        NotIter::from(iter)
    }
}

impl<T: Integer, I: DrawDisjoint<T>> From<I> for NotIter<T, I> {
    // Makes the complement of a ready stream. Draws nothing yet.
    ghost from_gives = { λ iter result. I.can_draw iter
        → MakesComplementUndrawn T.Integer.own I.Draw ⟦<NotIter<T, I> as Draw<T>>⟧ iter result };

    fn from(iter: I) -> Self {
        NotIter {
            iter,
            start: Some(T::min_value()),
        }
    }
}

impl<T: Integer, I: Draw<T>> Iterator for NotIter<T, I> {
    type Item = RangeInclusive<T>;

    ghost can_next = { (not_iter T.Integer.own I.Draw).can_draw };

    ghost next_gives = { (not_iter T.Integer.own I.Draw).draw_gives };

    ghost remaining = { (not_iter T.Integer.own I.Draw).draws_left };

    fn next(&mut self) -> Option<RangeInclusive<T>> {
        while let Some(start) = self.start {
            let Some(range) = self.iter.draw() else {
                self.start = None;
                return Some(start..=T::max_value());
            };
            let (past_gap, end) = range.into_inner();
            self.start = end.checked_add_one();
            if start < past_gap {
                return Some(start..=past_gap.sub_one());
            }
        }
        None
    }
}

impl<T: Integer, I: Draw<T>> FusedIterator for NotIter<T, I> {}

impl<T: Integer, I: Draw<T>> Draw<T> for NotIter<T, I> {
    ghost can_draw = { ⟦<NotIter<T, I> as Iterator>⟧.can_next };

    ghost draw_gives = { ⟦<NotIter<T, I> as Iterator>⟧.next_gives };

    ghost draws_left = { ⟦<NotIter<T, I> as Iterator>⟧.remaining };

    ghost may_give = { (not_iter T.Integer.own I.Draw).may_give };

    fn draw(&mut self) -> Option<RangeInclusive<T>> {
        self.next()
    }

    ghost answers = { λ s t item gives. gives.answers };

    ghost sorted = { λ s ready. canonical_stream-starts T.value_count _ _
        (not_iter-disjoint T.Integer.own ⟦<I as Draw<T>>⟧ I.sorted s ready) };
}

impl<T: Integer, I: Draw<T>> SortedStarts<T> for NotIter<T, I> {
    ghost drawn = { drawn-itself };
}

impl<T: Integer, I: Draw<T>> DrawDisjoint<T> for NotIter<T, I> {
    ghost canonical = { λ s ready.
        (not_iter-disjoint T.Integer.own ⟦<I as Draw<T>>⟧ I.sorted s ready).all };
}

impl<T: Integer, I: Draw<T>> SortedDisjoint<T> for NotIter<T, I> {}
