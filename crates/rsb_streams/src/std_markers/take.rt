//! `Take` over a stream is a stream: it gives the first ranges, up to the given number.

ghost use Rattle.std.specs.Iterator.Adapters.{take_count, take_source};
ghost use Rattle.rsb_streams.specs.laws.Adapter.{take-drawn, take-sorted};
ghost use Rattle.rsb_streams.specs.Adapters.{take_draws};
ghost use Rattle.rsb_streams.specs.laws.Part.{part-canonical, take-is_part};

use crate::draw::Draw;
use crate::sorted_disjoint::{DrawDisjoint, SortedDisjoint, SortedStarts};
use rsb_integer::Integer;
use std::iter::Take;
use std::ops::RangeInclusive;

impl<T: Integer, I: Iterator<Item = RangeInclusive<T>> + Draw<T>> Draw<T> for Take<I> {
    ghost can_draw = { (take_draws T.Integer.own I.Draw I.Iterator
        ⟦<Take<I> as Iterator>⟧).can_draw };

    ghost draw_gives = { (take_draws T.Integer.own I.Draw I.Iterator
        ⟦<Take<I> as Iterator>⟧).draw_gives };

    ghost draws_left = { (take_draws T.Integer.own I.Draw I.Iterator
        ⟦<Take<I> as Iterator>⟧).draws_left };

    ghost may_give = { (take_draws T.Integer.own I.Draw I.Iterator
        ⟦<Take<I> as Iterator>⟧).may_give };

    fn draw(&mut self) -> Option<RangeInclusive<T>> {
        self.next()
    }

    ghost answers = { λ s t item gives. gives.answers };

    ghost sorted = { λ s ready. take-sorted T.Integer.own ⟦<I as Draw<T>>⟧ ⟦<I as Iterator>⟧
        I.answers I.sorted ready.drawn s ready };
}

impl<T: Integer, I: SortedStarts<T>> SortedStarts<T> for Take<I> {
    ghost drawn = { take-drawn T.Integer.own ⟦<I as Draw<T>>⟧ ⟦<I as Iterator>⟧ I.answers
        I.sorted I.drawn };
}

impl<T: Integer, I: Iterator<Item = RangeInclusive<T>> + DrawDisjoint<T>> DrawDisjoint<T>
    for Take<I> {
    ghost canonical = { λ s ready. part-canonical T.value_count (take-is_part (take_count s))
        (I.may_give (take_source s)) (I.canonical (take_source s) ready.source) };
}

impl<T: Integer, I: SortedStarts<T> + DrawDisjoint<T>> SortedDisjoint<T> for Take<I> {}
