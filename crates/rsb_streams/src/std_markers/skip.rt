//! `Skip` over a stream is a stream: it leaves out the given number of ranges and gives the rest.

ghost use Rattle.std.specs.Iterator.Adapters.{skip_count, skip_source};
ghost use Rattle.rsb_streams.specs.laws.Adapter.{skip-drawn, skip-sorted};
ghost use Rattle.rsb_streams.specs.Adapters.{skip_draws};
ghost use Rattle.rsb_streams.specs.laws.Part.{part-canonical, skip-is_part};

use crate::draw::Draw;
use crate::sorted_disjoint::{DrawDisjoint, SortedDisjoint, SortedStarts};
use rsb_integer::Integer;
use std::iter::Skip;
use std::ops::RangeInclusive;

impl<T: Integer, I: Iterator<Item = RangeInclusive<T>> + Draw<T>> Draw<T> for Skip<I> {
    ghost can_draw = { (skip_draws T.Integer.own I.Draw I.Iterator
        ⟦<Skip<I> as Iterator>⟧).can_draw };

    ghost draw_gives = { (skip_draws T.Integer.own I.Draw I.Iterator
        ⟦<Skip<I> as Iterator>⟧).draw_gives };

    ghost draws_left = { (skip_draws T.Integer.own I.Draw I.Iterator
        ⟦<Skip<I> as Iterator>⟧).draws_left };

    ghost may_give = { (skip_draws T.Integer.own I.Draw I.Iterator
        ⟦<Skip<I> as Iterator>⟧).may_give };

    fn draw(&mut self) -> Option<RangeInclusive<T>> {
        self.next()
    }

    ghost answers = { λ s t item gives. gives.answers };

    ghost sorted = { λ s ready. skip-sorted T.Integer.own ⟦<I as Draw<T>>⟧ ⟦<I as Iterator>⟧
        I.answers I.sorted ready.drawn s ready };
}

impl<T: Integer, I: SortedStarts<T>> SortedStarts<T> for Skip<I> {
    ghost drawn = { skip-drawn T.Integer.own ⟦<I as Draw<T>>⟧ ⟦<I as Iterator>⟧ I.answers
        I.sorted I.drawn };
}

impl<T: Integer, I: Iterator<Item = RangeInclusive<T>> + DrawDisjoint<T>> DrawDisjoint<T>
    for Skip<I> {
    ghost canonical = { λ s ready. part-canonical T.value_count
        (skip-is_part I.next_gives (skip_source s) (skip_count s))
        (I.may_give (skip_source s)) (I.canonical (skip_source s) ready.source) };
}

impl<T: Integer, I: SortedStarts<T> + DrawDisjoint<T>> SortedDisjoint<T> for Skip<I> {}
