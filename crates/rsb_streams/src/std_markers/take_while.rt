//! `TakeWhile` over a stream is a stream: it gives the ranges before the first that fails a test.

ghost use Rattle.std.specs.Iterator.Adapters.{take_while_done, take_while_source};
ghost use Rattle.rsb_streams.specs.laws.Adapter.{take_while-drawn, take_while-sorted};
ghost use Rattle.rsb_streams.specs.Adapters.{take_while_draws};
ghost use Rattle.rsb_streams.specs.laws.Part.{front-is_part, part-canonical};

use crate::draw::Draw;
use crate::sorted_disjoint::{DrawDisjoint, SortedDisjoint, SortedStarts};
use rsb_integer::Integer;
use std::iter::TakeWhile;
use std::ops::RangeInclusive;

impl<
    T: Integer,
    I: Iterator<Item = RangeInclusive<T>> + Draw<T>,
    P: FnMut(&RangeInclusive<T>) -> bool,
> Draw<T> for TakeWhile<I, P> {
    ghost can_draw = { (take_while_draws T.Integer.own I.Draw I.Iterator P.FnMut
        ⟦<TakeWhile<I, P> as Iterator>⟧).can_draw };

    ghost draw_gives = { (take_while_draws T.Integer.own I.Draw I.Iterator P.FnMut
        ⟦<TakeWhile<I, P> as Iterator>⟧).draw_gives };

    ghost draws_left = { (take_while_draws T.Integer.own I.Draw I.Iterator P.FnMut
        ⟦<TakeWhile<I, P> as Iterator>⟧).draws_left };

    ghost may_give = { (take_while_draws T.Integer.own I.Draw I.Iterator P.FnMut
        ⟦<TakeWhile<I, P> as Iterator>⟧).may_give };

    fn draw(&mut self) -> Option<RangeInclusive<T>> {
        self.next()
    }

    ghost answers = { λ s t item gives. gives.answers };

    ghost sorted = { λ s ready. take_while-sorted T.Integer.own ⟦<I as Draw<T>>⟧ ⟦<I as Iterator>⟧
        I.answers I.sorted ready.drawn P.FnMut s ready };
}

impl<T: Integer, I: SortedStarts<T>, P: FnMut(&RangeInclusive<T>) -> bool> SortedStarts<T>
    for TakeWhile<I, P> {
    fn mark_sorted(&self) {}

    ghost drawn = { take_while-drawn T.Integer.own ⟦<I as Draw<T>>⟧ ⟦<I as Iterator>⟧ I.answers
        I.sorted I.drawn P.FnMut };
}

impl<
    T: Integer,
    I: Iterator<Item = RangeInclusive<T>> + DrawDisjoint<T>,
    P: FnMut(&RangeInclusive<T>) -> bool,
> DrawDisjoint<T> for TakeWhile<I, P> {
    fn mark_disjoint(&self) {}

    ghost canonical = { λ s ready. part-canonical T.value_count (front-is_part (take_while_done s))
        (I.may_give (take_while_source s)) (I.canonical (take_while_source s) ready.source) };
}

impl<T: Integer, I: Drop, P: Drop> SortedDisjoint<T> for TakeWhile<I, P>
where
    TakeWhile<I, P>: SortedStarts<T> + DrawDisjoint<T>,
{}
