//! `SkipWhile` over a stream is a stream: it gives the first range that fails a test and all ranges
//! after it.

ghost use Rattle.std.specs.Iterator.Adapters.{skip_while_done_skipping, skip_while_source};
ghost use Rattle.rsb_streams.specs.laws.Adapter.{skip_while-drawn, skip_while-sorted};
ghost use Rattle.rsb_streams.specs.Adapters.{skip_while_draws};
ghost use Rattle.rsb_streams.specs.laws.Part.{part-canonical, rest-is_part};

use crate::draw::Draw;
use crate::sorted_disjoint::{DrawDisjoint, SortedDisjoint, SortedStarts};
use rsb_integer::Integer;
use std::iter::SkipWhile;
use std::ops::RangeInclusive;

impl<
    T: Integer,
    I: Iterator<Item = RangeInclusive<T>> + Draw<T>,
    P: FnMut(&RangeInclusive<T>) -> bool,
> Draw<T> for SkipWhile<I, P> {
    ghost can_draw = { (skip_while_draws T.Integer.own I.Draw I.Iterator P.FnMut
        ⟦<SkipWhile<I, P> as Iterator>⟧).can_draw };

    ghost draw_gives = { (skip_while_draws T.Integer.own I.Draw I.Iterator P.FnMut
        ⟦<SkipWhile<I, P> as Iterator>⟧).draw_gives };

    ghost draws_left = { (skip_while_draws T.Integer.own I.Draw I.Iterator P.FnMut
        ⟦<SkipWhile<I, P> as Iterator>⟧).draws_left };

    ghost may_give = { (skip_while_draws T.Integer.own I.Draw I.Iterator P.FnMut
        ⟦<SkipWhile<I, P> as Iterator>⟧).may_give };

    fn draw(&mut self) -> Option<RangeInclusive<T>> {
        self.next()
    }

    ghost answers = { λ s t item gives. gives.answers };

    ghost sorted = { λ s ready. skip_while-sorted T.Integer.own ⟦<I as Draw<T>>⟧ ⟦<I as Iterator>⟧
        I.answers I.sorted ready.drawn P.FnMut s ready };
}

impl<T: Integer, I: SortedStarts<T>, P: FnMut(&RangeInclusive<T>) -> bool> SortedStarts<T>
    for SkipWhile<I, P> {
    fn mark_sorted(&self) {}

    ghost drawn = { skip_while-drawn T.Integer.own ⟦<I as Draw<T>>⟧ ⟦<I as Iterator>⟧ I.answers
        I.sorted I.drawn P.FnMut };
}

impl<
    T: Integer,
    I: Iterator<Item = RangeInclusive<T>> + DrawDisjoint<T>,
    P: FnMut(&RangeInclusive<T>) -> bool,
> DrawDisjoint<T> for SkipWhile<I, P> {
    fn mark_disjoint(&self) {}

    ghost canonical = { λ s ready. part-canonical T.value_count
        (rest-is_part (skip_while_done_skipping s))
        (I.may_give (skip_while_source s)) (I.canonical (skip_while_source s) ready.source) };
}

impl<T: Integer, I: Drop, P: Drop> SortedDisjoint<T> for SkipWhile<I, P>
where
    SkipWhile<I, P>: SortedStarts<T> + DrawDisjoint<T>,
{}
