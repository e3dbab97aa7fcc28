//! `Filter` over a stream is a stream: it gives the ranges that pass a test.

ghost use Rattle.std.specs.Iterator.Adapters.{filter_source};
ghost use Rattle.rsb_streams.specs.laws.Adapter.{filter-drawn, filter-sorted};
ghost use Rattle.rsb_streams.specs.Adapters.{filter_draws};
ghost use Rattle.rsb_streams.specs.laws.Part.{part-canonical, sublist-is_part};

use crate::draw::Draw;
use crate::sorted_disjoint::{DrawDisjoint, SortedDisjoint, SortedStarts};
use rsb_integer::Integer;
use std::iter::Filter;
use std::ops::RangeInclusive;

impl<
    T: Integer,
    I: Iterator<Item = RangeInclusive<T>> + Draw<T>,
    P: FnMut(&RangeInclusive<T>) -> bool,
> Draw<T> for Filter<I, P> {
    ghost can_draw = { (filter_draws T.Integer.own I.Draw I.Iterator P.FnMut
        ⟦<Filter<I, P> as Iterator>⟧).can_draw };

    ghost draw_gives = { (filter_draws T.Integer.own I.Draw I.Iterator P.FnMut
        ⟦<Filter<I, P> as Iterator>⟧).draw_gives };

    ghost draws_left = { (filter_draws T.Integer.own I.Draw I.Iterator P.FnMut
        ⟦<Filter<I, P> as Iterator>⟧).draws_left };

    ghost may_give = { (filter_draws T.Integer.own I.Draw I.Iterator P.FnMut
        ⟦<Filter<I, P> as Iterator>⟧).may_give };

    fn draw(&mut self) -> Option<RangeInclusive<T>> {
        self.next()
    }

    ghost answers = { λ s t item gives. gives.answers };

    ghost sorted = { λ s ready. filter-sorted T.Integer.own ⟦<I as Draw<T>>⟧ ⟦<I as Iterator>⟧
        I.answers I.sorted ready.drawn P.FnMut s ready };
}

impl<T: Integer, I: SortedStarts<T>, P: FnMut(&RangeInclusive<T>) -> bool> SortedStarts<T>
    for Filter<I, P> {
    fn mark_sorted(&self) {}

    ghost drawn = { filter-drawn T.Integer.own ⟦<I as Draw<T>>⟧ ⟦<I as Iterator>⟧ I.answers
        I.sorted I.drawn P.FnMut };
}

impl<
    T: Integer,
    I: Iterator<Item = RangeInclusive<T>> + DrawDisjoint<T>,
    P: FnMut(&RangeInclusive<T>) -> bool,
> DrawDisjoint<T> for Filter<I, P> {
    fn mark_disjoint(&self) {}

    ghost canonical = { λ s ready. part-canonical T.value_count sublist-is_part
        (I.may_give (filter_source s)) (I.canonical (filter_source s) ready.source) };
}

impl<T: Integer, I: Drop, P: Drop> SortedDisjoint<T> for Filter<I, P>
where
    Filter<I, P>: SortedStarts<T> + DrawDisjoint<T>,
{}
