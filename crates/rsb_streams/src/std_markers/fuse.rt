//! `Fuse` over a stream is a stream: it does not call the stream again after its end.

ghost use Rattle.rsb_streams.specs.laws.Adapter.{fuse-drawn, fuse-sorted};
ghost use Rattle.rsb_streams.specs.Adapters.{fuse_draws};
ghost use Rattle.rsb_streams.specs.laws.Part.{fuse-canonical};

use crate::draw::Draw;
use crate::sorted_disjoint::{DrawDisjoint, SortedDisjoint, SortedStarts};
use rsb_integer::Integer;
use std::iter::Fuse;
use std::ops::RangeInclusive;

impl<T: Integer, I: Iterator<Item = RangeInclusive<T>> + Draw<T>> Draw<T> for Fuse<I> {
    ghost can_draw = { (fuse_draws T.Integer.own I.Draw I.Iterator
        ⟦<Fuse<I> as Iterator>⟧).can_draw };

    ghost draw_gives = { (fuse_draws T.Integer.own I.Draw I.Iterator
        ⟦<Fuse<I> as Iterator>⟧).draw_gives };

    ghost draws_left = { (fuse_draws T.Integer.own I.Draw I.Iterator
        ⟦<Fuse<I> as Iterator>⟧).draws_left };

    ghost may_give = { (fuse_draws T.Integer.own I.Draw I.Iterator
        ⟦<Fuse<I> as Iterator>⟧).may_give };

    fn draw(&mut self) -> Option<RangeInclusive<T>> {
        self.next()
    }

    ghost answers = { λ s t item gives. gives.answers };

    ghost sorted = { λ s ready. fuse-sorted T.Integer.own ⟦<I as Draw<T>>⟧ ⟦<I as Iterator>⟧
        I.answers I.sorted ready.drawn s ready };
}

impl<T: Integer, I: SortedStarts<T>> SortedStarts<T> for Fuse<I> {
    ghost drawn = { fuse-drawn T.Integer.own ⟦<I as Draw<T>>⟧ ⟦<I as Iterator>⟧ I.answers
        I.sorted I.drawn };
}

impl<T: Integer, I: Iterator<Item = RangeInclusive<T>> + DrawDisjoint<T>> DrawDisjoint<T>
    for Fuse<I> {
    ghost canonical = { λ s ready. fuse-canonical T.value_count I.may_give I.can_draw I.canonical s
        ready.source };
}

impl<T: Integer, I: SortedStarts<T> + DrawDisjoint<T>> SortedDisjoint<T> for Fuse<I> {}
