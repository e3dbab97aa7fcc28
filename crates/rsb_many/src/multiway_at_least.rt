//! The values in at least the given number of streams.

ghost use Rattle.std.specs.Prelude.{◌<◌, List};
ghost use Rattle.rsb_streams.specs.laws.Stream.{canonical_stream-starts, drawn-itself};
ghost use Rattle.rsb_many.specs.MultiwayAtLeast.{multiway_at_least, GivesRunsOfAllAtMost};
ghost use Rattle.rsb_many.specs.MultiwayBegun.{BeginsAtLeast};
ghost use Rattle.rsb_many.specs.laws.Multiway.{multiway_at_least-disjoint};
ghost use Rattle.rsb_many.specs.MultiwaySweep.{BeginsSweep};

use crate::multiway_sweep::MultiwaySweep;
use crate::sweep_pieces::{Rule, SweepPieces};
use rsb_integer::Integer;
use rsb_streams::{Draw, DrawDisjoint, SortedDisjoint, SortedStarts, UnionIter};
use std::alloc::{Allocator, Global};
use std::iter::FusedIterator;
use std::ops::RangeInclusive;

/// The values in at least a given number of streams: every value if that number is 0, and none if
/// there are fewer streams. It draws the first range of each stream when it is built, and holds at
/// most one range of each. It allocates only when it is built. Not in range-set-blaze.
#[derive(Debug, Drop)]
pub struct MultiwayAtLeast<T: Integer, I, A: Allocator = Global> {
    iter: UnionIter<T, SweepPieces<T, I, A>>,
}

impl<T: Integer, I: Draw<T>, A: Allocator> MultiwayAtLeast<T, I, A> {
    /// Returns the values in at least `least` streams of a sweep that was just built. It draws
    /// nothing more.
    pub(crate) fn of(sweep: MultiwaySweep<T, I, A>, least: usize) -> Self
        requires { (streams : List I) × BeginsSweep T.Integer.own I.Draw streams sweep }
        ensures ready { ⟦<MultiwayAtLeast<T, I, A> as Draw<T>>⟧.can_draw result }
        ensures begun { (streams : List I) → BeginsSweep T.Integer.own I.Draw streams sweep
            → BeginsAtLeast T.Integer.own I.Draw least
            ⟦<MultiwayAtLeast<T, I, A> as Draw<T>>⟧ streams result }
        ensures run_count { (streams : List I) → BeginsSweep T.Integer.own I.Draw streams sweep
            → 0 < least → GivesRunsOfAllAtMost least T.value_count I.may_give streams
            (⟦<MultiwayAtLeast<T, I, A> as Draw<T>>⟧.may_give result) }
    {
        MultiwayAtLeast {
            iter: SweepPieces::joined(sweep, Rule::AtLeast(least)),
        }
    }
}

impl<T: Integer, I: Draw<T>, A: Allocator> Iterator for MultiwayAtLeast<T, I, A> {
    type Item = RangeInclusive<T>;

    ghost can_next = { (multiway_at_least T.Integer.own I.Draw).can_draw };

    ghost next_gives = { (multiway_at_least T.Integer.own I.Draw).draw_gives };

    ghost remaining = { (multiway_at_least T.Integer.own I.Draw).draws_left };

    fn next(&mut self) -> Option<RangeInclusive<T>> {
        SweepPieces::next_joined(&mut self.iter)
    }
}

impl<T: Integer, I: Draw<T>, A: Allocator> FusedIterator for MultiwayAtLeast<T, I, A> {}

impl<T: Integer, I: Draw<T>, A: Allocator> Draw<T> for MultiwayAtLeast<T, I, A> {
    ghost can_draw = { ⟦<MultiwayAtLeast<T, I, A> as Iterator>⟧.can_next };

    ghost draw_gives = { ⟦<MultiwayAtLeast<T, I, A> as Iterator>⟧.next_gives };

    ghost draws_left = { ⟦<MultiwayAtLeast<T, I, A> as Iterator>⟧.remaining };

    ghost may_give = { (multiway_at_least T.Integer.own I.Draw).may_give };

    fn draw(&mut self) -> Option<RangeInclusive<T>> {
        self.next()
    }

    ghost answers = { λ s t item gives. gives.answers };

    ghost sorted = { λ s ready. canonical_stream-starts T.value_count _ _
        (multiway_at_least-disjoint T.Integer.own ⟦<I as Draw<T>>⟧ s ready) };
}

impl<T: Integer, I: Draw<T>, A: Allocator> SortedStarts<T> for MultiwayAtLeast<T, I, A> {
    ghost drawn = { drawn-itself };
}

impl<T: Integer, I: Draw<T>, A: Allocator> DrawDisjoint<T> for MultiwayAtLeast<T, I, A> {
    ghost canonical = { λ s ready.
        (multiway_at_least-disjoint T.Integer.own ⟦<I as Draw<T>>⟧ s ready).all };
}

impl<T: Integer, I: Draw<T>, A: Allocator> SortedDisjoint<T> for MultiwayAtLeast<T, I, A> {}
