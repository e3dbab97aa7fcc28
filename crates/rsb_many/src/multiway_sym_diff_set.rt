//! The values in an odd number of streams.

ghost use Rattle.std.specs.Prelude.{All, IfOk, List};
ghost use Rattle.rsb_streams.specs.Items.{GaveRun, IsEnding};
ghost use Rattle.rsb_streams.specs.laws.Stream.{canonical_stream-starts, drawn-itself};
ghost use Rattle.rsb_many.specs.HandedIn.{EachGaveRun};
ghost use Rattle.rsb_many.specs.MultiwayBegun.{BeginsSymmetricDifference};
ghost use Rattle.rsb_many.specs.laws.Multiway.{multiway_symmetric_difference-disjoint};
ghost use Rattle.rsb_many.specs.MultiwayResults.{MakesMultiwaySymmetricDifference};
ghost use Rattle.rsb_many.specs.MultiwaySweep.{BeginsSweep};
ghost use Rattle.rsb_many.specs.MultiwaySymmetricDifference.{multiway_symmetric_difference};

use crate::multiway_sweep::MultiwaySweep;
use crate::sweep_pieces::{Rule, SweepPieces};
use rsb_integer::Integer;
use rsb_streams::{Draw, DrawDisjoint, SortedDisjoint, SortedStarts, SortedTouching, UnionIter};
use std::alloc::{AllocError, Allocator, Global};
use std::iter::FusedIterator;
use std::ops::RangeInclusive;

/// The values in an odd number of the streams: none if there are no streams. It draws the first
/// range of each stream when it is built, and holds at most one range of each. It allocates only
/// when it is built. (`MultiwaySymmetricDifference` in range-set-blaze.)
#[derive(Debug, Drop)]
pub struct MultiwaySymmetricDifference<T: Integer, I, A: Allocator = Global> {
    iter: UnionIter<T, SweepPieces<T, I, A>>,
}

impl<T: Integer, I: SortedTouching<T>, A: Allocator + Copy> MultiwaySymmetricDifference<T, I, A> {
    /// Returns the values in an odd number of finitely many streams: none if there are no streams.
    /// Each stream must be ready, and its ranges may touch. It allocates room for all streams and
    /// draws the first range of each. If allocation fails, the streams are dropped. Not in
    /// range-set-blaze.
    pub fn new_touching<K: IntoIterator<Item = I>>(alloc: A, inputs: K) -> Result<Self, AllocError>
        requires ends { IsEnding K.into_iter_gives K.IntoIter.can_next K.IntoIter.remaining inputs }
        requires can { EachGaveRun K.into_iter_gives K.IntoIter.next_gives inputs (All I.can_draw) }
        ensures ready { IfOk result ⟦<MultiwaySymmetricDifference<T, I, A> as Draw<T>>⟧.can_draw }
        ensures made { IfOk result (λ difference.
            GaveRun K.into_iter_gives K.IntoIter.next_gives inputs
            (λ streams. MakesMultiwaySymmetricDifference T.Integer.own I.Draw
            ⟦<MultiwaySymmetricDifference<T, I, A> as Draw<T>>⟧ streams difference)) }
        ensures begun { IfOk result (λ difference.
            GaveRun K.into_iter_gives K.IntoIter.next_gives inputs
            (λ streams. BeginsSymmetricDifference T.Integer.own I.Draw
            ⟦<MultiwaySymmetricDifference<T, I, A> as Draw<T>>⟧ streams difference)) }
    {
        let sweep = MultiwaySweep::new_touching(alloc, inputs)?;
        Ok(MultiwaySymmetricDifference::of(sweep))
    }
}

impl<T: Integer, I: Draw<T>, A: Allocator> MultiwaySymmetricDifference<T, I, A> {
    /// Returns the values in an odd number of the streams of a sweep that was just built. It draws
    /// nothing more.
    pub(crate) fn of(sweep: MultiwaySweep<T, I, A>) -> Self
        requires { (streams : List I) × BeginsSweep T.Integer.own I.Draw streams sweep }
        ensures ready { ⟦<MultiwaySymmetricDifference<T, I, A> as Draw<T>>⟧.can_draw result }
        ensures begun { (streams : List I) → BeginsSweep T.Integer.own I.Draw streams sweep
            → BeginsSymmetricDifference T.Integer.own I.Draw
            ⟦<MultiwaySymmetricDifference<T, I, A> as Draw<T>>⟧ streams result }
    {
        MultiwaySymmetricDifference {
            iter: SweepPieces::joined(sweep, Rule::Odd),
        }
    }
}

impl<T: Integer, I: Draw<T>, A: Allocator> Iterator for MultiwaySymmetricDifference<T, I, A> {
    type Item = RangeInclusive<T>;

    ghost can_next = { (multiway_symmetric_difference T.Integer.own I.Draw).can_draw };

    ghost next_gives = { (multiway_symmetric_difference T.Integer.own I.Draw).draw_gives };

    ghost remaining = { (multiway_symmetric_difference T.Integer.own I.Draw).draws_left };

    fn next(&mut self) -> Option<RangeInclusive<T>> {
        SweepPieces::next_joined(&mut self.iter)
    }
}

impl<T: Integer, I: Draw<T>, A: Allocator> FusedIterator for MultiwaySymmetricDifference<T, I, A> {}

impl<T: Integer, I: Draw<T>, A: Allocator> Draw<T> for MultiwaySymmetricDifference<T, I, A> {
    ghost can_draw = { ⟦<MultiwaySymmetricDifference<T, I, A> as Iterator>⟧.can_next };

    ghost draw_gives = { ⟦<MultiwaySymmetricDifference<T, I, A> as Iterator>⟧.next_gives };

    ghost draws_left = { ⟦<MultiwaySymmetricDifference<T, I, A> as Iterator>⟧.remaining };

    ghost may_give = { (multiway_symmetric_difference T.Integer.own I.Draw).may_give };

    fn draw(&mut self) -> Option<RangeInclusive<T>> {
        self.next()
    }

    ghost answers = { λ s t item gives. gives.answers };

    ghost sorted = { λ s ready. canonical_stream-starts T.value_count _ _
        (multiway_symmetric_difference-disjoint T.Integer.own ⟦<I as Draw<T>>⟧ s ready) };
}

impl<T: Integer, I: Draw<T>, A: Allocator> SortedStarts<T>
    for MultiwaySymmetricDifference<T, I, A> {
    ghost drawn = { drawn-itself };
}

impl<T: Integer, I: Draw<T>, A: Allocator> DrawDisjoint<T>
    for MultiwaySymmetricDifference<T, I, A> {
    ghost canonical = { λ s ready.
        (multiway_symmetric_difference-disjoint T.Integer.own ⟦<I as Draw<T>>⟧ s ready).all };
}

impl<T: Integer, I: Draw<T>, A: Allocator> SortedDisjoint<T>
    for MultiwaySymmetricDifference<T, I, A> {}
