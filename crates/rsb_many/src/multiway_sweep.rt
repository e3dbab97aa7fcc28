//! Where the ranges of any number of streams start and end.

ghost use Rattle.std.specs.Prelude.{◌≡◌, ℕ, All, IfOk};
ghost use Rattle.rsb_many.specs.HandedIn.{EachGaveRun};
ghost use Rattle.rsb_many.specs.Many.{may_give_at};
ghost use Rattle.rsb_many.specs.MultiwaySweep.{
  events_left,
  stream_count,
  BeginsSweep,
  SweepReady,
  Sweeps,
  SweepsOver,
};
ghost use Rattle.rsb_streams.specs.Items.{GaveRun, IsEnding};
ghost use Rattle.rsb_streams.specs.Stream.{◌⊆◌};
ghost use Rattle.rsb_streams.specs.Touching.{IsTouchingIn};

use crate::drawn::Drawn;
use crate::sweep_event::SweepEvent;
use rsb_integer::Integer;
use rsb_streams::{Draw, DrawDisjoint, SortedTouching};
use std::alloc::{AllocError, Allocator, Global};
use std::iter::FusedIterator;

/// The events of any number of streams, ordered by value: the start and the end of each range of
/// each stream. At the same value, starts come before ends, and streams come in the order of their
/// numbers. It holds at most one range of each stream. It allocates only when it is built.
/// (`MultiwaySweep` in range-set-blaze.)
#[derive(Debug, Drop)]
pub struct MultiwaySweep<T: Integer, I, A: Allocator = Global> {
    inputs: Drawn<T, I, A>,
}

impl<T: Integer, I: DrawDisjoint<T>, A: Allocator + Copy> MultiwaySweep<T, I, A> {
    /// Returns the sweep over finitely many streams, each of which must be ready. It allocates room
    /// for all of them and draws the first range of each. If allocation fails, the streams are
    /// dropped. (`MultiwaySweep::new`.)
    pub fn new<K: IntoIterator<Item = I>>(alloc: A, inputs: K) -> Result<Self, AllocError>
        requires ends { IsEnding K.into_iter_gives K.IntoIter.can_next K.IntoIter.remaining inputs }
        requires can { EachGaveRun K.into_iter_gives K.IntoIter.next_gives inputs (All I.can_draw) }
        ensures ready { IfOk result ⟦<MultiwaySweep<T, I, A> as Iterator>⟧.can_next }
        ensures made { IfOk result (λ sweep.
            GaveRun K.into_iter_gives K.IntoIter.next_gives inputs
            (λ streams. SweepsOver T.Integer.own I.Draw streams sweep)) }
        ensures begun { IfOk result (λ sweep.
            GaveRun K.into_iter_gives K.IntoIter.next_gives inputs
            (λ streams. BeginsSweep T.Integer.own I.Draw streams sweep)) }
    {
        let streams = Vec::from_iter(alloc, inputs)?;
        MultiwaySweep::over(alloc, streams)
    }
}

impl<T: Integer, I: SortedTouching<T>, A: Allocator + Copy> MultiwaySweep<T, I, A> {
    /// Returns the sweep over finitely many streams, each of which must be ready. The ranges of a
    /// stream may touch. It allocates room for all streams and draws the first range of each. If
    /// allocation fails, the streams are dropped. Not in range-set-blaze.
    pub fn new_touching<K: IntoIterator<Item = I>>(alloc: A, inputs: K) -> Result<Self, AllocError>
        requires ends { IsEnding K.into_iter_gives K.IntoIter.can_next K.IntoIter.remaining inputs }
        requires can { EachGaveRun K.into_iter_gives K.IntoIter.next_gives inputs (All I.can_draw) }
        ensures ready { IfOk result ⟦<MultiwaySweep<T, I, A> as Iterator>⟧.can_next }
        ensures made { IfOk result (λ sweep.
            GaveRun K.into_iter_gives K.IntoIter.next_gives inputs
            (λ streams. SweepsOver T.Integer.own I.Draw streams sweep)) }
        ensures begun { IfOk result (λ sweep.
            GaveRun K.into_iter_gives K.IntoIter.next_gives inputs
            (λ streams. BeginsSweep T.Integer.own I.Draw streams sweep)) }
    {
        let touching = Vec::from_iter(alloc, inputs)?;
        MultiwaySweep::over(alloc, touching)
    }
}

impl<T: Integer, I: Draw<T>, A: Allocator> MultiwaySweep<T, I, A> {
    /// Returns the sweep over a list of streams, each of which must be ready. The ranges of a
    /// stream may touch but not overlap. If allocation fails, the streams are dropped.
    pub(crate) fn over(alloc: A, streams: Vec<I, A>) -> Result<Self, AllocError>
        requires can { All I.can_draw streams.items }
        requires touching { (place : ℕ)
            → may_give_at I.may_give streams.items place ⊆ IsTouchingIn T.value_count }
        ensures { IfOk result (BeginsSweep T.Integer.own I.Draw streams.items) }
    {
        Ok(MultiwaySweep {
            inputs: Drawn::over(alloc, streams)?,
        })
    }
}

impl<T: Integer, I: Draw<T>, A: Allocator> MultiwaySweep<T, I, A> {
    /// Returns the number of streams, including those that have ended. (`input_count` in
    /// range-set-blaze.)
    pub fn input_count(&self) -> usize
        ensures { result ≡ stream_count self.now }
    {
        self.inputs.count()
    }
}

impl<T: Integer, I: Draw<T>, A: Allocator> Iterator for MultiwaySweep<T, I, A> {
    type Item = SweepEvent<T>;

    ghost can_next = { SweepReady T.Integer.own I.Draw };

    ghost next_gives = { Sweeps T.Integer.own I.Draw };

    ghost remaining = { events_left T.Integer.own I.Draw };

    fn next(&mut self) -> Option<SweepEvent<T>> {
        self.inputs.refill();
        let head = self.inputs.take()?;
        if head.is_started() {
            return Some(SweepEvent::End {
                at: head.end(),
                input: head.input(),
            });
        }
        self.inputs.put_back(head);
        Some(SweepEvent::Start {
            range: head.range(),
            input: head.input(),
        })
    }
}

impl<T: Integer, I: Draw<T>, A: Allocator> FusedIterator for MultiwaySweep<T, I, A> {}
