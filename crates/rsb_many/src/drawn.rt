//! Many input streams, with the heads drawn from them.

ghost use Rattle.std.specs.Prelude.{
  ◌≡◌,
  ◌+◌,
  ◌*◌,
  ◌<◌,
  ◌≤◌,
  length,
  slice_get,
  All,
  IfOk,
  IfSome,
  MatchOption,
  None,
};
ghost use Rattle.rsb_many.specs.Drawn.{
  DrawnReady,
  HasNoHead,
  IsBegunOf,
  PutsBack,
  Refills,
  TakesHead,
};
ghost use Rattle.rsb_many.specs.Heads.{binary_digits, closing_bound, head_of, HasNone, HasValues};
ghost use Rattle.rsb_many.specs.Inputs.{DrawsAt};

use crate::heads::{Head, Heads};
use rsb_integer::Integer;
use rsb_streams::Draw;
use std::alloc::{AllocError, Allocator, Global};

/// Streams and the heads drawn from them: what a merge or a sweep of many streams holds.
#[derive(Debug, Drop)]
pub(crate) struct Drawn<T: Integer, I, A: Allocator = Global> {
    streams: Vec<I, A>,
    heads: Heads<T, A>,
    // The input whose range was used last. Its next range is drawn only when one more is asked for.
    used: Option<usize>,
}

impl<T: Integer, I: Draw<T>, A: Allocator> Drawn<T, I, A> {
    /// Returns the given streams, which must be ready, with the head of each. If allocation fails,
    /// the streams are dropped.
    pub(crate) fn over(alloc: A, streams: Vec<I, A>) -> Result<Self, AllocError>
        requires { All I.can_draw streams.items }
        ensures { IfOk result (λ drawn. IsBegunOf T.Integer.own I.Draw streams.items drawn) }
    {
        let heads = Heads::with_room(alloc, streams.len())?;
        let mut drawn = Drawn {
            streams,
            heads,
            used: None,
        };
        drawn.begin();
        Ok(drawn)
    }

    /// Draws the first range of each stream.
    fn begin(&mut self)
        requires can { All I.can_draw self.old.streams.items }
        requires none { HasNone self.old.heads.heads }
        requires used { self.old.used ≡ None }
        requires room { length self.old.streams.items ≤ self.old.heads.room }
        ensures { IsBegunOf T.Integer.own I.Draw self.old.streams.items self.new }
    {
        let mut place = 0;
        while place < self.streams.len() {
            self.draw_from(place);
            place += 1;
        }
    }

    /// Draws a range of the input at a place and adds its head to the others. If the stream has
    /// ended, no head is added. There must be room for the head, and none of that input.
    fn draw_from(&mut self, place: usize)
        requires place { place < length self.old.streams.items }
        requires ready { IfSome (slice_get self.old.streams.items place) I.can_draw }
        requires none { head_of self.old.heads.heads place ≡ None }
        requires room { length self.old.heads.heads < self.old.heads.room }
        ensures draws { DrawsAt T.Integer.own I.Draw place self.old.streams.items
            (head_of self.old.heads.heads) self.new.streams.items (head_of self.new.heads.heads) }
        ensures count { length self.new.heads.heads ≤ length self.old.heads.heads + 1 }
        ensures used { self.new.used ≡ self.old.used }
        ensures room { self.old.heads.room ≤ self.new.heads.room }
        ensures compared { self.new.heads.comparisons + closing_bound self.new.heads
            ≤ self.old.heads.comparisons + 2 * binary_digits (length self.new.heads.heads) }
        ensures counted { self.old.heads.comparisons ≤ self.new.heads.comparisons }
    {
        if let Some(range) = self.streams[place].draw() {
            self.heads.push_range(range, place);
        }
    }

    /// Draws the range that is due, if any.
    pub(crate) fn refill(&mut self)
        requires { DrawnReady T.Integer.own I.Draw self.old }
        ensures { Refills T.Integer.own I.Draw self.old self.new }
    {
        if let Some(place) = self.used.take() {
            self.draw_from(place);
        }
    }

    /// Takes the least head out and returns it, or returns `None` if there is none. There must be
    /// no range due. Afterwards the next range of the head's input is due.
    pub(crate) fn take(&mut self) -> Option<Head<T>>
        requires none { self.old.used ≡ None }
        ensures taken { MatchOption result (HasNoHead self.old self.new)
            (λ head. TakesHead T.Integer.own I.Draw self.old head self.new) }
        ensures values { IfSome result (HasValues T.rank T.value_count) }
        ensures compared { self.new.heads.comparisons
            ≤ self.old.heads.comparisons + closing_bound self.old.heads }
        ensures counted { self.old.heads.comparisons ≤ self.new.heads.comparisons }
    {
        let head = self.heads.pop()?;
        self.used = Some(head.input());
        Some(head)
    }

    /// Puts back the head that was taken last, with the start of its range reported. There must be
    /// room for it. No range is due afterwards.
    pub(crate) fn put_back(&mut self, head: Head<T>)
        requires values { HasValues T.rank T.value_count head }
        requires none { head_of self.old.heads.heads head.input ≡ None }
        requires room { length self.old.heads.heads < self.old.heads.room }
        ensures back { PutsBack self.old head self.new }
        ensures compared { self.new.heads.comparisons ≤ self.old.heads.comparisons
            + 2 * binary_digits (length self.new.heads.heads) }
        ensures counted { self.old.heads.comparisons ≤ self.new.heads.comparisons }
    {
        self.heads.put_back(head);
        self.used = None;
    }

    /// Returns the number of streams.
    pub(crate) fn count(&self) -> usize
        ensures { result ≡ length self.now.streams.items }
    {
        self.streams.len()
    }
}
