//! The heads of inputs, in a binary heap (docs/DECISIONS.md, own-heap). Only this module makes and
//! sees keys.

ghost use Rattle.std.specs.Prelude.{
  ◌≡◌,
  ℕ,
  ◌*◌,
  ◌+◌,
  ◌<◌,
  ◌≤◌,
  length,
  IfOk,
  IfSome,
  IsFalse,
  MatchOption,
  None,
  Some,
};
ghost use Rattle.rsb_integer.specs.Rank.{interval_of};
ghost use Rattle.rsb_many.specs.Heads.{
  binary_digits,
  closing_bound,
  head_at_end,
  head_at_start,
  head_of,
  run_of_head,
  HasNone,
  HasValues,
  SetsHead,
  TakesLeastHead,
};

mod compared;
mod sifting;

use crate::heads::compared::ComparedHeads;
use rsb_integer::Integer;
use std::alloc::{AllocError, Allocator, Global};
use std::marker::Model;
use std::ops::RangeInclusive;

/// A range that was drawn from an input and is not used up yet. A sweep reports its start and later
/// its end; a merge reports the whole range. The fields `start` and `end` are not adjacent. If they
/// were, one load would read both just after two stores wrote them, and the processor would have to
/// wait for the stores.
#[derive(Clone, Copy, Debug, Drop)]
pub(crate) struct Head<T> {
    // The value that orders the head: the start of the range, or its end once the start was
    // reported.
    at: T,
    start: T,
    input: usize,
    end: T,
    // Whether the start of the range was reported.
    started: bool,
}

impl<T: Integer> Head<T> {
    /// Returns the range.
    pub(crate) fn range(&self) -> RangeInclusive<T>
        ensures { interval_of T.rank result ≡ run_of_head T.rank self.now }
    {
        self.start..=self.end
    }

    /// Returns the end of the range.
    pub(crate) fn end(&self) -> T
        ensures { result ≡ self.now.end }
    {
        self.end
    }

    /// Returns the input that the range was drawn from.
    pub(crate) fn input(&self) -> usize
        ensures { result ≡ self.now.input }
    {
        self.input
    }

    /// Returns whether the start of the range was reported.
    pub(crate) fn is_started(&self) -> bool
        ensures { result ≡ self.now.started }
    {
        self.started
    }
}

/// Heads of inputs, of which the least comes out first. It allocates only when it is built. While
/// the place at the top is open, the head stored there has come out and no longer counts.
#[derive(Debug, Drop)]
pub(crate) struct Heads<T: Integer, A: Allocator = Global> {
    list: ComparedHeads<T, A>,
    is_open: bool,
}

impl<T: Integer, A: Allocator> Model for Heads<T, A> {
    ghost use Rattle.std.specs.Vec.{vec_capacity};
    ghost use Rattle.rsb_many.specs.Heads.{HeapView};
    ghost use Rattle.rsb_many.specs.HeapOrder.{counted_heads, AreKept};

    ghost Value = { HeapView T };

    ghost view = { λ s. record {
      heads = counted_heads s.is_open s.list.heads.items;
      is_open = s.is_open;
      room = vec_capacity s.list.heads;
      comparisons = s.list.comparisons.made;
    } };

    ghost invariant = { λ s. AreKept T.rank T.value_count s.is_open s.list.heads.items };
}

impl<T: Integer, A: Allocator> Heads<T, A> {
    /// Returns an empty heap with room for the given number of heads.
    pub(crate) fn with_room(alloc: A, room: usize) -> Result<Self, AllocError>
        ensures none { IfOk result (λ heads. HasNone heads.heads) }
        ensures room { IfOk result (λ heads. room ≤ heads.room) }
        ensures compared { IfOk result (λ heads. heads.comparisons ≡ 0) }
    {
        Ok(Heads {
            list: ComparedHeads::with_room(alloc, room)?,
            is_open: false,
        })
    }

    /// Adds the head of a range that was drawn from an input. The head is at the start of the
    /// range. There must be room for it, and no other head of the input.
    pub(crate) fn push_range(&mut self, range: RangeInclusive<T>, input: usize)
        requires room { length self.old.heads < self.old.room }
        requires none { head_of self.old.heads input ≡ None }
        requires values { HasValues T.rank T.value_count (head_at_start input range) }
        ensures heads { SetsHead self.old.heads input (Some (head_at_start input range))
            self.new.heads }
        ensures count { length self.new.heads ≡ length self.old.heads + 1 }
        ensures closed { IsFalse self.new.is_open }
        ensures room { self.old.room ≤ self.new.room }
        ensures compared { self.new.comparisons
            ≤ self.old.comparisons + 2 * binary_digits (length self.new.heads) }
        ensures counted { self.old.comparisons ≤ self.new.comparisons }
    {
        let (start, end) = range.into_inner();
        self.push(Head {
            at: start,
            start,
            end,
            started: false,
            input,
        });
    }

    /// Puts a head back, with the start of its range reported. The head is then at the end of the
    /// range. There must be room for it, and no other head of its input.
    pub(crate) fn put_back(&mut self, head: Head<T>)
        requires room { length self.old.heads < self.old.room }
        requires none { head_of self.old.heads head.input ≡ None }
        requires values { HasValues T.rank T.value_count head }
        ensures heads { SetsHead self.old.heads head.input (Some (head_at_end head)) self.new.heads }
        ensures count { length self.new.heads ≡ length self.old.heads + 1 }
        ensures closed { IsFalse self.new.is_open }
        ensures room { self.old.room ≤ self.new.room }
        ensures compared { self.new.comparisons
            ≤ self.old.comparisons + 2 * binary_digits (length self.new.heads) }
        ensures counted { self.old.comparisons ≤ self.new.comparisons }
    {
        let back = Head {
            at: head.end,
            started: true,
            ..head
        };
        self.push(back);
    }

    // Adds a head, for which there must be room. If the place at the top is open, the head starts
    // there.
    fn push(&mut self, head: Head<T>)
        requires room { length self.old.heads < self.old.room }
        requires none { head_of self.old.heads head.input ≡ None }
        requires values { HasValues T.rank T.value_count head }
        ensures heads { SetsHead self.old.heads head.input (Some head) self.new.heads }
        ensures count { length self.new.heads ≡ length self.old.heads + 1 }
        ensures closed { IsFalse self.new.is_open }
        ensures room { self.old.room ≤ self.new.room }
        ensures compared { self.new.comparisons
            ≤ self.old.comparisons + 2 * binary_digits (length self.new.heads) }
        ensures counted { self.old.comparisons ≤ self.new.comparisons }
    {
        if self.is_open {
            self.is_open = false;
            self.list.heads[0] = head;
            self.list.sift_down();
        } else {
            self.list.heads.push_reserved(head);
            self.list.sift_up();
        }
    }

    /// Takes the least head out and returns it, or returns `None` if there is none. Its place stays
    /// open for the next head that is added.
    pub(crate) fn pop(&mut self) -> Option<Head<T>>
        ensures taken { MatchOption result (HasNone self.old.heads × HasNone self.new.heads)
            (λ head. TakesLeastHead T.rank self.old.heads head self.new.heads) }
        ensures values { IfSome result (HasValues T.rank T.value_count) }
        ensures room { self.old.room ≤ self.new.room }
        ensures compared { self.new.comparisons ≤ self.old.comparisons + closing_bound self.old }
        ensures counted { self.old.comparisons ≤ self.new.comparisons }
    {
        self.close();
        if self.list.heads.is_empty() {
            return None;
        }
        self.is_open = true;
        Some(self.list.heads[0])
    }

    // Moves the last head to the top, if the place there is open, and down to where it belongs.
    fn close(&mut self)
        ensures heads { (input : ℕ) → head_of self.new.heads input ≡ head_of self.old.heads input }
        ensures count { length self.new.heads ≡ length self.old.heads }
        ensures closed { IsFalse self.new.is_open }
        ensures room { self.old.room ≤ self.new.room }
        ensures compared { self.new.comparisons
            ≤ self.old.comparisons + closing_bound self.old }
        ensures counted { self.old.comparisons ≤ self.new.comparisons }
    {
        if self.is_open {
            self.is_open = false;
            self.list.heads.swap_remove(0);
            self.list.sift_down();
        }
    }
}
