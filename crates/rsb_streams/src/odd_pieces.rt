//! The values in exactly one range of a source, if no value is in more than two of its ranges.
//!
//! Pieces may touch. The `UnionIter` that draws them joins them, and so looks ahead by one more
//! range.

ghost use Rattle.std.specs.Iterator.{MakesProgress};
ghost use Rattle.std.specs.Prelude.{◌≡◌, ◌<◌, ◌≤◌, [], ◌∷◌, IfNone, None, Some, false, length};
ghost use Rattle.rsb_streams.specs.OddPieces.{
  begun_from,
  ends_in,
  ends_of,
  first_end,
  with_pending,
  odd_pieces,
  past_both,
  HasOneEnd,
};
ghost use Rattle.rsb_streams.specs.laws.OddPieces.{odd_pieces-sorted};
ghost use Rattle.rsb_streams.specs.Stream.{run_if_any};

use crate::draw::Draw;
use arrayvec::ArrayVec;
use rsb_integer::Integer;
use std::ops::RangeInclusive;

/// The values in exactly one range of a source, as pieces that may touch. No value may be in more
/// than two of the ranges, so at most two ranges have begun and not ended.
#[derive(Clone, Debug, Drop)]
pub(crate) struct OddPieces<T, I> {
    iter: I,
    // Whether the source has ended and all pieces were given.
    done: bool,
    // Where the next piece of the range that has begun and not ended starts.
    start: T,
    // The end of that range, between two calls. During a call, the pending ends are in a vector
    // (docs/DECISIONS.md, two-ends-in-call).
    end: Option<T>,
}

impl<T, I> OddPieces<T, I> {
    /// Returns the pieces of a source. Draws nothing yet. `start` may be any value.
    pub(crate) fn over(iter: I, start: T) -> Self
        ensures source { result.iter ≡ iter }
        ensures undone { result.done ≡ false }
        ensures none { result.end ≡ None }
    {
        OddPieces {
            iter,
            done: false,
            start,
            end: None,
        }
    }

    /// Returns the number of pending ends.
    pub(crate) fn pending_ends(&self) -> usize
        ensures ends { result ≡ length (ends_of self.now.end) }
        ensures bound { result ≤ 1 }
    {
        usize::from(self.end.is_some())
    }
}

/// Returns a vector of the pending end, if there is one.
fn ends_with<T: Copy>(end: Option<T>) -> ArrayVec<Option<T>, 2>
    ensures { result.items ≡ ends_in end }
{
    let mut ends = ArrayVec::new();
    if end.is_some() {
        ends.push(end);
    }
    ends
}

/// Returns the first of the pending ends, if there is one.
fn first_end<T: Copy>(ends: &ArrayVec<Option<T>, 2>) -> Option<T>
    ensures { result ≡ first_end ends.now.items }
{
    *ends.first()?
}

/// Removes the lesser of two pending ends, or both if they are equal, so that the values in both
/// ranges are left out. If an end is left, `start` becomes the value after the removed one.
fn pass_lesser<T: Integer>(start: &mut T, ends: &mut ArrayVec<Option<T>, 2>, end: T, next_end: T)
    requires end { T.rank end < T.value_count }
    requires next_end { T.rank next_end < T.value_count }
    requires both { ends.old.items ≡ Some end ∷ Some next_end ∷ [] }
    ensures one { HasOneEnd ends.new.items }
    ensures passed { begun_from T.rank start.new (first_end ends.new.items)
        ≡ run_if_any (past_both T.rank end next_end) }
{
    if end < next_end {
        ends.remove(0);
        *start = end.add_one();
    } else if next_end < end {
        ends.pop();
        *start = next_end.add_one();
    } else {
        ends.clear();
    }
}

impl<T: Integer, I: Draw<T>> OddPieces<T, I> {
    /// Returns the next piece. The pending ends are in a vector: at most one before a range is
    /// drawn, and two with the end of that range. So there is never a third.
    fn next_piece(&mut self, ends: &mut ArrayVec<Option<T>, 2>) -> Option<RangeInclusive<T>>
        requires undone { self.old.done ≡ false }
        requires ready { (odd_pieces T.Integer.own I.Draw).can_draw
            (with_pending self.old ends.old.items) }
        requires one { HasOneEnd ends.old.items }
        ensures one { HasOneEnd ends.new.items }
        ensures ended { IfNone result (ends.new.items ≡ []) }
        ensures steps { (odd_pieces T.Integer.own I.Draw).draw_gives
            (with_pending self.old ends.old.items) result (with_pending self.new ends.new.items) }
        ensures goes { MakesProgress (odd_pieces T.Integer.own I.Draw).can_draw
            (odd_pieces T.Integer.own I.Draw).draws_left
            (with_pending self.old ends.old.items) result (with_pending self.new ends.new.items) }
    {
        while let Some(range) = self.iter.draw() {
            let (next, next_end) = range.into_inner();
            let start = self.start;
            let pending = first_end(ends);
            ends.push(Some(next_end));
            let Some(end) = pending else {
                self.start = next;
                continue;
            };
            if end < next {
                ends.remove(0);
                self.start = next;
                return Some(start..=end);
            }
            pass_lesser(&mut self.start, ends, end, next_end);
            if start < next {
                return Some(start..=next.sub_one());
            }
        }
        self.done = true;
        let end = ends.pop().flatten()?;
        Some(self.start..=end)
    }
}

impl<T: Integer, I: Draw<T>> Draw<T> for OddPieces<T, I> {
    ghost can_draw = { (odd_pieces T.Integer.own I.Draw).can_draw };

    ghost draw_gives = { (odd_pieces T.Integer.own I.Draw).draw_gives };

    ghost draws_left = { (odd_pieces T.Integer.own I.Draw).draws_left };

    ghost may_give = { (odd_pieces T.Integer.own I.Draw).may_give };

    fn draw(&mut self) -> Option<RangeInclusive<T>> {
        if self.done {
            return None;
        }
        let mut ends = ends_with(self.end.take());
        let piece = self.next_piece(&mut ends);
        self.end = first_end(&ends);
        piece
    }

    ghost answers = { λ s t item gives. gives.answers };

    ghost sorted = { odd_pieces-sorted T.Integer.own ⟦<I as Draw<T>>⟧ I.sorted };
}
