//! What a stream requires of the streams that it is built from
//! (docs/DECISIONS.md, three-laws and draw-without-supertrait).

ghost use Rattle.std.specs.Prelude.{Option};
ghost use Rattle.std.specs.Iterator.{Count, MakesProgress};
ghost use Rattle.std.specs.declared.ops.RangeInclusive.{RangeInclusive};
ghost use Rattle.rsb_streams.specs.Stream.{Answers, HasSortedStarts, Keeps, Outcomes};

use rsb_integer::Integer;
use std::ops::RangeInclusive;

/// A finite source of non-empty ranges, sorted by start. Not in range-set-blaze; every
/// `SortedStarts` is one, and its `draw` is its `next`.
///
/// A stream that is built from other streams requires only this of them. The trait has no
/// supertrait except `Drop`, so each level of nesting adds only one dictionary to those that a call
/// passes. A source is ready if a range may be drawn from it (`can_draw`).
pub trait Draw<T: Integer>: Drop {
    // Whether the source is ready, that is, a range may be drawn from it. Every call on streams
    // requires this. For the streams of this crate it is the `can_next` of their iterators.
    ghost can_draw: { Self → Type 0 };

    // What a draw returns, and the state that it leaves.
    ghost draw_gives: { Self → Option (RangeInclusive T) → Self → Type 0 };

    // The greatest number of ranges that may be left.
    ghost draws_left: { Self → Count };

    // The lists of ranges that may still come, each range as an interval of ranks.
    ghost may_give: { Self → Outcomes };

    /// Returns the next range of a ready stream, or `None` at the end.
    fn draw(&mut self) -> Option<RangeInclusive<T>>
        requires { can_draw self.old }
        ensures steps { draw_gives self.old result self.new }
        ensures goes { MakesProgress can_draw draws_left self.old result self.new };

    // A draw returns a range that may come next, and leaves a source that gives only what may come
    // after it.
    ghost answers: { (s t : Self) (item : Option (RangeInclusive T))
        → draw_gives s item t → Answers T.rank may_give s item t };

    // At least one list may come from a ready source. Each such list has non-empty ranges, sorted
    // by start, and the draws end.
    ghost sorted: { (s : Self) → can_draw s
        → Keeps (HasSortedStarts T.value_count) (may_give s) (draws_left s) };
}
