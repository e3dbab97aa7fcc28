//! Streams of different types as streams of one type (docs/DECISIONS.md, whole-lists).

ghost use Rattle.std.specs.Iterator.{YieldsFirst, item_count};
ghost use Rattle.std.specs.Prelude.{All, IfOk};
ghost use Rattle.rsb_integer.specs.Rank.{intervals_of};
ghost use Rattle.rsb_integer.specs.Runs.{IsCanonicalIn};
ghost use Rattle.rsb_many.specs.DynSortedDisjoint.{TakesOneMore};
ghost use Rattle.rsb_streams.specs.Listed.{listed_may_give};
ghost use Rattle.rsb_streams.specs.laws.Listed.{listed-answers, listed-keeps};
ghost use Rattle.rsb_streams.specs.Stream.{◌⊆◌};
ghost use Rattle.rsb_streams.specs.laws.Stream.{canonical_stream-starts, drawn-itself};

use rsb_integer::Integer;
use rsb_streams::{Draw, DrawDisjoint, SortedDisjoint, SortedStarts};
use std::alloc::{AllocError, Allocator, Global};
use std::iter::FusedIterator;
use std::marker::Model;
use std::ops::RangeInclusive;
use std::vec::IntoIter;

/// A stream of all ranges of another stream, which it collects when it is built. Its type does not
/// depend on the type of the other stream. Contracts see it as the list of the ranges still to
/// come. (`DynSortedDisjoint` in range-set-blaze, which keeps the other stream.)
#[derive(Drop)]
pub struct DynSortedDisjoint<T, A: Allocator = Global> {
    ranges: IntoIter<RangeInclusive<T>, A>,
}

impl<T, A: Allocator> Model for DynSortedDisjoint<T, A> {
    ghost use Rattle.std.specs.Prelude.{List};
    ghost use Rattle.std.specs.Vec.Iter.{into_iter_items};
    ghost use Rattle.std.specs.declared.ops.RangeInclusive.{RangeInclusive};

    ghost Value = { List (RangeInclusive T) };

    ghost view = { λ s. into_iter_items s.ranges };
}

impl<T: Integer, A: Allocator> DynSortedDisjoint<T, A> {
    /// Returns a stream of all ranges of the given stream, which must be ready. It collects them
    /// into a list. If allocation fails, the stream is dropped. (`DynSortedDisjoint::new`.)
    pub fn new<I: DrawDisjoint<T>>(alloc: A, stream: I) -> Result<Self, AllocError>
        requires { I.can_draw stream }
        ensures ready { IfOk result ⟦<DynSortedDisjoint<T, A> as Draw<T>>⟧.can_draw }
        ensures gives { IfOk result (λ taken.
            ⟦<DynSortedDisjoint<T, A> as Draw<T>>⟧.may_give taken ⊆ I.may_give stream) }
    {
        let mut stream = stream;
        let mut ranges = Vec::new(alloc);
        while let Some(range) = stream.draw() {
            ranges.push(range)?;
        }
        Ok(DynSortedDisjoint {
            ranges: ranges.into_iter(),
        })
    }
}

impl<T: Integer, A: Allocator> Iterator for DynSortedDisjoint<T, A> {
    type Item = RangeInclusive<T>;

    ghost can_next = { λ s. IsCanonicalIn T.value_count (intervals_of T.rank s) };

    ghost next_gives = { YieldsFirst (λ s. s) };

    ghost remaining = { item_count (λ s. s) };

    fn next(&mut self) -> Option<RangeInclusive<T>> {
        self.ranges.next()
    }
}

impl<T: Integer, A: Allocator> FusedIterator for DynSortedDisjoint<T, A> {}

impl<T: Integer, A: Allocator> Draw<T> for DynSortedDisjoint<T, A> {
    ghost can_draw = { ⟦<DynSortedDisjoint<T, A> as Iterator>⟧.can_next };

    ghost draw_gives = { ⟦<DynSortedDisjoint<T, A> as Iterator>⟧.next_gives };

    ghost draws_left = { ⟦<DynSortedDisjoint<T, A> as Iterator>⟧.remaining };

    ghost may_give = { listed_may_give T.rank (λ s. s) };

    fn draw(&mut self) -> Option<RangeInclusive<T>> {
        self.next()
    }

    ghost answers = { listed-answers T.rank (λ s. s) };

    ghost sorted = { λ s canonical. canonical_stream-starts T.value_count _ _
        (listed-keeps T.rank (λ s. s) T.value_count s canonical) };
}

impl<T: Integer, A: Allocator> SortedStarts<T> for DynSortedDisjoint<T, A> {
    ghost drawn = { drawn-itself };
}

impl<T: Integer, A: Allocator> DrawDisjoint<T> for DynSortedDisjoint<T, A> {
    ghost canonical = { λ s canonical.
        (listed-keeps T.rank (λ s. s) T.value_count s canonical).all };
}

impl<T: Integer, A: Allocator> SortedDisjoint<T> for DynSortedDisjoint<T, A> {}

/// Returns the streams collected so far, followed by one more, whose ranges it collects. All must
/// be ready. If allocation fails, it drops every stream.
pub(crate) fn one_more_taken<T: Integer, A: Allocator + Copy, I: DrawDisjoint<T>>(
    alloc: A,
    taken: Vec<DynSortedDisjoint<T, A>, A>,
    stream: I,
) -> Result<Vec<DynSortedDisjoint<T, A>, A>, AllocError>
    requires taken { All ⟦<DynSortedDisjoint<T, A> as Draw<T>>⟧.can_draw taken.items }
    requires can { I.can_draw stream }
    ensures ready { IfOk result
        (λ streams. All ⟦<DynSortedDisjoint<T, A> as Draw<T>>⟧.can_draw streams.items) }
    ensures more { IfOk result (λ streams.
        TakesOneMore ⟦<DynSortedDisjoint<T, A> as Draw<T>>⟧.may_give (I.may_give stream) taken.items
        streams.items) }
{
    let mut taken = taken;
    taken.push(DynSortedDisjoint::new(alloc, stream)?)?;
    Ok(taken)
}
