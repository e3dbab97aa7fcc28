//! Streams of ranges that are known to ascend, and may touch.

ghost use Rattle.std.specs.Prelude.{◌≡◌, ◌↔◌, ◌+◌, take, IfErr, IfOk, IsOk};
ghost use Rattle.rsb_integer.specs.Rank.{intervals_of};
ghost use Rattle.rsb_integer.specs.Runs.{AllEndBelow};
ghost use Rattle.rsb_streams.specs.Calls.{gives_as, GivesOnly};
ghost use Rattle.rsb_streams.specs.laws.Calls.{known-answered, known-touching};
ghost use Rattle.rsb_streams.specs.CheckSortedTouching.{check_sorted_touching};
ghost use Rattle.rsb_streams.specs.OutOfPlace.{IsFirstBad};
ghost use Rattle.rsb_streams.specs.Stream.{◌⊆◌, just};
ghost use Rattle.rsb_streams.specs.laws.Stream.{drawn-itself};
ghost use Rattle.rsb_streams.specs.Touching.{IsTouchingIn};
ghost use Rattle.rsb_streams.specs.laws.Touching.{touching-starts};

use crate::draw::Draw;
use crate::not_sorted_touching::NotSortedTouching;
use crate::out_of_place::{Spacing, first_bad};
use crate::sorted_disjoint::SortedStarts;
use crate::sorted_touching::SortedTouching;
use rsb_integer::Integer;
use std::alloc::Allocator;
use std::iter::{Fuse, FusedIterator};
use std::marker::PhantomData;
use std::ops::RangeInclusive;
use std::vec::IntoIter;

/// The ranges of an iterator that are known to ascend and not to overlap, but may touch. Not in
/// range-set-blaze.
#[derive(Clone, Debug, Drop)]
pub struct CheckSortedTouching<T, I> {
    iter: Fuse<I>,
    of: PhantomData<T>,
}

impl<T: Integer, I: Iterator> CheckSortedTouching<T, I> {
    /// Returns the ranges of `iter` as a stream. Requires that `iter` converts into an iterator
    /// that ends and whose `next` can be called. Each of its ranges must be non-empty and start
    /// past the end of the one before. Does not allocate. Not in range-set-blaze.
    pub fn new<J: IntoIterator<Item = RangeInclusive<T>, IntoIter = I>>(iter: J) -> Self
        requires { GivesOnly T.rank ⟦<I as Iterator>⟧ J.into_iter_gives (IsTouchingIn T.value_count)
            iter }
        ensures ready { ⟦<CheckSortedTouching<T, I> as Draw<T>>⟧.can_draw result }
        ensures gives { ⟦<CheckSortedTouching<T, I> as Draw<T>>⟧.may_give result
            ⊆ gives_as T.rank ⟦<I as Iterator>⟧ J.into_iter_gives iter }
    {
        CheckSortedTouching {
            iter: iter.into_iter().fuse(),
            of: PhantomData,
        }
    }
}

impl<T: Integer, A: Allocator> CheckSortedTouching<T, IntoIter<RangeInclusive<T>, A>> {
    /// Returns the ranges of a list as a stream. If a range is empty, or does not start past the
    /// end of the one before, returns the position of the first such range and the list. Does not
    /// allocate. Not in range-set-blaze.
    pub fn try_new(ranges: Vec<RangeInclusive<T>, A>) -> Result<Self, NotSortedTouching<T, A>>
        ensures ok { IsOk result ↔ IsTouchingIn T.value_count (intervals_of T.rank ranges.items) }
        ensures ready { IfOk result
            ⟦<CheckSortedTouching<T, IntoIter<RangeInclusive<T>, A>> as Draw<T>>⟧.can_draw }
        ensures runs { IfOk result (λ stream.
            ⟦<CheckSortedTouching<T, IntoIter<RangeInclusive<T>, A>> as Draw<T>>⟧.may_give stream
            ⊆ just (intervals_of T.rank ranges.items)) }
        ensures ranges { IfErr result (λ refused. refused.ranges ≡ ranges) }
        ensures position { IfErr result (λ refused. IsFirstBad (IsTouchingIn T.value_count)
            (intervals_of T.rank ranges.items) refused.position) }

        // All ranges up to that position end in the type. So the one there is empty or starts too
        // early.
        ensures value { IfErr result (λ refused. AllEndBelow T.value_count
            (take (refused.position + 1) (intervals_of T.rank ranges.items))) }
    {
        if let Some(position) = first_bad(Spacing::Touching, &ranges) {
            return Err(NotSortedTouching { position, ranges });
        }
        Ok(Self::new(ranges))
    }
}

impl<T: Integer, I: Iterator<Item = RangeInclusive<T>>> Iterator for CheckSortedTouching<T, I> {
    type Item = RangeInclusive<T>;

    ghost can_next = { (check_sorted_touching T.Integer.own I.Iterator).can_draw };

    ghost next_gives = { (check_sorted_touching T.Integer.own I.Iterator).draw_gives };

    ghost remaining = { (check_sorted_touching T.Integer.own I.Iterator).draws_left };

    fn next(&mut self) -> Option<RangeInclusive<T>> {
        self.iter.next()
    }
}

impl<T: Integer, I: Iterator<Item = RangeInclusive<T>>> FusedIterator
    for CheckSortedTouching<T, I> {}

impl<T: Integer, I: Iterator<Item = RangeInclusive<T>>> Draw<T> for CheckSortedTouching<T, I> {
    ghost can_draw = { ⟦<CheckSortedTouching<T, I> as Iterator>⟧.can_next };

    ghost draw_gives = { ⟦<CheckSortedTouching<T, I> as Iterator>⟧.next_gives };

    ghost draws_left = { ⟦<CheckSortedTouching<T, I> as Iterator>⟧.remaining };

    ghost may_give = { (check_sorted_touching T.Integer.own I.Iterator).may_give };

    fn draw(&mut self) -> Option<RangeInclusive<T>> {
        self.next()
    }

    ghost answers = { λ s t. known-answered T.Integer.own ⟦<I as Iterator>⟧
        (IsTouchingIn T.value_count) s.iter t.iter };

    ghost sorted = { λ s can. touching-starts T.value_count _ _
        (known-touching T.Integer.own ⟦<I as Iterator>⟧ s.iter can) };
}

impl<T: Integer, I: Iterator<Item = RangeInclusive<T>>> SortedStarts<T>
    for CheckSortedTouching<T, I> {
    ghost drawn = { drawn-itself };
}

impl<T: Integer, I: Iterator<Item = RangeInclusive<T>>> SortedTouching<T>
    for CheckSortedTouching<T, I> {
    ghost touching = { λ s can.
        (known-touching T.Integer.own ⟦<I as Iterator>⟧ s.iter can).all };
}
