//! Streams of ranges that are known to be canonical.

ghost use Rattle.std.specs.Prelude.{◌≡◌, ◌↔◌, ◌+◌, [], take, IfErr, IfOk, IsOk};
ghost use Rattle.rsb_integer.specs.Rank.{intervals_of};
ghost use Rattle.rsb_integer.specs.Runs.{AllEndBelow, IsCanonicalIn};
ghost use Rattle.rsb_streams.specs.Calls.{gives_as, GivesOnly};
ghost use Rattle.rsb_streams.specs.laws.Calls.{known-answered, known-disjoint};
ghost use Rattle.rsb_streams.specs.CheckSortedDisjoint.{check_sorted_disjoint};
ghost use Rattle.rsb_streams.specs.OutOfPlace.{IsFirstBad};
ghost use Rattle.rsb_streams.specs.Stream.{◌⊆◌, just, IsReadyAnd};
ghost use Rattle.rsb_streams.specs.laws.Stream.{canonical_stream-starts, drawn-itself};

use crate::draw::Draw;
use crate::not_sorted_disjoint::NotSortedDisjoint;
use crate::out_of_place::{Spacing, first_bad};
use crate::range_once::RangeOnce;
use crate::sorted_disjoint::{DrawDisjoint, SortedDisjoint, SortedStarts};
use rsb_integer::Integer;
use std::alloc::Allocator;
use std::iter::{Fuse, FusedIterator};
use std::marker::PhantomData;
use std::ops::RangeInclusive;
use std::vec::IntoIter;

/// The ranges of an iterator that are known to be canonical. (`CheckSortedDisjoint` in
/// range-set-blaze, which tests them as they come.)
#[derive(Clone, Debug, Drop)]
pub struct CheckSortedDisjoint<T, I> {
    iter: Fuse<I>,
    of: PhantomData<T>,
}

impl<T: Integer, I: Iterator> CheckSortedDisjoint<T, I> {
    /// Returns the ranges of `iter` as a stream. Requires that `iter` converts into an iterator
    /// that ends and whose `next` can be called, and that its ranges are canonical. Does not
    /// allocate. (`CheckSortedDisjoint::new`.)
    pub fn new<J: IntoIterator<Item = RangeInclusive<T>, IntoIter = I>>(iter: J) -> Self
        requires { GivesOnly T.rank ⟦<I as Iterator>⟧ J.into_iter_gives
            (IsCanonicalIn T.value_count) iter }
        ensures ready { ⟦<CheckSortedDisjoint<T, I> as Draw<T>>⟧.can_draw result }
        ensures gives { ⟦<CheckSortedDisjoint<T, I> as Draw<T>>⟧.may_give result
            ⊆ gives_as T.rank ⟦<I as Iterator>⟧ J.into_iter_gives iter }
    {
        CheckSortedDisjoint {
            iter: iter.into_iter().fuse(),
            of: PhantomData,
        }
    }
}

impl<T: Integer, A: Allocator> CheckSortedDisjoint<T, IntoIter<RangeInclusive<T>, A>> {
    /// Returns the ranges of a list as a stream. If the list is not canonical, returns its first
    /// bad position and the list. Does not allocate. Not in range-set-blaze, which panics.
    pub fn try_new(ranges: Vec<RangeInclusive<T>, A>) -> Result<Self, NotSortedDisjoint<T, A>>
        ensures ok { IsOk result ↔ IsCanonicalIn T.value_count (intervals_of T.rank ranges.items) }
        ensures ready { IfOk result
            ⟦<CheckSortedDisjoint<T, IntoIter<RangeInclusive<T>, A>> as Draw<T>>⟧.can_draw }
        ensures runs { IfOk result (λ stream.
            ⟦<CheckSortedDisjoint<T, IntoIter<RangeInclusive<T>, A>> as Draw<T>>⟧.may_give stream
            ⊆ just (intervals_of T.rank ranges.items)) }
        ensures ranges { IfErr result (λ refused. refused.ranges ≡ ranges) }
        ensures position { IfErr result (λ refused. IsFirstBad (IsCanonicalIn T.value_count)
            (intervals_of T.rank ranges.items) refused.position) }

        // All ranges up to that position end in the type. So the one there is empty or starts too
        // early.
        ensures value { IfErr result (λ refused. AllEndBelow T.value_count
            (take (refused.position + 1) (intervals_of T.rank ranges.items))) }
    {
        if let Some(position) = first_bad(Spacing::Apart, &ranges) {
            return Err(NotSortedDisjoint { position, ranges });
        }
        Ok(Self::new(ranges))
    }
}

impl<T: Integer> Default for CheckSortedDisjoint<T, RangeOnce<T>> {
    ghost is_default = { λ result.
        IsReadyAnd ⟦<CheckSortedDisjoint<T, RangeOnce<T>> as Draw<T>>⟧.can_draw result
        (⟦<CheckSortedDisjoint<T, RangeOnce<T>> as Draw<T>>⟧.may_give result ⊆ just []) };

    /// Returns a stream of no ranges. Does not allocate.
    fn default() -> Self {
        CheckSortedDisjoint {
            iter: RangeOnce::from(T::exhausted_range()).fuse(),
            of: PhantomData,
        }
    }
}

impl<T: Integer, I: Iterator<Item = RangeInclusive<T>>> Iterator for CheckSortedDisjoint<T, I> {
    type Item = RangeInclusive<T>;

    ghost can_next = { (check_sorted_disjoint T.Integer.own I.Iterator).can_draw };

    ghost next_gives = { (check_sorted_disjoint T.Integer.own I.Iterator).draw_gives };

    ghost remaining = { (check_sorted_disjoint T.Integer.own I.Iterator).draws_left };

    fn next(&mut self) -> Option<RangeInclusive<T>> {
        self.iter.next()
    }
}

impl<T: Integer, I: Iterator<Item = RangeInclusive<T>>> FusedIterator
    for CheckSortedDisjoint<T, I> {}

impl<T: Integer, I: Iterator<Item = RangeInclusive<T>>> Draw<T> for CheckSortedDisjoint<T, I> {
    ghost can_draw = { ⟦<CheckSortedDisjoint<T, I> as Iterator>⟧.can_next };

    ghost draw_gives = { ⟦<CheckSortedDisjoint<T, I> as Iterator>⟧.next_gives };

    ghost draws_left = { ⟦<CheckSortedDisjoint<T, I> as Iterator>⟧.remaining };

    ghost may_give = { (check_sorted_disjoint T.Integer.own I.Iterator).may_give };

    fn draw(&mut self) -> Option<RangeInclusive<T>> {
        self.next()
    }

    ghost answers = { λ s t. known-answered T.Integer.own ⟦<I as Iterator>⟧
        (IsCanonicalIn T.value_count) s.iter t.iter };

    ghost sorted = { λ s can. canonical_stream-starts T.value_count _ _
        (known-disjoint T.Integer.own ⟦<I as Iterator>⟧ s.iter can) };
}

impl<T: Integer, I: Iterator<Item = RangeInclusive<T>>> SortedStarts<T>
    for CheckSortedDisjoint<T, I> {
    ghost drawn = { drawn-itself };
}

impl<T: Integer, I: Iterator<Item = RangeInclusive<T>>> DrawDisjoint<T>
    for CheckSortedDisjoint<T, I> {
    ghost canonical = { λ s can.
        (known-disjoint T.Integer.own ⟦<I as Iterator>⟧ s.iter can).all };
}

impl<T: Integer, I: Iterator<Item = RangeInclusive<T>>> SortedDisjoint<T>
    for CheckSortedDisjoint<T, I> {}
