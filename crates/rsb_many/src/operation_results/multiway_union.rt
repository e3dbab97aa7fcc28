//! The values in at least one of the given streams.

ghost use Rattle.std.specs.Prelude.{List};
ghost use Rattle.rsb_streams.specs.laws.Stream.{canonical_stream-starts, drawn-itself};
ghost use Rattle.rsb_many.specs.KMerge.{BeginsKMerge};
ghost use Rattle.rsb_many.specs.MultiwayBegun.{BeginsUnion};
ghost use Rattle.rsb_many.specs.laws.Multiway.{multiway_union-disjoint};
ghost use Rattle.rsb_many.specs.MultiwayUnion.{multiway_union};

use crate::kmerge::KMerge;
use rsb_integer::Integer;
use rsb_streams::{Draw, DrawDisjoint, SortedDisjoint, SortedStarts, UnionIter};
use std::alloc::{Allocator, Global};
use std::iter::FusedIterator;
use std::ops::RangeInclusive;

/// The values in at least one of the given streams: none if there are no streams. It draws the
/// first range of each stream when it is built, and then looks ahead by at most one range of each.
/// Once it has returned a range, what it has drawn from a stream lies within the ranges that it has
/// returned, except for at most one range. That one starts past the last returned range, with a gap
/// between. It allocates only when it is built. (`MultiwayUnion` in range-set-blaze.)
#[derive(Debug, Drop)]
pub struct MultiwayUnion<T: Integer, I, A: Allocator = Global> {
    iter: UnionIter<T, KMerge<T, I, A>>,
}

impl<T: Integer, I: Draw<T>, A: Allocator> MultiwayUnion<T, I, A> {
    /// Returns the union of the streams of a merge, which must be ready. It draws nothing more.
    pub(crate) fn of(merge: KMerge<T, I, A>) -> Self
        requires { ⟦<KMerge<T, I, A> as Draw<T>>⟧.can_draw merge }
        ensures ready { ⟦<MultiwayUnion<T, I, A> as Draw<T>>⟧.can_draw result }
        ensures begun { (streams : List I)
            → BeginsKMerge T.Integer.own I.Draw ⟦<KMerge<T, I, A> as Draw<T>>⟧ streams merge
            → BeginsUnion T.Integer.own I.Draw ⟦<MultiwayUnion<T, I, A> as Draw<T>>⟧
            streams result }
    {
        MultiwayUnion {
            iter: UnionIter::new(merge),
        }
    }
}

impl<T: Integer, I: Draw<T>, A: Allocator> Iterator for MultiwayUnion<T, I, A> {
    type Item = RangeInclusive<T>;

    ghost can_next = { (multiway_union T.Integer.own I.Draw).can_draw };

    ghost next_gives = { (multiway_union T.Integer.own I.Draw).draw_gives };

    ghost remaining = { (multiway_union T.Integer.own I.Draw).draws_left };

    fn next(&mut self) -> Option<RangeInclusive<T>> {
        self.iter.next()
    }
}

impl<T: Integer, I: Draw<T>, A: Allocator> FusedIterator for MultiwayUnion<T, I, A> {}

impl<T: Integer, I: Draw<T>, A: Allocator> Draw<T> for MultiwayUnion<T, I, A> {
    ghost can_draw = { ⟦<MultiwayUnion<T, I, A> as Iterator>⟧.can_next };

    ghost draw_gives = { ⟦<MultiwayUnion<T, I, A> as Iterator>⟧.next_gives };

    ghost draws_left = { ⟦<MultiwayUnion<T, I, A> as Iterator>⟧.remaining };

    ghost may_give = { (multiway_union T.Integer.own I.Draw).may_give };

    fn draw(&mut self) -> Option<RangeInclusive<T>> {
        self.next()
    }

    ghost answers = { λ s t item gives. gives.answers };

    ghost sorted = { λ s ready. canonical_stream-starts T.value_count _ _
        (multiway_union-disjoint T.Integer.own ⟦<I as Draw<T>>⟧ I.sorted s ready) };
}

impl<T: Integer, I: Draw<T>, A: Allocator> SortedStarts<T> for MultiwayUnion<T, I, A> {
    ghost drawn = { drawn-itself };
}

impl<T: Integer, I: Draw<T>, A: Allocator> DrawDisjoint<T> for MultiwayUnion<T, I, A> {
    ghost canonical = { λ s ready.
        (multiway_union-disjoint T.Integer.own ⟦<I as Draw<T>>⟧ I.sorted s ready).all };
}

impl<T: Integer, I: Draw<T>, A: Allocator> SortedDisjoint<T> for MultiwayUnion<T, I, A> {}
