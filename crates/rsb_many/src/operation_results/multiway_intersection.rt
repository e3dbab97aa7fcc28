//! The values in all of the given streams.

ghost use Rattle.std.specs.Prelude.{List};
ghost use Rattle.rsb_streams.specs.laws.Stream.{canonical_stream-starts, drawn-itself};
ghost use Rattle.rsb_many.specs.KMerge.{BeginsKMerge};
ghost use Rattle.rsb_many.specs.MultiwayBegun.{AreComplements, BeginsIntersection};
ghost use Rattle.rsb_many.specs.MultiwayIntersection.{multiway_intersection};
ghost use Rattle.rsb_many.specs.laws.Multiway.{multiway_intersection-disjoint};

use crate::kmerge::KMerge;
use crate::operation_results::multiway_union::MultiwayUnion;
use rsb_integer::Integer;
use rsb_streams::{Draw, DrawDisjoint, NotIter, SortedDisjoint, SortedStarts};
use std::alloc::{Allocator, Global};
use std::iter::FusedIterator;
use std::ops::RangeInclusive;

/// The values in all of the given streams: every value if there are no streams. It draws the first
/// gap of each stream when it is built, and holds at most one gap of each. It allocates only when
/// it is built. (`MultiwayIntersection` in range-set-blaze.)
#[derive(Debug, Drop)]
pub struct MultiwayIntersection<T: Integer, I, A: Allocator = Global> {
    // The complement of the union of the complements.
    iter: NotIter<T, MultiwayUnion<T, NotIter<T, I>, A>>,
}

impl<T: Integer, I: Draw<T>, A: Allocator> MultiwayIntersection<T, I, A> {
    /// Returns the values in all of the streams whose complements are merged. The merge must be
    /// ready. It draws nothing more.
    pub(crate) fn of(gaps: KMerge<T, NotIter<T, I>, A>) -> Self
        requires { ⟦<KMerge<T, NotIter<T, I>, A> as Draw<T>>⟧.can_draw gaps }
        ensures ready { ⟦<MultiwayIntersection<T, I, A> as Draw<T>>⟧.can_draw result }
        ensures begun { (streams : List I) (complements : List (NotIter T I))
            → AreComplements T.Integer.own I.Draw streams complements
            → BeginsKMerge T.Integer.own ⟦<NotIter<T, I> as Draw<T>>⟧
            ⟦<KMerge<T, NotIter<T, I>, A> as Draw<T>>⟧ complements gaps
            → BeginsIntersection T.Integer.own I.Draw
            ⟦<MultiwayIntersection<T, I, A> as Draw<T>>⟧ streams result }
    {
        let left_out = MultiwayUnion::of(gaps);
        MultiwayIntersection {
            iter: NotIter::new(left_out),
        }
    }
}

impl<T: Integer, I: Draw<T>, A: Allocator> Iterator for MultiwayIntersection<T, I, A> {
    type Item = RangeInclusive<T>;

    ghost can_next = { (multiway_intersection T.Integer.own I.Draw).can_draw };

    ghost next_gives = { (multiway_intersection T.Integer.own I.Draw).draw_gives };

    ghost remaining = { (multiway_intersection T.Integer.own I.Draw).draws_left };

    fn next(&mut self) -> Option<RangeInclusive<T>> {
        self.iter.next()
    }
}

impl<T: Integer, I: Draw<T>, A: Allocator> FusedIterator for MultiwayIntersection<T, I, A> {}

impl<T: Integer, I: Draw<T>, A: Allocator> Draw<T> for MultiwayIntersection<T, I, A> {
    ghost can_draw = { ⟦<MultiwayIntersection<T, I, A> as Iterator>⟧.can_next };

    ghost draw_gives = { ⟦<MultiwayIntersection<T, I, A> as Iterator>⟧.next_gives };

    ghost draws_left = { ⟦<MultiwayIntersection<T, I, A> as Iterator>⟧.remaining };

    ghost may_give = { (multiway_intersection T.Integer.own I.Draw).may_give };

    fn draw(&mut self) -> Option<RangeInclusive<T>> {
        self.next()
    }

    ghost answers = { λ s t item gives. gives.answers };

    ghost sorted = { λ s ready. canonical_stream-starts T.value_count _ _
        (multiway_intersection-disjoint T.Integer.own ⟦<I as Draw<T>>⟧ I.sorted s ready) };
}

impl<T: Integer, I: Draw<T>, A: Allocator> SortedStarts<T> for MultiwayIntersection<T, I, A> {
    ghost drawn = { drawn-itself };
}

impl<T: Integer, I: Draw<T>, A: Allocator> DrawDisjoint<T> for MultiwayIntersection<T, I, A> {
    ghost canonical = { λ s ready.
        (multiway_intersection-disjoint T.Integer.own ⟦<I as Draw<T>>⟧ I.sorted s ready).all };
}

impl<T: Integer, I: Draw<T>, A: Allocator> SortedDisjoint<T> for MultiwayIntersection<T, I, A> {}
