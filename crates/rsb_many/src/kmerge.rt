//! The merge of any number of streams.

ghost use Rattle.std.specs.Prelude.{All, IfOk};
ghost use Rattle.rsb_many.specs.HandedIn.{EachGaveRun};
ghost use Rattle.rsb_many.specs.KMerge.{kmerge, BeginsKMerge, MakesKMerge};
ghost use Rattle.rsb_many.specs.laws.KMerge.{kmerge-sorted};
ghost use Rattle.rsb_streams.specs.Items.{GaveRun, IsEnding};
ghost use Rattle.rsb_streams.specs.laws.Stream.{drawn-itself};

use crate::drawn::Drawn;
use rsb_integer::Integer;
use rsb_streams::{Draw, SortedStarts};
use std::alloc::{AllocError, Allocator, Global};
use std::iter::FusedIterator;
use std::ops::RangeInclusive;

/// The ranges of any number of streams, ordered by their starts. Ranges with equal starts come in
/// an unspecified order. It draws the next range of a stream only after it has returned the
/// previous one and another is asked for. It allocates only when it is built. (`KMerge` in
/// range-set-blaze.)
#[derive(Debug, Drop)]
pub struct KMerge<T: Integer, I, A: Allocator = Global> {
    inputs: Drawn<T, I, A>,
}

impl<T: Integer, I: Draw<T>, A: Allocator + Copy> KMerge<T, I, A> {
    /// Returns the merge of finitely many streams, each of which must be ready. It allocates room
    /// for all of them and draws the first range of each. If allocation fails, the streams are
    /// dropped. (`KMerge::new`.)
    pub fn new<K: IntoIterator<Item = I>>(alloc: A, inputs: K) -> Result<Self, AllocError>
        requires ends { IsEnding K.into_iter_gives K.IntoIter.can_next K.IntoIter.remaining inputs }
        requires can { EachGaveRun K.into_iter_gives K.IntoIter.next_gives inputs (All I.can_draw) }
        ensures ready { IfOk result ⟦<KMerge<T, I, A> as Draw<T>>⟧.can_draw }
        ensures made { IfOk result (λ merge.
            GaveRun K.into_iter_gives K.IntoIter.next_gives inputs
            (λ streams. MakesKMerge T.Integer.own I.Draw ⟦<KMerge<T, I, A> as Draw<T>>⟧
            streams merge)) }
        ensures begun { IfOk result (λ merge.
            GaveRun K.into_iter_gives K.IntoIter.next_gives inputs
            (λ streams. BeginsKMerge T.Integer.own I.Draw ⟦<KMerge<T, I, A> as Draw<T>>⟧
            streams merge)) }
    {
        let streams = Vec::from_iter(alloc, inputs)?;
        KMerge::over(alloc, streams)
    }
}

impl<T: Integer, I: Draw<T>, A: Allocator> KMerge<T, I, A> {
    /// Returns the merge of a list of streams, each of which must be ready. If allocation fails,
    /// the streams are dropped.
    pub(crate) fn over(alloc: A, streams: Vec<I, A>) -> Result<Self, AllocError>
        requires { All I.can_draw streams.items }
        ensures ready { IfOk result ⟦<KMerge<T, I, A> as Draw<T>>⟧.can_draw }
        ensures begun { IfOk result (BeginsKMerge T.Integer.own I.Draw
            ⟦<KMerge<T, I, A> as Draw<T>>⟧ streams.items) }
    {
        Ok(KMerge {
            inputs: Drawn::over(alloc, streams)?,
        })
    }
}

impl<T: Integer, I: Draw<T>, A: Allocator> Iterator for KMerge<T, I, A> {
    type Item = RangeInclusive<T>;

    ghost can_next = { (kmerge T.Integer.own I.Draw).can_draw };

    ghost next_gives = { (kmerge T.Integer.own I.Draw).draw_gives };

    ghost remaining = { (kmerge T.Integer.own I.Draw).draws_left };

    fn next(&mut self) -> Option<RangeInclusive<T>> {
        self.inputs.refill();
        let head = self.inputs.take()?;
        Some(head.range())
    }
}

impl<T: Integer, I: Draw<T>, A: Allocator> FusedIterator for KMerge<T, I, A> {}

impl<T: Integer, I: Draw<T>, A: Allocator> Draw<T> for KMerge<T, I, A> {
    ghost can_draw = { ⟦<KMerge<T, I, A> as Iterator>⟧.can_next };

    ghost draw_gives = { ⟦<KMerge<T, I, A> as Iterator>⟧.next_gives };

    ghost draws_left = { ⟦<KMerge<T, I, A> as Iterator>⟧.remaining };

    ghost may_give = { (kmerge T.Integer.own I.Draw).may_give };

    fn draw(&mut self) -> Option<RangeInclusive<T>> {
        self.next()
    }

    ghost answers = { λ s t item gives. gives.answers };

    ghost sorted = { kmerge-sorted T.Integer.own ⟦<I as Draw<T>>⟧ I.sorted };
}

impl<T: Integer, I: Draw<T>, A: Allocator> SortedStarts<T> for KMerge<T, I, A> {
    ghost drawn = { drawn-itself };
}
