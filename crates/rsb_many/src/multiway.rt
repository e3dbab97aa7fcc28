//! Set algebra over any number of streams of one type.

ghost use Rattle.std.specs.Prelude.{◌<◌, All, IfOk};
ghost use Rattle.rsb_many.specs.HandedIn.{EachGaveRun};
ghost use Rattle.rsb_many.specs.MultiwayAtLeast.{GivesRunsOfAllAtMost, MakesMultiwayAtLeast};
ghost use Rattle.rsb_many.specs.MultiwayBegun.{
  AreComplements,
  BeginsAtLeast,
  BeginsIntersection,
  BeginsSymmetricDifference,
  BeginsUnion,
};
ghost use Rattle.rsb_many.specs.MultiwayResults.{
  MakesMultiwayIntersection,
  MakesMultiwaySymmetricDifference,
  MakesMultiwayUnion,
};
ghost use Rattle.rsb_streams.specs.Items.{GaveRun, IsEnding};

use crate::kmerge::KMerge;
use crate::multiway_at_least::MultiwayAtLeast;
use crate::multiway_sweep::MultiwaySweep;
use crate::multiway_sym_diff_set::MultiwaySymmetricDifference;
use crate::operation_results::{MultiwayIntersection, MultiwayUnion};
use rsb_integer::Integer;
use rsb_streams::{Draw, DrawDisjoint, NotIter};
use std::alloc::{AllocError, Allocator};

/// Set algebra over finitely many streams of one type, each of which must be ready. Each call
/// allocates only to build its result, and then draws the first range of each stream, or its first
/// gap for `intersection`. If allocation fails, the streams are dropped. (`MultiwaySortedDisjoint`
/// in range-set-blaze.)
pub trait MultiwaySortedDisjoint<T: Integer, I: DrawDisjoint<T>>: IntoIterator<Item = I> {
    /// Returns the union of the streams, which is empty if there are none. It looks ahead by at
    /// most one range of each. (`MultiwaySortedDisjoint::union`.)
    final fn union<A: Allocator + Copy>(
        self,
        alloc: A,
    ) -> Result<MultiwayUnion<T, I, A>, AllocError>
    where
        Self: Sized,
        requires ends { IsEnding Self.into_iter_gives Self.IntoIter.can_next Self.IntoIter.remaining
            self }
        requires can { EachGaveRun Self.into_iter_gives Self.IntoIter.next_gives self
            (All I.can_draw) }
        ensures ready { IfOk result ⟦<MultiwayUnion<T, I, A> as Draw<T>>⟧.can_draw }
        ensures made { IfOk result (λ union.
            GaveRun Self.into_iter_gives Self.IntoIter.next_gives self
            (λ streams. MakesMultiwayUnion T.Integer.own I.Draw
            ⟦<MultiwayUnion<T, I, A> as Draw<T>>⟧ streams union)) }
        ensures begun { IfOk result (λ union.
            GaveRun Self.into_iter_gives Self.IntoIter.next_gives self
            (λ streams. BeginsUnion T.Integer.own I.Draw
            ⟦<MultiwayUnion<T, I, A> as Draw<T>>⟧ streams union)) }
    {
        let merge = KMerge::new(alloc, self)?;
        Ok(MultiwayUnion::of(merge))
    }

    /// Returns the intersection of the streams, which has every value if there are no streams. It
    /// holds at most one gap of each. (`MultiwaySortedDisjoint::intersection`.)
    final fn intersection<A: Allocator + Copy>(
        self,
        alloc: A,
    ) -> Result<MultiwayIntersection<T, I, A>, AllocError>
    where
        Self: Sized,
        requires ends { IsEnding Self.into_iter_gives Self.IntoIter.can_next Self.IntoIter.remaining
            self }
        requires can { EachGaveRun Self.into_iter_gives Self.IntoIter.next_gives self
            (All I.can_draw) }
        ensures ready { IfOk result ⟦<MultiwayIntersection<T, I, A> as Draw<T>>⟧.can_draw }
        ensures made { IfOk result (λ intersection.
            GaveRun Self.into_iter_gives Self.IntoIter.next_gives self
            (λ streams. MakesMultiwayIntersection T.Integer.own I.Draw
            ⟦<MultiwayIntersection<T, I, A> as Draw<T>>⟧ streams intersection)) }
        ensures begun { IfOk result (λ intersection.
            GaveRun Self.into_iter_gives Self.IntoIter.next_gives self
            (λ streams. BeginsIntersection T.Integer.own I.Draw
            ⟦<MultiwayIntersection<T, I, A> as Draw<T>>⟧ streams intersection)) }
    {
        let gaps = complements(alloc, self)?;
        let merge = KMerge::over(alloc, gaps)?;
        Ok(MultiwayIntersection::of(merge))
    }

    /// Returns the values in an odd number of the streams: none if there are no streams. It holds
    /// at most one range of each. (`MultiwaySortedDisjoint::symmetric_difference`.)
    final fn symmetric_difference<A: Allocator + Copy>(
        self,
        alloc: A,
    ) -> Result<MultiwaySymmetricDifference<T, I, A>, AllocError>
    where
        Self: Sized,
        requires ends { IsEnding Self.into_iter_gives Self.IntoIter.can_next Self.IntoIter.remaining
            self }
        requires can { EachGaveRun Self.into_iter_gives Self.IntoIter.next_gives self
            (All I.can_draw) }
        ensures ready { IfOk result ⟦<MultiwaySymmetricDifference<T, I, A> as Draw<T>>⟧.can_draw }
        ensures made { IfOk result (λ difference.
            GaveRun Self.into_iter_gives Self.IntoIter.next_gives self
            (λ streams. MakesMultiwaySymmetricDifference T.Integer.own I.Draw
            ⟦<MultiwaySymmetricDifference<T, I, A> as Draw<T>>⟧ streams difference)) }
        ensures begun { IfOk result (λ difference.
            GaveRun Self.into_iter_gives Self.IntoIter.next_gives self
            (λ streams. BeginsSymmetricDifference T.Integer.own I.Draw
            ⟦<MultiwaySymmetricDifference<T, I, A> as Draw<T>>⟧ streams difference)) }
    {
        let sweep = MultiwaySweep::new(alloc, self)?;
        Ok(MultiwaySymmetricDifference::of(sweep))
    }

    /// Returns the values in at least `k` of the streams: every value if `k` is 0, and none if
    /// there are fewer than `k` streams. It holds at most one range of each. If `k` is at least 1,
    /// it gives at most as many ranges as all the streams together. Not in range-set-blaze.
    final fn at_least<A: Allocator + Copy>(
        self,
        alloc: A,
        k: usize,
    ) -> Result<MultiwayAtLeast<T, I, A>, AllocError>
    where
        Self: Sized,
        requires ends { IsEnding Self.into_iter_gives Self.IntoIter.can_next Self.IntoIter.remaining
            self }
        requires can { EachGaveRun Self.into_iter_gives Self.IntoIter.next_gives self
            (All I.can_draw) }
        ensures ready { IfOk result ⟦<MultiwayAtLeast<T, I, A> as Draw<T>>⟧.can_draw }
        ensures made { IfOk result (λ deep.
            GaveRun Self.into_iter_gives Self.IntoIter.next_gives self
            (λ streams. MakesMultiwayAtLeast T.Integer.own I.Draw k
            ⟦<MultiwayAtLeast<T, I, A> as Draw<T>>⟧ streams deep)) }
        ensures begun { IfOk result (λ deep.
            GaveRun Self.into_iter_gives Self.IntoIter.next_gives self
            (λ streams. BeginsAtLeast T.Integer.own I.Draw k
            ⟦<MultiwayAtLeast<T, I, A> as Draw<T>>⟧ streams deep)) }
        ensures run_count { 0 < k → IfOk result (λ deep.
            GaveRun Self.into_iter_gives Self.IntoIter.next_gives self
            (λ streams. GivesRunsOfAllAtMost k T.value_count I.may_give streams
            (⟦<MultiwayAtLeast<T, I, A> as Draw<T>>⟧.may_give deep))) }
    {
        let sweep = MultiwaySweep::new(alloc, self)?;
        Ok(MultiwayAtLeast::of(sweep, k))
    }
}

impl<T: Integer, I: DrawDisjoint<T>, K: IntoIterator<Item = I>> MultiwaySortedDisjoint<T, I>
    for K {}

// Returns the complements of finitely many streams, each of which must be ready. If allocation
// fails, the streams are dropped.
fn complements<T: Integer, I: DrawDisjoint<T>, A: Allocator, K: IntoIterator<Item = I>>(
    alloc: A,
    streams: K,
) -> Result<Vec<NotIter<T, I>, A>, AllocError>
    requires ends { IsEnding K.into_iter_gives K.IntoIter.can_next K.IntoIter.remaining streams }
    requires can { EachGaveRun K.into_iter_gives K.IntoIter.next_gives streams (All I.can_draw) }
    ensures ready { IfOk result (λ gaps. All ⟦<NotIter<T, I> as Draw<T>>⟧.can_draw gaps.items) }
    ensures made { IfOk result (λ gaps.
        GaveRun K.into_iter_gives K.IntoIter.next_gives streams
        (λ items. AreComplements T.Integer.own I.Draw items gaps.items)) }
{
    let mut gaps = Vec::new(alloc);
    for stream in streams {
        gaps.push(stream.complement())?;
    }
    Ok(gaps)
}
