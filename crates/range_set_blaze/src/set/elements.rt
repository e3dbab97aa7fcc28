//! The elements of a set.

ghost use Rattle.std.specs.Prelude.{◌≡◌, IfOk};
ghost use Rattle.rsb_integer.specs.Runs.{members};
ghost use Rattle.rsb_integer.specs.Selection.{intersection};
ghost use Rattle.range_set_blaze.specs.BothEnds.{
  runs_left,
  IsOverSet,
  ListedReady,
  ListedReadyBack,
  TakesGreatest,
  TakesLeast,
};
ghost use Rattle.rsb_storage.specs.Set.{ranks_in, IsSetOf};

use crate::into_iter::IntoIter;
use crate::iter::Iter;
use crate::set::RangeSetBlaze;
use crate::set::algebra::intersection_of;
use rsb_integer::Integer;
use rsb_storage::bounds::run_between;
use rsb_storage::ranges_iter::RangesIter;
use rsb_streams::RangeOnce;
use std::alloc::{AllocError, Allocator};
use std::ops::RangeBounds;

impl<T: Integer, A: Allocator> RangeSetBlaze<T, A> {
    /// Returns the members in ascending order, as a double-ended iterator. Does not allocate.
    /// (`RangeSetBlaze::iter`.)
    pub fn iter(&self) -> Iter<T, RangesIter<'_, T>>
        ensures runs { runs_left T.rank result ≡ self.now }
        ensures ready { ListedReady T.rank T.value_count result }
        ensures ready_back { ListedReadyBack T.rank T.value_count result }
    {
        Iter::over(self.ranges())
    }
}

impl<'a, T: Integer, A: Allocator> IntoIterator for &'a RangeSetBlaze<T, A> {
    type Item = T;

    type IntoIter = Iter<T, RangesIter<'a, T>>;

    ghost into_iter_gives = { λ set elements.
        IsOverSet T.rank T.value_count set.now elements };

    fn into_iter(self) -> Iter<T, RangesIter<'a, T>> {
        self.iter()
    }
}

impl<T: Integer, A: Allocator> IntoIterator for RangeSetBlaze<T, A> {
    type Item = T;

    type IntoIter = IntoIter<T, A>;

    ghost into_iter_gives = { λ set elements. elements ≡ set };

    fn into_iter(self) -> IntoIter<T, A> {
        let ranges = self.into_ranges();
        IntoIter {
            elements: Iter::over(ranges),
        }
    }
}

/// States what an iterator over the elements of a set stands for: the set of the members still to
/// come. `next` removes the least member of that set, and `next_back` the greatest. Each returns
/// `None` exactly when that set is empty. Not in range-set-blaze.
pub fn elements_stand_for_sets<'a, T: Integer + 'a>()
    ensures next { (s t : _) (item : _)
        → ⟦<Iter<T, RangesIter<'a, T>> as Iterator>⟧.next_gives s item t
        → TakesLeast T.rank T.value_count (members (runs_left T.rank s)) item
        (members (runs_left T.rank t)) }
    ensures next_back { (s t : _) (item : _)
        → ⟦<Iter<T, RangesIter<'a, T>> as DoubleEndedIterator>⟧.next_back_gives s item t
        → TakesGreatest T.rank T.value_count (members (runs_left T.rank s)) item
        (members (runs_left T.rank t)) }
{}

impl<T: Integer, A: Allocator + Copy> RangeSetBlaze<T, A> {
    /// Returns the members between two bounds in ascending order, as a double-ended iterator that
    /// owns them. If the bounds are empty or reversed, the iterator is empty. If allocation fails,
    /// no iterator is made. (`RangeSetBlaze::range`.)
    ///
    /// The contract says nothing about a `RangeBounds` type whose own contract does not specify its
    /// bounds, or about a `RangeInclusive` that was iterated to its end.
    pub fn range<R: RangeBounds<T>>(&self, range: R) -> Result<IntoIter<T, A>, AllocError>
        ensures members { R.has_bounds range → IfOk result (λ elements. IsSetOf elements
            (intersection (members self.now)
            (ranks_in T.rank T.value_count R.start_bound R.end_bound range))) }
    {
        let Some(run) = run_between(&range) else {
            return Ok(Self::new(self.alloc).into_iter());
        };
        let bounds = RangeOnce::new(run.start..=run.end);
        let set = intersection_of(self.alloc, self.ranges(), bounds)?;
        Ok(set.into_iter())
    }
}
