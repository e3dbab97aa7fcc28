//! Sets from lists of ranges. A list that is canonical is not sorted.

ghost use Rattle.std.specs.Prelude.{◌≡◌, ◌↔◌, ◌<◌, ◌≤◌, All, IfOk, IfSome, IsTrue};
ghost use Rattle.rsb_integer.specs.Rank.{intervals_of};
ghost use Rattle.rsb_integer.specs.Runs.{members};
ghost use Rattle.rsb_streams.specs.OutOfPlace.{start_after};
ghost use Rattle.rsb_streams.specs.UnsortedDisjoint.{IsProper};
ghost use Rattle.rsb_storage.specs.Storage.{IsKept};
ghost use Rattle.rsb_storage.specs.Set.{IsSetOf};

use crate::set::RangeSetBlaze;
use num_traits::Zero;
use rsb_integer::Integer;
use rsb_storage::lengths::add_length;
use rsb_storage::run::{reaches, run_of_range};
use rsb_storage::runs::Runs;
use rsb_streams::{AssumeSortedStarts, UnionIter};
use std::alloc::{AllocError, Allocator};
use std::ops::RangeInclusive;

impl<T: Integer, A: Allocator + Copy> RangeSetBlaze<T, A> {
    /// Returns the set of the values of a list of ranges. Sorts the list in place unless it is
    /// canonical. If allocation fails, no set is made.
    pub(crate) fn from_list(alloc: A, ranges: Vec<RangeInclusive<T>, A>) -> Result<Self, AllocError>
        requires { All (IsProper T.rank T.value_count) ranges.items }
        ensures { IfOk result (λ set.
            IsSetOf set (members (intervals_of T.rank ranges.items))) }
    {
        if let Some(length) = length_in_order(&ranges) {
            let runs = Runs::from_ranges(alloc, ranges)?;
            return Ok(RangeSetBlaze {
                runs,
                length,
                alloc,
            });
        }
        let mut sorted = ranges;
        sorted.sort_unstable_by_key(|range| *range.start());
        Self::from_sorted_disjoint(alloc, UnionIter::new(AssumeSortedStarts::new(sorted)))
    }
}

// Returns the number of members of a list of ranges if it is canonical, and otherwise `None`.
fn length_in_order<T: Integer>(ranges: &[RangeInclusive<T>]) -> Option<T::SafeLen>
    ensures { IfSome result (λ length. IsKept T.value_count (intervals_of T.rank ranges.now)
        (T.SafeLen.number length)) }
{
    let mut length = T::SafeLen::zero();
    let mut previous = None;
    let mut rest = ranges.iter();
    while let Some(range) = rest.next() {
        let run = run_of_range(range)?;
        if !is_past(previous, run.start) {
            return None;
        }
        add_length(&mut length, run);
        previous = Some(run.end);
    }
    Some(length)
}

// Returns whether a value lies past the end before it, with a gap between, if there is such an end.
fn is_past<T: Integer>(previous: Option<T>, start: T) -> bool
    requires { T.rank start < T.value_count }
    ensures { IsTrue result ↔ (start_after T.rank 2 previous ≤ T.rank start) }
{
    match previous {
        Some(end) => !reaches(end, start),
        None => true,
    }
}
