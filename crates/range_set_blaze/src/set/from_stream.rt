//! Sets from streams of ranges, and back.

ghost use Rattle.std.specs.Prelude.{◌≡◌, IfOk};
ghost use Rattle.rsb_storage.specs.Set.{IsSetOf};
ghost use Rattle.rsb_storage.specs.Storage.{runs_of, IsKept};
ghost use Rattle.rsb_integer.specs.Rank.{intervals_of, interval_of};
ghost use Rattle.rsb_integer.specs.Runs.{members, IsCanonicalIn, covers};
ghost use Rattle.rsb_integer.specs.Selection.{IsUniversal};

use crate::set::RangeSetBlaze;
use num_traits::Zero;
use rsb_integer::Integer;
use rsb_storage::into_ranges_iter::IntoRangesIter;
use rsb_storage::runs::Runs;
use rsb_streams::{DrawDisjoint, RangeOnce};
use std::alloc::{AllocError, Allocator};
use std::ops::RangeInclusive;

impl<T: Integer, A: Allocator + Copy> RangeSetBlaze<T, A> {
    /// Returns the set whose runs are the ranges of a ready stream. If allocation fails, no set is
    /// made. (`RangeSetBlaze::from_sorted_disjoint`.)
    pub fn from_sorted_disjoint<I: DrawDisjoint<T>>(alloc: A, iter: I) -> Result<Self, AllocError>
        requires { I.can_draw iter }
        ensures runs { IfOk result (λ set. I.may_give iter set) }
    {
        let (entries, length) = gathered(alloc, iter)?;
        let runs = Runs::from_entries(alloc, entries)?;
        Ok(RangeSetBlaze {
            runs,
            length,
            alloc,
        })
    }

    /// Returns the set of the values of a range. The set is empty if the range is reversed or was
    /// iterated to its end. If allocation fails, no set is made. For an array, write `from_array`.
    /// (`From<RangeInclusive>` of `RangeSetBlaze`.)
    pub fn from(alloc: A, range: RangeInclusive<T>) -> Result<Self, AllocError>
        ensures members { IfOk result (λ set. IsSetOf set (covers (interval_of T.rank range))) }
    {
        Self::from_sorted_disjoint(alloc, RangeOnce::new(range))
    }

    /// Returns the set of all values of the type. If allocation fails, no set is made.
    /// (`RangeSetBlaze::universe`.)
    pub fn universe(alloc: A) -> Result<Self, AllocError>
        ensures members { IfOk result (λ set. IsUniversal T.value_count (members set)) }
    {
        Self::from(alloc, T::min_value()..=T::max_value())
    }
}

impl<T: Integer, A: Allocator> RangeSetBlaze<T, A> {
    /// Returns the runs in ascending order, as a double-ended iterator that owns them. Does not
    /// allocate. (`RangeSetBlaze::into_ranges`.)
    pub fn into_ranges(self) -> IntoRangesIter<T, A>
        ensures ranges { intervals_of T.rank result ≡ self }
        ensures ready { IsCanonicalIn T.value_count (intervals_of T.rank result) }
    {
        self.runs.into_ranges()
    }
}

// Returns the runs of a ready stream as entries, and the number of their members. The runs are
// collected into a list first, since std builds a map from a sorted list in one pass.
fn gathered<T: Integer, A: Allocator, I: DrawDisjoint<T>>(
    alloc: A,
    iter: I,
) -> Result<(Vec<(T, T), A>, T::SafeLen), AllocError>
    requires { I.can_draw iter }
    ensures runs { IfOk result (λ gathered. I.may_give iter (runs_of T.rank gathered.0.items)) }
    ensures kept { IfOk result (λ gathered. IsKept T.value_count (runs_of T.rank gathered.0.items)
        (T.SafeLen.number gathered.1)) }
{
    let mut iter = iter;
    let mut entries = Vec::new(alloc);
    let mut length = T::SafeLen::zero();
    while let Some(range) = iter.draw() {
        length += T::safe_len(&range);
        let (start, end) = range.into_inner();
        entries.push((start, end))?;
    }
    Ok((entries, length))
}
