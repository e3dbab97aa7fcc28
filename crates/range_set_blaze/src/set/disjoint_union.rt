//! The union of two sets of which one lies below the other. It is a copy of both lists of runs.

ghost use Rattle.std.specs.Prelude.{◌≡◌, ◌++◌, IfOk, IsTrue};
ghost use Rattle.rsb_integer.specs.Runs.{IsCanonicalIn};

use crate::set::RangeSetBlaze;
use rsb_integer::Integer;
use rsb_storage::run::{known, reaches};
use rsb_storage::runs::Runs;
use std::alloc::{AllocError, Allocator};

/// Returns whether all members of one set lie below those of another, with a gap between.
pub(super) fn lies_below<T: Integer, L: Allocator, H: Allocator>(
    low: &RangeSetBlaze<T, L>,
    high: &RangeSetBlaze<T, H>,
) -> bool
    ensures { IsTrue result → IsCanonicalIn T.value_count (low.now ++ high.now) }
{
    let first = high.runs.first();
    let Some(last) = low.runs.last() else {
        return true;
    };
    let Some(first) = first else {
        return true;
    };
    !reaches(last.end, known(first.start))
}

/// Returns the union of two sets of which one lies below the other.
pub(super) fn chained<T: Integer, A: Allocator + Copy, L: Allocator, H: Allocator>(
    alloc: A,
    low: &RangeSetBlaze<T, L>,
    high: &RangeSetBlaze<T, H>,
) -> Result<RangeSetBlaze<T, A>, AllocError>
    requires { IsCanonicalIn T.value_count (low.now ++ high.now) }
    ensures { IfOk result (λ set. set ≡ low.now ++ high.now) }
{
    let runs = Runs::chained(alloc, &low.runs, &high.runs)?;
    let mut length = low.length;
    length += high.length;
    Ok(RangeSetBlaze {
        runs,
        length,
        alloc,
    })
}
