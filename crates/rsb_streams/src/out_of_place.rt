//! The first position at which a list of ranges fails to ascend. The ranges may or may not be
//! allowed to touch.

ghost use Rattle.std.specs.Prelude.{◌≡◌, ◌↔◌, ◌+◌, ◌<◌, ◌≤◌, [], ◌∷◌, take, IfSome, IsNone, IsTrue};
ghost use Rattle.std.specs.Range.{range_inclusive_start};
ghost use Rattle.rsb_integer.specs.Rank.{interval_of, intervals_of};
ghost use Rattle.rsb_integer.specs.Runs.{AllEndBelow, HasRanks};
ghost use Rattle.rsb_streams.specs.OutOfPlace.{gap_of, start_after, IsFirstBad};
ghost use Rattle.rsb_streams.specs.Touching.{IsSpacedFrom, IsSpacedIn};

use rsb_integer::Integer;
use std::ops::RangeInclusive;

// How far apart the ranges of a list have to be.
#[derive(Clone, Copy)]
pub(crate) enum Spacing {
    // At least one value is between two ranges.
    Apart,
    // A range may start right after the one before.
    Touching,
}

// Returns whether a range is non-empty, and starts far enough past the end of the one before.
fn follows<T: Integer>(spacing: Spacing, previous: Option<T>, range: &RangeInclusive<T>) -> bool
    ensures value { (interval_of T.rank range.now).last < T.value_count }
    ensures found { IsTrue result ↔ IsSpacedFrom (gap_of spacing)
        (start_after T.rank (gap_of spacing) previous) (interval_of T.rank range.now ∷ []) }
{
    has_members(range) && may_start(spacing, previous, *range.start())
}

// Returns whether a range is non-empty.
fn has_members<T: Integer>(range: &RangeInclusive<T>) -> bool
    ensures value { (interval_of T.rank range.now).last < T.value_count }
    ensures found { IsTrue result ↔ HasRanks (interval_of T.rank range.now) }
    ensures start { IsTrue result → T.rank (range_inclusive_start range.now)
        ≡ (interval_of T.rank range.now).first }
{
    // After these calls, both ends are known to be values.
    range.start().checked_add_one();
    range.end().checked_add_one();
    !range.is_empty()
}

// Returns whether a value is past the end of the range before it, if there is one. If the two may
// not touch, the value must be more than one past that end.
fn may_start<T: Integer>(spacing: Spacing, previous: Option<T>, start: T) -> bool
    requires { T.rank start < T.value_count }
    ensures { IsTrue result ↔ start_after T.rank (gap_of spacing) previous ≤ T.rank start }
{
    let Some(end) = previous else {
        return true;
    };
    let Some(next) = end.checked_add_one() else {
        return false;
    };
    match spacing {
        Spacing::Apart => next < start,
        Spacing::Touching => next <= start,
    }
}

// Returns the first position at which a range is empty, or does not start far enough past the end
// of the one before. If there is none, returns `None`.
pub(crate) fn first_bad<T: Integer>(spacing: Spacing, ranges: &[RangeInclusive<T>]) -> Option<usize>
    ensures none { IsNone result
        ↔ IsSpacedIn (gap_of spacing) T.value_count (intervals_of T.rank ranges.now) }
    ensures bad { IfSome result (λ position.
        IsFirstBad (IsSpacedIn (gap_of spacing) T.value_count)
        (intervals_of T.rank ranges.now) position) }
    ensures value { IfSome result (λ position. AllEndBelow T.value_count
        (take (position + 1) (intervals_of T.rank ranges.now))) }
{
    let mut previous = None;
    let mut position = 0;
    while let Some(range) = ranges.get(position) {
        if !follows(spacing, previous, range) {
            return Some(position);
        }
        previous = Some(*range.end());
        position += 1;
    }
    None
}
