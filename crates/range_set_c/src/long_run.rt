//! The first run that has at least a given length, from a value on.

ghost use Rattle.std.specs.Prelude.{◌↔◌, ◌≤◌, IfSome, IsNone, IsTrue};
ghost use Rattle.rsb_integer.specs.Rank.{interval_of};
ghost use Rattle.rsb_integer.specs.Runs.{length_of, members, HasRanks, IsMaximalRun};
ghost use Rattle.rsb_integer.specs.Selection.{intersection};
ghost use Rattle.range_set_blaze.specs.FirstFit.{AllShorter, AllShorterBefore};
ghost use Rattle.range_set_blaze.specs.Split.{from_on};

use range_set_blaze::RangeSetBlaze;
use rsb_integer::Integer;
use std::alloc::Global;
use std::ops::RangeInclusive;

/// Returns the first run with at least `len` members at or above `value`, or `None` if there is
/// none. If the run starts below `value`, only its part at or above `value` counts, and only that
/// part is returned.
pub(crate) fn first_run_from<T: Integer>(
    set: &RangeSetBlaze<T, Global>,
    value: T,
    len: T::SafeLen,
) -> Option<RangeInclusive<T>>
    ensures run { IfSome result (λ range. IsMaximalRun T.value_count
        (intersection (members set.now) (from_on (T.rank value))) (interval_of T.rank range)) }
    ensures long { IfSome result (λ range.
        T.SafeLen.number len ≤ length_of (interval_of T.rank range)) }
    ensures first { IfSome result (λ range. AllShorterBefore T.value_count
        (intersection (members set.now) (from_on (T.rank value))) (T.SafeLen.number len)
        (interval_of T.rank range).first) }
    ensures none { IsNone result → AllShorter T.value_count
        (intersection (members set.now) (from_on (T.rank value))) (T.SafeLen.number len) }
{
    let mut ranges = set.ranges_in(value..=T::max_value());
    while let Some(range) = ranges.next() {
        if is_long(&range, len) {
            return Some(range);
        }
    }
    None
}

// Returns whether a range has at least `len` values.
fn is_long<T: Integer>(range: &RangeInclusive<T>, len: T::SafeLen) -> bool
    requires { HasRanks (interval_of T.rank range.now) }
    ensures { IsTrue result ↔ (T.SafeLen.number len ≤ length_of (interval_of T.rank range.now)) }
{
    len <= T::safe_len(range)
}
