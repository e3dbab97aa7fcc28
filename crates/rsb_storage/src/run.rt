//! A run of values, and comparisons of values, whose contracts are about the ranks of the values.
//!
//! Internal code uses `Run` for a run, and pairs only for entries of the map. It does not use
//! `RangeInclusive`, which has a flag that a run does not need, and is not `Copy`.

ghost use Rattle.std.specs.Prelude.{◌≡◌, ◌↔◌, ◌+◌, ◌-◌, ◌<◌, ◌≤◌, max, min, IfSome, IsNone, IsTrue};
ghost use Rattle.rsb_integer.specs.Rank.{interval_of};
ghost use Rattle.rsb_integer.specs.Runs.{HasNoRanks, HasRanks};
ghost use Rattle.rsb_storage.specs.Storage.{run_of};

use rsb_integer::Integer;
use std::ops::RangeInclusive;

/// A run: its first and its last value.
#[derive(Clone, Copy, Debug)]
pub struct Run<T> {
    pub start: T,
    pub end: T,
}

impl<T: Copy> Run<T> {
    /// Returns the run of an entry of the map.
    pub fn of_entry(pair: (&T, &T)) -> Self
        ensures start { result.start ≡ pair.entry.0.now }
        ensures end { result.end ≡ pair.entry.1.now }
    {
        let (start, end) = pair;
        Run {
            start: *start,
            end: *end,
        }
    }

    /// Returns the run of only one value.
    pub fn only(value: T) -> Self
        ensures start { result.start ≡ value }
        ensures end { result.end ≡ value }
    {
        Run {
            start: value,
            end: value,
        }
    }
}

impl<T: Integer> Run<T> {
    /// Returns whether the run starts below a value.
    pub fn starts_before(self, value: T) -> bool
        requires start { T.rank self.start < T.value_count }
        requires value { T.rank value < T.value_count }
        ensures { IsTrue result ↔ (T.rank self.start < T.rank value) }
    {
        is_below(self.start, value)
    }

    /// Returns whether the run ends below a value.
    pub fn ends_before(self, value: T) -> bool
        requires end { T.rank self.end < T.value_count }
        requires value { T.rank value < T.value_count }
        ensures { IsTrue result ↔ (T.rank self.end < T.rank value) }
    {
        is_below(self.end, value)
    }
}

/// Returns the run of a range, or `None` if the range is empty.
pub fn run_of_range<T: Integer>(range: &RangeInclusive<T>) -> Option<Run<T>>
    ensures run { IfSome result (λ run. run_of T.rank run ≡ interval_of T.rank range.now) }
    ensures some { IfSome result (λ run. HasRanks (run_of T.rank run)) }
    ensures value { IfSome result (λ run. T.rank run.end < T.value_count) }
    ensures none { IsNone result → HasNoRanks (interval_of T.rank range.now) }
{
    let start = known(*range.start());
    let end = known(*range.end());
    if range.is_empty() {
        return None;
    }
    Some(Run { start, end })
}

/// Returns the value itself. The clause `value` states that the rank of the value is below the
/// number of values.
pub fn known<T: Integer>(value: T) -> T
    ensures same { result ≡ value }
    ensures value { T.rank value < T.value_count }
{
    // Called only for its clause.
    value.checked_add_one();
    value
}

/// Returns the value one rank higher, or the greatest value itself.
pub fn next_or_greatest<T: Integer>(value: T) -> T
    ensures { T.rank result ≡ min (T.rank value + 1) (T.value_count - 1) }
{
    value.checked_add_one().unwrap_or(value)
}

/// Returns the value one rank lower, or `None` for the least value.
pub fn previous<T: Integer>(value: T) -> Option<T>
    requires { T.rank value < T.value_count }
    ensures none { IsNone result → T.rank value ≡ 0 }
    ensures some { IfSome result (λ previous. T.rank previous + 1 ≡ T.rank value) }
{
    if is_below(T::min_value(), value) {
        Some(value.sub_one())
    } else {
        None
    }
}

/// Returns whether `left` is below `right`.
pub fn is_below<T: Integer>(left: T, right: T) -> bool
    requires left { T.rank left < T.value_count }
    requires right { T.rank right < T.value_count }
    ensures { IsTrue result ↔ (T.rank left < T.rank right) }
{
    left < right
}

/// Returns whether a run that starts at or before `start`, and ends at `end`, contains or touches
/// `start`.
pub fn reaches<T: Integer>(end: T, start: T) -> bool
    requires { T.rank start < T.value_count }
    ensures { IsTrue result ↔ (T.rank start ≤ T.rank end + 1) }
{
    match end.checked_add_one() {
        Some(next) => start <= next,
        None => true,
    }
}

/// Returns the greater of two values.
pub fn greater<T: Integer>(left: T, right: T) -> T
    requires left { T.rank left < T.value_count }
    requires right { T.rank right < T.value_count }
    ensures { T.rank result ≡ max (T.rank left) (T.rank right) }
{
    if is_below(left, right) { right } else { left }
}
