//! Look-ups of a value in a set.

ghost use Rattle.std.specs.Prelude.{◌≡◌, ◌↔◌, ◌<◌, IfSome, IsFalse, IsNone, IsSome, IsTrue};
ghost use Rattle.rsb_integer.specs.Rank.{interval_of};
ghost use Rattle.rsb_integer.specs.Runs.{members, IsCanonicalIn};
ghost use Rattle.rsb_integer.specs.Selection.{complement, IsUniversal};
ghost use Rattle.rsb_storage.specs.Starts.{IsGapEnd};
ghost use Rattle.rsb_storage.specs.Set.{IsRunAround};

use crate::set::RangeSetBlaze;
use rsb_integer::Integer;
use rsb_storage::look_up::run_at;
use rsb_storage::run::{Run, known};
use rsb_storage::runs::Runs;
use std::alloc::Allocator;
use std::ops::RangeInclusive;

impl<T: Integer, A: Allocator> RangeSetBlaze<T, A> {
    /// Returns whether a value is a member. (`RangeSetBlaze::contains`.)
    pub fn contains(&self, value: T) -> bool
        ensures { result ≡ members self.now (T.rank value) }
    {
        run_at(&self.runs, known(value)).is_some()
    }

    /// Returns the value if it is a member, and otherwise `None`. (`RangeSetBlaze::get`.)
    pub fn get(&self, value: T) -> Option<T>
        ensures found { IsSome result ↔ IsTrue (members self.now (T.rank value)) }
        ensures value { IfSome result (λ found. found ≡ value) }
    {
        if self.contains(value) {
            Some(value)
        } else {
            None
        }
    }

    /// Returns the run that contains a value, or `None` if the value is not a member.
    /// (`RangeSetBlaze::range_at`.)
    pub fn range_at(&self, value: T) -> Option<RangeInclusive<T>>
        ensures none { IsNone result ↔ IsFalse (members self.now (T.rank value)) }
        ensures run { IfSome result (λ range. IsRunAround T.value_count (members self.now)
            (T.rank value) (interval_of T.rank range)) }
    {
        let run = run_at(&self.runs, known(value))?;
        Some(run.start..=run.end)
    }

    /// Returns the run that contains a value, and `true`. If the value is not a member, returns the
    /// gap that contains it, and `false`. A gap extends to the runs beside it, or to the ends of
    /// the type. (`RangeSetBlaze::range_or_gap_at`.)
    pub fn range_or_gap_at(&self, value: T) -> (RangeInclusive<T>, bool)
        ensures found { result.1 ≡ members self.now (T.rank value) }
        ensures run { IsTrue result.1 → IsRunAround T.value_count (members self.now)
            (T.rank value) (interval_of T.rank result.0) }
        ensures gap { IsFalse result.1 → IsRunAround T.value_count (complement (members self.now))
            (T.rank value) (interval_of T.rank result.0) }
    {
        let value = known(value);
        let start = match self.runs.up_to(value) {
            Some(run) => {
                if !run.ends_before(value) {
                    return (run.start..=run.end, true);
                }
                run.end.add_one()
            }
            None => T::min_value(),
        };
        let end = gap_end(&self.runs, value);
        (start..=end, false)
    }

    /// Returns whether every value of the type is a member. (`RangeSetBlaze::is_universal`.)
    pub fn is_universal(&self) -> bool
        ensures { IsTrue result ↔ IsUniversal T.value_count (members self.now) }
    {
        self.length == T::safe_len(&(T::min_value()..=T::max_value()))
    }
}

// Returns the last value of the gap that contains `value`.
fn gap_end<T: Integer, A: Allocator>(runs: &Runs<T, A>, value: T) -> T
    requires canonical { IsCanonicalIn T.value_count runs.now }
    requires value { T.rank value < T.value_count }
    requires gap { IsFalse (members runs.now (T.rank value)) }
    ensures { IsGapEnd T.value_count runs.now (T.rank value) (T.rank result) }
{
    match runs.after(value) {
        Some(run) => run.start.sub_one(),
        None => T::max_value(),
    }
}
