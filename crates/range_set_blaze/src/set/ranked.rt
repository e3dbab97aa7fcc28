//! The n-th member of a set, and the number of members below a value.

ghost use Rattle.std.specs.Prelude.{◌≡◌, ◌↔◌, ◌+◌, ◌<◌, ◌≤◌, IfSome, IsNone, IsTrue, MatchOption};
ghost use Rattle.rsb_integer.specs.Runs.{length_of, members, HasRanks, IsCanonicalIn};
ghost use Rattle.rsb_integer.specs.Selection.{count};
ghost use Rattle.rsb_storage.specs.Storage.{run_of};
ghost use Rattle.range_set_blaze.specs.Ranked.{IsPartBelow};

use crate::set::RangeSetBlaze;
use num_traits::{One, Zero};
use rsb_integer::Integer;
use rsb_length::SafeLength;
use rsb_storage::entries::next_run;
use rsb_storage::lengths::add_length;
use rsb_storage::run::{Run, known};
use rsb_storage::runs::Runs;
use std::alloc::Allocator;

impl<T: Integer, A: Allocator> RangeSetBlaze<T, A> {
    /// Returns the member that has exactly `n` members below it, or `None` if there are at most `n`
    /// members. If `n` is 0, it is the least member. Does not allocate. The cost is linear in the
    /// number of runs up to the member. Not in range-set-blaze.
    pub fn nth(&self, n: T::SafeLen) -> Option<T>
        ensures none { IsNone result
            ↔ (count T.value_count (members self.now) ≤ T.SafeLen.number n) }
        ensures found { IfSome result (λ value. IsTrue (members self.now (T.rank value))) }
        ensures below { IfSome result (λ value.
            count (T.rank value) (members self.now) ≡ T.SafeLen.number n) }
    {
        nth_of(&self.runs, n)
    }

    /// Returns the number of members below a value, which need not be a member. Does not allocate.
    /// The cost is linear in the number of runs up to the value. Not in range-set-blaze.
    pub fn rank(&self, value: T) -> T::SafeLen
        ensures { T.SafeLen.number result ≡ count (T.rank value) (members self.now) }
    {
        count_below(&self.runs, known(value))
    }
}

// Returns the value of some runs that has `n` values of the runs below it, or `None` if there is
// none.
fn nth_of<T: Integer, A: Allocator>(runs: &Runs<T, A>, n: T::SafeLen) -> Option<T>
    requires { IsCanonicalIn T.value_count runs.now }
    ensures none { IsNone result ↔ (count T.value_count (members runs.now) ≤ T.SafeLen.number n) }
    ensures found { IfSome result (λ value. IsTrue (members runs.now (T.rank value))) }
    ensures below { IfSome result (λ value. count (T.rank value) (members runs.now)
        ≡ T.SafeLen.number n) }
{
    let mut left = n;
    let mut entries = runs.iter();
    while let Some(run) = next_run(&mut entries) {
        let length = length_of_run(run);
        if is_less(left, length) {
            return Some(value_at(run, left));
        }
        subtract(&mut left, length);
    }
    None
}

// Returns whether a length is less than another.
fn is_less<L: SafeLength>(left: L, right: L) -> bool
    ensures { IsTrue result ↔ (L.number left < L.number right) }
{
    left < right
}

// Subtracts a length from another.
fn subtract<L: SafeLength>(length: &mut L, other: L)
    requires { L.number other ≤ L.number length.old }
    ensures { L.number length.new + L.number other ≡ L.number length.old }
{
    *length -= other;
}

// Returns the number of values of a run.
fn length_of_run<T: Integer>(run: Run<T>) -> T::SafeLen
    requires { HasRanks (run_of T.rank run) }
    ensures { T.SafeLen.number result ≡ length_of (run_of T.rank run) }
{
    T::safe_len(&(run.start..=run.end))
}

// Returns the value of a run that has `index` values of the run below it.
fn value_at<T: Integer>(run: Run<T>, index: T::SafeLen) -> T
    requires value { T.rank run.end < T.value_count }
    requires index { T.rank run.start + T.SafeLen.number index ≤ T.rank run.end }
    ensures { T.rank result ≡ T.rank run.start + T.SafeLen.number index }
{
    let mut length = index;
    length += T::SafeLen::one();
    run.start.inclusive_end_from_start(length)
}

// Returns the number of values of some runs that are below a value.
fn count_below<T: Integer, A: Allocator>(runs: &Runs<T, A>, value: T) -> T::SafeLen
    requires canonical { IsCanonicalIn T.value_count runs.now }
    requires value { T.rank value < T.value_count }
    ensures { T.SafeLen.number result ≡ count (T.rank value) (members runs.now) }
{
    let mut below = T::SafeLen::zero();
    let mut entries = runs.iter();
    while let Some(run) = next_run(&mut entries) {
        let Some(part) = part_below(run, value) else {
            return below;
        };
        add_length(&mut below, part);
    }
    below
}

// Returns the part of a run that is below a value, or `None` if there is none.
fn part_below<T: Integer>(run: Run<T>, value: T) -> Option<Run<T>>
    requires order { T.rank run.start ≤ T.rank run.end }
    requires run { T.rank run.end < T.value_count }
    requires value { T.rank value < T.value_count }
    ensures { MatchOption result (T.rank value ≤ T.rank run.start)
        (λ part. IsPartBelow (run_of T.rank run) (T.rank value) (run_of T.rank part)) }
{
    if !run.starts_before(value) {
        return None;
    }
    if run.ends_before(value) {
        return Some(run);
    }
    let start = run.start;
    let end = value.sub_one();
    Some(Run { start, end })
}
