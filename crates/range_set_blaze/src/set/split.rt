//! Splits a set at a value.

ghost use Rattle.std.specs.Prelude.{◌≡◌, ◌+◌, ◌<◌, ◌≤◌, Contains, IfOk, IsFalse, IsOk, OnErr, OnOk};
ghost use Rattle.rsb_integer.specs.Runs.{members, IsCanonicalIn};
ghost use Rattle.rsb_integer.specs.Selection.{count, intersection, IsEmpty};
ghost use Rattle.rsb_storage.specs.Storage.{run_of};
ghost use Rattle.rsb_storage.specs.Set.{IsSetOf, Removes};
ghost use Rattle.rsb_storage.specs.Split.{from_on, IsParting};

use crate::set::RangeSetBlaze;
use num_traits::Zero;
use rsb_integer::Integer;
use rsb_storage::entries::next_run;
use rsb_storage::lengths::add_length;
use rsb_storage::look_up::run_over;
use rsb_storage::run::{Run, is_below, known};
use rsb_storage::runs::Runs;
use std::alloc::{AllocError, Allocator};

impl<T: Integer, A: Allocator + Copy> RangeSetBlaze<T, A> {
    /// Removes the members at or above a value, and returns them as a set. If allocation fails, the
    /// original set is unchanged. (`RangeSetBlaze::split_off`.)
    pub fn split_off(&mut self, key: T) -> Result<Self, AllocError>
        ensures below { OnOk result (Removes self.old self.new (from_on (T.rank key))) }
        ensures from { IfOk result (λ split.
            IsSetOf split (intersection (members self.old) (from_on (T.rank key)))) }
        ensures err { OnErr result (self.new ≡ self.old) }

        // Does not allocate if no member is at or above the value.
        ensures succeeds { IsEmpty (intersection (members self.old) (from_on (T.rank key)))
            → IsOk result }
    {
        let key = known(key);
        let alloc = self.alloc;
        if !self.has_from(key) {
            return Ok(Self::new(alloc));
        }
        let total = self.length;
        let runs = part(&mut self.runs, key)?;
        let (low, high) = lengths(&self.runs, &runs, total);
        self.length = low;
        Ok(RangeSetBlaze {
            runs,
            length: high,
            alloc,
        })
    }
}

impl<T: Integer, A: Allocator> RangeSetBlaze<T, A> {
    // Returns whether some member is at or above a value.
    fn has_from(&self, key: T) -> bool
        requires { T.rank key < T.value_count }
        ensures none { IsFalse result
            → IsEmpty (intersection (members self.now) (from_on (T.rank key))) }
        ensures some { IsEmpty (intersection (members self.now) (from_on (T.rank key)))
            → IsFalse result }
    {
        match self.last() {
            Some(last) => !is_below(last, key),
            None => false,
        }
    }
}

// Removes the values at or above `key` and returns the runs of those. If allocation fails, the runs
// are unchanged.
fn part<T: Integer, A: Allocator + Clone>(
    runs: &mut Runs<T, A>,
    key: T,
) -> Result<Runs<T, A>, AllocError>
    requires canonical { IsCanonicalIn T.value_count runs.old }
    requires value { T.rank key < T.value_count }
    ensures parting { IfOk result (λ high. IsParting T.value_count runs.old runs.new high
        (T.rank key)) }
    ensures err { OnErr result (runs.new ≡ runs.old) }
{
    if let Some(run) = run_over(runs, key) {
        return part_within(runs, run, key);
    }
    let high = runs.split_off(key)?;
    Ok(high)
}

// Does the same as `part`, for a `run` that starts below `key` and contains it.
fn part_within<T: Integer, A: Allocator + Clone>(
    runs: &mut Runs<T, A>,
    run: Run<T>,
    key: T,
) -> Result<Runs<T, A>, AllocError>
    requires canonical { IsCanonicalIn T.value_count runs.old }
    requires among { Contains runs.old (run_of T.rank run) }
    requires above { T.rank run.start < T.rank key }
    requires within { T.rank key ≤ T.rank run.end }
    ensures parting { IfOk result (λ high. IsParting T.value_count runs.old runs.new high
        (T.rank key)) }
    ensures err { OnErr result (runs.new ≡ runs.old) }
{
    // The part of the run at or above `key` becomes an entry first, since this may fail to
    // allocate.
    let start = key;
    let end = run.end;
    runs.put(Run { start, end })?;
    match runs.split_off(key) {
        Ok(high) => {
            let start = run.start;
            let end = key.sub_one();
            runs.put(Run { start, end }).unwrap();
            Ok(high)
        }
        Err(error) => {
            runs.remove(key);
            Err(error)
        }
    }
}

// Returns the number of members of each list of runs. The two numbers add up to `total`, so only
// the shorter list is counted.
fn lengths<T: Integer, A: Allocator>(
    low: &Runs<T, A>,
    high: &Runs<T, A>,
    total: T::SafeLen,
) -> (T::SafeLen, T::SafeLen)
    requires low { IsCanonicalIn T.value_count low.now }
    requires high { IsCanonicalIn T.value_count high.now }
    requires total { count T.value_count (members low.now) + count T.value_count (members high.now)
        ≡ T.SafeLen.number total }
    ensures low { T.SafeLen.number result.0 ≡ count T.value_count (members low.now) }
    ensures high { T.SafeLen.number result.1 ≡ count T.value_count (members high.now) }
{
    let mut rest = total;
    if low.len() < high.len() {
        let counted = length_of_runs(low);
        rest -= counted;
        (counted, rest)
    } else {
        let counted = length_of_runs(high);
        rest -= counted;
        (rest, counted)
    }
}

// Returns the number of members of runs.
fn length_of_runs<T: Integer, A: Allocator>(runs: &Runs<T, A>) -> T::SafeLen
    requires { IsCanonicalIn T.value_count runs.now }
    ensures { T.SafeLen.number result ≡ count T.value_count (members runs.now) }
{
    let mut length = T::SafeLen::zero();
    let mut entries = runs.iter();
    while let Some(run) = next_run(&mut entries) {
        add_length(&mut length, run);
    }
    length
}
