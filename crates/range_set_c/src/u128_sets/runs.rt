// Written by tools/c/narrow from src/u64_sets/runs.rt.
//! The runs and the gaps of a set, one by one or by arrays. The calls leave the set unchanged, and
//! do not allocate.
//!
//! A walk over the runs begins with `next_run` at 0 and goes on with `run_after` at `run.last`
//! (docs/DECISIONS.md, walk-by-runs). A walk back begins with `prev_run` at the greatest value and
//! goes on with `run_before` at `run.first`. A walk by arrays calls `runs_in` again past the last
//! run that it got.

ghost use Rattle.std.specs.Prelude.{
  ◌≡◌,
  ℕ,
  ◌^◌,
  ◌<◌,
  ◌≤◌,
  drop,
  length,
  map,
  IfSome,
  IsFalse,
  IsNone,
  IsTrue,
};
ghost use Rattle.rsb_integer.specs.Runs.{covers, from_to, members, IsMaximalRun};
ghost use Rattle.rsb_integer.specs.Selection.{complement, intersection};
ghost use Rattle.range_set_blaze.specs.Set.{IsRunAround};
ghost use Rattle.range_set_c.specs.U128Runs.{interval_of_run};
ghost use Rattle.range_set_c.specs.U128Values.{number};
ghost use Rattle.range_set_c.specs.Walk.{
  BeginsWithRuns,
  IsFirstAfter,
  IsLastBefore,
  NoneAfter,
  NoneBefore,
};

use super::handle::Handle;
use super::run::Run;
use crate::u128_values::{Value, ValueRun};
use range_set_blaze::RangeSetBlaze;
use std::alloc::Global;

/// Stores in `block` the run that contains a value, and returns true. If the value is not a member,
/// it stores the gap that contains the value and returns false.
#[unsafe(no_mangle)]
pub extern "C" fn rsb_u128_run_or_gap(
    alloc: Global,
    set: &mut Handle,
    value: Value,
    block: &mut ValueRun,
) -> bool
    ensures found { result ≡ members set.old.kept.set (number value) }
    ensures run { IsTrue result → IsRunAround (2 ^ 128) (members set.old.kept.set) (number value)
        (from_to (number block.new.first) (number block.new.last)) }
    ensures gap { IsFalse result → IsRunAround (2 ^ 128) (complement (members set.old.kept.set))
        (number value) (from_to (number block.new.first) (number block.new.last)) }
    ensures same { set.new.kept.set ≡ set.old.kept.set }
{
    let value = value.number();
    let empty = RangeSetBlaze::new(alloc);
    let (range, found) = set.set_or(&empty).range_or_gap_at(value);
    *block = ValueRun::of(Run::of(range));
    found
}

/// Stores the run that has `from`, or else the first one past it, in `run` and returns true. If
/// there is none, it returns false, and `run` is unchanged.
#[unsafe(no_mangle)]
pub extern "C" fn rsb_u128_next_run(
    alloc: Global,
    set: &mut Handle,
    from: Value,
    run: &mut ValueRun,
) -> bool
    ensures none { IsFalse result → (rank : ℕ) → number from ≤ rank → rank < 2 ^ 128
        → IsFalse (members set.old.kept.set rank) }
    ensures run { IsTrue result → IsMaximalRun (2 ^ 128) (members set.old.kept.set)
        (from_to (number run.new.first) (number run.new.last)) }
    ensures reach { IsTrue result → number from ≤ number run.new.last }
    ensures gap { IsTrue result → (rank : ℕ) → number from ≤ rank → rank < number run.new.first
        → IsFalse (members set.old.kept.set rank) }
    ensures left { IsFalse result → run.new ≡ run.old }
    ensures same { set.new.kept.set ≡ set.old.kept.set }
{
    let from = from.number();
    let empty = RangeSetBlaze::new(alloc);
    let found = run_from(set.set_or(&empty), from);
    let Some(found) = found else {
        return false;
    };
    *run = ValueRun::of(found);
    true
}

/// Stores the run that has `from`, or else the last one before it, in `run` and returns true. If
/// there is none, it returns false, and `run` is unchanged.
#[unsafe(no_mangle)]
pub extern "C" fn rsb_u128_prev_run(
    alloc: Global,
    set: &mut Handle,
    from: Value,
    run: &mut ValueRun,
) -> bool
    ensures none { IsFalse result → (rank : ℕ) → rank ≤ number from
        → IsFalse (members set.old.kept.set rank) }
    ensures run { IsTrue result → IsMaximalRun (2 ^ 128) (members set.old.kept.set)
        (from_to (number run.new.first) (number run.new.last)) }
    ensures reach { IsTrue result → number run.new.first ≤ number from }
    ensures gap { IsTrue result → (rank : ℕ) → number run.new.last < rank → rank ≤ number from
        → IsFalse (members set.old.kept.set rank) }
    ensures left { IsFalse result → run.new ≡ run.old }
    ensures same { set.new.kept.set ≡ set.old.kept.set }
{
    let from = from.number();
    let empty = RangeSetBlaze::new(alloc);
    let found = run_up_to(set.set_or(&empty), from);
    let Some(found) = found else {
        return false;
    };
    *run = ValueRun::of(found);
    true
}

/// Stores the first run that starts past a value in `run` and returns true. If there is none, it
/// returns false, and `run` is unchanged.
#[unsafe(no_mangle)]
pub extern "C" fn rsb_u128_run_after(
    alloc: Global,
    set: &mut Handle,
    value: Value,
    run: &mut ValueRun,
) -> bool
    ensures none { IsFalse result → NoneAfter (2 ^ 128) (members set.old.kept.set) (number value) }
    ensures run { IsTrue result → IsFirstAfter (2 ^ 128) (members set.old.kept.set) (number value)
        (from_to (number run.new.first) (number run.new.last)) }
    ensures left { IsFalse result → run.new ≡ run.old }
    ensures same { set.new.kept.set ≡ set.old.kept.set }
{
    let value = value.number();
    let empty = RangeSetBlaze::new(alloc);
    let found = run_past(set.set_or(&empty), value);
    let Some(found) = found else {
        return false;
    };
    *run = ValueRun::of(found);
    true
}

/// Stores the last run that ends before a value in `run` and returns true. If there is none, it
/// returns false, and `run` is unchanged.
#[unsafe(no_mangle)]
pub extern "C" fn rsb_u128_run_before(
    alloc: Global,
    set: &mut Handle,
    value: Value,
    run: &mut ValueRun,
) -> bool
    ensures none { IsFalse result → NoneBefore (2 ^ 128) (members set.old.kept.set) (number value) }
    ensures run { IsTrue result → IsLastBefore (2 ^ 128) (members set.old.kept.set) (number value)
        (from_to (number run.new.first) (number run.new.last)) }
    ensures left { IsFalse result → run.new ≡ run.old }
    ensures same { set.new.kept.set ≡ set.old.kept.set }
{
    let value = value.number();
    let empty = RangeSetBlaze::new(alloc);
    let found = run_short_of(set.set_or(&empty), value);
    let Some(found) = found else {
        return false;
    };
    *run = ValueRun::of(found);
    true
}

/// Stores the runs of the members from `first` to `last` in an array, in ascending order, until the
/// array is full or no run is left, and returns how many it stored. A run that crosses a bound is
/// shortened to its values between the bounds. The places past those runs are unchanged.
#[unsafe(no_mangle)]
pub extern "C" fn rsb_u128_runs_in(
    alloc: Global,
    set: &mut Handle,
    first: Value,
    last: Value,
    runs: &mut [ValueRun],
) -> usize
    ensures stored { BeginsWithRuns (2 ^ 128)
        (intersection (members set.old.kept.set) (covers (from_to (number first) (number last))))
        (length runs.old) (map interval_of_run runs.new) result }
    ensures left { drop result runs.new ≡ drop result runs.old }
    ensures same { set.new.kept.set ≡ set.old.kept.set }
{
    let first = first.number();
    let last = last.number();
    let empty = RangeSetBlaze::new(alloc);
    store_runs(set.set_or(&empty), first, last, runs)
}

// Stores the runs of the members between two values in an array, until it is full or no run is left,
// and returns how many it stored.
fn store_runs(
    set: &RangeSetBlaze<u128, Global>,
    first: u128,
    last: u128,
    runs: &mut [ValueRun],
) -> usize
    ensures stored { BeginsWithRuns (2 ^ 128)
        (intersection (members set.now) (covers (from_to first last)))
        (length runs.old) (map interval_of_run runs.new) result }
    ensures left { drop result runs.new ≡ drop result runs.old }
{
    let mut ranges = set.ranges_in(first..=last);
    for (count, run) in runs.iter_mut().enumerate() {
        let Some(range) = ranges.next() else {
            return count;
        };
        *run = ValueRun::of(Run::of(range));
    }
    runs.len()
}

// Returns the run that has a value, or else the first one past it.
fn run_from(set: &RangeSetBlaze<u128, Global>, from: u128) -> Option<Run>
    ensures none { IsNone result → (rank : ℕ) → from ≤ rank → rank < 2 ^ 128
        → IsFalse (members set.now rank) }
    ensures run { IfSome result (λ run.
        IsMaximalRun (2 ^ 128) (members set.now) (from_to run.first run.last)) }
    ensures reach { IfSome result (λ run. from ≤ run.last) }
    ensures gap { IfSome result (λ run. (rank : ℕ) → from ≤ rank → rank < run.first
        → IsFalse (members set.now rank)) }
{
    let (block, is_run) = set.range_or_gap_at(from);
    if is_run {
        return Some(Run::of(block));
    }
    let next = block.end().checked_add(1)?;
    let range = set.range_at(next)?;
    Some(Run::of(range))
}

// Returns the run that has a value, or else the last one before it.
fn run_up_to(set: &RangeSetBlaze<u128, Global>, from: u128) -> Option<Run>
    ensures none { IsNone result → (rank : ℕ) → rank ≤ from → IsFalse (members set.now rank) }
    ensures run { IfSome result (λ run.
        IsMaximalRun (2 ^ 128) (members set.now) (from_to run.first run.last)) }
    ensures reach { IfSome result (λ run. run.first ≤ from) }
    ensures gap { IfSome result (λ run. (rank : ℕ) → run.last < rank → rank ≤ from
        → IsFalse (members set.now rank)) }
{
    let (block, has_value) = set.range_or_gap_at(from);
    if has_value {
        return Some(Run::of(block));
    }
    let before = block.start().checked_sub(1)?;
    let range = set.range_at(before)?;
    Some(Run::of(range))
}

// Returns the first run that starts past a value.
fn run_past(set: &RangeSetBlaze<u128, Global>, value: u128) -> Option<Run>
    ensures none { IsNone result → NoneAfter (2 ^ 128) (members set.now) value }
    ensures run { IfSome result (λ run.
        IsFirstAfter (2 ^ 128) (members set.now) value (from_to run.first run.last)) }
{
    let next = value.checked_add(1)?;
    let run = run_from(set, next)?;
    if value < run.first {
        return Some(run);
    }
    // The run has the value too.
    let past = run.last.checked_add(1)?;
    run_from(set, past)
}

// Returns the last run that ends before a value.
fn run_short_of(set: &RangeSetBlaze<u128, Global>, value: u128) -> Option<Run>
    ensures none { IsNone result → NoneBefore (2 ^ 128) (members set.now) value }
    ensures run { IfSome result (λ run.
        IsLastBefore (2 ^ 128) (members set.now) value (from_to run.first run.last)) }
{
    let below = value.checked_sub(1)?;
    let run = run_up_to(set, below)?;
    if run.last < value {
        return Some(run);
    }
    // The run has the value too.
    let short = run.first.checked_sub(1)?;
    run_up_to(set, short)
}
