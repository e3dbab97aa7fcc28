// Written by tools/c/narrow from src/u64_sets/runs.rt.
//! The runs and the gaps of a set, one by one or by arrays. The calls leave the set unchanged, and
//! do not allocate.
//!
//! A walk over the runs begins with `next_run` at 0 and goes on with `run_after` at `run.last`
//! (docs/DECISIONS.md, walk-by-runs). A walk back begins with `prev_run` at the greatest value and
//! goes on with `run_before` at `run.first`. A walk by arrays calls `runs_in` again past the last
//! run that it got.

ghost use Rattle.std.specs.Prelude.{
  ◌≡◌,
  ℕ,
  ◌^◌,
  ◌<◌,
  ◌≤◌,
  drop,
  length,
  map,
  IfSome,
  IsFalse,
  IsNone,
  IsTrue,
};
ghost use Rattle.rsb_integer.specs.Runs.{covers, from_to, members, IsMaximalRun};
ghost use Rattle.rsb_integer.specs.Selection.{complement, intersection};
ghost use Rattle.range_set_blaze.specs.Set.{IsRunAround};
ghost use Rattle.range_set_c.specs.U32Runs.{interval_of_run};
ghost use Rattle.range_set_c.specs.Walk.{
  BeginsWithRuns,
  IsFirstAfter,
  IsLastBefore,
  NoneAfter,
  NoneBefore,
};

use super::handle::Handle;
use super::run::Run;
use range_set_blaze::RangeSetBlaze;
use std::alloc::Global;

/// Stores in `block` the run that contains a value, and returns true. If the value is not a member,
/// it stores the gap that contains the value and returns false.
#[unsafe(no_mangle)]
pub extern "C" fn rsb_u32_run_or_gap(
    alloc: Global,
    set: &mut Handle,
    value: u32,
    block: &mut Run,
) -> bool
    ensures found { result ≡ members set.old.kept.set value }
    ensures run { IsTrue result → IsRunAround (2 ^ 32) (members set.old.kept.set) value
        (from_to block.new.first block.new.last) }
    ensures gap { IsFalse result → IsRunAround (2 ^ 32) (complement (members set.old.kept.set))
        value (from_to block.new.first block.new.last) }
    ensures same { set.new.kept.set ≡ set.old.kept.set }
{
    let empty = RangeSetBlaze::new(alloc);
    let (range, found) = set.set_or(&empty).range_or_gap_at(value);
    *block = Run::of(range);
    found
}

/// Stores the run that has `from`, or else the first one past it, in `run` and returns true. If
/// there is none, it returns false, and `run` is unchanged.
#[unsafe(no_mangle)]
pub extern "C" fn rsb_u32_next_run(
    alloc: Global,
    set: &mut Handle,
    from: u32,
    run: &mut Run,
) -> bool
    ensures none { IsFalse result → (rank : ℕ) → from ≤ rank → rank < 2 ^ 32
        → IsFalse (members set.old.kept.set rank) }
    ensures run { IsTrue result → IsMaximalRun (2 ^ 32) (members set.old.kept.set)
        (from_to run.new.first run.new.last) }
    ensures reach { IsTrue result → from ≤ run.new.last }
    ensures gap { IsTrue result → (rank : ℕ) → from ≤ rank → rank < run.new.first
        → IsFalse (members set.old.kept.set rank) }
    ensures left { IsFalse result → run.new ≡ run.old }
    ensures same { set.new.kept.set ≡ set.old.kept.set }
{
    let empty = RangeSetBlaze::new(alloc);
    let found = run_from(set.set_or(&empty), from);
    let Some(found) = found else {
        return false;
    };
    *run = found;
    true
}

/// Stores the run that has `from`, or else the last one before it, in `run` and returns true. If
/// there is none, it returns false, and `run` is unchanged.
#[unsafe(no_mangle)]
pub extern "C" fn rsb_u32_prev_run(
    alloc: Global,
    set: &mut Handle,
    from: u32,
    run: &mut Run,
) -> bool
    ensures none { IsFalse result → (rank : ℕ) → rank ≤ from
        → IsFalse (members set.old.kept.set rank) }
    ensures run { IsTrue result → IsMaximalRun (2 ^ 32) (members set.old.kept.set)
        (from_to run.new.first run.new.last) }
    ensures reach { IsTrue result → run.new.first ≤ from }
    ensures gap { IsTrue result → (rank : ℕ) → run.new.last < rank → rank ≤ from
        → IsFalse (members set.old.kept.set rank) }
    ensures left { IsFalse result → run.new ≡ run.old }
    ensures same { set.new.kept.set ≡ set.old.kept.set }
{
    let empty = RangeSetBlaze::new(alloc);
    let found = run_up_to(set.set_or(&empty), from);
    let Some(found) = found else {
        return false;
    };
    *run = found;
    true
}

/// Stores the first run that starts past a value in `run` and returns true. If there is none, it
/// returns false, and `run` is unchanged.
#[unsafe(no_mangle)]
pub extern "C" fn rsb_u32_run_after(
    alloc: Global,
    set: &mut Handle,
    value: u32,
    run: &mut Run,
) -> bool
    ensures none { IsFalse result → NoneAfter (2 ^ 32) (members set.old.kept.set) value }
    ensures run { IsTrue result → IsFirstAfter (2 ^ 32) (members set.old.kept.set) value
        (from_to run.new.first run.new.last) }
    ensures left { IsFalse result → run.new ≡ run.old }
    ensures same { set.new.kept.set ≡ set.old.kept.set }
{
    let empty = RangeSetBlaze::new(alloc);
    let found = run_past(set.set_or(&empty), value);
    let Some(found) = found else {
        return false;
    };
    *run = found;
    true
}

/// Stores the last run that ends before a value in `run` and returns true. If there is none, it
/// returns false, and `run` is unchanged.
#[unsafe(no_mangle)]
pub extern "C" fn rsb_u32_run_before(
    alloc: Global,
    set: &mut Handle,
    value: u32,
    run: &mut Run,
) -> bool
    ensures none { IsFalse result → NoneBefore (2 ^ 32) (members set.old.kept.set) value }
    ensures run { IsTrue result → IsLastBefore (2 ^ 32) (members set.old.kept.set) value
        (from_to run.new.first run.new.last) }
    ensures left { IsFalse result → run.new ≡ run.old }
    ensures same { set.new.kept.set ≡ set.old.kept.set }
{
    let empty = RangeSetBlaze::new(alloc);
    let found = run_short_of(set.set_or(&empty), value);
    let Some(found) = found else {
        return false;
    };
    *run = found;
    true
}

/// Stores the runs of the members from `first` to `last` in an array, in ascending order, until the
/// array is full or no run is left, and returns how many it stored. A run that crosses a bound is
/// shortened to its values between the bounds. The places past those runs are unchanged.
#[unsafe(no_mangle)]
pub extern "C" fn rsb_u32_runs_in(
    alloc: Global,
    set: &mut Handle,
    first: u32,
    last: u32,
    runs: &mut [Run],
) -> usize
    ensures stored { BeginsWithRuns (2 ^ 32)
        (intersection (members set.old.kept.set) (covers (from_to first last)))
        (length runs.old) (map interval_of_run runs.new) result }
    ensures left { drop result runs.new ≡ drop result runs.old }
    ensures same { set.new.kept.set ≡ set.old.kept.set }
{
    let empty = RangeSetBlaze::new(alloc);
    store_runs(set.set_or(&empty), first, last, runs)
}

// Stores the runs of the members between two values in an array, until it is full or no run is left,
// and returns how many it stored.
fn store_runs(set: &RangeSetBlaze<u32, Global>, first: u32, last: u32, runs: &mut [Run]) -> usize
    ensures stored { BeginsWithRuns (2 ^ 32)
        (intersection (members set.now) (covers (from_to first last)))
        (length runs.old) (map interval_of_run runs.new) result }
    ensures left { drop result runs.new ≡ drop result runs.old }
{
    let mut ranges = set.ranges_in(first..=last);
    for (count, run) in runs.iter_mut().enumerate() {
        let Some(range) = ranges.next() else {
            return count;
        };
        *run = Run::of(range);
    }
    runs.len()
}

// Returns the run that has a value, or else the first one past it.
fn run_from(set: &RangeSetBlaze<u32, Global>, from: u32) -> Option<Run>
    ensures none { IsNone result → (rank : ℕ) → from ≤ rank → rank < 2 ^ 32
        → IsFalse (members set.now rank) }
    ensures run { IfSome result (λ run.
        IsMaximalRun (2 ^ 32) (members set.now) (from_to run.first run.last)) }
    ensures reach { IfSome result (λ run. from ≤ run.last) }
    ensures gap { IfSome result (λ run. (rank : ℕ) → from ≤ rank → rank < run.first
        → IsFalse (members set.now rank)) }
{
    let (block, is_run) = set.range_or_gap_at(from);
    if is_run {
        return Some(Run::of(block));
    }
    let next = block.end().checked_add(1)?;
    let range = set.range_at(next)?;
    Some(Run::of(range))
}

// Returns the run that has a value, or else the last one before it.
fn run_up_to(set: &RangeSetBlaze<u32, Global>, from: u32) -> Option<Run>
    ensures none { IsNone result → (rank : ℕ) → rank ≤ from → IsFalse (members set.now rank) }
    ensures run { IfSome result (λ run.
        IsMaximalRun (2 ^ 32) (members set.now) (from_to run.first run.last)) }
    ensures reach { IfSome result (λ run. run.first ≤ from) }
    ensures gap { IfSome result (λ run. (rank : ℕ) → run.last < rank → rank ≤ from
        → IsFalse (members set.now rank)) }
{
    let (block, has_value) = set.range_or_gap_at(from);
    if has_value {
        return Some(Run::of(block));
    }
    let before = block.start().checked_sub(1)?;
    let range = set.range_at(before)?;
    Some(Run::of(range))
}

// Returns the first run that starts past a value.
fn run_past(set: &RangeSetBlaze<u32, Global>, value: u32) -> Option<Run>
    ensures none { IsNone result → NoneAfter (2 ^ 32) (members set.now) value }
    ensures run { IfSome result (λ run.
        IsFirstAfter (2 ^ 32) (members set.now) value (from_to run.first run.last)) }
{
    let next = value.checked_add(1)?;
    let run = run_from(set, next)?;
    if value < run.first {
        return Some(run);
    }
    // The run has the value too.
    let past = run.last.checked_add(1)?;
    run_from(set, past)
}

// Returns the last run that ends before a value.
fn run_short_of(set: &RangeSetBlaze<u32, Global>, value: u32) -> Option<Run>
    ensures none { IsNone result → NoneBefore (2 ^ 32) (members set.now) value }
    ensures run { IfSome result (λ run.
        IsLastBefore (2 ^ 32) (members set.now) value (from_to run.first run.last)) }
{
    let below = value.checked_sub(1)?;
    let run = run_up_to(set, below)?;
    if run.last < value {
        return Some(run);
    }
    // The run has the value too.
    let short = run.first.checked_sub(1)?;
    run_up_to(set, short)
}
