// Written by tools/c/narrow from src/u64_sets/first_fit.rt.
//! The first gap, or the first run, that has at least a given length. The calls leave the set
//! unchanged, and do not allocate.

ghost use Rattle.std.specs.Prelude.{◌≡◌, ◌^◌, ◌≤◌, IsFalse, IsTrue};
ghost use Rattle.rsb_integer.specs.Runs.{from_to, length_of, members, IsMaximalRun};
ghost use Rattle.rsb_integer.specs.Selection.{complement, intersection};
ghost use Rattle.range_set_blaze.specs.FirstFit.{AllShorter, AllShorterBefore};
ghost use Rattle.range_set_blaze.specs.Split.{from_on};
ghost use Rattle.range_set_c.specs.U128Values.{number};

use super::handle::Handle;
use super::run::Run;
use crate::long_run::first_run_from;
use crate::u128_values::{Value, ValueRun};
use range_set_blaze::RangeSetBlaze;
use std::alloc::Global;

/// Stores the first gap with at least `len` values at or above `from` in `gap` and returns true. If
/// a gap starts below `from`, only its part at or above `from` counts, and only that part is
/// stored. If no gap is that long, it returns false, and `gap` is unchanged.
#[unsafe(no_mangle)]
pub extern "C" fn rsb_u128_first_gap(
    alloc: Global,
    set: &mut Handle,
    from: Value,
    len: Value,
    gap: &mut ValueRun,
) -> bool
    ensures gap { IsTrue result → IsMaximalRun (2 ^ 128)
        (intersection (complement (members set.old.kept.set)) (from_on (number from)))
        (from_to (number gap.new.first) (number gap.new.last)) }
    ensures long { IsTrue result → number len ≤ length_of
        (from_to (number gap.new.first) (number gap.new.last)) }
    ensures first { IsTrue result → AllShorterBefore (2 ^ 128)
        (intersection (complement (members set.old.kept.set)) (from_on (number from))) (number len)
        (number gap.new.first) }
    ensures none { IsFalse result → AllShorter (2 ^ 128)
        (intersection (complement (members set.old.kept.set)) (from_on (number from)))
        (number len) }
    ensures left { IsFalse result → gap.new ≡ gap.old }
    ensures same { set.new.kept.set ≡ set.old.kept.set }
{
    let from = from.number();
    let len = len.length();
    let empty = RangeSetBlaze::new(alloc);
    let found = set.set_or(&empty).first_gap_from(from, len);
    let Some(range) = found else {
        return false;
    };
    *gap = ValueRun::of(Run::of(range));
    true
}

/// Stores the first run with at least `len` members at or above `from` in `run` and returns true. If
/// a run starts below `from`, only its part at or above `from` counts, and only that part is
/// stored. If no run is that long, it returns false, and `run` is unchanged.
#[unsafe(no_mangle)]
pub extern "C" fn rsb_u128_first_run_of(
    alloc: Global,
    set: &mut Handle,
    from: Value,
    len: Value,
    run: &mut ValueRun,
) -> bool
    ensures run { IsTrue result → IsMaximalRun (2 ^ 128)
        (intersection (members set.old.kept.set) (from_on (number from)))
        (from_to (number run.new.first) (number run.new.last)) }
    ensures long { IsTrue result → number len ≤ length_of
        (from_to (number run.new.first) (number run.new.last)) }
    ensures first { IsTrue result → AllShorterBefore (2 ^ 128)
        (intersection (members set.old.kept.set) (from_on (number from))) (number len)
        (number run.new.first) }
    ensures none { IsFalse result → AllShorter (2 ^ 128)
        (intersection (members set.old.kept.set) (from_on (number from))) (number len) }
    ensures left { IsFalse result → run.new ≡ run.old }
    ensures same { set.new.kept.set ≡ set.old.kept.set }
{
    let from = from.number();
    let len = len.length();
    let empty = RangeSetBlaze::new(alloc);
    let found = first_run_from(set.set_or(&empty), from, len);
    let Some(range) = found else {
        return false;
    };
    *run = ValueRun::of(Run::of(range));
    true
}
