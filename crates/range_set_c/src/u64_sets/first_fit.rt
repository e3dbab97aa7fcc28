//! The first gap, or the first run, that has at least a given length. The calls leave the set
//! unchanged, and do not allocate.

ghost use Rattle.std.specs.Prelude.{◌≡◌, ◌^◌, ◌≤◌, IsFalse, IsTrue};
ghost use Rattle.rsb_integer.specs.Runs.{from_to, length_of, members, IsMaximalRun};
ghost use Rattle.rsb_integer.specs.Selection.{complement, intersection};
ghost use Rattle.range_set_blaze.specs.FirstFit.{AllShorter, AllShorterBefore};
ghost use Rattle.range_set_blaze.specs.Split.{from_on};

use super::handle::Handle;
use super::run::Run;
use crate::long_run::first_run_from;
use range_set_blaze::RangeSetBlaze;
use std::alloc::Global;

/// Stores the first gap with at least `len` values at or above `from` in `gap` and returns true. If
/// a gap starts below `from`, only its part at or above `from` counts, and only that part is
/// stored. If no gap is that long, it returns false, and `gap` is unchanged.
#[unsafe(no_mangle)]
pub extern "C" fn rsb_u64_first_gap(
    alloc: Global,
    set: &mut Handle,
    from: u64,
    len: u64,
    gap: &mut Run,
) -> bool
    ensures gap { IsTrue result → IsMaximalRun (2 ^ 64)
        (intersection (complement (members set.old.kept.set)) (from_on from))
        (from_to gap.new.first gap.new.last) }
    ensures long { IsTrue result → len ≤ length_of (from_to gap.new.first gap.new.last) }
    ensures first { IsTrue result → AllShorterBefore (2 ^ 64)
        (intersection (complement (members set.old.kept.set)) (from_on from)) len gap.new.first }
    ensures none { IsFalse result → AllShorter (2 ^ 64)
        (intersection (complement (members set.old.kept.set)) (from_on from)) len }
    ensures left { IsFalse result → gap.new ≡ gap.old }
    ensures same { set.new.kept.set ≡ set.old.kept.set }
{
    let empty = RangeSetBlaze::new(alloc);
    let found = set.set_or(&empty).first_gap_from(from, len as u128);
    let Some(range) = found else {
        return false;
    };
    *gap = Run::of(range);
    true
}

/// Stores the first run with at least `len` members at or above `from` in `run` and returns true. If
/// a run starts below `from`, only its part at or above `from` counts, and only that part is
/// stored. If no run is that long, it returns false, and `run` is unchanged.
#[unsafe(no_mangle)]
pub extern "C" fn rsb_u64_first_run_of(
    alloc: Global,
    set: &mut Handle,
    from: u64,
    len: u64,
    run: &mut Run,
) -> bool
    ensures run { IsTrue result → IsMaximalRun (2 ^ 64)
        (intersection (members set.old.kept.set) (from_on from))
        (from_to run.new.first run.new.last) }
    ensures long { IsTrue result → len ≤ length_of (from_to run.new.first run.new.last) }
    ensures first { IsTrue result → AllShorterBefore (2 ^ 64)
        (intersection (members set.old.kept.set) (from_on from)) len run.new.first }
    ensures none { IsFalse result → AllShorter (2 ^ 64)
        (intersection (members set.old.kept.set) (from_on from)) len }
    ensures left { IsFalse result → run.new ≡ run.old }
    ensures same { set.new.kept.set ≡ set.old.kept.set }
{
    let empty = RangeSetBlaze::new(alloc);
    let found = first_run_from(set.set_or(&empty), from, len as u128);
    let Some(range) = found else {
        return false;
    };
    *run = Run::of(range);
    true
}
