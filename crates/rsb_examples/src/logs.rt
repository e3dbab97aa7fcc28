//! Logs of several machines: a loop collects a stream of each log, and a sweep or a union merges
//! them.

ghost use Rattle.std.specs.Prelude.{length, map, IfOk};
ghost use Rattle.range_set_blaze.specs.Many.{may_give_at, SomeOfEach};
ghost use Rattle.range_set_blaze.specs.Runs.{members, AreRuns};
ghost use Rattle.range_set_blaze.specs.Selection.{any_of};

use range_set_blaze::{
    CheckSortedDisjoint, DrawDisjoint, Integer, IntoRangeSetBlaze, MultiwaySortedDisjoint,
    MultiwaySweep, RangeSetBlaze, Streams, SweepEvent,
};
use std::alloc::{AllocError, Global};
use std::io;
use std::ops::RangeInclusive;
use std::vec::IntoIter;

/// The minutes of a log whose ranges were found to be in order.
type Log = CheckSortedDisjoint<u32, IntoIter<RangeInclusive<u32>>>;

/// The minutes at which each of four machines was up. The third log is not in order.
static LOGS: [&[(u32, u32)]; 4] = [
    &[(0, 14), (20, 39)],
    &[(10, 24)],
    &[(50, 59), (30, 31)],
    &[(40, 44)],
];

/// Prints the events of the logs that are in order, minute by minute, and when at least one machine
/// was up.
pub fn show(alloc: Global, rt: &impl Print) -> io::Result<()> {
    show_events(alloc, in_order(alloc, &LOGS)?, rt)?;
    println!(rt;
        "some machine is up: {}",
        in_some(alloc, in_order(alloc, &LOGS)?)?
    )
}

/// Returns the logs that are in order, as streams.
pub fn in_order(alloc: Global, logs: &[&[(u32, u32)]]) -> Result<Streams<u32, Log>, AllocError> {
    let mut streams = Streams::new(alloc);
    for log in logs {
        if let Ok(stream) = CheckSortedDisjoint::try_new(ranges(alloc, log)?) {
            streams.push(stream)?;
        }
    }
    Ok(streams)
}

// Returns the ranges with these ends.
fn ranges(alloc: Global, ends: &[(u32, u32)]) -> Result<Vec<RangeInclusive<u32>>, AllocError> {
    let mut ranges = Vec::new(alloc);
    for (start, end) in ends {
        ranges.push(*start..=*end)?;
    }
    Ok(ranges)
}

/// Writes each start and each end of the ranges of any streams, in order.
pub fn show_events<I: DrawDisjoint<u32>>(
    alloc: Global,
    logs: Streams<u32, I>,
    rt: &impl Print,
) -> io::Result<()> {
    for event in MultiwaySweep::new(alloc, logs)? {
        match event {
            SweepEvent::Start { range, input } => {
                println!(rt;
                    "{}: log {input} starts, until {}",
                    range.start(),
                    range.end()
                )?;
            }
            SweepEvent::End { at, input } => println!(rt; "{at}: log {input} ends")?,
        }
    }
    Ok(())
}

/// Returns the set of the values in at least one of the streams. If allocation fails, no set is
/// made.
pub fn in_some<T: Integer, I: DrawDisjoint<T>>(
    alloc: Global,
    logs: Streams<T, I>,
) -> Result<RangeSetBlaze<T>, AllocError>
    ensures { IfOk result (λ set. SomeOfEach (length logs) (may_give_at I.may_give logs)
        (λ lists. AreRuns T.value_count (any_of (map members lists)) set)) }
{
    let union = logs.union(alloc)?;
    union.into_range_set_blaze(alloc)
}
