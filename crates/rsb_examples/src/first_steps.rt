//! The calls that most programs make, and a caller with a contract of its own.

ghost use Rattle.std.specs.Prelude.{◌≡◌, ◌⊎◌, IsTrue, OnErr, OnOk};
ghost use Rattle.range_set_blaze.specs.Runs.{members};
ghost use Rattle.range_set_blaze.specs.Set.{only, Adds};

use range_set_blaze::{IntoRangeSetBlaze, RangeSetBlaze};
use std::alloc::{AllocError, Global};
use std::io;

/// Prints the hours at which a shop is open, after look-ups, a loop over the runs, and set
/// operations.
pub fn show(alloc: Global, rt: &impl Print) -> io::Result<()> {
    let open = opening_hours(alloc)?;
    show_runs(&open, rt)?;
    let busy = RangeSetBlaze::from(alloc, 10..=14)?;
    show_hours("free", open.sub(&busy)?, rt)?;
    show_hours("idle", idle_hours(alloc, &open, &busy)?, rt)
}

// Prints a set, how many hours it has, and its runs.
fn show_runs(open: &RangeSetBlaze<u32>, rt: &impl Print) -> io::Result<()> {
    println!(rt;
        "{open}, {} hours, at 12: {}",
        open.len(),
        open.contains(12)
    )?;
    for run in open.ranges() {
        println!(rt; "from {} to {}", run.start(), run.end())?;
    }
    Ok(())
}

// Prints a set after what it is.
fn show_hours(what: &str, hours: RangeSetBlaze<u32>, rt: &impl Print) -> io::Result<()> {
    println!(rt; "{what}: {hours}")
}

// Returns a set of two runs and the two values between them.
fn opening_hours(alloc: Global) -> Result<RangeSetBlaze<u32>, AllocError> {
    let mut open = RangeSetBlaze::new(alloc);
    open.ranges_insert(9..=10)?;
    open.ranges_insert(13..=18)?;
    add_both(&mut open, 11, 12)?;
    Ok(open)
}

// Returns the hours of a day that are in neither set, by a chain of streams.
fn idle_hours(
    alloc: Global,
    open: &RangeSetBlaze<u32>,
    busy: &RangeSetBlaze<u32>,
) -> Result<RangeSetBlaze<u32>, AllocError> {
    let day = RangeSetBlaze::from(alloc, 0..=23)?;
    let idle = day.ranges() - (open.ranges() | busy.ranges());
    idle.into_range_set_blaze(alloc)
}

/// Inserts two values. If allocation fails, the set is unchanged, or has gained only the first.
pub fn add_both(set: &mut RangeSetBlaze<u32>, a: u32, b: u32) -> Result<(), AllocError>
    ensures both { OnOk result (IsTrue (members set.new a) × IsTrue (members set.new b)) }
    ensures err { OnErr result ((set.new ≡ set.old) ⊎ Adds set.old set.new (only a)) }
{
    set.insert(a)?;
    set.insert(b)?;
    Ok(())
}
