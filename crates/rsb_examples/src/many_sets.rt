//! The union of many sets, at once and one after the other: the same set at different cost.

use range_set_blaze::{MultiwayRangeSetBlazeRef, RangeSetBlaze};
use std::alloc::{AllocError, Global};
use std::io;
use std::time::Instant;

/// Prints the number of runs of the union of ten sets of ten runs, taken both ways.
pub fn show(alloc: Global, rt: &impl Print) -> io::Result<()> {
    let sets = sets(alloc, 10)?;
    let at_once = MultiwayRangeSetBlazeRef::union(&sets, alloc)?;
    let in_turn = one_by_one(alloc, &sets)?;
    println!(rt; "at once: {} runs", at_once.ranges_len())?;
    println!(rt; "one by one: {} runs", in_turn.ranges_len())
}

/// Prints how long both ways take with a thousand sets of a thousand runs.
pub fn time(rt: &HostRuntime) -> io::Result<()> {
    let alloc = rt.alloc();
    let sets = sets(alloc, 1000)?;
    let began = Instant::now(rt)?;
    let at_once = MultiwayRangeSetBlazeRef::union(&sets, alloc)?;
    let passed = began.elapsed(rt)?.as_millis();
    println!(rt; "at once: {} runs in {passed} ms", at_once.ranges_len())?;

    let began = Instant::now(rt)?;
    let in_turn = one_by_one(alloc, &sets)?;
    let passed = began.elapsed(rt)?.as_millis();
    println!(rt; "one by one: {} runs in {passed} ms", in_turn.ranges_len())
}

// Returns `many` sets of `many` runs each.
fn sets(alloc: Global, many: u16) -> Result<Vec<RangeSetBlaze<i32>>, AllocError> {
    let mut sets = Vec::new(alloc);
    for number in 0..many {
        sets.push(set_no(alloc, number, many)?)?;
    }
    Ok(sets)
}

// Returns the set of a number. It has one run of two values in each block of 4,096, which touches
// no run of another set.
fn set_no(alloc: Global, number: u16, many: u16) -> Result<RangeSetBlaze<i32>, AllocError> {
    let mut set = RangeSetBlaze::new(alloc);
    for block in 0..many {
        let place = (i32::from(number) * 37 + i32::from(block) * 53) % 1000 * 4;
        let start = i32::from(block) * 4096 + place;
        set.ranges_insert(start..=start + 1)?;
    }
    Ok(set)
}

// Returns the union of sets, which are added one after the other.
fn one_by_one(
    alloc: Global,
    sets: &[RangeSetBlaze<i32>],
) -> Result<RangeSetBlaze<i32>, AllocError> {
    let mut all = RangeSetBlaze::new(alloc);
    for set in sets {
        all = all.bitor(set)?;
    }
    Ok(all)
}
