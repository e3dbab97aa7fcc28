//! Votes among block lists: the addresses that enough of the lists block.

ghost use Rattle.std.specs.Prelude.{◌<◌, map, IfOk};
ghost use Rattle.range_set_blaze.specs.Runs.{members};
ghost use Rattle.range_set_blaze.specs.Selection.{at_least};
ghost use Rattle.range_set_blaze.specs.Set.{IsSetOf};

use range_set_blaze::{MultiwayRangeSetBlazeRef, RangeSetBlaze};
use std::alloc::{AllocError, Global};
use std::io;

/// Prints what at least one, at least two and all of three lists block.
pub fn show(alloc: Global, rt: &impl Print) -> io::Result<()> {
    let lists = [
        RangeSetBlaze::from(alloc, 10..=39)?,
        RangeSetBlaze::from(alloc, 30..=59)?,
        RangeSetBlaze::from(alloc, 35..=44)?,
    ];
    for votes in 1..=3 {
        println!(rt; "{votes} of 3: {}", agreed(alloc, &lists, votes)?)?;
    }
    Ok(())
}

/// Returns what at least `votes` of the lists block. If allocation fails, no set is made.
pub fn agreed(
    alloc: Global,
    lists: &[RangeSetBlaze<u32>],
    votes: usize,
) -> Result<RangeSetBlaze<u32>, AllocError>
    ensures { 0 < votes
        → IfOk result (λ agreed. IsSetOf agreed (at_least votes (map members lists.now))) }
{
    lists.at_least(alloc, votes)
}
