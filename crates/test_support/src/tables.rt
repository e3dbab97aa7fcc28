//! Tables of ranges, each given by its two ends. Tests write them and compare with them.

ghost use Rattle.std.specs.Prelude.{◌≡◌};

use range_set_blaze::RangeSetBlaze;
use rsb_integer::Integer;
use rsb_streams::Draw;
use rsb_user_types::Slot;
use std::alloc::{AllocError, Allocator, Global};
use std::ops::RangeInclusive;

/// The ends of ranges.
pub type Table<'a> = &'a [(i32, i32)];

/// Returns the set of the ranges of a table.
pub fn set_of(alloc: Global, ranges: &[(i32, i32)]) -> Result<RangeSetBlaze<i32>, AllocError> {
    ranges
        .iter()
        .map(|(start, end)| *start..=*end)
        .collect(alloc)
}

/// Returns the set of the ranges of a table, in any allocator.
pub fn set_in<A: Allocator + Copy>(
    alloc: A,
    ranges: Table<'_>,
) -> Result<RangeSetBlaze<i32, A>, AllocError> {
    let mut set = RangeSetBlaze::new(alloc);
    for (start, end) in ranges {
        set.ranges_insert(*start..=*end)?;
    }
    Ok(set)
}

/// Returns the runs of a set as a table.
pub fn runs_of<A: Allocator + Copy>(
    alloc: Global,
    set: &RangeSetBlaze<i32, A>,
) -> Result<Vec<(i32, i32)>, AllocError> {
    let mut runs = Vec::new(alloc);
    for range in set.ranges() {
        runs.push((*range.start(), *range.end()))?;
    }
    Ok(runs)
}

/// Returns whether a set has exactly the runs with these ends, and counts them and their members.
pub fn has<A: Allocator>(set: &RangeSetBlaze<i32, A>, wanted: Table<'_>) -> bool {
    set.ranges_len() == wanted.len()
        && set.len() == values_in(wanted)
        && gives(set.ranges(), wanted)
}

/// Returns the number of values of the ranges of a table.
pub fn values_in(table: Table<'_>) -> u64 {
    let mut members = 0u64;
    for (start, end) in table {
        members = members
            .saturating_add(u64::from(end.abs_diff(*start)))
            .saturating_add(1);
    }
    members
}

/// Returns whether a stream gives exactly the ranges with these ends. It requires only `Draw` of
/// the stream, so that a nest of streams costs little to pass.
pub fn gives<T: Integer, I: Draw<T>>(stream: I, wanted: &[(T, T)]) -> bool
    requires { I.can_draw stream }
{
    let mut stream = stream;
    for pair in wanted {
        let Some(range) = stream.draw() else {
            return false;
        };
        if range != (pair.0..=pair.1) {
            return false;
        }
    }
    stream.draw().is_none()
}

/// Returns whether a stream and a clone of it each give exactly the ranges with these ends.
pub fn both_give<T: Integer, I: Draw<T> + Clone>(
    stream: I,
    wanted: &[(T, T)],
) -> Result<bool, AllocError>
    requires ready { I.can_draw stream }
    requires copies { (stream copy : I) → I.is_clone stream copy → copy ≡ stream }
{
    let copy = stream.clone()?;
    Ok(gives(stream, wanted) && gives(copy, wanted))
}

/// Returns the slot with a number, or the last slot of the day if there is none.
pub fn slot(number: u8) -> Slot {
    Slot::new(number).unwrap_or(Slot::max_value())
}

/// Returns the slots from one number to another.
pub fn slots(first: u8, last: u8) -> RangeInclusive<Slot> {
    slot(first)..=slot(last)
}

/// Returns a set of 70,000 runs. The runs start at `first` and at every fifth value after it, and
/// each ends the given number of values after its start.
pub fn every_fifth(alloc: Global, first: i32, more: i32) -> Result<RangeSetBlaze<i32>, AllocError> {
    let runs = (0..70_000i32).map(|place| {
        let start = first.saturating_add(place.saturating_mul(5));
        start..=start.saturating_add(more)
    });
    RangeSetBlaze::from_iter(alloc, runs)
}
