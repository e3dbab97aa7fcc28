//! Sets built from the sets of a slice, an array or a list. Each caller states what its result has,
//! and needs no proof file.

ghost use Rattle.std.specs.Prelude.{◌<◌, ◌^◌, length, map, IfOk};
ghost use Rattle.range_set_blaze.specs.Lent.{pointed_to};
ghost use Rattle.range_set_blaze.specs.Multiway.{IsMadeOf};
ghost use Rattle.range_set_blaze.specs.Runs.{members};
ghost use Rattle.range_set_blaze.specs.Selection.{all_of, any_of, at_least, odd_of};
ghost use Rattle.range_set_blaze.specs.Set.{IsSetOf};

use range_set_blaze::{Integer, MultiwayRangeSetBlaze, MultiwayRangeSetBlazeRef, RangeSetBlaze};
use std::alloc::{AllocError, Allocator, Global};
use std::test::*;
use test_support::every_fifth;

/// The days of a year on which a room is taken.
type Days = RangeSetBlaze<u16>;

/// Returns the days on which some room is taken.
fn some_taken(alloc: Global, rooms: &[Days]) -> Result<Days, AllocError>
    ensures { IfOk result (λ days. IsSetOf days (any_of (map members rooms.now))) }
{
    rooms.union(alloc)
}

/// Returns the days on which all rooms are taken, or all 65,536 if there is no room.
fn all_taken(alloc: Global, rooms: &[Days]) -> Result<Days, AllocError>
    ensures days { IfOk result (λ days. IsMadeOf (2 ^ 16) all_of rooms.now days) }
    ensures exactly { 0 < length rooms.now
        → IfOk result (λ days. IsSetOf days (all_of (map members rooms.now))) }
{
    rooms.intersection(alloc)
}

/// Returns the days on which an odd number of rooms is taken.
fn odd_taken(alloc: Global, rooms: &[Days]) -> Result<Days, AllocError>
    ensures { IfOk result (λ days. IsSetOf days (odd_of (map members rooms.now))) }
{
    rooms.symmetric_difference(alloc)
}

/// Returns the days on which two rooms are taken.
fn two_taken(alloc: Global, rooms: &[Days]) -> Result<Days, AllocError>
    ensures { IfOk result (λ days. IsSetOf days (at_least 2 (map members rooms.now))) }
{
    rooms.at_least(alloc, 2)
}

/// The same as the first, for an array.
fn some_taken_of_three(alloc: Global, rooms: &[Days; 3]) -> Result<Days, AllocError>
    ensures { IfOk result (λ days. IsSetOf days (any_of (map members rooms.now))) }
{
    rooms.union(alloc)
}

/// The same for a list.
fn some_taken_of_list(alloc: Global, rooms: &Vec<Days>) -> Result<Days, AllocError>
    ensures { IfOk result (λ days. IsSetOf days (any_of (map members rooms.now.items))) }
{
    rooms.union(alloc)
}

/// The same for a list by value.
fn some_taken_of_own(alloc: Global, rooms: Vec<Days>) -> Result<Days, AllocError>
    ensures { IfOk result (λ days. IsSetOf days (any_of (map members rooms.items))) }
{
    rooms.union(alloc)
}

/// The same for a list of references.
fn some_taken_of_lent(alloc: Global, rooms: Vec<&Days>) -> Result<Days, AllocError>
    ensures { IfOk result (λ days.
        IsSetOf days (any_of (map members (pointed_to rooms.entry.items)))) }
{
    rooms.union(alloc)
}

/// The same for an iterator over a slice.
fn some_taken_of_iter(alloc: Global, rooms: &[Days]) -> Result<Days, AllocError>
    ensures { IfOk result (λ days. IsSetOf days (any_of (map members rooms.now))) }
{
    rooms.iter().union(alloc)
}

/// Returns the values that are in some set, for any element type.
fn some_of<T: Integer, A: Allocator>(
    alloc: Global,
    sets: &[RangeSetBlaze<T, A>],
) -> Result<RangeSetBlaze<T>, AllocError>
    ensures { IfOk result (λ set. IsSetOf set (any_of (map members sets.now))) }
{
    let set = sets.union(alloc)?;
    Ok(set)
}

/// Returns the values that are in all sets, for any element type.
fn all_of_some<T: Integer, A: Allocator>(
    alloc: Global,
    sets: &[RangeSetBlaze<T, A>],
) -> Result<RangeSetBlaze<T>, AllocError>
    ensures { IfOk result (λ set. IsMadeOf T.value_count all_of sets.now set) }
{
    sets.intersection(alloc)
}

/// Returns the values that are in at least `k` sets, for any element type.
fn deep_of<T: Integer, A: Allocator>(
    alloc: Global,
    sets: &[RangeSetBlaze<T, A>],
    k: usize,
) -> Result<RangeSetBlaze<T>, AllocError>
    requires { 0 < k }
    ensures { IfOk result (λ set. IsSetOf set (at_least k (map members sets.now))) }
{
    sets.at_least(alloc, k)
}

/// Returns three rooms.
fn three(alloc: Global) -> Result<[Days; 3], AllocError> {
    let first = RangeSetBlaze::from(alloc, 1..=9)?;
    let second = RangeSetBlaze::from(alloc, 5..=12)?;
    let third = RangeSetBlaze::from(alloc, 8..=20)?;
    Ok([first, second, third])
}

/// Whether a call made the set of the days from one to another.
fn gives(made: Result<Days, AllocError>, first: u16, last: u16) -> Result<bool, AllocError> {
    let days = made?;
    Ok(days.range_at(first) == Some(first..=last) && days.ranges_len() == 1)
}

/// Whether each call on a slice gives the right days.
fn slices_give(alloc: Global, rooms: &[Days]) -> Result<bool, AllocError> {
    Ok(
        gives(some_taken(alloc, rooms), 1, 20)?
            && gives(some_taken_of_iter(alloc, rooms), 1, 20)?
            && gives(all_taken(alloc, rooms), 8, 9)?
            && gives(two_taken(alloc, rooms), 5, 12)?,
    )
}

/// Whether each caller for any element type gives the right days.
fn callers_give(alloc: Global, rooms: &[Days]) -> Result<bool, AllocError> {
    Ok(
        gives(some_of(alloc, rooms), 1, 20)?
            && gives(all_of_some(alloc, rooms), 8, 9)?
            && gives(deep_of(alloc, rooms, 3), 8, 9)?,
    )
}

#[test]
fn slices_of_sets_are_combined(rt: HostRuntime) -> Result<(), Fail> {
    let rooms = three(rt.alloc())?;
    assert!(rt; slices_give(rt.alloc(), &rooms)? && callers_give(rt.alloc(), &rooms)?);
    // These are 1..=4, 8..=9 and 13..=20.
    assert!(rt; odd_taken(rt.alloc(), &rooms)?.len() == 14);
    Ok(())
}

#[test]
fn slices_of_no_sets_are_combined(rt: HostRuntime) -> Result<(), Fail> {
    assert!(rt; all_taken(rt.alloc(), &[])?.is_universal());
    assert!(rt; some_taken(rt.alloc(), &[])?.is_empty());
    Ok(())
}

/// Whether an array, a list and the same list by value give the same days.
fn lists_give(alloc: Global, rooms: &[Days; 3], list: Vec<Days>) -> Result<bool, AllocError> {
    Ok(
        gives(some_taken_of_three(alloc, rooms), 1, 20)?
            && gives(some_taken_of_list(alloc, &list), 1, 20)?
            && gives(some_taken_of_own(alloc, list), 1, 20)?,
    )
}

#[test]
fn lists_of_sets_are_combined(rt: HostRuntime) -> Result<(), Fail> {
    let rooms = three(rt.alloc())?;
    let list = Vec::from_array(rt.alloc(), three(rt.alloc())?)?;
    assert!(rt; lists_give(rt.alloc(), &rooms, list)?);
    Ok(())
}

/// Returns references to the rooms.
fn lent<'a>(alloc: Global, rooms: &'a [Days]) -> Result<Vec<&'a Days>, AllocError> {
    let mut lent = Vec::new(alloc);
    for room in rooms {
        lent.push(room)?;
    }
    Ok(lent)
}

#[test]
fn lists_of_references_are_combined(rt: HostRuntime) -> Result<(), Fail> {
    let rooms = three(rt.alloc())?;
    let lent = lent(rt.alloc(), &rooms)?;
    assert!(rt; gives(some_taken_of_lent(rt.alloc(), lent), 1, 20)?);
    Ok(())
}

#[test]
fn sets_of_seventy_thousand_runs_are_combined(rt: HostRuntime) -> Result<(), Fail> {
    let first = every_fifth(rt.alloc(), 0, 1)?;
    let sets = [first, every_fifth(rt.alloc(), 1, 1)?];
    assert!(rt; some_of(rt.alloc(), &sets)?.len() == 210_000);
    assert!(rt; deep_of(rt.alloc(), &sets, 2)?.len() == 70_000);
    Ok(())
}
