//! Sets as a user of std's collections writes them. They are collected and extended from
//! references, taken out of their place, made as the default of a map, and used with their
//! allocator.

ghost use Rattle.std.specs.Prelude.{◌≡◌, [], IfOk, OnOk};
ghost use Rattle.range_set_blaze.specs.Algebra.{ranks_of, AddsItems, AddsValues, IsSetOfItems};
ghost use Rattle.range_set_blaze.specs.Set.{IsSetOf};

use range_set_blaze::{DrawDisjoint, Integer, RangeSetBlaze};
use rsb_user_types::Side;
use std::alloc::{AllocError, Allocator, Global};
use std::collections::BTreeMap;
use std::mem;
use std::ops::RangeInclusive;
use std::test::*;
use test_support::{Counting, Heap, HeapSet, gives, list_of, set_in};

/// Returns the set of the values of a slice.
fn of_values<T: Integer, A: Allocator + Copy>(
    alloc: A,
    values: &[T],
) -> Result<RangeSetBlaze<T, A>, AllocError>
    ensures { IfOk result (λ set. IsSetOf set (ranks_of T.rank values.now)) }
{
    values.iter().collect(alloc)
}

/// Returns the set of the ranges of a slice.
fn of_ranges<T: Integer, A: Allocator + Copy>(
    alloc: A,
    ranges: &[RangeInclusive<T>],
) -> Result<RangeSetBlaze<T, A>, AllocError>
    ensures { IfOk result (IsSetOfItems T.rank ranges.now) }
{
    ranges.iter().collect(alloc)
}

/// Returns the set of the ranges of a list.
fn of_list<T: Integer>(
    alloc: Global,
    ranges: &Vec<RangeInclusive<T>>,
) -> Result<RangeSetBlaze<T>, AllocError> {
    FromIterator::from_iter(alloc, ranges)
}

/// Adds the values of a slice.
fn add_values<T: Integer, A: Allocator + Clone>(
    set: &mut RangeSetBlaze<T, A>,
    values: &[T],
) -> Result<(), AllocError>
    ensures { OnOk result (AddsValues T.rank set.old values.now set.new) }
{
    Extend::extend(set, values)
}

/// Adds the ranges of a list.
fn add_ranges<T: Integer, A: Allocator + Clone>(
    set: &mut RangeSetBlaze<T, A>,
    ranges: &Vec<RangeInclusive<T>>,
) -> Result<(), AllocError>
    ensures { OnOk result (AddsItems T.rank set.old ranges.now.items set.new) }
{
    Extend::extend(set, ranges)
}

/// Takes a set out of its place, and leaves the empty set.
fn taken<T: Integer, A: Allocator + Copy>(
    set: &mut RangeSetBlaze<T, A>,
) -> Result<RangeSetBlaze<T, A>, AllocError>
    ensures taken { IfOk result (λ taken. taken ≡ set.old) }
    ensures left { OnOk result (set.new ≡ []) }
{
    mem::try_take(set)
}

/// Takes a set out of its place, and leaves the empty set in its allocator.
fn replaced<T: Integer, A: Allocator + Copy>(set: &mut RangeSetBlaze<T, A>) -> RangeSetBlaze<T, A>
    ensures taken { result ≡ set.old }
    ensures left { set.new ≡ [] }
{
    let empty = RangeSetBlaze::new(*set.allocator());
    mem::replace(set, empty)
}

/// Values, ranges that are added, and the runs of both.
struct Row<T: 'static> {
    values: &'static [T],
    ranges: &'static [(T, T)],
    runs: &'static [(T, T)],
}

static BYTES: [Row<u8>; 4] = [
    Row {
        values: &[],
        ranges: &[],
        runs: &[],
    },
    Row {
        values: &[3, 1, 255, 3],
        ranges: &[(9, 7), (2, 2)],
        runs: &[(1, 3), (255, 255)],
    },
    Row {
        values: &[7],
        ranges: &[(0, 255)],
        runs: &[(0, 255)],
    },
    Row {
        values: &[4],
        ranges: &[(5, 9), (20, 30), (0, 2)],
        runs: &[(0, 2), (4, 9), (20, 30)],
    },
];

static SIDES: Row<Side> = Row {
    values: &[Side::Hi],
    ranges: &[(Side::Hi, Side::Lo), (Side::Lo, Side::Lo)],
    runs: &[(Side::Lo, Side::Hi)],
};

/// The ranges with these ends, the last of which was iterated to its end.
fn listed<T: Integer>(
    alloc: Global,
    ends: &[(T, T)],
) -> Result<Vec<RangeInclusive<T>>, AllocError> {
    let mut ranges = Vec::new(alloc);
    for (start, end) in ends {
        ranges.push(*start..=*end)?;
    }
    let mut last = T::min_value()..=T::min_value();
    T::range_next(&mut last);
    ranges.push(last)?;
    Ok(ranges)
}

/// Whether values and ranges are collected and added by reference.
fn come<T: Integer + 'static>(alloc: Global, row: &Row<T>) -> Result<bool, AllocError> {
    let ranges = listed(alloc, row.ranges)?;
    let mut set = of_values(alloc, row.values)?;
    add_ranges(&mut set, &ranges)?;
    let mut other = of_list(alloc, &ranges)?;
    add_values(&mut other, row.values)?;
    let same = of_ranges(alloc, &ranges)? == of_list(alloc, &ranges)?;
    Ok(same && gives(set.ranges(), row.runs) && set == other)
}

#[test]
fn references_are_collected_and_added(rt: HostRuntime) -> Result<(), Fail> {
    for row in &BYTES {
        assert!(rt; come(rt.alloc(), row)?);
    }
    assert!(rt; come(rt.alloc(), &SIDES)?);
    Ok(())
}

/// Whether a set is taken out of its place, and can then be filled again.
fn is_taken(set: &mut RangeSetBlaze<i32>) -> Result<bool, AllocError> {
    let first = taken(set)?;
    let is_empty = set.is_empty();
    set.insert(7)?;
    let second = replaced(set);
    let are_taken = gives(first.ranges(), &[(1, 3), (9, 9)]) && gives(second.ranges(), &[(7, 7)]);
    Ok(is_empty && are_taken && set.is_empty())
}

#[test]
fn a_set_is_taken_out_of_its_place(rt: HostRuntime) -> Result<(), Fail> {
    let mut set = set_in(rt.alloc(), &[(1, 3), (9, 9)])?;
    assert!(rt; is_taken(&mut set)?);
    Ok(())
}

/// Whether a key has a set with these runs.
fn has_set(sets: &BTreeMap<u8, RangeSetBlaze<i32>>, key: u8, wanted: &[(i32, i32)]) -> bool {
    match sets.get(&key) {
        Some(set) => gives(set.ranges(), wanted),
        None => false,
    }
}

#[test]
fn a_map_makes_empty_sets(rt: HostRuntime) -> Result<(), Fail> {
    let mut sets: BTreeMap<u8, RangeSetBlaze<i32>> = BTreeMap::new(rt.alloc());
    for (key, value) in [(1u8, 5), (2, 6), (1, 4)] {
        sets.entry(key)?.or_default().insert(value)?;
    }
    assert!(rt; has_set(&sets, 1, &[(4, 5)]) && has_set(&sets, 2, &[(6, 6)]));
    Ok(())
}

/// Returns seventy thousand values, two apart.
fn seventy_thousand(alloc: Global) -> Result<Vec<i32>, AllocError> {
    (0..140_000).step_by(2).collect(alloc)
}

/// Returns the runs of the set of the values of a slice.
fn runs_of_values(alloc: Global, values: &[i32]) -> Result<Vec<RangeInclusive<i32>>, AllocError> {
    of_values(alloc, values)?.ranges().collect(alloc)
}

/// Whether the values of a slice make seventy thousand runs, and the runs make the same set.
fn are_collected(alloc: Global, values: &[i32]) -> Result<bool, AllocError> {
    let set = of_values(alloc, values)?;
    let ranges = runs_of_values(alloc, values)?;
    Ok(set.ranges_len() == 70_000 && of_list(alloc, &ranges)? == set)
}

#[test]
fn seventy_thousand_references_are_collected(rt: HostRuntime) -> Result<(), Fail> {
    let values = seventy_thousand(rt.alloc())?;
    assert!(rt; are_collected(rt.alloc(), &values)?);
    Ok(())
}

/// Returns the set of 1 and of the values of a slice.
fn with_values(alloc: Global, values: &[i32]) -> Result<RangeSetBlaze<i32>, AllocError> {
    let mut set = set_in(alloc, &[(1, 1)])?;
    add_values(&mut set, values)?;
    Ok(set)
}

/// Returns the set of 1 and of the members of ranges.
fn with_ranges(
    alloc: Global,
    ranges: &Vec<RangeInclusive<i32>>,
) -> Result<RangeSetBlaze<i32>, AllocError> {
    let mut set = set_in(alloc, &[(1, 1)])?;
    add_ranges(&mut set, ranges)?;
    Ok(set)
}

/// Whether the values of a slice and their runs make the same set with 1, of the right numbers of
/// runs and members.
fn are_added(alloc: Global, values: &[i32]) -> Result<bool, AllocError> {
    let ranges = runs_of_values(alloc, values)?;
    let set = with_values(alloc, values)?;
    let is_counted = set.ranges_len() == 69_999 && set.len() == 70_001;
    Ok(is_counted && set == with_ranges(alloc, &ranges)?)
}

#[test]
fn seventy_thousand_references_are_added(rt: HostRuntime) -> Result<(), Fail> {
    let values = seventy_thousand(rt.alloc())?;
    assert!(rt; are_added(rt.alloc(), &values)?);
    Ok(())
}

/// Twenty values in no order, of which no two touch. A leaf of the map does not have room for so
/// many.
static APART: [i32; 20] = [
    0, 14, 28, 2, 16, 30, 4, 18, 32, 6, 20, 34, 8, 22, 36, 10, 24, 38, 12, 26,
];

/// A call that takes values or ranges by reference.
#[derive(Clone, Copy)]
enum Call {
    CollectValues,
    CollectRanges,
    AddValues,
    AddRanges,
}

/// Makes a call on values, or on the range of each of them.
fn carry_out<'a>(
    heap: &'a Heap,
    call: Call,
    set: &mut HeapSet<'a>,
    values: &[i32],
    ranges: &Vec<RangeInclusive<i32>>,
) -> Result<(), AllocError> {
    match call {
        Call::CollectValues => *set = of_values(heap, values)?,
        Call::CollectRanges => *set = of_ranges(heap, ranges)?,
        Call::AddValues => add_values(set, values)?,
        Call::AddRanges => add_ranges(set, ranges)?,
    }
    Ok(())
}

/// Whether a set may have this number of runs after a call. If the call passed, it has all. If it
/// failed, a collected set has none, and an extended one has a prefix.
fn may_stand(call: Call, is_passed: bool, runs: usize) -> bool {
    if is_passed {
        return runs == 20;
    }
    match call {
        Call::CollectValues | Call::CollectRanges => runs == 0,
        Call::AddValues | Call::AddRanges => runs < 20,
    }
}

/// Whether a set has as many of the first values of `APART` as it has runs.
fn has_first(alloc: Global, set: &HeapSet<'_>) -> Result<bool, AllocError> {
    let first = of_values(alloc, &APART[..set.ranges_len().min(20)])?;
    Ok(set.ranges().equal(first.ranges()))
}

/// Returns whether a call passes if the heap grants the given number of allocations, or `None` if
/// it leaves anything wrong.
fn passes(
    alloc: Global,
    heap: &Heap,
    call: Call,
    granted: usize,
) -> Result<Option<bool>, AllocError> {
    let ends = APART.iter().map(|value| (*value, *value));
    let ranges = list_of(alloc, &Vec::from_iter(alloc, ends)?)?;
    let mut set = RangeSetBlaze::new(heap);
    heap.fail_after(granted);
    let is_passed = carry_out(heap, call, &mut set, &APART, &ranges).is_ok();
    heap.fail_never();
    let is_right = may_stand(call, is_passed, set.ranges_len()) && has_first(alloc, &set)?;
    Ok(is_right.then_some(is_passed))
}

/// Returns how many of thirty tries of a call fail, each granted one allocation more than the one
/// before it. Returns `None` if a try leaves anything wrong or keeps memory.
fn refusals(alloc: Global, call: Call) -> Result<Option<u32>, AllocError> {
    let heap = Counting::new(alloc);
    let mut refusals = 0u32;
    for granted in 0..30usize {
        match passes(alloc, &heap, call, granted)? {
            Some(is_passed) if heap.bytes() == 0 => {
                refusals = refusals.saturating_add(u32::from(!is_passed));
            }
            _ => return Ok(None),
        }
    }
    Ok(Some(refusals))
}

#[test]
fn calls_by_reference_leave_a_prefix_if_an_allocation_fails(rt: HostRuntime) -> Result<(), Fail> {
    for call in [
        Call::CollectValues,
        Call::CollectRanges,
        Call::AddValues,
        Call::AddRanges,
    ] {
        let refusals = refusals(rt.alloc(), call)?.unwrap_or(0);
        assert!(rt; refusals > 1 && refusals < 30, "{refusals} refusals");
    }
    Ok(())
}
