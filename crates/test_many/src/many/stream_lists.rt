//! Lists of streams that a loop fills, and the operations on many streams applied to them. None of
//! the callers has a proof file.

use crate::many::sweeps::{end, start};
use range_set_blaze::{IntoRangeSetBlaze, RangeSetBlaze, RangesIter};
use rsb_integer::Integer;
use rsb_many::{MultiwaySortedDisjoint, MultiwaySweep, Streams, SweepEvent};
use rsb_streams::{CheckSortedDisjoint, Draw, DrawDisjoint, RangeOnce};
use std::alloc::{AllocError, Allocator, Global};
use std::ops::RangeInclusive;
use std::test::Fail;
use std::vec::IntoIter;
use test_support::{Counting, Form, Listed, Ranges, gives, stream_of};

/// Returns the streams of the tables.
fn listed(alloc: Global, tables: &[Ranges]) -> Result<Streams<u8, Listed<'static>>, AllocError> {
    let mut streams = Streams::new(alloc);
    for table in tables {
        streams.push(stream_of(table))?;
    }
    Ok(streams)
}

/// Returns the runs of sets of any element type, as streams.
fn ranges_of<'a, T: Integer>(
    alloc: Global,
    sets: &'a [RangeSetBlaze<T>],
) -> Result<Streams<T, RangesIter<'a, T>>, AllocError> {
    let mut streams = Streams::new(alloc);
    for set in sets {
        streams.push(set.ranges())?;
    }
    Ok(streams)
}

/// The ranges of a list that was checked.
type Tested = CheckSortedDisjoint<u64, IntoIter<RangeInclusive<u64>>>;

/// Returns the lists that are canonical, as streams.
fn tested(
    alloc: Global,
    logs: Vec<Vec<RangeInclusive<u64>>>,
) -> Result<Streams<u64, Tested>, AllocError> {
    let mut streams = Streams::new(alloc);
    for log in logs {
        if let Ok(stream) = CheckSortedDisjoint::try_new(log) {
            streams.push(stream)?;
        }
    }
    Ok(streams)
}

/// Returns the union of the streams as a set, whatever their type.
fn in_some<T: Integer, I: DrawDisjoint<T>, A: Allocator + Copy>(
    alloc: A,
    streams: Streams<T, I, A>,
) -> Result<RangeSetBlaze<T, A>, AllocError> {
    streams.union(alloc)?.into_range_set_blaze(alloc)
}

/// Returns the number of events of a sweep over the streams, or `usize::MAX` if there are more.
fn event_count<T: Integer, I: DrawDisjoint<T>>(
    alloc: Global,
    streams: Streams<T, I>,
) -> Result<usize, AllocError> {
    let mut count = 0usize;
    for _ in MultiwaySweep::new(alloc, streams)? {
        count = count.saturating_add(1);
    }
    Ok(count)
}

/// Whether a form of the streams gives the ranges with these ends.
fn list_gives<T: Integer, I: DrawDisjoint<T>, A: Allocator + Copy>(
    alloc: A,
    form: Form,
    streams: Streams<T, I, A>,
    wanted: &[(T, T)],
) -> Result<bool, AllocError> {
    match form {
        Form::Some => Ok(gives(streams.union(alloc)?, wanted)),
        Form::All => Ok(gives(streams.intersection(alloc)?, wanted)),
        Form::Odd => Ok(gives(streams.symmetric_difference(alloc)?, wanted)),
        Form::AtLeast(k) => Ok(gives(streams.at_least(alloc, k)?, wanted)),
    }
}

/// Some streams, and what lies in some, in all, in an odd number and in at least two of them.
struct Row {
    streams: &'static [Ranges],
    some: Ranges,
    all: Ranges,
    odd: Ranges,
    twice: Ranges,
}

static ROWS: [Row; 5] = [
    Row {
        streams: &[],
        some: &[],
        all: &[(0, 255)],
        odd: &[],
        twice: &[],
    },
    Row {
        streams: &[&[(1, 5)]],
        some: &[(1, 5)],
        all: &[(1, 5)],
        odd: &[(1, 5)],
        twice: &[],
    },
    Row {
        streams: &[&[(1, 5)], &[(3, 8)], &[(5, 6)]],
        some: &[(1, 8)],
        all: &[(5, 5)],
        odd: &[(1, 2), (5, 5), (7, 8)],
        twice: &[(3, 6)],
    },
    Row {
        streams: &[&[(250, 255)], &[(255, 255)], &[(0, 255)]],
        some: &[(0, 255)],
        all: &[(255, 255)],
        odd: &[(0, 249), (255, 255)],
        twice: &[(250, 255)],
    },
    Row {
        streams: &[&[], &[(0, 0), (2, 2)]],
        some: &[(0, 0), (2, 2)],
        all: &[],
        odd: &[(0, 0), (2, 2)],
        twice: &[],
    },
];

/// Whether a form of the streams of a row gives these ranges.
fn row_gives(alloc: Global, row: &Row, form: Form, wanted: Ranges) -> Result<bool, AllocError> {
    list_gives(alloc, form, listed(alloc, row.streams)?, wanted)
}

/// Whether there are as many streams as were added, and they give what the row says.
fn is_right(alloc: Global, row: &Row) -> Result<bool, AllocError> {
    let streams = listed(alloc, row.streams)?;
    let count = streams.len() == row.streams.len() && streams.is_empty() == row.streams.is_empty();
    Ok(
        count
            && row_gives(alloc, row, Form::Some, row.some)?
            && row_gives(alloc, row, Form::All, row.all)?
            && row_gives(alloc, row, Form::Odd, row.odd)?
            && row_gives(alloc, row, Form::AtLeast(2), row.twice)?,
    )
}

#[test]
fn streams_that_a_loop_added_are_combined(rt: HostRuntime) -> Result<(), Fail> {
    for (place, row) in ROWS.iter().enumerate() {
        assert!(rt; is_right(rt.alloc(), row)?, "row {place}");
    }
    Ok(())
}

#[test]
fn a_sweep_numbers_streams_as_they_were_added(rt: HostRuntime) -> Result<(), Fail> {
    let streams = listed(rt.alloc(), &[&[(1, 5)], &[], &[(5, 6)]])?;
    let events: [SweepEvent<u8>; 4] = [start(1, 5, 0), start(5, 6, 2), end(5, 0), end(6, 2)];
    assert!(rt; MultiwaySweep::new(rt.alloc(), streams)?.eq(events));
    Ok(())
}

#[test]
fn lists_that_are_canonical_are_united(rt: HostRuntime) -> Result<(), Fail> {
    let alloc = rt.alloc();
    let mut logs = Vec::new(alloc);
    logs.push([1..=5, 8..=9].to_vec(alloc)?)?;
    logs.push([7..=9, 1..=2].to_vec(alloc)?)?;
    logs.push([4..=6].to_vec(alloc)?)?;
    let streams = tested(alloc, logs)?;
    assert!(rt; streams.len() == 2);
    assert!(rt; gives(in_some(alloc, streams)?.ranges(), &[(1, 6), (8, 9)]));
    Ok(())
}

/// Returns the given number of streams, each with only its own number.
fn numbers(alloc: Global, count: i32) -> Result<Streams<i32, RangeOnce<i32>>, AllocError> {
    let mut streams = Streams::new(alloc);
    for number in 0..count {
        streams.push(RangeOnce::new(number..=number))?;
    }
    Ok(streams)
}

#[test]
fn a_thousand_streams_that_a_loop_added_are_one_run(rt: HostRuntime) -> Result<(), Fail> {
    let alloc = rt.alloc();
    assert!(rt; gives(in_some(alloc, numbers(alloc, 1000)?)?.ranges(), &[(0, 999)]));
    assert!(rt; event_count(alloc, numbers(alloc, 1000)?)? == 2000);
    let sets = [
        in_some(alloc, numbers(alloc, 7)?)?,
        RangeSetBlaze::from(alloc, 5..=70_000)?,
    ];
    assert!(rt; gives(ranges_of(alloc, &sets)?.intersection(alloc)?, &[(5, 6)]));
    Ok(())
}

/// An allocator that counts its calls.
type Heap = Counting<Global>;

/// Adds single values, starting at 0, until an allocation fails. Returns how many were added.
fn add_until_full<'a>(streams: &mut Streams<i32, RangeOnce<i32>, &'a Heap>) -> usize {
    let mut added = 0;
    for number in 0..100 {
        if streams.push(RangeOnce::new(number..=number)).is_err() {
            return added;
        }
        added = added.saturating_add(1);
    }
    added
}

/// Whether the streams that were added before a failed allocation are kept, if `granted`
/// allocations succeed.
fn are_kept(heap: &Heap, granted: usize, wanted: &[(i32, i32)]) -> Result<bool, AllocError> {
    let mut streams = Streams::new(heap);
    heap.fail_after(granted);
    let added = add_until_full(&mut streams);
    heap.fail_never();
    let is_right = streams.len() == added && added < 100;
    Ok(is_right && gives(streams.union(heap)?, wanted))
}

#[test]
fn a_failed_allocation_leaves_the_streams_before_it(rt: HostRuntime) -> Result<(), Fail> {
    let heap = Counting::new(rt.alloc());
    assert!(rt; are_kept(&heap, 0, &[])? && heap.bytes() == 0);
    assert!(rt; are_kept(&heap, 1, &[(0, 3)])? && heap.bytes() == 0);
    assert!(rt; are_kept(&heap, 2, &[(0, 7)])? && heap.bytes() == 0);
    Ok(())
}
