//! Where the ranges of many streams start and end.

use rsb_many::{MultiwaySweep, SweepEvent};
use std::alloc::{AllocError, Global};
use std::test::Fail;
use test_support::{Ranges, streams_of};

/// Returns the event that a range of the input starts.
pub(crate) fn start(first: u8, last: u8, input: usize) -> SweepEvent<u8> {
    SweepEvent::Start {
        range: first..=last,
        input,
    }
}

/// Returns the event that a range of the input ends.
pub(crate) fn end(at: u8, input: usize) -> SweepEvent<u8> {
    SweepEvent::End { at, input }
}

/// Two streams that meet in one value.
static TWO: [Ranges; 2] = [&[(1, 5)], &[(5, 6)]];

#[test]
fn at_one_value_starts_come_before_ends(rt: HostRuntime) -> Result<(), Fail> {
    let sweep = MultiwaySweep::new(rt.alloc(), streams_of(rt.alloc(), &TWO)?)?;
    let events = [start(1, 5, 0), start(5, 6, 1), end(5, 0), end(6, 1)];
    assert!(rt; sweep.eq(events));
    Ok(())
}

/// Three streams, of which the middle one has no range.
static THREE: [Ranges; 3] = [&[(1, 2)], &[], &[(9, 9)]];

/// How many inputs a sweep over the three reports before its first event, and after its last.
fn counted(alloc: Global) -> Result<(usize, usize), AllocError> {
    let mut sweep = MultiwaySweep::new(alloc, streams_of(alloc, &THREE)?)?;
    let before = sweep.input_count();
    while let Some(_) = sweep.next() {}
    Ok((before, sweep.input_count()))
}

#[test]
fn a_sweep_counts_its_inputs_from_first_to_last(rt: HostRuntime) -> Result<(), Fail> {
    assert!(rt; counted(rt.alloc())? == (3, 3));
    let sweep = MultiwaySweep::new(rt.alloc(), streams_of(rt.alloc(), &THREE)?)?;
    let events = [start(1, 2, 0), end(2, 0), start(9, 9, 2), end(9, 2)];
    assert!(rt; sweep.eq(events));
    Ok(())
}
