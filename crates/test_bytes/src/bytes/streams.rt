//! Sets that are written to streams.

use super::rows::many_runs;
use range_set_blaze::RangeSetBlaze;
use range_set_byte_streams::write_to;
use range_set_bytes::{RankedInteger, ReadError, from_bytes, to_bytes};
use std::alloc::{AllocError, Global};
use std::io::{self, ErrorKind, Write};
use std::test::*;
use test_support::Counting;

/// Whether what is written is what `to_bytes` returns, and is read as the set.
fn is_streamed<T: RankedInteger>(alloc: Global, set: &RangeSetBlaze<T>) -> Result<bool, ReadError> {
    let bytes = to_bytes(alloc, set)?;
    let mut output: Vec<u8> = Vec::new(alloc);
    let done = write_to(set, &mut output).is_ok();
    let read = from_bytes(alloc, &output)?;
    Ok(done && output.as_slice() == bytes.as_slice() && read == *set)
}

#[test]
fn sets_are_written_to_streams(rt: HostRuntime) -> Result<(), Fail> {
    let mut set = RangeSetBlaze::<i64>::new(rt.alloc());
    assert!(rt; is_streamed(rt.alloc(), &set)?);
    set.ranges_insert(-1..=300)?;
    set.insert(i64::MAX)?;
    assert!(rt; is_streamed(rt.alloc(), &set)?);
    let mut all = RangeSetBlaze::<u128>::new(rt.alloc());
    all.ranges_insert(0..=u128::MAX)?;
    assert!(rt; is_streamed(rt.alloc(), &all)?);
    Ok(())
}

// This takes nineteen pages.
#[test]
fn tens_of_thousands_of_runs_are_written_to_a_stream(rt: HostRuntime) -> Result<(), Fail> {
    let set = many_runs(rt.alloc())?;
    assert!(rt; is_streamed(rt.alloc(), &set)?);
    Ok(())
}

/// A writer that takes one byte at a time, and is interrupted before each. It fails after `room`
/// bytes: with an error of this kind, or by taking nothing.
#[derive(Drop)]
struct Narrow {
    taken: Vec<u8>,
    room: usize,
    kind: Option<ErrorKind>,
    is_interrupted: bool,
}

impl Write for Narrow {
    fn write(&mut self, buf: &[u8]) -> io::Result<usize> {
        self.is_interrupted = !self.is_interrupted;
        if self.is_interrupted {
            return Err(io::Error::from(ErrorKind::Interrupted));
        }
        if self.taken.len() >= self.room {
            return match self.kind {
                Some(kind) => Err(io::Error::from(kind)),
                None => Ok(0),
            };
        }
        let Some(first) = buf.first() else {
            return Ok(0);
        };
        self.taken.push(*first)?;
        Ok(1)
    }

    fn flush(&mut self) -> io::Result<()> {
        Ok(())
    }
}

/// Whether a writer that fails after `room` bytes has the first ones, and the error is of the kind.
fn is_cut<T: RankedInteger>(
    alloc: Global,
    set: &RangeSetBlaze<T>,
    room: usize,
    kind: Option<ErrorKind>,
    told: ErrorKind,
) -> Result<bool, AllocError> {
    let bytes = to_bytes(alloc, set)?;
    let mut output = Narrow {
        taken: Vec::new(alloc),
        room,
        kind,
        is_interrupted: false,
    };
    let result = write_to(set, &mut output);
    let is_told = match result {
        Ok(()) => room >= bytes.len(),
        Err(error) => room < bytes.len() && error.kind() == told,
    };
    let front = bytes.get(..room.min(bytes.len()));
    Ok(is_told && front == Some(output.taken.as_slice()))
}

#[test]
fn a_failed_write_leaves_the_first_bytes(rt: HostRuntime) -> Result<(), Fail> {
    let mut set = RangeSetBlaze::<u16>::new(rt.alloc());
    set.ranges_insert(3..=700)?;
    set.ranges_insert(900..=900)?;
    for room in 0..16usize {
        let full = ErrorKind::StorageFull;
        assert!(rt; is_cut(rt.alloc(), &set, room, Some(full), full)?);
        assert!(rt; is_cut(rt.alloc(), &set, room, None, ErrorKind::WriteZero)?);
    }
    let many = many_runs(rt.alloc())?;
    for room in [8191usize, 8192, 8193, 150_007, 150_008] {
        assert!(rt; is_cut(rt.alloc(), &many, room, None, ErrorKind::WriteZero)?);
    }
    Ok(())
}

// The set is in a heap that grants nothing more.
#[test]
fn writing_allocates_nothing(rt: HostRuntime) -> Result<(), Fail> {
    let heap = Counting::new(rt.alloc());
    let mut set = RangeSetBlaze::<u32, &Counting<Global>>::new(&heap);
    set.ranges_insert(5..=9)?;
    heap.fail_after(0);
    let before = heap.allocations();
    let mut output: Vec<u8> = Vec::new(rt.alloc());
    assert!(rt; write_to(&set, &mut output).is_ok());
    assert!(rt; heap.allocations() == before);
    assert!(rt; output.len() == 9);
    Ok(())
}
