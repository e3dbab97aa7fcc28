//! Sets that are read from streams.

use super::faults::REFUSED;
use super::rows::many_runs;
use range_set_blaze::RangeSetBlaze;
use range_set_byte_streams::{StreamError, read_from, write_to};
use range_set_bytes::{Fault, RankedInteger, Reason, to_bytes};
use std::alloc::{AllocError, Global};
use std::io::{self, BufReader, ErrorKind, Read};
use std::test::*;
use test_support::Counting;

/// Whether the bytes of the set are read as the set, and the two that follow are left.
fn is_read_back<T: RankedInteger>(
    alloc: Global,
    set: &RangeSetBlaze<T>,
) -> Result<bool, AllocError> {
    let mut bytes = to_bytes(alloc, set)?;
    bytes.extend_from_slice(&[7, 8])?;
    let mut input = bytes.as_slice();
    let is_same = match read_from::<T, Global, &[u8]>(alloc, &mut input) {
        Ok(read) => read == *set,
        Err(_) => false,
    };
    Ok(is_same && input == [7u8, 8].as_slice())
}

#[test]
fn sets_are_read_from_streams(rt: HostRuntime) -> Result<(), Fail> {
    let mut set = RangeSetBlaze::<i64>::new(rt.alloc());
    assert!(rt; is_read_back(rt.alloc(), &set)?);
    set.ranges_insert(-1..=300)?;
    set.insert(i64::MAX)?;
    assert!(rt; is_read_back(rt.alloc(), &set)?);
    let mut all = RangeSetBlaze::<u128>::new(rt.alloc());
    all.ranges_insert(0..=u128::MAX)?;
    assert!(rt; is_read_back(rt.alloc(), &all)?);
    let mut letters = RangeSetBlaze::<char>::new(rt.alloc());
    letters.ranges_insert('a'..='z')?;
    assert!(rt; is_read_back(rt.alloc(), &letters)?);
    Ok(())
}

#[test]
fn sets_that_follow_one_another_are_read_one_by_one(rt: HostRuntime) -> Result<(), Fail> {
    let mut small = RangeSetBlaze::<u8>::new(rt.alloc());
    small.ranges_insert(3..=7)?;
    let many = many_runs(rt.alloc())?;
    let mut stream: Vec<u8> = Vec::new(rt.alloc());
    assert!(rt; write_to(&small, &mut stream).is_ok());
    assert!(rt; write_to(&many, &mut stream).is_ok());
    assert!(rt; write_to(&small, &mut stream).is_ok());
    let mut input = stream.as_slice();
    let first = read_from::<u8, Global, &[u8]>(rt.alloc(), &mut input);
    assert!(rt; matches!(&first, Ok(set) if *set == small));
    let second = read_from::<u32, Global, &[u8]>(rt.alloc(), &mut input);
    assert!(rt; matches!(&second, Ok(set) if *set == many));
    let third = read_from::<u8, Global, &[u8]>(rt.alloc(), &mut input);
    assert!(rt; matches!(&third, Ok(set) if *set == small));
    assert!(rt; input.is_empty());
    Ok(())
}

/// Whether the bytes are refused at the place, for the reason, and are left from there on. What
/// follows the last run of a set is not refused but left.
fn is_refused_at(alloc: Global, bytes: &[u8], place: usize, reason: Reason) -> bool {
    let mut input = bytes;
    let is_told = match read_from::<u8, Global, &[u8]>(alloc, &mut input) {
        Err(StreamError::Invalid(fault)) => fault == Fault { place, reason },
        Err(_) => false,
        Ok(_) => reason == Reason::TooLong,
    };
    is_told && bytes.get(place..) == Some(input)
}

#[test]
fn a_stream_is_left_at_the_first_wrong_byte(rt: HostRuntime) -> Result<(), Fail> {
    for (bytes, place, reason) in &REFUSED {
        assert!(rt;
            is_refused_at(rt.alloc(), bytes, *place, *reason),
            "{bytes:?}"
        );
    }
    Ok(())
}

/// A reader that gives one byte at a time, and is interrupted before each. After the bytes it fails
/// with an error of this kind, or ends.
#[derive(Drop)]
struct Dripping<'a> {
    bytes: &'a [u8],
    failure: Option<ErrorKind>,
    is_interrupted: bool,
}

impl Read for Dripping<'_> {
    fn read(&mut self, buf: &mut [u8]) -> io::Result<usize> {
        self.is_interrupted = !self.is_interrupted;
        if self.is_interrupted {
            return Err(io::Error::from(ErrorKind::Interrupted));
        }
        if self.bytes.is_empty()
            && let Some(kind) = self.failure
        {
            return Err(io::Error::from(kind));
        }
        let count = self.bytes.len().min(buf.len()).min(1);
        self.bytes.read(&mut buf[..count])
    }
}

/// Returns what is read of the bytes, one at a time.
fn dripped(
    alloc: Global,
    bytes: &[u8],
    failure: Option<ErrorKind>,
) -> Result<RangeSetBlaze<u32>, StreamError> {
    let reader = Dripping {
        bytes,
        failure,
        is_interrupted: false,
    };
    let mut input = BufReader::with_capacity(alloc, 5, reader)?;
    let read = read_from(alloc, &mut input);
    read
}

#[test]
fn single_bytes_and_interruptions_change_nothing(rt: HostRuntime) -> Result<(), Fail> {
    let many = many_runs(rt.alloc())?;
    let bytes = to_bytes(rt.alloc(), &many)?;
    let read = dripped(rt.alloc(), &bytes, None);
    assert!(rt; matches!(&read, Ok(set) if *set == many));
    Ok(())
}

// The first bytes of a set are read, and then a read fails or there are no more.
#[test]
fn a_read_may_fail_at_any_byte(rt: HostRuntime) -> Result<(), Fail> {
    let mut set = RangeSetBlaze::<u32>::new(rt.alloc());
    set.ranges_insert(3..=700)?;
    set.ranges_insert(70_000..=70_000)?;
    let bytes = to_bytes(rt.alloc(), &set)?;
    for end in 0..bytes.len() {
        let front = bytes.get(..end).unwrap_or(&[]);
        let broken = dripped(rt.alloc(), front, Some(ErrorKind::BrokenPipe));
        assert!(rt;
            matches!(&broken, Err(StreamError::Io(e)) if e.kind() == ErrorKind::BrokenPipe)
        );
        let cut = dripped(rt.alloc(), front, None);
        assert!(rt;
            matches!(&cut, Err(StreamError::Invalid(fault))
            if fault.place == end && fault.reason == Reason::CutShort)
        );
    }
    Ok(())
}

// Nothing leaks, and what was read before the failure is gone.
#[test]
fn each_allocation_of_a_reader_may_fail(rt: HostRuntime) -> Result<(), Fail> {
    let mut set = RangeSetBlaze::<u16>::new(rt.alloc());
    for i in 0..100u16 {
        set.ranges_insert(i * 9..=i * 9 + 3)?;
    }
    let bytes = to_bytes(rt.alloc(), &set)?;
    let heap = Counting::new(rt.alloc());
    let mut refused = 0u32;
    for granted in 0..80usize {
        heap.fail_after(granted);
        let mut input = bytes.as_slice();
        match read_from::<u16, &Counting<Global>, &[u8]>(&heap, &mut input) {
            Ok(read) => assert!(rt; read.ranges_len() == 100 && input.is_empty()),
            Err(StreamError::NoMemory(_)) => refused = refused.saturating_add(1),
            Err(_) => assert!(rt; false, "{granted} allocations"),
        }
        assert!(rt; heap.bytes() == 0);
    }
    assert!(rt; refused > 0 && refused < 80);
    Ok(())
}

// These bytes announce as many runs as there may be, and bring none. Nothing is allocated.
#[test]
fn a_count_in_a_stream_allocates_nothing(rt: HostRuntime) -> Result<(), Fail> {
    let heap = Counting::new(rt.alloc());
    heap.fail_after(0);
    let announced = [
        0xF5, 0x52, 0x53, 0x42, 1, 0x80, 255, 255, 255, 255, 255, 255, 255, 255, 255, 1,
    ];
    let mut input = announced.as_slice();
    let read = read_from::<u128, &Counting<Global>, &[u8]>(&heap, &mut input);
    assert!(rt; matches!(&read, Err(StreamError::Invalid(fault)) if fault.place == 16));
    assert!(rt; heap.allocations() == 0);
    Ok(())
}

#[test]
fn errors_of_streams_have_a_text(rt: HostRuntime) -> Result<(), Fail> {
    let invalid = StreamError::Invalid(Fault {
        place: 9,
        reason: Reason::Touching,
    });
    let text = format!(in rt.alloc(); "{invalid}")?;
    assert!(rt; text.as_str() == "byte 9: a run that touches the one before");
    let memory = format!(in rt.alloc(); "{}", StreamError::NoMemory(AllocError))?;
    assert!(rt; memory.as_str() == "no memory");
    Ok(())
}
