//! Mutated bytes, which a slice and a stream show alike.

use range_set_blaze::RangeSetBlaze;
use range_set_byte_streams::{StreamError, read_from};
use range_set_bytes::{ReadError, Reason, from_bytes, to_bytes};
use std::alloc::{AllocError, Global};
use std::test::*;

/// Returns the next number of a sequence that looks random.
fn next_draw(draw: u64) -> u64 {
    draw.wrapping_mul(6_364_136_223_846_793_005)
        .wrapping_add(1_442_695_040_888_963_407)
}

/// Changes a bit or a byte, drops the last bytes, or adds one.
fn mutate(bytes: &mut Vec<u8>, draw: u64) -> Result<(), AllocError> {
    let place = (draw >> 40) as usize % 24;
    match draw >> 62 {
        0 => {
            if let Some(byte) = bytes.get_mut(place) {
                *byte ^= 1 << (draw >> 59 & 7);
            }
        }
        1 => {
            if let Some(byte) = bytes.get_mut(place) {
                *byte = (draw >> 32 & 0xFF) as u8;
            }
        }
        2 => bytes.truncate(place),
        _ => bytes.push((draw >> 32 & 0xFF) as u8)?,
    }
    Ok(())
}

/// Whether both readers return the same set or the same fault, and the stream is left where it is
/// to be.
fn are_read_alike(alloc: Global, bytes: &[u8]) -> bool {
    let mut input = bytes;
    let streamed = read_from::<u16, Global, &[u8]>(alloc, &mut input);
    match (from_bytes::<u16, Global>(alloc, bytes), streamed) {
        (Ok(set), Ok(other)) => set == other && input.is_empty(),
        (Err(ReadError::Invalid(fault)), Ok(_)) => {
            fault.reason == Reason::TooLong && bytes.get(fault.place..) == Some(input)
        }
        (Err(ReadError::Invalid(fault)), Err(StreamError::Invalid(other))) => {
            fault == other && bytes.get(fault.place..) == Some(input)
        }
        _ => false,
    }
}

/// Returns how many of the inputs are read as a set. Each has one mutation or two. Returns `None`
/// if the readers differ.
fn read_mutated(alloc: Global, count: u32) -> Result<Option<u32>, AllocError> {
    let mut set = RangeSetBlaze::<u16>::new(alloc);
    set.ranges_insert(3..=300)?;
    set.ranges_insert(1000..=1000)?;
    set.ranges_insert(40_000..=65_535)?;
    let whole = to_bytes(alloc, &set)?;
    let mut draw = 1u64;
    let mut good = 0u32;
    for _ in 0..count {
        let mut bytes: Vec<u8> = Vec::new(alloc);
        bytes.extend_from_slice(&whole)?;
        for _ in 0..=draw >> 32 & 1 {
            draw = next_draw(draw);
            mutate(&mut bytes, draw)?;
        }
        if !are_read_alike(alloc, &bytes) {
            return Ok(None);
        }
        if from_bytes::<u16, Global>(alloc, &bytes).is_ok() {
            good = good.saturating_add(1);
        }
    }
    Ok(Some(good))
}

#[test]
fn two_thousand_mutated_inputs_are_read_alike(rt: HostRuntime) -> Result<(), Fail> {
    let good = read_mutated(rt.alloc(), 2_000)?;
    assert!(rt; matches!(good, Some(good) if good > 50 && good < 1_900));
    Ok(())
}

#[test]
fn a_hundred_thousand_mutated_inputs_are_read_alike(rt: HostRuntime) -> Result<(), Fail> {
    let good = read_mutated(rt.alloc(), 100_000)?;
    assert!(rt; matches!(good, Some(good) if good > 2_500 && good < 95_000));
    Ok(())
}
