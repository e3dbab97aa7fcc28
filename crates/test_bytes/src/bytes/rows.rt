//! The examples of docs/FORMAT.md, and sets of tens of thousands of runs.

use range_set_blaze::RangeSetBlaze;
use range_set_bytes::{RankedInteger, from_bytes, to_bytes};
use std::alloc::{AllocError, Global};
use std::test::*;

/// Whether these are the bytes of the set of these ranges, and are read as it.
pub fn is_written<T: RankedInteger>(
    alloc: Global,
    ranges: &[(T, T)],
    bytes: &[u8],
) -> Result<bool, AllocError> {
    let mut set = RangeSetBlaze::new(alloc);
    for (start, end) in ranges {
        set.ranges_insert(*start..=*end)?;
    }
    let written = to_bytes(alloc, &set)?;
    Ok(written.as_slice() == bytes && is_read(alloc, bytes, &set))
}

/// Whether these bytes are read as the set.
fn is_read<T: RankedInteger>(alloc: Global, bytes: &[u8], set: &RangeSetBlaze<T>) -> bool {
    match from_bytes::<T, Global>(alloc, bytes) {
        Ok(read) => read == *set,
        Err(_) => false,
    }
}

#[test]
fn the_examples_of_the_page_are_written_and_read(rt: HostRuntime) -> Result<(), Fail> {
    let three = [0xF5, 0x52, 0x53, 0x42, 1, 8, 3, 3, 4, 2, 0, 0xBD, 1, 0x37];
    assert!(rt; is_written::<u8>(rt.alloc(), &[(3, 7), (10, 10), (200, 255)], &three)?);
    let about_zero = [
        0xF5, 0x52, 0x53, 0x42, 1, 0x40, 1, 255, 255, 255, 255, 255, 255, 255, 255, 0x7F, 0xAD, 2,
    ];
    assert!(rt; is_written::<i64>(rt.alloc(), &[(-1, 300)], &about_zero)?);
    let all = [
        0xF5, 0x52, 0x53, 0x42, 1, 0x80, 1, 0, 255, 255, 255, 255, 255, 255, 255, 255, 255, 255,
        255, 255, 255, 255, 255, 255, 255, 255, 3,
    ];
    assert!(rt; is_written::<u128>(rt.alloc(), &[(0, u128::MAX)], &all)?);
    let none = [0xF5, 0x52, 0x53, 0x42, 1, 0x80, 0];
    assert!(rt; is_written::<u128>(rt.alloc(), &[], &none)?);
    Ok(())
}

/// Returns a set of 50,000 runs, of one to seven values each.
pub fn many_runs(alloc: Global) -> Result<RangeSetBlaze<u32>, AllocError> {
    let mut set = RangeSetBlaze::new(alloc);
    for i in 0..50_000u32 {
        set.ranges_insert(i * 300..=i * 300 + i % 7)?;
    }
    Ok(set)
}

// The gaps take two bytes each, and the lengths one.
#[test]
fn tens_of_thousands_of_runs_are_written_and_read(rt: HostRuntime) -> Result<(), Fail> {
    let set = many_runs(rt.alloc())?;
    assert!(rt; set.ranges_len() == 50_000);
    let bytes = to_bytes(rt.alloc(), &set)?;
    assert!(rt; bytes.len() == 150_008);
    assert!(rt; is_read(rt.alloc(), &bytes, &set));
    Ok(())
}
