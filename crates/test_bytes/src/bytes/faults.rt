//! Bytes that are those of no set.

use range_set_bytes::{Fault, RankedInteger, ReadError, Reason, from_bytes};
use std::alloc::Global;
use std::test::*;

/// Bytes that are refused as a set of `u8`, the position of the first wrong one, and the reason:
/// the rows of docs/FORMAT.md, and more.
pub static REFUSED: [(&'static [u8], usize, Reason); 20] = [
    (&[], 0, Reason::CutShort),
    (&[0xF5], 1, Reason::CutShort),
    (&[0xF4, 0x52, 0x53, 0x42], 0, Reason::NotMagic),
    (&[0xF5, 0x52, 0x53, 0x0A], 3, Reason::NotMagic),
    (&[0xF5, 0x52, 0x53, 0x42, 2], 4, Reason::OtherVersion),
    (&[0xF5, 0x52, 0x53, 0x42, 1, 0x40, 0], 5, Reason::OtherWidth),
    (&[0xF5, 0x52, 0x53, 0x42, 1, 8], 6, Reason::CutShort),
    (&[0xF5, 0x52, 0x53, 0x42, 1, 8, 0x80], 7, Reason::CutShort),
    (
        &[0xF5, 0x52, 0x53, 0x42, 1, 8, 0x81, 1],
        6,
        Reason::PastGreatest,
    ),
    (
        &[0xF5, 0x52, 0x53, 0x42, 1, 8, 0x80, 2],
        7,
        Reason::PastGreatest,
    ),
    (
        &[0xF5, 0x52, 0x53, 0x42, 1, 8, 0x80, 0],
        7,
        Reason::NotShortest,
    ),
    (
        &[0xF5, 0x52, 0x53, 0x42, 1, 8, 1, 0x83, 0, 0],
        8,
        Reason::NotShortest,
    ),
    (
        &[0xF5, 0x52, 0x53, 0x42, 1, 8, 2, 3, 4, 0],
        9,
        Reason::Touching,
    ),
    (
        &[0xF5, 0x52, 0x53, 0x42, 1, 8, 1, 0xC8, 1, 0x38],
        9,
        Reason::PastGreatest,
    ),
    (
        &[0xF5, 0x52, 0x53, 0x42, 1, 8, 1, 0x80, 0x80, 1],
        8,
        Reason::PastGreatest,
    ),
    (
        &[0xF5, 0x52, 0x53, 0x42, 1, 8, 2, 0xFF, 1],
        7,
        Reason::PastGreatest,
    ),
    (
        &[0xF5, 0x52, 0x53, 0x42, 1, 8, 1, 0xC8, 1],
        9,
        Reason::CutShort,
    ),
    (
        &[0xF5, 0x52, 0x53, 0x42, 1, 8, 2, 0, 0],
        9,
        Reason::CutShort,
    ),
    (&[0xF5, 0x52, 0x53, 0x42, 1, 8, 0, 0], 7, Reason::TooLong),
    (
        &[0xF5, 0x52, 0x53, 0x42, 1, 8, 1, 3, 4, 9, 9],
        9,
        Reason::TooLong,
    ),
];

/// Whether the bytes are refused at the place, for the reason.
pub fn is_refused<T: RankedInteger>(
    alloc: Global,
    bytes: &[u8],
    place: usize,
    reason: Reason,
) -> bool {
    match from_bytes::<T, Global>(alloc, bytes) {
        Err(ReadError::Invalid(fault)) => fault == Fault { place, reason },
        _ => false,
    }
}

#[test]
fn the_first_wrong_byte_and_the_reason_are_told(rt: HostRuntime) -> Result<(), Fail> {
    for (bytes, place, reason) in &REFUSED {
        assert!(rt;
            is_refused::<u8>(rt.alloc(), bytes, *place, *reason),
            "{bytes:?}"
        );
    }
    Ok(())
}

#[test]
fn faults_have_a_text(rt: HostRuntime) -> Result<(), Fail> {
    let error = ReadError::Invalid(Fault {
        place: 9,
        reason: Reason::Touching,
    });
    let text = format!(in rt.alloc(); "{error}")?;
    assert!(rt; text.as_str() == "byte 9: a run that touches the one before");
    Ok(())
}
