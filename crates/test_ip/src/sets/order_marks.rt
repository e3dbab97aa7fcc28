//! Lists that begin with a byte order mark.

use crate::sets::address_set::are;
use ip_sets::{ListFault, parse_line, read_list, read_list_past_bad_lines};
use std::alloc::Global;
use std::io::BufReader;
use std::test::*;

/// Returns whether a list is read to its end, and selects exactly these IPv4 addresses.
fn selects(alloc: Global, text: &[u8], v4: &[(u32, u32)]) -> bool {
    let mut input = text;
    match read_list(alloc, &mut input) {
        Ok(list) => input.is_empty() && are(&list.v4, v4) && list.v6.ranges_len() == 0,
        Err(_) => false,
    }
}

/// Lists with a mark, and what they select.
static GOOD: [(&[u8], &[(u32, u32)]); 8] = [
    (b"\xef\xbb\xbf", &[]),
    (b"\xef\xbb\xbf\n", &[]),
    (b"\xef\xbb\xbf0.0.0.4", &[(4, 4)]),
    (b"\xef\xbb\xbf0.0.0.4\r\n0.0.0.6", &[(4, 4), (6, 6)]),
    (b"\xef\xbb\xbf\r\n0.0.0.4\n", &[(4, 4)]),
    (b"\xef\xbb\xbf# a comment\n0.0.0.4\n", &[(4, 4)]),
    (b"\xef\xbb\xbf \t0.0.0.4/30\n0.0.0.8\n", &[(4, 8)]),
    (b"\xef\xbb\xbf0.0.0.4 # \xef\xbb\xbf\n", &[(4, 4)]),
];

#[test]
fn a_mark_at_the_start_does_not_count(rt: HostRuntime) {
    for (text, v4) in &GOOD {
        assert!(rt; selects(rt.alloc(), text, v4), "at {text:?}");
    }
}

/// Returns the number of the first bad line, or `None` if there is no such line.
fn bad_line(alloc: Global, text: &[u8]) -> Option<u64> {
    let mut input = text;
    match read_list(alloc, &mut input) {
        Err(ListFault::BadLine(bad)) => Some(bad.number),
        _ => None,
    }
}

/// Lists with a bad line, and its number.
static BAD: [(&[u8], u64); 11] = [
    (b"\xef\xbb\xbfx", 1),
    (b"\xef\xbb\xbf\nx", 2),
    (b"\xef\xbb\xbf0.0.0.4\n0.0.0.5\n0.0.0.256\n", 3),
    (b"0.0.0.4\n\xef\xbb\xbf0.0.0.5\n", 2),
    (b"\n\xef\xbb\xbf\n", 2),
    (b"\xef\xbb\xbf\xef\xbb\xbf0.0.0.4", 1),
    (b" \xef\xbb\xbf0.0.0.4", 1),
    (b"0.0.0.4\xef\xbb\xbf", 1),
    (b"\xef\xbb0.0.0.4", 1),
    (b"\xef", 1),
    (b"\xff\xfe0.0.0.4", 1),
];

#[test]
fn a_mark_anywhere_else_makes_a_line_bad(rt: HostRuntime) {
    for (text, number) in &BAD {
        assert!(rt; bad_line(rt.alloc(), text) == Some(*number), "at {text:?}");
    }
}

#[test]
fn a_line_alone_has_no_mark(rt: HostRuntime) {
    assert!(rt; parse_line(b"\xef\xbb\xbf0.0.0.4").is_none());
    assert!(rt; parse_line(b"\xef\xbb\xbf").is_none());
}

/// A list with a mark and bad lines.
const TEXT: &[u8] = b"\xef\xbb\xbfx\n0.0.0.4\n\xef\xbb\xbf0.0.0.6\n0.0.0.5 # five\n1.2.3";

/// What is told of its bad lines.
const TOLD: &str = "it:1: a name, not an address: x\n\
    it:3: not an address, block or range: \\xef\\xbb\\xbf0.0.0.6\n\
    it:5: not an address, block or range: 1.2.3\n";

#[test]
fn bad_lines_keep_their_numbers_after_a_mark(rt: HostRuntime) -> Result<(), Fail> {
    for capacity in 1..64usize {
        let mut told = Vec::new(rt.alloc());
        let mut input = BufReader::with_capacity(rt.alloc(), capacity, TEXT)?;
        let list = read_list_past_bad_lines(rt.alloc(), &mut input, "it", &mut told)?;
        assert!(rt; are(&list.v4, &[(4, 5)]), "at {capacity}");
        assert!(rt; told.as_slice() == TOLD.as_bytes(), "at {capacity}");
    }
    Ok(())
}

#[test]
fn a_mark_may_cross_parts_of_the_input(rt: HostRuntime) -> Result<(), Fail> {
    for capacity in 1..16usize {
        let text: &[u8] = b"\xef\xbb\xbf0.0.0.4\n0.0.0.5-0.0.0.6\n";
        let mut input = BufReader::with_capacity(rt.alloc(), capacity, text)?;
        let list = read_list(rt.alloc(), &mut input)?;
        assert!(rt; are(&list.v4, &[(4, 6)]), "at {capacity}");
    }
    Ok(())
}

#[test]
fn seventy_thousand_lines_follow_a_mark(rt: HostRuntime) -> Result<(), Fail> {
    let mut text = Vec::new(rt.alloc());
    text.extend_from_slice(b"\xef\xbb\xbf")?;
    for _ in 0..70_000u32 {
        text.extend_from_slice(b"0.0.0.4\n")?;
    }
    assert!(rt; selects(rt.alloc(), &text, &[(4, 4)]));
    text.extend_from_slice(b"\xef\xbb\xbf0.0.0.4\n")?;
    assert!(rt; bad_line(rt.alloc(), &text) == Some(70_001));
    Ok(())
}
