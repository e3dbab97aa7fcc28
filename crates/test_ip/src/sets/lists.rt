//! Lists, and what they select.

use crate::sets::address_set::are;
use ip_sets::{BadLine, ListFault, read_list};
use std::alloc::Global;
use std::io::{self, BufReader, ErrorKind, Read};
use std::test::*;

/// Returns whether a list is read to its end, and selects exactly these addresses.
fn selects(alloc: Global, text: &str, v4: &[(u32, u32)], v6: &[(u128, u128)]) -> bool {
    let mut input = text.as_bytes();
    match read_list(alloc, &mut input) {
        Ok(list) => input.is_empty() && are(&list.v4, v4) && are(&list.v6, v6),
        Err(_) => false,
    }
}

/// Returns the number of the first bad line, or `None` if there is no such line.
fn bad_line(alloc: Global, text: &str) -> Option<u64> {
    let mut input = text.as_bytes();
    match read_list(alloc, &mut input) {
        Err(ListFault::BadLine(bad)) => Some(bad.number),
        _ => None,
    }
}

#[test]
fn a_list_without_addresses_selects_none(rt: HostRuntime) {
    for text in ["", "\n", "\r\n\r\n", "# 1.2.3.4\n;", " \t", "\n\n# \r\n"] {
        assert!(rt; selects(rt.alloc(), text, &[], &[]), "at {text:?}");
    }
}

#[test]
fn lines_may_end_with_a_line_feed(rt: HostRuntime) {
    for text in [
        "0.0.0.4",
        "0.0.0.4\n",
        "0.0.0.4\r\n",
        "0.0.0.4\r",
        "\n0.0.0.4\n\n",
        "0.0.0.4\r\n# 0.0.0.9",
    ] {
        assert!(rt; selects(rt.alloc(), text, &[(4, 4)], &[]), "at {text:?}");
    }
}

#[test]
fn addresses_blocks_and_ranges_are_joined(rt: HostRuntime) {
    for text in [
        "0.0.0.4\n0.0.0.5\n0.0.0.6\n0.0.0.7\n0.0.0.9\n",
        "0.0.0.9\r\n0.0.0.5/30\r\n",
        "0.0.0.5-0.0.0.7\n0.0.0.4 - 0.0.0.6\n0.0.0.9",
        "0.0.0.9\n0.0.0.4/30 # four\n0.0.0.6\n",
    ] {
        assert!(rt;
            selects(rt.alloc(), text, &[(4, 7), (9, 9)], &[]),
            "at {text:?}"
        );
    }
}

#[test]
fn each_family_has_a_set(rt: HostRuntime) {
    let mixed = "::2/127\n0.0.0.1\n::1\n0.0.0.3-0.0.0.4\n::ff-::1:0\n";
    assert!(rt;
        selects(
            rt.alloc(),
            mixed,
            &[(1, 1), (3, 4)],
            &[(1, 3), (0xff, 0x1_0000)]
        )
    );
    let all = "0.0.0.0/0\n::/0\n";
    assert!(rt; selects(rt.alloc(), all, &[(0, u32::MAX)], &[(0, u128::MAX)]));
}

#[test]
fn bad_lines_are_counted_from_1(rt: HostRuntime) {
    for (text, number) in [
        ("x", 1),
        ("0.0.0.1\nx\n", 2),
        ("0.0.0.1\r\n\r\nx\r\ny", 3),
        ("\n# a comment\n\n0.0.0.1/33", 4),
        ("::1\n0.0.0.2-0.0.0.1\n", 2),
    ] {
        assert_eq!(rt; bad_line(rt.alloc(), text), Some(number), "at {text:?}");
    }
}

#[test]
fn nothing_is_read_past_a_bad_line(rt: HostRuntime) {
    let mut input = "0.0.0.1\nx\n0.0.0.2\n".as_bytes();
    assert!(rt; read_list(rt.alloc(), &mut input).is_err());
    assert_eq!(rt; input.len(), 8);
}

#[test]
fn a_line_may_cross_parts_of_the_input(rt: HostRuntime) -> Result<(), Fail> {
    let text = "0.0.0.4\n0.0.0.5-0.0.0.6\r\n\n::1 # a comment\n0.0.0.9";
    for capacity in 1..64usize {
        let mut input = BufReader::with_capacity(rt.alloc(), capacity, text.as_bytes())?;
        match read_list(rt.alloc(), &mut input) {
            Ok(list) => {
                assert!(rt; are(&list.v4, &[(4, 6), (9, 9)]), "at {capacity}");
                assert!(rt; are(&list.v6, &[(1, 1)]), "at {capacity}");
            }
            Err(_) => assert!(rt; false, "at {capacity}"),
        }
    }
    Ok(())
}

#[test]
fn bad_lines_are_counted_over_parts_of_the_input(rt: HostRuntime) -> Result<(), Fail> {
    let text = "0.0.0.4\n0.0.0.5\n\nx\n0.0.0.9\n";
    for capacity in 1..32usize {
        let mut input = BufReader::with_capacity(rt.alloc(), capacity, text.as_bytes())?;
        assert!(rt;
            matches!(
                read_list(rt.alloc(), &mut input),
                Err(ListFault::BadLine(BadLine { number: 4, .. }))
            ),
            "at {capacity}"
        );
    }
    Ok(())
}

/// A reader that is interrupted before each read.
#[derive(Drop)]
struct Interrupted<'a> {
    bytes: &'a [u8],
    was_interrupted: bool,
}

impl<'a> Read for Interrupted<'a> {
    fn read(&mut self, buffer: &mut [u8]) -> io::Result<usize> {
        self.was_interrupted = !self.was_interrupted;
        if self.was_interrupted {
            return Err(io::Error::from(ErrorKind::Interrupted));
        }
        self.bytes.read(buffer)
    }
}

#[test]
fn an_interrupted_read_is_tried_again(rt: HostRuntime) -> Result<(), Fail> {
    let reader = Interrupted {
        bytes: b"0.0.0.4\n0.0.0.5\n",
        was_interrupted: false,
    };
    let mut input = BufReader::with_capacity(rt.alloc(), 10, reader)?;
    match read_list(rt.alloc(), &mut input) {
        Ok(list) => assert!(rt; are(&list.v4, &[(4, 5)])),
        Err(_) => assert!(rt; false),
    }
    Ok(())
}

/// A reader that always fails.
#[derive(Drop)]
struct Failing(ErrorKind);

impl Read for Failing {
    fn read(&mut self, _buffer: &mut [u8]) -> io::Result<usize> {
        Err(io::Error::from(self.0))
    }
}

#[test]
fn a_failed_read_is_reported_as_it_is(rt: HostRuntime) -> Result<(), Fail> {
    let mut input = BufReader::new(rt.alloc(), Failing(ErrorKind::PermissionDenied))?;
    match read_list(rt.alloc(), &mut input) {
        Err(ListFault::Io(error)) => {
            assert!(rt; error.kind() == ErrorKind::PermissionDenied);
        }
        _ => assert!(rt; false),
    }
    Ok(())
}

#[test]
fn a_failed_allocation_in_a_read_is_no_memory(rt: HostRuntime) -> Result<(), Fail> {
    let mut input = BufReader::new(rt.alloc(), Failing(ErrorKind::OutOfMemory))?;
    assert!(rt; matches!(read_list(rt.alloc(), &mut input), Err(ListFault::NoMemory)));
    Ok(())
}
