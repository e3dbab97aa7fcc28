//! Lines of more than 100,000 bytes.

use ip_sets::{AddressList, BadLine, ListFault, read_list};
use std::alloc::{AllocError, Global};
use std::io::BufReader;
use std::test::*;

/// Returns 100,000 copies of a byte between two texts.
fn long_line(alloc: Global, before: &str, byte: u8, after: &str) -> Result<Vec<u8>, AllocError> {
    let mut line = Vec::new(alloc);
    line.extend_from_slice(before.as_bytes())?;
    line.resize(line.len().saturating_add(100_000), byte)?;
    line.extend_from_slice(after.as_bytes())?;
    Ok(line)
}

/// Whether a list selects exactly the address 0.0.0.4.
fn is_four(list: &AddressList) -> bool {
    list.v4.len() == 1 && list.v4.contains(4) && list.v6.ranges_len() == 0
}

/// Lists whose long line is good, and that select 0.0.0.4: what comes before and after the many
/// copies of a byte.
static GOOD: [(&str, u8, &str); 5] = [
    ("0.0.0.4 # ", b'x', "\n"),
    ("#", b'#', "\n0.0.0.4"),
    ("0.0.0.4;", b' ', ""),
    ("", b' ', "0.0.0.4\r\n"),
    ("0.0.0.4", b'\t', "- \x0c0.0.0.4\n"),
];

#[test]
fn long_comments_and_white_space_do_not_count(rt: HostRuntime) -> Result<(), Fail> {
    for (before, byte, after) in &GOOD {
        let text = long_line(rt.alloc(), before, *byte, after)?;
        let mut input = text.as_slice();
        let list = read_list(rt.alloc(), &mut input)?;
        assert!(rt; is_four(&list), "at {before:?}");
    }
    Ok(())
}

/// Lists whose second line is long and bad: what comes before and after the many copies of a byte.
static BAD: [(&str, u8, &str); 6] = [
    ("0.0.0.4\n", b'x', "\n"),
    ("0.0.0.4\n0.0.0.", b'0', "4\n"),
    ("0.0.0.4\n0.0.0.4/3", b'2', ""),
    ("0.0.0.4\n::", b'0', "4"),
    ("0.0.0.4\n0.0.0.4", b'-', "0.0.0.5\n"),
    ("0.0.0.4\n", b' ', "4 # four\n"),
];

#[test]
fn long_bad_lines_are_counted(rt: HostRuntime) -> Result<(), Fail> {
    for (before, byte, after) in &BAD {
        let text = long_line(rt.alloc(), before, *byte, after)?;
        let mut input = text.as_slice();
        let result = read_list(rt.alloc(), &mut input);
        assert!(rt;
            matches!(result, Err(ListFault::BadLine(BadLine { number: 2, .. }))),
            "at {before:?}"
        );
    }
    Ok(())
}

#[test]
fn a_long_line_is_read_in_parts(rt: HostRuntime) -> Result<(), Fail> {
    let text = long_line(rt.alloc(), "", b' ', "0.0.0.4 # the only one\n")?;
    let mut input = BufReader::with_capacity(rt.alloc(), 7, text.as_slice())?;
    assert!(rt; is_four(&read_list(rt.alloc(), &mut input)?));
    Ok(())
}
