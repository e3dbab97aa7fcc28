//! Bad lines, and what is reported of them.

use crate::sets::address_set::are;
use ip_sets::{BadLine, ListFault, Reason, read_list, read_list_past_bad_lines};
use std::alloc::{AllocError, Global};
use std::io::{self, BufReader, Write};
use std::test::*;

/// Returns the report of the first bad line of a list, or `None` if there is no such line.
fn report(alloc: Global, text: &[u8]) -> Option<BadLine> {
    let mut input = text;
    match read_list(alloc, &mut input) {
        Err(ListFault::BadLine(bad)) => Some(bad),
        _ => None,
    }
}

/// Bad lines, and why they are bad.
static REASONS: [(&str, Reason); 42] = [
    ("[2001:db8::1]:80", Reason::Brackets),
    ("[1.2.3.4]:80", Reason::Brackets),
    ("fe80::1%eth0", Reason::Zone),
    ("1.2.3.4%1", Reason::Zone),
    ("1.2.3.4-1.2.3.3", Reason::Reversed),
    ("1.2.3.4 -\t1.2.3.3", Reason::Reversed),
    ("::2-::1", Reason::Reversed),
    ("1.2.3.4-::1", Reason::TwoFamilies),
    ("::1 - 1.2.3.4", Reason::TwoFamilies),
    ("1.2.3.4/33", Reason::LongV4),
    ("1.2.3.4/033", Reason::LongV4),
    ("1.2.3.4/4294967304", Reason::LongV4),
    ("::/129", Reason::LongV6),
    ("::/99999999999999999999", Reason::LongV6),
    ("10.0.0.0/255.0.255.0", Reason::Mask),
    ("010.0.0.1", Reason::LeadingZero),
    ("10.0.0.00", Reason::LeadingZero),
    ("10.0.0.0/08", Reason::LeadingZero),
    ("10.0.0.1-10.0.0.02", Reason::LeadingZero),
    ("010.0.0.256", Reason::LeadingZero),
    ("300.1.2.3", Reason::Above255),
    ("10.0.0.256/8", Reason::Above255),
    ("10.0.0.1-10.0.0.1000", Reason::Above255),
    ("99999999999999999999.0.0.1", Reason::Above255),
    ("localhost", Reason::Name),
    ("mail-1.example.com", Reason::Name),
    ("_dmarc.example.com", Reason::Name),
    ("0x0a.0.0.1", Reason::Name),
    ("1.2.3", Reason::Other),
    ("1.2.3.4.5", Reason::Other),
    ("1.2.3.4/", Reason::Other),
    ("1.2.3.4/+8", Reason::Other),
    ("1.2.3.4/8/8", Reason::Other),
    ("1.2.3.4 1.2.3.5", Reason::Other),
    ("1.2.3.4,1.2.3.5", Reason::Other),
    ("1.2.3.0/24-1.2.4.0/24-1.2.5.0", Reason::Other),
    ("1.2.3.4-1.2.3.5-1.2.3.6", Reason::Other),
    ("::g", Reason::Other),
    ("1::2::3", Reason::Other),
    ("::010.0.0.1", Reason::Other),
    ("http://example.com", Reason::Other),
    ("?", Reason::Other),
];

/// Whether a line is bad for a reason.
pub(crate) fn is_bad_for(alloc: Global, line: &str, reason: Reason) -> bool {
    match report(alloc, line.as_bytes()) {
        Some(bad) => bad.number == 1 && bad.reason == reason,
        None => false,
    }
}

#[test]
fn each_bad_line_has_its_reason(rt: HostRuntime) {
    for (line, reason) in &REASONS {
        assert!(rt; is_bad_for(rt.alloc(), line, *reason), "at {line:?}");
    }
}

/// Bad lines, and what is shown of them.
static SHOWN: [(&[u8], &str); 8] = [
    (b"?", "?"),
    (b" \t? ! # tail", "? !"),
    (b"a\x1b[31mb\x7f;", "a\\x1b[31mb\\x7f"),
    (b"\\x1b", "\\x5cx1b"),
    (b"caf\xc3\xa9\0", "caf\\xc3\\xa9\\x00"),
    (
        b"123456789012345678901234567890123456789012345678901234567890",
        "123456789012345678901234567890123456789012345678901234567890",
    ),
    (
        b"1234567890123456789012345678901234567890123456789012345678901",
        "123456789012345678901234567890123456789012345678901234567890...",
    ),
    (b" \xef\xbb\xbf10.0.0.1\r", "\\xef\\xbb\\xbf10.0.0.1"),
];

/// Whether this is shown of a line.
fn is_shown(alloc: Global, line: &[u8], shown: &str) -> Result<bool, AllocError> {
    let Some(bad) = report(alloc, line) else {
        return Ok(false);
    };
    let text = bad.text;
    Ok(format!(in alloc; "{text}")?.as_str() == shown)
}

#[test]
fn each_bad_line_is_shown_in_ascii(rt: HostRuntime) -> Result<(), Fail> {
    for (line, shown) in &SHOWN {
        assert!(rt; is_shown(rt.alloc(), *line, *shown)?, "at {shown:?}");
    }
    Ok(())
}

/// A list with bad lines.
const TEXT: &str = "0.0.0.4\nx\n0.0.0.5 # five\n1.2.3\r\n::1\n300.0.0.0";

/// What is told of its bad lines.
const TOLD: &str = "bad lines:\n\
    it:2: a name, not an address: x\n\
    it:4: not an address, block or range: 1.2.3\n\
    it:6: a number above 255: 300.0.0.0\n";

#[test]
fn a_list_is_read_past_its_bad_lines(rt: HostRuntime) -> Result<(), Fail> {
    for capacity in 1..64usize {
        let mut told = Vec::new(rt.alloc());
        told.extend_from_slice(b"bad lines:\n")?;
        let mut input = BufReader::with_capacity(rt.alloc(), capacity, TEXT.as_bytes())?;
        match read_list_past_bad_lines(rt.alloc(), &mut input, "it", &mut told) {
            Ok(list) => {
                assert!(rt; are(&list.v4, &[(4, 5)]), "at {capacity}");
                assert!(rt; are(&list.v6, &[(1, 1)]), "at {capacity}");
                assert!(rt; told.as_slice() == TOLD.as_bytes(), "at {capacity}");
            }
            Err(_) => assert!(rt; false, "at {capacity}"),
        }
    }
    Ok(())
}

/// Returns a list of 70,000 lines, of which each second one is bad.
fn long_text(alloc: Global) -> io::Result<Vec<u8>> {
    let mut text = Vec::new(alloc);
    for _ in 0..35_000u32 {
        writeln!(text, "0.0.0.4")?;
        writeln!(text, "0.0.0.4/33")?;
    }
    Ok(text)
}

#[test]
fn tens_of_thousands_of_bad_lines_are_told(rt: HostRuntime) -> Result<(), Fail> {
    let text = long_text(rt.alloc())?;
    let mut input = text.as_slice();
    let mut told = Vec::new(rt.alloc());
    let list = read_list_past_bad_lines(rt.alloc(), &mut input, "it", &mut told)?;
    assert!(rt; are(&list.v4, &[(4, 4)]));
    let lines = told.iter().filter(|byte| **byte == b'\n').count();
    assert!(rt; lines == 35_000);
    assert!(rt; told.ends_with(b"it:70000: a length above 32: 0.0.0.4/33\n"));
    Ok(())
}
