//! Texts of 70,000 lines, and lines of 100,000 bytes.

use crate::lines::kept::lists;
use ip_matches::{LineFilter, count_kept_lines, write_kept_lines};
use std::alloc::Global;
use std::io::{self, BufReader, Write};
use std::net::Ipv4Addr;
use std::test::*;

/// Returns a text of 70,000 lines. The address of a line is in the lists if its number is a multiple
/// of 16.
fn long_text(alloc: Global) -> io::Result<Vec<u8>> {
    let mut text = Vec::new(alloc);
    for number in 0..70_000u32 {
        let first = 10 + (number % 16) as u8;
        let [_, b, c, d] = Ipv4Addr::from_bits(number).octets();
        let address = Ipv4Addr::new(first, b, c, d);
        writeln!(text, "{number} {address}")?;
    }
    Ok(text)
}

/// Returns the lines of that text that the lists have.
fn kept_text(alloc: Global) -> io::Result<Vec<u8>> {
    let mut text = Vec::new(alloc);
    for place in 0..4375u32 {
        let number = place.saturating_mul(16);
        let [_, b, c, d] = Ipv4Addr::from_bits(number).octets();
        let address = Ipv4Addr::new(10, b, c, d);
        writeln!(text, "{number} {address}")?;
    }
    Ok(text)
}

#[test]
fn seventy_thousand_lines_are_read(rt: HostRuntime) -> Result<(), Fail> {
    let lists = lists(rt.alloc())?;
    let text = long_text(rt.alloc())?;
    let wanted = kept_text(rt.alloc())?;
    let filter = LineFilter {
        lists: &lists,
        field: None,
        inverts: false,
    };
    let mut input = BufReader::with_capacity(rt.alloc(), 65_536, text.as_slice())?;
    let mut kept = Vec::new(rt.alloc());
    let written = write_kept_lines(rt.alloc(), &filter, &mut input, &mut kept);
    assert!(rt; matches!(written, Ok(4375)));
    assert!(rt; kept.as_slice() == wanted.as_slice());
    let others = LineFilter {
        lists: &lists,
        field: Some(1),
        inverts: true,
    };
    let mut input = text.as_slice();
    let counted = count_kept_lines(rt.alloc(), &others, &mut input);
    assert!(rt; matches!(counted, Ok(65_625)));
    Ok(())
}

/// Adds a line of 100,000 bytes with an address in the middle.
fn add_long_line(text: &mut Vec<u8>, address: &str) -> io::Result<()> {
    for _ in 0..12_500u32 {
        write!(text, "1.2.3.x ")?;
    }
    write!(text, "{address} ")?;
    for _ in 0..12_500u32 {
        write!(text, "1.2.3.x ")?;
    }
    writeln!(text)
}

#[test]
fn long_lines_are_kept_whole(rt: HostRuntime) -> Result<(), Fail> {
    let lists = lists(rt.alloc())?;
    let filter = LineFilter {
        lists: &lists,
        field: None,
        inverts: false,
    };
    let mut wanted = Vec::new(rt.alloc());
    writeln!(wanted, "10.0.0.1 before")?;
    add_long_line(&mut wanted, "10.0.0.2")?;
    add_long_line(&mut wanted, "2001:db8::1")?;
    writeln!(wanted, "10.0.0.1 after")?;
    let mut text = Vec::new(rt.alloc());
    add_long_line(&mut text, "11.0.0.2")?;
    text.extend_from_slice(&wanted)?;
    let mut input = BufReader::with_capacity(rt.alloc(), 65_536, text.as_slice())?;
    let mut kept = Vec::new(rt.alloc());
    let written = write_kept_lines(rt.alloc(), &filter, &mut input, &mut kept);
    assert!(rt; matches!(written, Ok(4)));
    assert!(rt; kept.as_slice() == wanted.as_slice());
    Ok(())
}
