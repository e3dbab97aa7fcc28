//! Lists of 70,000 lines, more than 16 bits can count.

use crate::sets::many_runs::of_each_eight;
use crate::sets::operations::is_selected;
use ip_sets::{ListFault, read_list};
use std::alloc::Global;
use std::io::{self, Write};
use std::net::{Ipv4Addr, Ipv6Addr};
use std::test::*;

/// Writes two lines: a range of three IPv4 addresses, and one of three IPv6 addresses.
fn write_lines(list: &mut Vec<u8>, first: u32) -> io::Result<()> {
    let last = first.saturating_add(2);
    let (start, end) = (Ipv4Addr::from_bits(first), Ipv4Addr::from_bits(last));
    writeln!(list, "{start}-{end}")?;
    let start = Ipv6Addr::from_bits(u128::from(first));
    let end = Ipv6Addr::from_bits(u128::from(last));
    writeln!(list, "{start}-{end}")
}

/// Returns a list of 70,000 lines. The ranges of each family start at 0 and at every eighth address
/// after it.
fn long_text(alloc: Global) -> io::Result<Vec<u8>> {
    let mut text = Vec::new(alloc);
    for place in 0..35_000u32 {
        write_lines(&mut text, place.saturating_mul(8))?;
    }
    Ok(text)
}

#[test]
fn seventy_thousand_lines_are_read(rt: HostRuntime) -> Result<(), Fail> {
    let text = long_text(rt.alloc())?;
    let mut input = text.as_slice();
    let list = read_list(rt.alloc(), &mut input)?;
    let wanted = of_each_eight(rt.alloc(), 35_000, &[(0, 2)])?;
    assert!(rt; is_selected(rt.alloc(), &list, &wanted)?);
    assert!(rt; list.v4.len() == 105_000);
    assert!(rt; list.v4.contains(279_994) && !list.v4.contains(279_995));
    assert!(rt; list.v6.contains(279_994) && !list.v6.contains(279_995));
    Ok(())
}

/// Returns the number of the first bad line of a list, or `None` if there is no such line.
fn bad_line(alloc: Global, text: &[u8]) -> Option<u64> {
    let mut input = text;
    match read_list(alloc, &mut input) {
        Err(ListFault::BadLine(bad)) => Some(bad.number),
        _ => None,
    }
}

#[test]
fn a_bad_line_after_many_is_counted(rt: HostRuntime) -> Result<(), Fail> {
    let mut text = long_text(rt.alloc())?;
    text.extend_from_slice(b"# a comment\n\n10.0.0.256\n::x\n")?;
    assert!(rt; bad_line(rt.alloc(), &text) == Some(70_003));
    Ok(())
}
