//! Masks, ranges between blocks, and addresses in brackets.

use crate::sets::bad_lines::is_bad_for;
use ip_sets::{Line, Reason, parse_line, read_list};
use std::alloc::Global;
use std::io::{self, Write};
use std::net::Ipv4Addr;
use std::test::*;

/// Returns whether a line means the IPv4 addresses from the first to the last.
fn is_v4(line: &str, first: u32, last: u32) -> bool {
    match parse_line(line.as_bytes()) {
        Some(Line::V4(range)) => range == (first..=last),
        _ => false,
    }
}

/// Returns whether a line means the IPv6 addresses from the first to the last.
fn is_v6(line: &str, first: u128, last: u128) -> bool {
    match parse_line(line.as_bytes()) {
        Some(Line::V6(range)) => range == (first..=last),
        _ => false,
    }
}

/// Lines with a mask, and their first and last addresses.
static MASKS: [(&str, u32, u32); 9] = [
    ("10.0.0.0/255.0.0.0", 0x0a00_0000, 0x0aff_ffff),
    ("192.0.2.130/255.255.255.128", 0xc000_0280, 0xc000_02ff),
    ("10.0.9.1/255.255.240.0", 0x0a00_0000, 0x0a00_0fff),
    ("128.0.0.1/128.0.0.0", 0x8000_0000, 0xffff_ffff),
    ("1.2.3.4/255.255.255.254", 0x0102_0304, 0x0102_0305),
    ("1.2.3.4/255.255.255.255", 0x0102_0304, 0x0102_0304),
    ("1.2.3.4/0.0.0.0", 0, 0xffff_ffff),
    ("\t10.0.0.0/255.0.0.0 # ten\r", 0x0a00_0000, 0x0aff_ffff),
    ("10.0.0.0/255.255.0.0;", 0x0a00_0000, 0x0a00_ffff),
];

#[test]
fn a_mask_gives_the_length_of_its_ones(rt: HostRuntime) {
    for (line, first, last) in &MASKS {
        assert!(rt; is_v4(line, *first, *last), "at {line:?}");
    }
}

/// The last address with the first 32 bits of 2001:db8::.
const DB8_LAST: u128 = 0x2001_0db8_ffff_ffff_ffff_ffff_ffff_ffff;

/// The first of those addresses.
const DB8: u128 = 0x2001_0db8_0000_0000_0000_0000_0000_0000;

/// Lines with an IPv6 mask, and their first and last addresses.
static V6_MASKS: [(&str, u128, u128); 4] = [
    ("2001:db8::1/ffff:ffff::", DB8, DB8_LAST),
    (
        "::1:5/ffff:ffff:ffff:ffff:ffff:ffff:ffff:0",
        0x1_0000,
        0x1_ffff,
    ),
    ("::5/ffff:ffff:ffff:ffff:ffff:ffff:ffff:ffff", 5, 5),
    ("2001:db8::1/::", 0, u128::MAX),
];

#[test]
fn an_ipv6_mask_gives_the_length_of_its_ones(rt: HostRuntime) {
    for (line, first, last) in &V6_MASKS {
        assert!(rt; is_v6(line, *first, *last), "at {line:?}");
    }
}

/// Ranges with a block at an end, and their first and last addresses.
static SPANS: [(&str, u32, u32); 9] = [
    ("1.2.3.0/24-1.2.4.0/24", 0x0102_0300, 0x0102_04ff),
    ("1.2.3.7/24 - 1.2.4.9", 0x0102_0300, 0x0102_0409),
    ("1.2.3.4\t-1.2.4.0/24", 0x0102_0304, 0x0102_04ff),
    ("1.2.3.0/24-1.2.3.9/25", 0x0102_0300, 0x0102_037f),
    ("1.2.3.128/25-1.2.3.0/24", 0x0102_0380, 0x0102_03ff),
    ("1.2.3.0/24-1.2.3.0", 0x0102_0300, 0x0102_0300),
    ("10.0.0.0/255.0.0.0-11.0.0.0/8", 0x0a00_0000, 0x0bff_ffff),
    ("0.0.0.0/1-128.0.0.0/1", 0, 0xffff_ffff),
    ("1.2.3.4/32-1.2.3.5/32", 0x0102_0304, 0x0102_0305),
];

#[test]
fn a_range_goes_from_the_first_of_a_block_to_the_last_of_another(rt: HostRuntime) {
    for (line, first, last) in &SPANS {
        assert!(rt; is_v4(line, *first, *last), "at {line:?}");
    }
}

/// IPv6 ranges with a block at an end, and their first and last addresses.
static V6_SPANS: [(&str, u128, u128); 3] = [
    ("2001:db8::/32-2001:db8::/32", DB8, DB8_LAST),
    ("::1-::1:0/112", 1, 0x1_ffff),
    (
        "::1:7/ffff:ffff:ffff:ffff:ffff:ffff:ffff:0 - ::2:3",
        0x1_0000,
        0x2_0003,
    ),
];

#[test]
fn ipv6_ranges_have_the_same_ends(rt: HostRuntime) {
    for (line, first, last) in &V6_SPANS {
        assert!(rt; is_v6(line, *first, *last), "at {line:?}");
    }
}

/// IPv6 addresses in brackets.
static BRACKETS: [(&str, u128); 5] = [
    ("[2001:db8::]", DB8),
    ("[::]", 0),
    (" [::1] # one", 1),
    ("[::ffff:1.2.3.4]", 0xffff_0102_0304),
    ("[2001:DB8:0:0:0:0:0:0]\r", DB8),
];

#[test]
fn an_ipv6_address_may_be_in_brackets(rt: HostRuntime) {
    for (line, address) in &BRACKETS {
        assert!(rt; is_v6(line, *address, *address), "at {line:?}");
    }
}

/// Lines that are close to these forms, and why they are bad.
static REASONS: [(&str, Reason); 34] = [
    ("[1.2.3.4]", Reason::Brackets),
    ("[::1", Reason::Brackets),
    ("::1]", Reason::Brackets),
    ("[[::1]]", Reason::Brackets),
    ("[]", Reason::Brackets),
    ("]", Reason::Brackets),
    ("[ ::1 ]", Reason::Brackets),
    ("[::1]:80", Reason::Brackets),
    ("[::1]/64", Reason::Brackets),
    ("[::1]-[::5]", Reason::Brackets),
    ("[fe80::1%1]", Reason::Brackets),
    ("1.2.4.0/24-1.2.3.0/24", Reason::Reversed),
    ("1.2.3.1-1.2.3.0/32", Reason::Reversed),
    ("1.2.3.128/25 - 1.2.3.0/255.255.255.128", Reason::Reversed),
    ("::1:0/112-::ffff", Reason::Reversed),
    ("10.0.0.0/8-::1", Reason::TwoFamilies),
    ("::/128 - 10.0.0.0/255.0.0.0", Reason::TwoFamilies),
    ("10.0.0.0/255.0.255.0", Reason::Mask),
    ("10.0.0.0/0.0.0.255", Reason::Mask),
    ("10.0.0.0/0.0.0.1", Reason::Mask),
    ("10.0.0.0/254.255.0.0", Reason::Mask),
    ("10.0.0.0/127.0.0.0", Reason::Mask),
    ("::/1::", Reason::Mask),
    ("::/ffff::ffff", Reason::Mask),
    ("10.0.0.0/255.0.0.00", Reason::LeadingZero),
    ("10.0.0.0/256.0.0.0", Reason::Above255),
    ("10.0.0.0/ffff::", Reason::Other),
    ("::/255.0.0.0", Reason::Other),
    ("10.0.0.0/255.0.0", Reason::Other),
    ("10.0.0.0/255.0.0.0/8", Reason::Other),
    ("10.0.0.0 255.0.0.0", Reason::Other),
    ("1.2.3.0/24-1.2.4.0/24-1.2.5.0/24", Reason::Other),
    ("1.2.3.0/33-1.2.4.0/24", Reason::Other),
    ("1.2.3.0/24-", Reason::Other),
];

#[test]
fn what_is_close_to_a_form_is_bad(rt: HostRuntime) {
    for (line, reason) in &REASONS {
        assert!(rt; is_bad_for(rt.alloc(), line, *reason), "at {line:?}");
    }
}

/// Writes two lines: a block of four addresses with a mask, and the rest of the eight as a range
/// between two blocks.
fn write_lines(list: &mut Vec<u8>, first: u32) -> io::Result<()> {
    let start = Ipv4Addr::from_bits(first);
    writeln!(list, "{start}/255.255.255.252")?;
    let middle = Ipv4Addr::from_bits(first.saturating_add(4));
    let end = Ipv4Addr::from_bits(first.saturating_add(6));
    writeln!(list, "{middle}/31-{end}/31")
}

/// Returns a list of 70,000 lines that have the first 280,000 addresses.
fn long_text(alloc: Global) -> io::Result<Vec<u8>> {
    let mut text = Vec::new(alloc);
    for place in 0..35_000u32 {
        write_lines(&mut text, place.saturating_mul(8))?;
    }
    Ok(text)
}

#[test]
fn seventy_thousand_lines_of_these_forms_are_read(rt: HostRuntime) -> Result<(), Fail> {
    let text = long_text(rt.alloc())?;
    let mut input = text.as_slice();
    let list = read_list(rt.alloc(), &mut input)?;
    assert!(rt; list.v4.ranges_len() == 1 && list.v4.len() == 280_000);
    assert!(rt; list.v4.contains(279_999) && list.v6.ranges_len() == 0);
    Ok(())
}
