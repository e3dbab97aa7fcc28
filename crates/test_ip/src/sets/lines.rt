//! Lines, and what they mean.

use ip_sets::{Line, parse_line};
use std::test::*;

/// Returns the first and the last address of a line of IPv4 addresses.
fn v4(line: &str) -> Option<(u32, u32)> {
    match parse_line(line.as_bytes()) {
        Some(Line::V4(range)) => Some(range.into_inner()),
        _ => None,
    }
}

/// Returns the first and the last address of a line of IPv6 addresses.
fn v6(line: &str) -> Option<(u128, u128)> {
    match parse_line(line.as_bytes()) {
        Some(Line::V6(range)) => Some(range.into_inner()),
        _ => None,
    }
}

/// Returns whether the line is good and gives no address.
fn is_nothing(line: &str) -> bool {
    matches!(parse_line(line.as_bytes()), Some(Line::Nothing))
}

/// Returns whether the line is bad.
fn is_bad(line: &str) -> bool {
    parse_line(line.as_bytes()).is_none()
}

#[test]
fn an_address_is_a_range_of_one(rt: HostRuntime) {
    for (line, address) in [
        ("1.2.3.4", 0x0102_0304),
        ("0.0.0.0", 0),
        ("255.255.255.255", 0xffff_ffff),
    ] {
        assert_eq!(rt; v4(line), Some((address, address)), "at {line}");
    }
}

#[test]
fn a_block_has_all_addresses_with_its_first_bits(rt: HostRuntime) {
    for (line, first, last) in [
        ("10.0.0.0/8", 0x0a00_0000, 0x0aff_ffff),
        ("192.0.2.130/25", 0xc000_0280, 0xc000_02ff),
        ("1.2.3.4/32", 0x0102_0304, 0x0102_0304),
        ("1.2.3.4/31", 0x0102_0304, 0x0102_0305),
        ("128.0.0.1/1", 0x8000_0000, 0xffff_ffff),
        ("1.2.3.4/0", 0, 0xffff_ffff),
    ] {
        assert_eq!(rt; v4(line), Some((first, last)), "at {line}");
    }
}

#[test]
fn a_range_goes_from_its_first_address_to_its_last(rt: HostRuntime) {
    for (line, first, last) in [
        ("1.2.3.4-1.2.3.9", 0x0102_0304, 0x0102_0309),
        ("1.2.3.4 - 1.2.3.9", 0x0102_0304, 0x0102_0309),
        ("1.2.3.4\t-1.2.3.4", 0x0102_0304, 0x0102_0304),
        ("0.0.0.0-255.255.255.255", 0, 0xffff_ffff),
    ] {
        assert_eq!(rt; v4(line), Some((first, last)), "at {line}");
    }
}

#[test]
fn blanks_and_comments_around_an_address_do_not_count(rt: HostRuntime) {
    for line in [
        "  1.2.3.4",
        "1.2.3.4\t ",
        "1.2.3.4\r",
        "1.2.3.4# 5.6.7.8",
        "1.2.3.4 ; five",
        " 1.2.3.4 #\r",
    ] {
        assert_eq!(rt; v4(line), Some((0x0102_0304, 0x0102_0304)), "at {line}");
    }
}

#[test]
fn a_blank_line_gives_no_address(rt: HostRuntime) {
    for line in ["", " \t", "\r", "# 1.2.3.4", "  ;", "#;#"] {
        assert!(rt; is_nothing(line), "at {line}");
    }
}

#[test]
fn a_fault_makes_a_line_bad(rt: HostRuntime) {
    for line in [
        "256.0.0.0",
        "1.2.3",
        "1.2.3.4.5",
        "01.2.3.4",
        "1.2.3.4/33",
        "1.2.3.4/",
        "1.2.3.4/08",
        "1.2.3.4/+8",
        "1.2.3.4/8/8",
        "1.2.3.4 /8",
        "1.2.3.4-1.2.3.3",
        "1.2.3.4-",
        "-1.2.3.4",
        "1.2.3.4-1.2.3.5-1.2.3.6",
        "1.2.3.4 five",
        "1.2.3.4 1.2.3.5",
        "1.2.3.4-::1",
        "::1-1.2.3.4",
        "one",
    ] {
        assert!(rt; is_bad(line), "at {line}");
    }
}

#[test]
fn ipv6_lines_have_the_same_forms(rt: HostRuntime) {
    for (line, first, last) in [
        ("::", 0, 0),
        ("::1", 1, 1),
        ("2001:DB8:0:0:8:800:200C:417A", TYPICAL, TYPICAL),
        ("2001:db8::8:800:200c:417a # a comment\r", TYPICAL, TYPICAL),
        ("::ffff:1.2.3.4", 0xffff_0102_0304, 0xffff_0102_0304),
        ("::fffe-::1:2", 0xfffe, 0x1_0002),
        ("::1:ffff/112", 0x1_0000, 0x1_ffff),
        ("::5/128", 5, 5),
        ("2001:db8::1/0", 0, u128::MAX),
    ] {
        assert_eq!(rt; v6(line), Some((first, last)), "at {line}");
    }
}

/// 2001:db8::8:800:200c:417a, from RFC 4291.
const TYPICAL: u128 = 0x2001_0db8_0000_0000_0008_0800_200c_417a;

#[test]
fn a_fault_makes_an_ipv6_line_bad(rt: HostRuntime) {
    for line in [
        ":",
        ":::",
        "1::2::3",
        "12345::",
        "1:2:3:4:5:6:7",
        "1:2:3:4:5:6:7:8:9",
        "::/129",
        "::2-::1",
        "::1.2.3",
        "fe80::1%1",
    ] {
        assert!(rt; is_bad(line), "at {line}");
    }
}
