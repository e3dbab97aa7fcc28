//! The first address of lines, worked out by hand.

use ip_matches::{FoundAddress, first_address};
use std::net::{Ipv4Addr, Ipv6Addr};
use std::test::*;

/// A line, and its first address as a list would have it.
type Row = (&'static str, Option<&'static str>);

/// Lines of logs, and what is like an address in them.
static ROWS: [Row; 47] = [
    // nginx and Apache
    (
        "10.0.0.1 - - [10/Oct/2026:13:55:36 +0000] \"GET / HTTP/1.1\" 200 2326",
        Some("10.0.0.1"),
    ),
    (
        "2001:db8::1 - - [10/Oct/2026:13:55:36 +0000] \"GET / HTTP/1.1\" 200 2326",
        Some("2001:db8::1"),
    ),
    (
        "www.example.com:443 10.0.0.1 - - [10/Oct/2026:13:55:36 +0000] \"GET /\"",
        Some("10.0.0.1"),
    ),
    (
        "2026/10/10 13:55:36 [error] 31#31: *9 open() failed, client: 10.0.0.1, server: _",
        Some("10.0.0.1"),
    ),
    (
        "[Sat Oct 10 13:55:36.123456 2026] [core:error] [pid 7:tid 8] [client 10.0.0.1:52044] no",
        Some("10.0.0.1"),
    ),
    (
        "[Sat Oct 10 13:55:36 2026] [error] [client 2001:db8::1] File does not exist",
        Some("2001:db8::1"),
    ),
    (
        "{\"time\":\"2026-10-10T13:55:36\",\"client\":\"10.0.0.1\",\"status\":200}",
        Some("10.0.0.1"),
    ),
    // syslog
    (
        "Oct 10 13:55:36 host sshd[123]: Failed password for root from 10.0.0.1 port 22 ssh2",
        Some("10.0.0.1"),
    ),
    (
        "Oct 10 13:55:36 host sshd[123]: Received disconnect from 10.0.0.1: 11: Bye",
        Some("10.0.0.1"),
    ),
    (
        "Oct 10 13:55:36 host postfix/smtpd[9]: connect from unknown[2001:db8::1]: ok",
        Some("2001:db8::1"),
    ),
    (
        "Oct 10 13:55:36 host named[9]: client @0x7f2 10.0.0.1#5353 (a.example): query",
        Some("10.0.0.1"),
    ),
    (
        "Oct 10 13:55:36 host dovecot: imap-login: user=<a>, rip=10.0.0.1, lip=192.0.2.1",
        Some("10.0.0.1"),
    ),
    ("Oct 10 13:55:36 host cron[9]: (root) CMD (true)", None),
    // iptables
    (
        "kernel: [9.5] IN=eth0 OUT= MAC=00:16:3e:5e:6c:00:fe:54:00:12:34:56:08:00 SRC=10.0.0.1 DST=192.0.2.1",
        Some("10.0.0.1"),
    ),
    (
        "IN=eth0 SRC=2001:0db8:0000:0000:0000:0000:0000:0001 DST=fe80:0000:0000:0000:0000:0000:0000:0002",
        Some("2001:db8::1"),
    ),
    // ports, brackets, zones, blocks and ranges
    ("10.0.0.1:8080", Some("10.0.0.1")),
    ("[::1]", Some("::1")),
    ("[2001:db8::1]:443", Some("2001:db8::1")),
    ("fe80::1%eth0", Some("fe80::1")),
    ("tcp:10.0.0.1:80", Some("10.0.0.1")),
    ("client=10.0.0.1,", Some("10.0.0.1")),
    ("client:10.0.0.1", Some("10.0.0.1")),
    ("10.0.0.0/8", Some("10.0.0.0")),
    ("10.0.0.1-10.0.0.9", Some("10.0.0.1")),
    ("_10.0.0.1_", Some("10.0.0.1")),
    ("::ffff:10.0.0.1", Some("::ffff:10.0.0.1")),
    ("8.8.8.8 10.0.0.1", Some("8.8.8.8")),
    ("::1 10.0.0.1", Some("::1")),
    ("10.0.0.1 ::1", Some("10.0.0.1")),
    ("1.2.3:10.0.0.1:10.0.0.2", Some("10.0.0.1")),
    ("x\u{e9}10.0.0.1", Some("10.0.0.1")),
    ("::", Some("::")),
    // what is no address
    ("", None),
    (" ", None),
    ("12:30:01", None),
    ("1.2.3", None),
    ("1.2.3.4.5", None),
    ("010.0.0.1", None),
    ("10.0.0.256", None),
    ("10.0.0.1x", None),
    ("x10.0.0.1", None),
    ("4.3.2.1.in-addr.arpa", None),
    ("std::string", None),
    ("10.0.0.1.", None),
    ("2001:db8::1:", None),
    ("1:2:3:4:5:6:7:8:9", None),
    ("aa:bb:cc:dd:ee:ff", None),
];

/// Returns the address that a text writes.
fn address(text: &str) -> Option<FoundAddress> {
    if let Ok(address) = text.parse::<Ipv4Addr>() {
        return Some(FoundAddress::V4(address.to_bits()));
    }
    match text.parse::<Ipv6Addr>() {
        Ok(address) => Some(FoundAddress::V6(address.to_bits())),
        Err(_) => None,
    }
}

/// Returns whether two addresses are the same.
fn is_same(one: Option<FoundAddress>, other: Option<FoundAddress>) -> bool {
    match (one, other) {
        (Some(FoundAddress::V4(one)), Some(FoundAddress::V4(other))) => one == other,
        (Some(FoundAddress::V6(one)), Some(FoundAddress::V6(other))) => one == other,
        (None, None) => true,
        _ => false,
    }
}

#[test]
fn the_first_address_of_a_line_is_found(rt: HostRuntime) {
    for (line, wanted) in &ROWS {
        let wanted = match wanted {
            Some(text) => address(text),
            None => None,
        };
        assert!(rt;
            is_same(first_address(line.as_bytes()), wanted),
            "at {line}"
        );
    }
}
