//! What each command writes, worked out by hand.

use crate::commands::ends::Held;
use ip_commands::{HELP, VERSION, start};
use std::alloc::Global;
use std::process::ExitCode;

/// The files of the rows.
pub(crate) static FILES: [(&str, &[u8]); 9] = [
    (
        "a",
        b"10.0.0.0/30\n10.0.0.4 - 10.0.0.6 # tail\n2001:db8::/127\n",
    ),
    ("b", b"10.0.0.6\r\n;none\n\n10.0.0.7\n2001:db8::2"),
    ("all", b"0.0.0.0/0\n::/0\n"),
    (
        "ends",
        b"0.0.0.0\n255.255.255.255\n::\nffff:ffff:ffff:ffff:ffff:ffff:ffff:ffff\n",
    ),
    ("empty", b""),
    ("odd bits", b"10.1.2.3/8\n2001:db8::1/32\n"),
    ("bad", b"10.0.0.1\n10.0.0\n10.0.0.0/33\n"),
    ("-", b"10.9.8.7\n"),
    ("only v6", b"2001:db8::2\n"),
];

/// A command line, its exit status, and what it writes.
type Row = (&'static [&'static str], u8, &'static str);

/// Commands without a fault.
static ROWS: [Row; 71] = [
    (
        &["union", "a", "b"],
        0,
        "10.0.0.0/29\n2001:db8::/127\n2001:db8::2\n",
    ),
    (
        &["union", "--ranges", "a", "b"],
        0,
        "10.0.0.0-10.0.0.7\n2001:db8::-2001:db8::2\n",
    ),
    (&["-4", "union", "a", "b"], 0, "10.0.0.0/29\n"),
    (
        &["union", "a", "b", "-6"],
        0,
        "2001:db8::/127\n2001:db8::2\n",
    ),
    (&["union", "-4", "-6", "b"], 0, "2001:db8::2\n"),
    (&["union", "-6", "-4", "b"], 0, "10.0.0.6/31\n"),
    (&["union", "-"], 0, "10.9.8.7\n"),
    (&["union", "--", "-"], 0, "10.9.8.7\n"),
    (
        &["union", "--ranges", "--blocks", "-4", "b"],
        0,
        "10.0.0.6/31\n",
    ),
    (
        &["union", "-4", "--ranges", "ends"],
        0,
        "0.0.0.0-0.0.0.0\n255.255.255.255-255.255.255.255\n",
    ),
    (&["union", "all"], 0, "0.0.0.0/0\n::/0\n"),
    (&["union", "empty"], 0, ""),
    (
        &["union", "--", "odd bits"],
        0,
        "10.0.0.0/8\n2001:db8::/32\n",
    ),
    (&["common", "a", "b"], 0, "10.0.0.6\n"),
    (
        &["common", "a"],
        0,
        "10.0.0.0/30\n10.0.0.4/31\n10.0.0.6\n2001:db8::/127\n",
    ),
    (&["common", "all", "a", "b"], 0, "10.0.0.6\n"),
    (
        &["except", "a", "b"],
        0,
        "10.0.0.0/30\n10.0.0.4/31\n2001:db8::/127\n",
    ),
    (&["except", "b", "a", "empty"], 0, "10.0.0.7\n2001:db8::2\n"),
    (&["except", "a", "all"], 0, ""),
    (&["except", "a", "a"], 0, ""),
    (
        &["odd", "-4", "a", "b"],
        0,
        "10.0.0.0/30\n10.0.0.4/31\n10.0.0.7\n",
    ),
    (
        &["odd", "-4", "a", "b", "b"],
        0,
        "10.0.0.0/30\n10.0.0.4/31\n10.0.0.6\n",
    ),
    (&["at-least", "2", "a", "b", "ends"], 0, "10.0.0.6\n"),
    // A list that is named twice counts twice.
    (
        &["at-least", "2", "b", "b"],
        0,
        "10.0.0.6/31\n2001:db8::2\n",
    ),
    (&["at-least", "+2", "-4", "b", "b"], 0, "10.0.0.6/31\n"),
    (&["at-least", "3", "b", "b"], 0, ""),
    (&["at-least", "3", "a", "b"], 0, ""),
    (&["at-least", "0", "empty"], 0, "0.0.0.0/0\n::/0\n"),
    (
        &["complement", "empty", "--ranges", "-4"],
        0,
        "0.0.0.0-255.255.255.255\n",
    ),
    (&["complement", "all"], 0, ""),
    (
        &["complement", "ends", "--ranges", "-6"],
        0,
        "::1-ffff:ffff:ffff:ffff:ffff:ffff:ffff:fffe\n",
    ),
    (
        &["count", "a", "b"],
        0,
        "IPv4 addresses: 8, blocks: 1\nIPv6 addresses: 3, blocks: 2\n",
    ),
    (
        &["count", "a", "a"],
        0,
        "IPv4 addresses: 7, blocks: 3\nIPv6 addresses: 2, blocks: 1\n",
    ),
    (
        &["count", "empty"],
        0,
        "IPv4 addresses: 0, blocks: 0\nIPv6 addresses: 0, blocks: 0\n",
    ),
    (
        &["count", "-4", "empty"],
        0,
        "IPv4 addresses: 0, blocks: 0\n",
    ),
    (
        &["count", "-4", "--ranges", "-6", "ends"],
        0,
        "IPv6 addresses: 2, blocks: 2\n",
    ),
    (
        &["count", "-6", "all"],
        0,
        "IPv6 addresses: 340282366920938463463374607431768211456, blocks: 1\n",
    ),
    (
        &["count", "-4", "all"],
        0,
        "IPv4 addresses: 4294967296, blocks: 1\n",
    ),
    (&["has", "10.0.0.6", "a", "empty", "b"], 0, "a\nb\n"),
    (&["has", "2001:DB8:0::2", "a", "b", "all"], 0, "b\nall\n"),
    (&["has", "10.0.0.6", "a", "empty", "a"], 0, "a\na\n"),
    (&["has", "::ffff:10.0.0.6", "a", "b"], 1, ""),
    (&["has", "10.0.0.8", "a", "b"], 1, ""),
    (
        &["diff", "a", "b"],
        1,
        "-10.0.0.0/30\n-10.0.0.4/31\n-2001:db8::/127\n+10.0.0.7\n+2001:db8::2\n",
    ),
    (
        &["diff", "-6", "--ranges", "a", "b"],
        1,
        "-2001:db8::-2001:db8::1\n+2001:db8::2-2001:db8::2\n",
    ),
    (
        &["diff", "-4", "ends", "empty"],
        1,
        "-0.0.0.0\n-255.255.255.255\n",
    ),
    (&["diff", "empty", "all"], 1, "+0.0.0.0/0\n+::/0\n"),
    (&["diff", "a", "a"], 0, ""),
    (&["diff", "-6", "empty", "-"], 0, ""),
    (&["check", "a", "b", "empty"], 0, ""),
    (
        &["check", "bad", "a", "bad"],
        2,
        "bad:2: not an address, block or range: 10.0.0\n\
         bad:3: a length above 32: 10.0.0.0/33\n\
         bad:2: not an address, block or range: 10.0.0\n\
         bad:3: a length above 32: 10.0.0.0/33\n",
    ),
    (&["union", "--fail-empty", "empty"], 1, ""),
    (&["common", "--fail-empty", "a", "empty"], 1, ""),
    (&["except", "a", "all", "--fail-empty"], 1, ""),
    (&["odd", "--fail-empty", "b", "b"], 1, ""),
    (&["at-least", "--fail-empty", "3", "a", "b"], 1, ""),
    (&["complement", "--fail-empty", "--ranges", "all"], 1, ""),
    // An address in a family that is not written does not count.
    (&["union", "--fail-empty", "-4", "only v6"], 1, ""),
    (&["union", "--fail-empty", "-6", "-"], 1, ""),
    (&["union", "--fail-empty", "only v6"], 0, "2001:db8::2\n"),
    (&["union", "--fail-empty", "-"], 0, "10.9.8.7\n"),
    (&["common", "--fail-empty", "a", "b"], 0, "10.0.0.6\n"),
    (
        &["count", "--fail-empty", "-4", "empty"],
        0,
        "IPv4 addresses: 0, blocks: 0\n",
    ),
    (&["has", "--fail-empty", "10.0.0.6", "a"], 0, "a\n"),
    (&["diff", "--fail-empty", "a", "a"], 0, ""),
    (&["check", "--fail-empty", "empty"], 0, ""),
    (&["-h"], 0, HELP),
    (&["--help"], 0, HELP),
    (&["--help", "union", "-", "-"], 0, HELP),
    (&["--version", "unite", "--help"], 0, HELP),
    (&["union", "--version"], 0, VERSION),
];

/// Whether the program ends with this status, and writes this and no line of a fault.
fn answers(alloc: Global, row: &Row) -> bool {
    let inputs = Held {
        alloc,
        files: &FILES,
        good: usize::MAX,
    };
    let mut output = Vec::new(alloc);
    let mut errors = Vec::new(alloc);
    let code = start(alloc, row.0, &inputs, &mut output, &mut errors);
    code == ExitCode::from(row.1) && output.as_slice() == row.2.as_bytes() && errors.is_empty()
}

#[test]
fn each_command_writes_its_answer(rt: HostRuntime) {
    for row in &ROWS {
        assert!(rt; answers(rt.alloc(), row), "{:?}", row.0);
    }
}
