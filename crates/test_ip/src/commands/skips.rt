//! `--skip-bad`: what is written past bad lines, and what is told of them, worked out by hand.

use crate::commands::answers::FILES;
use crate::commands::ends::{Filling, Held};
use ip_commands::{HELP, start};
use std::alloc::Global;
use std::io::{self, ErrorKind, Write};
use std::process::ExitCode;

/// What is told of `bad`.
const BAD: &str =
    "bad:2: not an address, block or range: 10.0.0\nbad:3: a length above 32: 10.0.0.0/33\n";

/// What is told of `bad` twice.
const TWICE: &str = "\
bad:2: not an address, block or range: 10.0.0
bad:3: a length above 32: 10.0.0.0/33
bad:2: not an address, block or range: 10.0.0
bad:3: a length above 32: 10.0.0.0/33
";

/// What is told of `bad` and of a file that is not there.
const NOT_FOUND: &str = "\
bad:2: not an address, block or range: 10.0.0
bad:3: a length above 32: 10.0.0.0/33
none: entity not found
";

/// What is told of `bad` and of an output that is full.
const FULL: &[u8] = b"\
bad:2: not an address, block or range: 10.0.0
bad:3: a length above 32: 10.0.0.0/33
output: no storage space
";

/// A command line, its exit status, what it writes, and what it tells on standard error.
type Row = (&'static [&'static str], u8, &'static str, &'static str);

static ROWS: [Row; 17] = [
    (&["union", "--skip-bad", "bad"], 2, "10.0.0.1\n", BAD),
    (
        &["union", "--skip-bad", "a", "b"],
        0,
        "10.0.0.0/29\n2001:db8::/127\n2001:db8::2\n",
        "",
    ),
    (
        &["--skip-bad", "common", "bad", "a", "bad"],
        2,
        "10.0.0.1\n",
        TWICE,
    ),
    (&["except", "--skip-bad", "bad", "a"], 2, "", BAD),
    (&["odd", "--skip-bad", "-4", "bad", "bad"], 2, "", TWICE),
    (
        &["at-least", "--skip-bad", "2", "bad", "a"],
        2,
        "10.0.0.1\n",
        BAD,
    ),
    (
        &["complement", "--skip-bad", "-4", "--ranges", "bad"],
        2,
        "0.0.0.0-10.0.0.0\n10.0.0.2-255.255.255.255\n",
        BAD,
    ),
    (&["union", "--skip-bad", "--fail-empty", "empty"], 1, "", ""),
    (
        &["except", "--skip-bad", "--fail-empty", "bad", "a"],
        2,
        "",
        BAD,
    ),
    (
        &["count", "--skip-bad", "-4", "bad"],
        2,
        "IPv4 addresses: 1, blocks: 1\n",
        BAD,
    ),
    (
        &["has", "--skip-bad", "10.0.0.1", "a", "bad"],
        2,
        "a\nbad\n",
        BAD,
    ),
    (&["has", "--skip-bad", "10.0.0.8", "bad"], 2, "", BAD),
    (
        &["diff", "--skip-bad", "bad", "empty"],
        2,
        "-10.0.0.1\n",
        BAD,
    ),
    (
        &["diff", "--skip-bad", "empty", "bad"],
        2,
        "+10.0.0.1\n",
        BAD,
    ),
    (&["check", "--skip-bad", "bad"], 2, BAD, ""),
    (&["union", "--skip-bad", "bad", "none"], 4, "", NOT_FOUND),
    (&["--help", "--skip-bad"], 0, HELP, ""),
];

/// Whether the program ends with this status, writes this and tells this.
fn skips(alloc: Global, row: &Row) -> bool {
    let inputs = Held {
        alloc,
        files: &FILES,
        good: usize::MAX,
    };
    let mut output = Vec::new(alloc);
    let mut errors = Vec::new(alloc);
    let code = start(alloc, row.0, &inputs, &mut output, &mut errors);
    code == ExitCode::from(row.1)
        && output.as_slice() == row.2.as_bytes()
        && errors.as_slice() == row.3.as_bytes()
}

#[test]
fn bad_lines_are_passed_over_and_told(rt: HostRuntime) {
    for row in &ROWS {
        assert!(rt; skips(rt.alloc(), row), "{:?}", row.0);
    }
}

/// Whether the answer is written and the status is the same if only some bytes can be told.
fn answers_untold(alloc: Global, room: usize) -> bool {
    let inputs = Held {
        alloc,
        files: &FILES,
        good: usize::MAX,
    };
    let words: &[&str] = &["union", "--skip-bad", "bad"];
    let mut output = Vec::new(alloc);
    let mut errors = Filling {
        taken: Vec::new(alloc),
        room,
    };
    let code = start(alloc, words, &inputs, &mut output, &mut errors);
    code == ExitCode::from(2)
        && output.as_slice() == b"10.0.0.1\n".as_slice()
        && errors.taken.len() == room
        && BAD.as_bytes().starts_with(&errors.taken)
}

#[test]
fn reports_that_cannot_be_written_keep_the_answer(rt: HostRuntime) {
    for room in 0..BAD.len() {
        assert!(rt; answers_untold(rt.alloc(), room), "after {room} bytes");
    }
}

/// A writer whose writes all fail.
#[derive(Drop)]
struct Closed(ErrorKind);

impl Write for Closed {
    fn write(&mut self, _buf: &[u8]) -> io::Result<usize> {
        Err(io::Error::from(self.0))
    }

    fn flush(&mut self) -> io::Result<()> {
        Ok(())
    }
}

/// Whether bad lines are told, and then this, if all writes fail with an error of a kind.
fn tells_first(alloc: Global, kind: ErrorKind, status: u8, told: &[u8]) -> bool {
    let inputs = Held {
        alloc,
        files: &FILES,
        good: usize::MAX,
    };
    let words: &[&str] = &["union", "--skip-bad", "bad"];
    let mut errors = Vec::new(alloc);
    let code = start(alloc, words, &inputs, &mut Closed(kind), &mut errors);
    code == ExitCode::from(status) && errors.as_slice() == told
}

#[test]
fn bad_lines_are_told_before_a_failed_write(rt: HostRuntime) {
    assert!(rt; tells_first(rt.alloc(), ErrorKind::StorageFull, 4, FULL));
    assert!(rt; tells_first(rt.alloc(), ErrorKind::BrokenPipe, 0, BAD.as_bytes()));
}

/// How many bad lines a list has, each before a good one.
const BAD_LINES: usize = 50_000;

/// Returns such a list.
fn alternating(alloc: Global) -> io::Result<Vec<u8>> {
    let mut text = Vec::new(alloc);
    for number in 0..BAD_LINES {
        writeln!(
            text,
            "line {number}\n10.0.{}.{}",
            number / 256,
            number % 256
        )?;
    }
    Ok(text)
}

/// Whether each bad line of such a list is told, and each good one counts.
fn tells_each(alloc: Global, text: &[u8]) -> Option<bool> {
    let mut files = Vec::new(alloc);
    files.push(("a", text)).ok()?;
    let inputs = Held {
        alloc,
        files: &files,
        good: usize::MAX,
    };
    let words: &[&str] = &["count", "--skip-bad", "-4", "a"];
    let mut output = Vec::new(alloc);
    let mut errors = Vec::new(alloc);
    let code = start(alloc, words, &inputs, &mut output, &mut errors);
    let lines = errors.iter().filter(|byte| **byte == b'\n').count();
    let is_last = errors.ends_with(b"a:99999: not an address, block or range: line 49999\n");
    Some(code == ExitCode::from(2) && lines == BAD_LINES && is_last && !output.is_empty())
}

#[test]
fn fifty_thousand_bad_lines_are_told(rt: HostRuntime) {
    let text = alternating(rt.alloc());
    assert!(rt; matches!(text, Ok(_)));
    if let Ok(text) = text {
        assert!(rt; tells_each(rt.alloc(), &text) == Some(true));
    }
}
