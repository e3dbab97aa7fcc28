//! The program, from input bytes to output bytes.

use crate::run::ends::{Dripping, Filling, KINDS};
use crate::run::sessions::{ALL_COMMANDS, ALL_REPLIES, MOST, MOST_REPLIES, REPLIES, SESSION};
use rsb_commands::{Fault, finish, run, start};
use std::alloc::{AllocError, Global};
use std::fmt::Write;
use std::io::ErrorKind;
use std::process::ExitCode;
use std::test::*;

/// What a row shows, the lines of the input, and the expected output.
static ANSWERED: [(&str, &[u8], &[u8]); 22] = [
    ("the worked session", SESSION, REPLIES),
    ("no bytes", b"", b""),
    ("no words", b"\n \t\r\n", b""),
    ("no last line feed", b"len 9", b"0\n"),
    (
        "blanks around words",
        b"\t add\t0  1 2 \n\nlen 0\r\n",
        b"true\n2\n",
    ),
    (
        "signs and zeros",
        b"add 0 -02 +3\nhas 0 -0\nlen 0\n",
        b"true\ntrue\n6\n",
    ),
    ("an empty set", b"show 0\n", b"\n"),
    ("a reversed range", b"add 0 5 3\nlen 0\n", b"false\n0\n"),
    (
        "all numbers",
        b"add 0 -2147483648 2147483647\nlen 0\nshow 0\n",
        b"true\n4294967296\n-2147483648..=2147483647\n",
    ),
    (
        "two sets",
        b"add 1 7 10\nadd 2 8 8\nadd 1 1 3\nhas 2 7\nshow 1\nshow 2\n",
        b"true\ntrue\ntrue\nfalse\n1..=3, 7..=10\n8..=8\n",
    ),
    (
        "the worked session of all commands",
        ALL_COMMANDS,
        ALL_REPLIES,
    ),
    (
        "a gap to both ends",
        b"gap 9 0\n",
        b"-2147483648..=2147483647 false\n",
    ),
    (
        "a run",
        b"add 0 1 5\ngap 0 1\ngap 0 6\n",
        b"true\n1..=5 true\n6..=2147483647 false\n",
    ),
    (
        "a set less itself",
        b"add 0 1 5\nsub 0 0 0\ncmp 0 1\n",
        b"true\n0\nequal\n",
    ),
    ("a sign and a carriage return", b"has 0 +5\r\n", b"false\n"),
    (
        "values taken out",
        b"add 0 1 3\ndel 0 2\ndel 0 2\nshow 0\n",
        b"true\ntrue\nfalse\n1..=1, 3..=3\n",
    ),
    (
        "targets that are sources",
        b"add 0 1 5\nadd 1 4 9\nor 0 0 1\nshow 0\nand 0 1 0\nshow 0\nxor 1 1 0\nsub 0 0 1\nnot 1 1\nshow 1\n",
        b"true\ntrue\n1\n1..=9\n1\n4..=9\n0\n1\n1\n-2147483648..=2147483647\n",
    ),
    (
        "the order of elements",
        b"add 0 5 5\nadd 1 1 1\ncmp 0 1\ncmp 1 0\n",
        b"true\ntrue\ngreater\nless\n",
    ),
    (
        "two of three, and a set that is named twice",
        MOST,
        MOST_REPLIES,
    ),
    (
        "one set thrice, without members and with some",
        b"most 1 0 0 0\nshow 1\nadd 0 1 5\nmost 1 0 0 0\nshow 1\nmost 0 0 0 0\nshow 0\n",
        b"0\n\ntrue\n1\n1..=5\n1\n1..=5\n",
    ),
    (
        "two of three that touch, in place of one of them",
        b"add 0 1 4\nadd 1 1 2\nadd 2 3 4\nmost 1 0 1 2\nshow 1\nmost 2 2 2 2\nshow 2\n",
        b"true\ntrue\ntrue\n1\n1..=4\n1\n3..=4\n",
    ),
    (
        "all numbers in two of three",
        b"not 0 9\nadd 1 -2147483648 2147483647\nmost 2 0 9 1\nshow 2\nmost 2 0 9 9\nshow 2\n",
        b"1\ntrue\n1\n-2147483648..=2147483647\n0\n\n",
    ),
];

/// Whether the lines have these replies.
fn are_answered(alloc: Global, lines: &[u8], replies: &[u8]) -> bool {
    let mut rest = lines;
    let mut output = Vec::new(alloc);
    run(alloc, &mut rest, &mut output) == Ok(()) && output.as_slice() == replies
}

#[test]
fn lines_are_answered(rt: HostRuntime) {
    for (what, lines, replies) in &ANSWERED {
        assert!(rt; are_answered(rt.alloc(), lines, replies), "{what}");
    }
}

/// Lines, and the number of the first that is bad.
static BAD_LINES: [(&[u8], u64); 53] = [
    (b"len 0\nlen 10\n", 2),
    (b"\n\t\nlen 0\nlen\nlen\n", 4),
    (b"plus 0 1 2\n", 1),
    (b"Len 0\n", 1),
    (b"le 0\n", 1),
    (b"lens 0\n", 1),
    (b"add\n", 1),
    (b"add 0 1\n", 1),
    (b"add 0 1 2 3\n", 1),
    (b"has 0\n", 1),
    (b"has 0 1 2\n", 1),
    (b"len 0 0\n", 1),
    (b"show\n", 1),
    (b"len 00\n", 1),
    (b"len +0\n", 1),
    (b"len a\n", 1),
    (b"len :\n", 1),
    (b"add 0 0 2147483648\n", 1),
    (b"add 0 -2147483649 0\n", 1),
    (b"has 0 99999999999999999999\n", 1),
    (b"has 0 -\n", 1),
    (b"has 0 +\n", 1),
    (b"has 0 +-1\n", 1),
    (b"has 0 1x\n", 1),
    (b"has 0 0x1\n", 1),
    (b"has 0 1.0\n", 1),
    (b"has 0 \xff\n", 1),
    (b"\xff\n", 1),
    (b"len 0\0\n", 1),
    (b"len 0\r", 1),
    (b"len 0\r\r\n", 1),
    (b"\t\nnot 10 0\n", 2),
    (b"del 0\n", 1),
    (b"del 0 1 2\n", 1),
    (b"del a 1\n", 1),
    (b"gap 0 1 2\n", 1),
    (b"gap 0 2147483648\n", 1),
    (b"or 0 1\n", 1),
    (b"and 0 1 2 3\n", 1),
    (b"and 0 1 x\n", 1),
    (b"sub 0 1 -2\n", 1),
    (b"xor 0 1 10\n", 1),
    (b"xor\n", 1),
    (b"not 0\n", 1),
    (b"not 0 1 2\n", 1),
    (b"cmp 0\n", 1),
    (b"most 0 1 2\n", 1),
    (b"most\n", 1),
    (b"most 0 1 2 3 4\n", 1),
    (b"most 0 1 2 10\n", 1),
    (b"most 0 1 -2 3\n", 1),
    (b"mos 0 1 2 3\n", 1),
    (b"len 0\nMost 0 1 2 3\n", 2),
];

/// Whether the lines are reported as bad at the given line, and nothing is written.
fn are_told_as_bad(alloc: Global, lines: &[u8], number: u64) -> bool {
    let mut rest = lines;
    let mut output = Vec::new(alloc);
    run(alloc, &mut rest, &mut output) == Err(Fault::BadLine(number)) && output.is_empty()
}

#[test]
fn bad_lines_are_told_by_their_number(rt: HostRuntime) {
    for (row, (lines, number)) in BAD_LINES.iter().enumerate() {
        assert!(rt; are_told_as_bad(rt.alloc(), lines, *number), "row {row}");
    }
}

// The second input lacks its last line feed.
#[test]
fn nothing_is_written_after_a_bad_line_nor_for_no_bytes(rt: HostRuntime) {
    assert!(rt; are_told_as_bad(rt.alloc(), b"len 0\nlen 10\n", 2));
    assert!(rt; are_told_as_bad(rt.alloc(), b"add 0 0 2147483648", 1));
    assert!(rt; are_answered(rt.alloc(), b"", b""));
}

/// The sessions worked by hand, each with its replies.
static SESSIONS: [(&[u8], &[u8]); 2] = [(SESSION, REPLIES), (ALL_COMMANDS, ALL_REPLIES)];

/// Whether the lines have these replies if input and output pass one byte a call, with
/// interruptions.
fn are_answered_in_drops(alloc: Global, lines: &[u8], replies: &[u8]) -> bool {
    let mut input = Dripping {
        bytes: lines,
        failure: None,
        is_interrupted: false,
    };
    let mut output = Filling {
        taken: Vec::new(alloc),
        room: replies.len(),
        failure: Some(ErrorKind::Other),
        is_interrupted: false,
    };
    run(alloc, &mut input, &mut output) == Ok(()) && output.taken.as_slice() == replies
}

#[test]
fn one_byte_a_call_and_interruptions_change_nothing(rt: HostRuntime) {
    for (lines, replies) in &SESSIONS {
        assert!(rt; are_answered_in_drops(rt.alloc(), lines, replies));
    }
}

/// Whether a read that fails once after these bytes is reported, and nothing is written. If there
/// are no bytes, the first call fails. A second call would find the end of the input.
fn is_told_unread(alloc: Global, bytes: &[u8], kind: ErrorKind) -> bool {
    let mut input = Dripping {
        bytes,
        failure: Some(kind),
        is_interrupted: bytes.is_empty(),
    };
    let mut output = Vec::new(alloc);
    run(alloc, &mut input, &mut output) == Err(Fault::Io) && output.is_empty()
}

#[test]
fn a_read_that_fails_once_in_any_way_is_told_and_nothing_is_written(rt: HostRuntime) {
    for kind in &KINDS {
        assert!(rt;
            is_told_unread(rt.alloc(), b"", *kind)
                && is_told_unread(rt.alloc(), b"len 0\n", *kind)
                && is_told_unread(rt.alloc(), b"nonsense\n", *kind),
            "{kind:?}"
        );
    }
}

/// Whether a failed write is reported for these lines, and exactly `room` bytes of the replies are
/// written. The writer has room for these bytes, and then fails once or takes no more. If it has no
/// room, the first call fails.
fn is_told_where_it_stopped(
    alloc: Global,
    session: (&[u8], &[u8]),
    room: usize,
    failure: Option<ErrorKind>,
) -> bool {
    let (lines, replies) = session;
    let mut input = lines;
    let mut output = Filling {
        taken: Vec::new(alloc),
        room,
        failure,
        is_interrupted: room == 0,
    };
    run(alloc, &mut input, &mut output) == Err(Fault::Io)
        && output.taken.len() == room
        && replies.starts_with(&output.taken)
}

/// Whether a write that fails once, or takes no more, is reported at each of three places.
fn is_told_at_each(alloc: Global, session: (&[u8], &[u8]), failure: Option<ErrorKind>) -> bool {
    is_told_where_it_stopped(alloc, session, 0, failure)
        && is_told_where_it_stopped(alloc, session, 3, failure)
        && is_told_where_it_stopped(alloc, session, 33, failure)
}

// A second write would succeed.
#[test]
fn a_write_that_fails_once_in_any_way_is_told_where_it_stopped(rt: HostRuntime) {
    for session in &SESSIONS {
        assert!(rt; is_told_at_each(rt.alloc(), *session, None));
        for kind in &KINDS {
            assert!(rt;
                is_told_at_each(rt.alloc(), *session, Some(*kind)),
                "{kind:?}"
            );
        }
    }
}

/// Returns ten thousand lines, and one that is longer than a page.
fn many_lines(alloc: Global) -> Result<Vec<u8>, AllocError> {
    let mut lines = Vec::new(alloc);
    for _ in 0..5_000u16 {
        lines.extend_from_slice(b"has 7 12\nlen 3\n")?;
    }
    lines.extend_from_slice(b"len ")?;
    lines.resize(lines.len() + 70_000, b' ')?;
    lines.extend_from_slice(b"3\n")?;
    Ok(lines)
}

/// Returns the replies to those lines.
fn replies_to_many(alloc: Global) -> Result<Vec<u8>, AllocError> {
    let mut replies = Vec::new(alloc);
    for _ in 0..5_000u16 {
        replies.extend_from_slice(b"false\n0\n")?;
    }
    replies.extend_from_slice(b"0\n")?;
    Ok(replies)
}

// The input gives one byte a call.
#[test]
fn many_lines_and_a_long_one_are_answered(rt: HostRuntime) -> Result<(), Fail> {
    let lines = many_lines(rt.alloc())?;
    let replies = replies_to_many(rt.alloc())?;
    assert!(rt; are_answered_in_drops(rt.alloc(), &lines, &replies));
    Ok(())
}

// The bad line is past the first part that is read.
#[test]
fn a_bad_line_after_many_is_told_by_its_number(rt: HostRuntime) -> Result<(), Fail> {
    let mut lines = many_lines(rt.alloc())?;
    lines.extend_from_slice(b"len 0\nnonsense\nlen 1\nmore of it\n")?;
    assert!(rt; are_told_as_bad(rt.alloc(), &lines, 10_003));
    Ok(())
}

/// Returns lines that add a hundred thousand single values, with gaps between them. Further lines
/// work on sets of as many runs, and show twenty thousand of these.
fn many_values(alloc: Global) -> Result<String, Fail> {
    let mut lines = String::new(alloc);
    for half in 0..100_000u32 {
        let value = half.saturating_mul(2);
        write!(lines, "add 0 {value} {value}\n")?;
    }
    lines.push_str("or 1 0 9\nand 2 0 1\nxor 3 0 9\nsub 4 0 9\nnot 5 0\ndel 1 100000\n")?;
    lines.push_str("cmp 2 3\nlen 4\nadd 6 0 39999\nand 6 6 0\nshow 6\n")?;
    Ok(lines)
}

/// Returns the replies to those lines.
fn many_replies(alloc: Global) -> Result<String, Fail> {
    let mut replies = String::new(alloc);
    for _ in 0..100_000u32 {
        replies.push_str("true\n")?;
    }
    replies.push_str("100000\n100000\n100000\n100000\n100001\ntrue\n")?;
    replies.push_str("equal\n100000\ntrue\n20000\n0..=0")?;
    for half in 1..20_000u32 {
        let value = half.saturating_mul(2);
        write!(replies, ", {value}..={value}")?;
    }
    replies.push_str("\n")?;
    Ok(replies)
}

// The input has more than a megabyte, the sets have more runs than 16 bits count, and one reply
// takes several pages.
#[test]
fn a_hundred_thousand_lines_are_answered(rt: HostRuntime) -> Result<(), Fail> {
    let lines = many_values(rt.alloc())?;
    let replies = many_replies(rt.alloc())?;
    assert!(rt; are_answered(rt.alloc(), lines.as_bytes(), replies.as_bytes()));
    Ok(())
}

/// Returns lines that add two thousand single values, with gaps between them, and then a range with
/// reversed bounds.
fn reversed_after_many(alloc: Global) -> Result<String, Fail> {
    let mut lines = String::new(alloc);
    for half in 0..2_000u32 {
        let value = half.saturating_mul(2);
        write!(lines, "add 0 {value} {value}\n")?;
    }
    lines.push_str("add 0 5 3\nlen 0\n")?;
    Ok(lines)
}

/// Returns the replies to those lines.
fn replies_to_reversed(alloc: Global) -> Result<String, Fail> {
    let mut replies = String::new(alloc);
    for _ in 0..2_000u32 {
        replies.push_str("true\n")?;
    }
    replies.push_str("false\n2000\n")?;
    Ok(replies)
}

#[test]
fn a_reversed_range_adds_nothing_to_many_runs(rt: HostRuntime) -> Result<(), Fail> {
    let lines = reversed_after_many(rt.alloc())?;
    let replies = replies_to_reversed(rt.alloc())?;
    assert!(rt; are_answered(rt.alloc(), lines.as_bytes(), replies.as_bytes()));
    Ok(())
}

/// Whether `finish` returns this status and writes this line for an outcome.
fn finishes(alloc: Global, outcome: Result<(), Fault>, code: ExitCode, line: &[u8]) -> bool {
    let mut errors = Vec::new(alloc);
    finish(&mut errors, outcome) == code && errors.as_slice() == line
}

/// Faults, each with its status and its line.
static FAULTS: [(Fault, u8, &[u8]); 3] = [
    (Fault::BadLine(2), 2, b"bad line 2\n"),
    (Fault::NoMemory, 3, b"no memory\n"),
    (Fault::Io, 4, b"read or write failed\n"),
];

#[test]
fn each_outcome_has_its_status_and_line(rt: HostRuntime) {
    assert!(rt; finishes(rt.alloc(), Ok(()), ExitCode::SUCCESS, b""));
    for (fault, status, line) in &FAULTS {
        let code = ExitCode::from(*status);
        assert!(rt;
            finishes(rt.alloc(), Err(*fault), code, line),
            "status {status}"
        );
    }
}

/// How the program ends: its exit status, its output, and the line of its fault.
type End<'a> = (u8, &'a [u8], &'a [u8]);

/// Whether the program ends like this, if the writer has the given room.
fn ends(alloc: Global, lines: &[u8], room: usize, end: End<'_>) -> bool {
    let mut rest = lines;
    let mut errors = Vec::new(alloc);
    let mut output = Filling {
        taken: Vec::new(alloc),
        room,
        failure: Some(ErrorKind::Other),
        is_interrupted: false,
    };
    let code = start(alloc, &mut rest, &mut output, &mut errors);
    code == ExitCode::from(end.0) && output.taken.as_slice() == end.1 && errors.as_slice() == end.2
}

/// Lines, the room of the writer in bytes, and how the program ends.
static ENDS: [(&[u8], usize, End<'static>); 3] = [
    (SESSION, 35, (0, REPLIES, b"")),
    (b"len 0\nlen 10\n", 35, (2, b"", b"bad line 2\n")),
    (SESSION, 3, (4, b"tru", b"read or write failed\n")),
];

#[test]
fn the_program_ends_by_its_outcome(rt: HostRuntime) {
    for (lines, room, end) in &ENDS {
        assert!(rt; ends(rt.alloc(), lines, *room, *end), "status {}", end.0);
    }
}
