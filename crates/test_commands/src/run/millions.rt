//! More than a million of everything that a loop of the program handles.

use crate::run::ends::{Delayed, Hesitant};
use crate::run::sessions::{REPLIES, SESSION};
use rsb_commands::{Command, Fault, Reply, SetNo, run, run_commands};
use std::alloc::{AllocError, Global};
use std::test::*;

/// Returns what `run` returns for the lines, and whether it writes the given replies.
fn outcome_of(alloc: Global, lines: &[u8], replies: &[u8]) -> (Result<(), Fault>, bool) {
    let mut rest = lines;
    let mut output = Vec::new(alloc);
    let outcome = run(alloc, &mut rest, &mut output);
    (outcome, output.as_slice() == replies)
}

/// Returns more than a million lines without words, followed by these bytes.
fn after_a_million_lines(alloc: Global, bytes: &[u8]) -> Result<Vec<u8>, AllocError> {
    let mut lines = Vec::new(alloc);
    lines.resize(1_200_000, b'\n')?;
    lines.extend_from_slice(bytes)?;
    Ok(lines)
}

#[test]
fn a_million_lines_are_read(rt: HostRuntime) -> Result<(), Fail> {
    let good = after_a_million_lines(rt.alloc(), b"len 0\n")?;
    assert!(rt; outcome_of(rt.alloc(), &good, b"0\n") == (Ok(()), true));
    let bad = after_a_million_lines(rt.alloc(), b"len 0\nlen 10\n")?;
    let outcome = outcome_of(rt.alloc(), &bad, b"");
    assert!(rt; outcome == (Err(Fault::BadLine(1_200_002)), true));
    Ok(())
}

/// Returns a line of more than a million bytes.
fn long_line(alloc: Global) -> Result<Vec<u8>, AllocError> {
    let mut line = Vec::new(alloc);
    line.extend_from_slice(b"has 0")?;
    line.resize(1_200_000, b' ')?;
    line.extend_from_slice(b"1\n")?;
    Ok(line)
}

#[test]
fn a_line_of_a_million_bytes_is_read(rt: HostRuntime) -> Result<(), Fail> {
    let line = long_line(rt.alloc())?;
    assert!(rt; outcome_of(rt.alloc(), &line, b"false\n") == (Ok(()), true));
    Ok(())
}

#[test]
fn a_reader_may_be_interrupted_a_million_times(rt: HostRuntime) {
    let mut input = Delayed {
        bytes: SESSION,
        interruptions: 1_000_001,
    };
    let mut output = Vec::new(rt.alloc());
    assert!(rt; run(rt.alloc(), &mut input, &mut output) == Ok(()));
    assert!(rt; output.as_slice() == REPLIES);
}

#[test]
fn a_writer_may_be_interrupted_a_million_times(rt: HostRuntime) {
    let mut input = SESSION;
    let mut output = Hesitant {
        taken: Vec::new(rt.alloc()),
        interruptions: 1_000_001,
    };
    assert!(rt; run(rt.alloc(), &mut input, &mut output) == Ok(()));
    assert!(rt; output.taken.as_slice() == REPLIES);
}

/// One more than a million.
const MANY: i32 = 1_000_001;

/// Returns `MANY` commands, each of which looks for a value.
fn many_questions(alloc: Global, slot: SetNo) -> Result<Vec<Command<i32>>, AllocError> {
    let mut commands = Vec::new(alloc);
    for value in 0..MANY {
        commands.push(Command::Has { slot, value })?;
    }
    Ok(commands)
}

#[test]
fn a_million_commands_run(rt: HostRuntime) -> Result<(), Fail> {
    let commands = many_questions(rt.alloc(), SetNo::new(7).expect(&rt, "a slot"))?;
    let Ok(replies) = run_commands(rt.alloc(), &commands) else {
        return Err(Fail::from("stopped"));
    };
    assert!(rt; replies.len() == commands.len() && replies.last() == Some(&Reply::Flag(false)));
    Ok(())
}

/// Returns commands that add `MANY` single values, with gaps between them, to the set in a slot,
/// and then show it.
fn many_additions(alloc: Global, slot: SetNo) -> Result<Vec<Command<i32>>, AllocError> {
    let mut commands = Vec::with_capacity(alloc, 1_000_002)?;
    for half in 0..MANY {
        let value = half.saturating_mul(2);
        commands.push(Command::Add {
            slot,
            first: value,
            last: value,
        })?;
    }
    commands.push(Command::Show { slot })?;
    Ok(commands)
}

/// Whether a reply shows `MANY` ranges, the last of which has only this value.
fn shows_many(reply: Option<&Reply<i32>>, value: i32) -> bool {
    let Some(Reply::Ranges(ranges)) = reply else {
        return false;
    };
    ranges.len() == MANY as usize && ranges.last() == Some(&(value..=value))
}

// In the checked build of `rt try --test` this takes more than a minute: `--seconds 400` lets it
// end. So `tools/test` shows only the 20,000 runs of `a_hundred_thousand_lines_are_answered`.
#[test]
fn a_million_runs_are_shown(rt: HostRuntime) -> Result<(), Fail> {
    let commands = many_additions(rt.alloc(), SetNo::new(7).expect(&rt, "a slot"))?;
    let Ok(replies) = run_commands(rt.alloc(), &commands) else {
        return Err(Fail::from("stopped"));
    };
    assert!(rt; shows_many(replies.last(), 2_000_000));
    Ok(())
}
