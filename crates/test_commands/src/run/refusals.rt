//! Failed allocations.

use crate::run::ends::{Dripping, Filling, Holding};
use linked_list_allocator::LocalHeap;
use rsb_commands::{
    Command, Fault, Reply, SetNo, parse_commands, read_commands, run, run_commands, start,
};
use std::alloc::{AllocError, Global};
use std::io::ErrorKind;
use std::process::ExitCode;
use std::test::*;

const COMMANDS: &[u8] = b"add 0 1 5\nshow 0\n";

const FIRST: &[u8] = b"true\n";

const ALL: &[u8] = b"true\n1..=5\n";

/// Returns what `run` returns for `COMMANDS` if it runs them with the given number of bytes free,
/// and how many bytes it writes. The writer fails once its room is full. The result is `None` if
/// what is written is no prefix of the replies.
fn outcome_over(
    alloc: Global,
    spared: usize,
    room: usize,
) -> Result<Option<(Result<(), Fault>, usize)>, AllocError> {
    let heap = LocalHeap::new(alloc, 4096)?;
    let mut input = Holding {
        bytes: COMMANDS,
        heap: &heap,
        spared,
        held: Vec::new(alloc),
    };
    let mut output = Filling {
        taken: Vec::new(alloc),
        room,
        failure: Some(ErrorKind::Other),
        is_interrupted: true,
    };
    let outcome = run(&heap, &mut input, &mut output);
    let written = output.taken.len();
    Ok(ALL.starts_with(&output.taken).then_some((outcome, written)))
}

/// The outcome if the allocation of the second command fails.
const STOPPED: Option<(Result<(), Fault>, usize)> = Some((Err(Fault::NoMemory), 5));

// As more bytes are free, first an allocation before the replies fails, then that of `show`, and
// then none.
#[test]
fn true_is_written_before_the_allocation_of_show_fails(rt: HostRuntime) -> Result<(), Fail> {
    let mut is_stopped_early = false;
    let mut is_stopped_at_show = false;
    let mut last = None;
    for step in 1..100usize {
        let outcome = outcome_over(rt.alloc(), 16 * step, ALL.len())?;
        is_stopped_early = is_stopped_early || outcome == Some((Err(Fault::NoMemory), 0));
        is_stopped_at_show = is_stopped_at_show || outcome == STOPPED;
        last = outcome;
    }
    assert!(rt; is_stopped_early && is_stopped_at_show);
    assert!(rt; last == Some((Ok(()), ALL.len())));
    Ok(())
}

// If the allocation of `show` fails and then the reply before it cannot be written, the failed
// write is reported.
#[test]
fn a_failed_write_is_told_before_refused_memory(rt: HostRuntime) -> Result<(), Fail> {
    let mut is_write_told = false;
    for step in 1..100usize {
        let spared = 16 * step;
        if outcome_over(rt.alloc(), spared, FIRST.len())? == STOPPED {
            for room in [0, 4] {
                let outcome = outcome_over(rt.alloc(), spared, room)?;
                assert!(rt;
                    outcome == Some((Err(Fault::Io), room)),
                    "{spared} bytes, room {room}"
                );
                is_write_told = true;
            }
        }
    }
    assert!(rt; is_write_told);
    Ok(())
}

/// Returns the given number of lines, each of which spells a command.
fn lines_of(alloc: Global, count: u8) -> Result<Vec<u8>, AllocError> {
    let mut lines = Vec::new(alloc);
    for _ in 0..count {
        lines.extend_from_slice(b"add 3 1 5\n")?;
    }
    Ok(lines)
}

/// Returns whether a call read these commands with a heap. The result is `None` if it returned
/// other commands or a fault other than `NoMemory`, or leaked.
fn read_over(
    heap: &LocalHeap,
    read: Result<Vec<Command<i32>, &LocalHeap>, Fault>,
    wanted: &[Command<i32>],
) -> Option<bool> {
    match read {
        Ok(commands) => (commands.as_slice() == wanted).then_some(true),
        Err(fault) => (fault == Fault::NoMemory && heap.used() == 0).then_some(false),
    }
}

/// How the commands are read from lines.
#[derive(Clone, Copy)]
enum How {
    /// By `parse_commands`.
    Parsed,
    /// By `read_commands`, with all bytes in one call.
    Read,
    /// By `read_commands`, one byte a call.
    Dripped,
}

/// Reads the commands with a heap of this size, and returns the result of `read_over`.
fn is_read_over(
    alloc: Global,
    size: usize,
    how: How,
    lines: &[u8],
    wanted: &[Command<i32>],
) -> Result<Option<bool>, AllocError> {
    let heap = LocalHeap::new(alloc, size)?;
    let read = match how {
        How::Parsed => parse_commands(&heap, lines),
        How::Read => {
            let mut input = lines;
            read_commands(&heap, &mut input)
        }
        How::Dripped => {
            let mut input = Dripping {
                bytes: lines,
                failure: None,
                is_interrupted: false,
            };
            read_commands(&heap, &mut input)
        }
    };
    Ok(read_over(&heap, read, wanted))
}

/// Returns the number of heaps that are too small, each 16 bytes larger than the one before, until
/// one suffices. A heap rounds sizes to 16 bytes, so no allocation is skipped. The result is `None`
/// if a call goes wrong, or if no heap suffices.
fn refusals(alloc: Global, how: How, count: u8) -> Result<Option<usize>, Fault> {
    let lines = lines_of(alloc, count)?;
    let wanted = parse_commands(alloc, &lines)?;
    for step in 1..1000usize {
        match is_read_over(alloc, 16 * step, how, &lines, &wanted)? {
            None => return Ok(None),
            Some(true) => return Ok((wanted.len() == count as usize).then_some(step - 1)),
            Some(false) => {}
        }
    }
    Ok(None)
}

// Only an input of no lines does not allocate.
#[test]
fn each_allocation_of_the_commands_fails_in_turn(rt: HostRuntime) {
    for how in [How::Parsed, How::Read, How::Dripped] {
        assert!(rt; refusals(rt.alloc(), how, 0) == Ok(Some(0)));
        for count in [1, 3, 100] {
            let found = refusals(rt.alloc(), how, count);
            assert!(rt; matches!(found, Ok(Some(1..))), "{count} lines");
        }
    }
}

/// Returns three commands on the set in a slot.
fn three_commands(slot: SetNo) -> [Command<i32>; 3] {
    [
        Command::Add {
            slot,
            first: 1,
            last: 5,
        },
        Command::Has { slot, value: 9 },
        Command::Show { slot },
    ]
}

/// Whether the replies are those to the first `count` of the three commands. The third reply is not
/// checked.
fn are_kept(replies: &[Reply<i32, &LocalHeap>], count: usize) -> bool {
    match replies {
        [] => count == 0,
        [Reply::Flag(true), Reply::Flag(false)] => count == 2,
        [_, _, _] => count == 3,
        _ => false,
    }
}

/// Returns how many of the three commands run with a heap of this size, or `None` if the replies
/// are not those to these commands.
fn done_over(
    alloc: Global,
    size: usize,
    commands: &[Command<i32>],
) -> Result<Option<usize>, AllocError> {
    let heap = LocalHeap::new(alloc, size)?;
    match run_commands(&heap, commands) {
        Ok(replies) => Ok(are_kept(&replies, 3).then_some(3)),
        Err(stopped) => Ok(are_kept(&stopped.replies, stopped.at).then_some(stopped.at)),
    }
}

// If commands are stopped, the replies to those before are kept.
#[test]
fn stopped_commands_keep_their_replies(rt: HostRuntime) -> Result<(), Fail> {
    let commands = three_commands(SetNo::new(0).expect(&rt, "a slot"));
    let mut last = Some(0);
    let mut is_stopped_at_last = false;
    for step in 4..200usize {
        let done = done_over(rt.alloc(), 16 * step, &commands)?;
        assert!(rt; done >= last, "step {step}");
        is_stopped_at_last = is_stopped_at_last || done == Some(2);
        last = done;
    }
    assert!(rt; is_stopped_at_last && last == Some(3));
    Ok(())
}

// The command does not allocate, but the replies and the sets do.
#[test]
fn a_question_without_room_to_begin_is_stopped_at_0(rt: HostRuntime) -> Result<(), Fail> {
    let heap = LocalHeap::new(rt.alloc(), 16)?;
    let commands = [Command::Has {
        slot: SetNo::new(0).expect(&rt, "a slot"),
        value: 1,
    }];
    let Err(stopped) = run_commands(&heap, &commands) else {
        return Err(Fail::from("there was room"));
    };
    assert!(rt; stopped.at == 0 && stopped.replies.is_empty());
    Ok(())
}

/// Whether the program ends with this status and this line of a fault, and with no reply, if it has
/// this heap.
fn ends(alloc: Global, heap: &LocalHeap, lines: &[u8], status: u8, line: &[u8]) -> bool {
    let mut input = lines;
    let mut output = Vec::new(alloc);
    let mut errors = Vec::new(alloc);
    let code = start(heap, &mut input, &mut output, &mut errors);
    code == ExitCode::from(status) && output.is_empty() && errors.as_slice() == line
}

#[test]
fn refused_memory_ends_with_status_3_and_no_commands_with_0(rt: HostRuntime) -> Result<(), Fail> {
    let heap = LocalHeap::new(rt.alloc(), 64)?;
    // An empty input does not allocate.
    assert!(rt;
        ends(rt.alloc(), &heap, COMMANDS, 3, b"no memory\n") && ends(rt.alloc(), &heap, b"", 0, b"")
    );
    Ok(())
}
