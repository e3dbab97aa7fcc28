//! The lines that are kept, worked out by hand.

use crate::lines::ends::{Failing, Filling};
use ip_matches::{LineFilter, MatchFault, count_kept_lines, write_kept_lines};
use ip_sets::{AddressList, read_list};
use std::alloc::{AllocError, Global};
use std::io::{BufReader, ErrorKind};
use std::test::*;

/// The lists of all rows.
static LISTS: &str = "10.0.0.0/8\n2001:db8::/32\n192.0.2.1\n";

/// A field, whether other lines are kept, and the numbers of the kept lines of the log.
type Row = (Option<usize>, bool, &'static [usize]);

/// A log, line by line.
static LINES: [&str; 8] = [
    "10.0.0.1 - - GET",
    "11.0.0.1 10.0.0.1 GET",
    "",
    "[2001:db8::1]:80\t192.0.2.1 GET\r",
    "a line without an address",
    " ::1  client=10.1.2.3, x",
    "192.0.2.1",
    "192.0.2.2",
];

static ROWS: [Row; 8] = [
    (None, false, &[0, 3, 6]),
    (None, true, &[1, 2, 4, 5, 7]),
    (Some(0), false, &[0, 3, 6]),
    (Some(0), true, &[1, 2, 4, 5, 7]),
    (Some(1), false, &[1, 3, 5]),
    (Some(1), true, &[0, 2, 4, 6, 7]),
    (Some(2), false, &[]),
    (Some(usize::MAX), true, &[0, 1, 2, 3, 4, 5, 6, 7]),
];

/// Returns the lists, or a failed allocation.
pub(crate) fn lists(alloc: Global) -> Result<AddressList, AllocError> {
    let mut input = LISTS.as_bytes();
    match read_list(alloc, &mut input) {
        Ok(list) => Ok(list),
        Err(_) => Err(AllocError),
    }
}

/// Returns the log.
fn log(alloc: Global) -> Result<Vec<u8>, AllocError> {
    text_of(alloc, &[0, 1, 2, 3, 4, 5, 6, 7])
}

/// Returns the lines with these numbers, each with a line feed.
fn text_of(alloc: Global, numbers: &[usize]) -> Result<Vec<u8>, AllocError> {
    let mut text = Vec::new(alloc);
    for number in numbers {
        if let Some(line) = LINES.get(*number) {
            text.extend_from_slice(line.as_bytes())?;
            text.push(b'\n')?;
        }
    }
    Ok(text)
}

/// Returns whether exactly these lines of a text are kept, and are counted.
fn keeps(
    alloc: Global,
    filter: &LineFilter<'_, Global>,
    text: &[u8],
    wanted: &[u8],
    count: usize,
) -> Result<bool, AllocError> {
    let mut input = text;
    let mut kept = Vec::new(alloc);
    let written = write_kept_lines(alloc, filter, &mut input, &mut kept);
    let is_at_end = input.is_empty();
    let mut input = text;
    let counted = count_kept_lines(alloc, filter, &mut input);
    Ok(
        is_at_end
            && kept.as_slice() == wanted
            && matches!(written, Ok(it) if it == count as u64)
            && matches!(counted, Ok(it) if it == count as u64),
    )
}

#[test]
fn the_lines_of_rows_are_kept(rt: HostRuntime) -> Result<(), Fail> {
    let lists = lists(rt.alloc())?;
    let text = log(rt.alloc())?;
    for (field, inverts, numbers) in &ROWS {
        let filter = LineFilter {
            lists: &lists,
            field: *field,
            inverts: *inverts,
        };
        let wanted = text_of(rt.alloc(), numbers)?;
        assert!(rt;
            keeps(rt.alloc(), &filter, &text, &wanted, numbers.len())?,
            "at {field:?}"
        );
        // A line feed is added to the last line.
        let cut = text.split_last().map_or(text.as_slice(), |parts| parts.1);
        assert!(rt;
            keeps(rt.alloc(), &filter, cut, &wanted, numbers.len())?,
            "at {field:?}"
        );
    }
    Ok(())
}

/// Returns the text that is written of the first lines of the log: those that the lists have.
fn first_kept(alloc: Global, lines: usize) -> Result<Vec<u8>, AllocError> {
    match lines {
        0 => text_of(alloc, &[]),
        1..4 => text_of(alloc, &[0]),
        4..7 => text_of(alloc, &[0, 3]),
        _ => text_of(alloc, &[0, 3, 6]),
    }
}

/// Returns the number of line feeds of some bytes.
fn feeds(bytes: &[u8]) -> usize {
    bytes.iter().filter(|byte| **byte == b'\n').count()
}

/// Returns whether the kept ones of the whole lines before a failed read are written, and the fault is
/// that of the read.
fn stops_at_read(
    alloc: Global,
    lists: &AddressList,
    text: &[u8],
    left: usize,
    kind: ErrorKind,
) -> Result<bool, AllocError> {
    let reader = Failing {
        bytes: text,
        left,
        kind,
        is_interrupted: false,
    };
    let Ok(mut input) = BufReader::with_capacity(alloc, 64, reader) else {
        return Err(AllocError);
    };
    let filter = LineFilter {
        lists,
        field: None,
        inverts: false,
    };
    let mut kept = Vec::new(alloc);
    let is_fault = match write_kept_lines(alloc, &filter, &mut input, &mut kept) {
        Err(MatchFault::NotRead(error)) => error.kind() == kind,
        Err(MatchFault::NoMemory) => kind == ErrorKind::OutOfMemory,
        _ => false,
    };
    let front = text.get(..left).unwrap_or(&[]);
    let wanted = first_kept(alloc, feeds(front))?;
    Ok(is_fault && kept.as_slice() == wanted.as_slice())
}

#[test]
fn each_read_may_fail(rt: HostRuntime) -> Result<(), Fail> {
    let lists = lists(rt.alloc())?;
    let text = log(rt.alloc())?;
    for left in 0..text.len() {
        for kind in [ErrorKind::TimedOut, ErrorKind::OutOfMemory] {
            assert!(rt;
                stops_at_read(rt.alloc(), &lists, &text, left, kind)?,
                "at {left}"
            );
        }
    }
    Ok(())
}

/// Returns whether a writer with room for some bytes has exactly the first ones of the kept lines, and
/// whether that was reported as a failed write.
fn fills(
    alloc: Global,
    lists: &AddressList,
    text: &[u8],
    room: usize,
    fails: bool,
) -> Result<bool, AllocError> {
    let filter = LineFilter {
        lists,
        field: None,
        inverts: false,
    };
    let wanted = text_of(alloc, &[0, 3, 6])?;
    let mut output = Filling {
        taken: Vec::new(alloc),
        room,
        fails,
        is_interrupted: false,
    };
    let mut input = text;
    let kind = if fails {
        ErrorKind::StorageFull
    } else {
        ErrorKind::WriteZero
    };
    let is_right = match write_kept_lines(alloc, &filter, &mut input, &mut output) {
        Ok(count) => count == 3 && room >= wanted.len(),
        Err(MatchFault::NotWritten(error)) => error.kind() == kind && room < wanted.len(),
        Err(_) => false,
    };
    let front = wanted.get(..room).unwrap_or(&wanted);
    Ok(is_right && output.taken.as_slice() == front)
}

#[test]
fn each_write_may_fail(rt: HostRuntime) -> Result<(), Fail> {
    let lists = lists(rt.alloc())?;
    let text = log(rt.alloc())?;
    for room in 0..96usize {
        assert!(rt; fills(rt.alloc(), &lists, &text, room, true)?, "at {room}");
        assert!(rt; fills(rt.alloc(), &lists, &text, room, false)?, "at {room}");
    }
    Ok(())
}

#[test]
fn lines_may_be_cut_by_any_buffer(rt: HostRuntime) -> Result<(), Fail> {
    let lists = lists(rt.alloc())?;
    let text = log(rt.alloc())?;
    let wanted = text_of(rt.alloc(), &[0, 3, 6])?;
    let filter = LineFilter {
        lists: &lists,
        field: None,
        inverts: false,
    };
    for capacity in 1..64usize {
        let mut input = BufReader::with_capacity(rt.alloc(), capacity, text.as_slice())?;
        let mut kept = Vec::new(rt.alloc());
        let written = write_kept_lines(rt.alloc(), &filter, &mut input, &mut kept);
        assert!(rt; matches!(written, Ok(3)), "at {capacity}");
        assert!(rt; kept.as_slice() == wanted.as_slice(), "at {capacity}");
    }
    Ok(())
}
