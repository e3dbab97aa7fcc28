//! The program with the arguments of a process.

use crate::commands::answers::FILES;
use crate::commands::ends::Held;
use ip_commands::start_from_env;
use std::alloc::Global;
use std::env::{Env, FillError};
use std::process::ExitCode;
use test_support::Counting;

/// A heap over ample memory, which fails starting at a given allocation.
type Heap = Counting<Global>;

/// The arguments of a process without an environment.
#[derive(Drop)]
struct Words<'a>(&'a [&'a [u8]]);

impl Env for Words<'_> {
    fn arg(&self, i: usize, buf: &mut [u8]) -> Result<usize, FillError> {
        let Some(word) = self.0.get(i) else {
            return Err(FillError::NotPresent);
        };
        let count = word.len();
        if count > buf.len() {
            return Err(FillError::TooLong);
        }
        buf[..count].copy_from_slice(word);
        Ok(count)
    }

    fn var(&self, _name: &str, _buf: &mut [u8]) -> Result<usize, FillError> {
        Err(FillError::NotPresent)
    }

    fn var_at(&self, _i: usize, _buf: &mut [u8]) -> Result<usize, FillError> {
        Err(FillError::NotPresent)
    }
}

/// The arguments of a process, its exit status, what it writes, and the line that it reports.
type Row = (&'static [&'static [u8]], u8, &'static [u8], &'static [u8]);

static ROWS: [Row; 10] = [
    (
        &[b"ip_lists", b"union", b"b"],
        0,
        b"10.0.0.6/31\n2001:db8::2\n",
        b"",
    ),
    (&[b"ip_lists", b"union", b"-"], 0, b"10.9.8.7\n", b""),
    (&[b"ip_lists", b"has", b"10.0.0.1", b"b"], 1, b"", b""),
    (
        &[b"", b"has", b"10.0.0.1", &[b'n'; 300], b"a"],
        4,
        b"",
        b"n",
    ),
    (&[b"ip_lists"], 64, b"", b"ip_lists: missing command\n"),
    (&[], 64, b"", b"ip_lists: missing command\n"),
    (
        &[b"ip_lists", b"has", b"10.0.0.1", b"\xff"],
        64,
        b"",
        b"ip_lists: an argument is not UTF-8\n",
    ),
    (
        &[b"ip_lists", b"--help", b"caf\xe9"],
        64,
        b"",
        b"ip_lists: an argument is not UTF-8\n",
    ),
    (
        &[b"ip_lists", b"\xc3", b"a"],
        64,
        b"",
        b"ip_lists: an argument is not UTF-8\n",
    ),
    (
        &[b"\xed\xa0\x80", b"union", b"a"],
        64,
        b"",
        b"ip_lists: an argument is not UTF-8\n",
    ),
];

/// What a run leaves: its exit status, what it wrote, and the line that it reported.
type Left = (ExitCode, Vec<u8>, Vec<u8>);

/// Runs the program on arguments, with an allocator for all but what it leaves.
fn left(alloc: Global, heap: &Heap, words: &[&[u8]]) -> Left {
    let inputs = Held {
        alloc,
        files: &FILES,
        good: usize::MAX,
    };
    let mut output = Vec::new(alloc);
    let mut errors = Vec::new(alloc);
    let rt = (Words(words), heap);
    let code = start_from_env(&rt, &inputs, &mut output, &mut errors);
    (code, output, errors)
}

/// Whether the program ends with this status, and writes this and this line. Of a failed read, only
/// the start of the line is compared.
fn ends(alloc: Global, row: &Row) -> bool {
    let heap = Heap::new(alloc);
    let (code, output, errors) = left(alloc, &heap, row.0);
    let is_reported = match row.1 {
        4 => errors.as_slice().starts_with(row.3),
        _ => errors.as_slice() == row.3,
    };
    code == ExitCode::from(row.1) && output.as_slice() == row.2 && is_reported && heap.bytes() == 0
}

#[test]
fn arguments_are_run(rt: HostRuntime) {
    for row in &ROWS {
        assert!(rt; ends(rt.alloc(), row), "{:?}", row.0);
    }
}

/// Whether a run succeeds with this many allocations. The result is `None` if it ends in a way that
/// is neither success nor a failed allocation, or leaks.
fn tried(alloc: Global, heap: &Heap, words: &[&[u8]], allocations: usize) -> Option<bool> {
    heap.fail_after(allocations);
    let (code, output, errors) = left(alloc, heap, words);
    if heap.bytes() != 0 {
        return None;
    }
    if code == ExitCode::from(3) {
        let is_reported = errors.as_slice() == b"ip_lists: no memory\n".as_slice();
        return (output.is_empty() && is_reported).then_some(false);
    }
    (code == ExitCode::SUCCESS && errors.is_empty() && !output.is_empty()).then_some(true)
}

/// Returns how many allocations a run needs, or `None` if a try goes wrong.
fn needed(alloc: Global, words: &[&[u8]]) -> Option<usize> {
    let heap = Heap::new(alloc);
    for allocations in 0..1000usize {
        if tried(alloc, &heap, words, allocations)? {
            return Some(allocations);
        }
    }
    None
}

// `--version` allocates only for the arguments.
#[test]
fn each_allocation_before_the_start_fails_in_turn(rt: HostRuntime) {
    let version: &[&[u8]] = &[b"ip_lists", b"--version"];
    assert!(rt; matches!(needed(rt.alloc(), version), Some(2..)));
    let union: &[&[u8]] = &[b"ip_lists", b"union", b"a", b"b"];
    assert!(rt; matches!(needed(rt.alloc(), union), Some(10..)));
}
