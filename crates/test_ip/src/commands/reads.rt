//! One read of a list that goes wrong: what is reported, and how many reads there are.

use ip_commands::{Inputs, Source, start};
use std::alloc::Global;
use std::cell::Cell;
use std::io::{self, BufReader, ErrorKind, Read};
use std::process::ExitCode;

/// The list of each file.
const TEXT: &[u8] = b"10.0.0.1\n10.0.0.2 # tail\n::1\n";

/// How many reads there are at least: one for every two bytes, and one at the end.
const READS: usize = 16;

/// Files that all have the same list. One of their reads fails.
#[derive(Drop)]
struct OnceFailing<'a> {
    alloc: Global,
    failed: usize,
    error: ErrorKind,
    reads: &'a Cell<usize>,
}

impl<'a> Inputs for OnceFailing<'a> {
    type Input = BufReader<Source<Once<'a>, Once<'a>>>;

    fn open(&self, name: &str) -> io::Result<Self::Input> {
        let reader = Once {
            bytes: TEXT,
            failed: self.failed,
            error: self.error,
            reads: self.reads,
        };
        let source = match name {
            "-" => Source::Standard(reader),
            _ => Source::File(reader),
        };
        BufReader::with_capacity(self.alloc, 7, source)
    }
}

/// A reader that gives at most two bytes a call, and counts its calls. One of them fails; those after
/// it go on.
#[derive(Drop)]
pub struct Once<'a> {
    bytes: &'a [u8],
    failed: usize,
    error: ErrorKind,
    reads: &'a Cell<usize>,
}

impl Read for Once<'_> {
    fn read(&mut self, buf: &mut [u8]) -> io::Result<usize> {
        self.reads.set(self.reads.get().saturating_add(1));
        if self.reads.get() == self.failed {
            return Err(io::Error::from(self.error));
        }
        let count = buf.len().min(2);
        self.bytes.read(&mut buf[..count])
    }
}

/// Whether a run ends with this status, output and line if the read with the given number fails. The
/// result is the number of reads, or `None` if the run ends otherwise.
fn reads_to(
    alloc: Global,
    file: &str,
    failed: usize,
    error: ErrorKind,
    end: (u8, &[u8], &[u8]),
) -> Option<usize> {
    let reads = Cell::new(0);
    let inputs = OnceFailing {
        alloc,
        failed,
        error,
        reads: &reads,
    };
    let words: &[&str] = &["union", file];
    let mut output = Vec::new(alloc);
    let mut errors = Vec::new(alloc);
    let code = start(alloc, words, &inputs, &mut output, &mut errors);
    let is_end = code == ExitCode::from(end.0)
        && output.as_slice() == end.1
        && errors.as_slice() == end.2;
    is_end.then_some(reads.get())
}

#[test]
fn a_failed_read_is_not_tried_again(rt: HostRuntime) {
    for failed in 1..=READS {
        let file = (4, b"".as_slice(), b"a: timed out\n".as_slice());
        let reads = reads_to(rt.alloc(), "a", failed, ErrorKind::TimedOut, file);
        assert!(rt; reads == Some(failed), "read {failed} of a file");
        let input = (4, b"".as_slice(), b"-: timed out\n".as_slice());
        let reads = reads_to(rt.alloc(), "-", failed, ErrorKind::TimedOut, input);
        assert!(rt; reads == Some(failed), "read {failed} of standard input");
    }
}

#[test]
fn a_read_that_fails_for_memory_is_no_memory(rt: HostRuntime) {
    for failed in 1..=READS {
        let end = (3, b"".as_slice(), b"ip_lists: no memory\n".as_slice());
        let reads = reads_to(rt.alloc(), "a", failed, ErrorKind::OutOfMemory, end);
        assert!(rt; reads == Some(failed), "read {failed} of a file");
        let reads = reads_to(rt.alloc(), "-", failed, ErrorKind::OutOfMemory, end);
        assert!(rt; reads == Some(failed), "read {failed} of standard input");
    }
}

#[test]
fn an_interrupted_read_goes_on(rt: HostRuntime) {
    let output = b"10.0.0.1\n10.0.0.2\n::1\n".as_slice();
    let end = (0, output, b"".as_slice());
    for failed in 0..=READS {
        let reads = reads_to(rt.alloc(), "a", failed, ErrorKind::Interrupted, end);
        assert!(rt; matches!(reads, Some(16..)), "read {failed} of a file");
        let reads = reads_to(rt.alloc(), "-", failed, ErrorKind::Interrupted, end);
        assert!(rt;
            matches!(reads, Some(16..)),
            "read {failed} of standard input"
        );
    }
}
