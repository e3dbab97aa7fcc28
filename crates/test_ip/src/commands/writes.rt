//! How many writes an answer takes.

use crate::commands::ends::Held;
use ip_commands::start;
use std::alloc::{AllocError, Global};
use std::io::{self, Write};
use std::process::ExitCode;

/// How many ranges the list has. Each of them has 126 blocks.
const RANGES: usize = 800;

/// The least number of bytes that a full page has.
const PAGE: usize = 65_000;

/// A writer that counts its calls, and the bytes and line feeds that it takes.
#[derive(Drop)]
struct Counter {
    writes: usize,
    bytes: usize,
    lines: usize,
}

impl Write for Counter {
    fn write(&mut self, buf: &[u8]) -> io::Result<usize> {
        self.writes = self.writes.saturating_add(1);
        self.bytes = self.bytes.saturating_add(buf.len());
        let lines = buf.iter().filter(|byte| **byte == b'\n').count();
        self.lines = self.lines.saturating_add(lines);
        Ok(buf.len())
    }

    fn flush(&mut self) -> io::Result<()> {
        Ok(())
    }
}

/// Returns a list with ranges that each lack the first and the last address of a block of 2^64.
fn ranges(alloc: Global) -> io::Result<Vec<u8>> {
    let mut text = Vec::new(alloc);
    for number in 0..RANGES {
        write!(text, "2001:db8:0:{number}::1")?;
        writeln!(text, "-2001:db8:0:{number}:ffff:ffff:ffff:fffe")?;
    }
    Ok(text)
}

/// Returns what is counted if the list is written in a form, or `None` if that fails.
fn counted(alloc: Global, text: &[u8], form: &str) -> Option<Counter> {
    let mut files = Vec::new(alloc);
    files.push(("a", text)).ok()?;
    let inputs = Held {
        alloc,
        files: &files,
        good: usize::MAX,
    };
    let words: &[&str] = &["union", form, "--fail-empty", "a"];
    let mut output = Counter {
        writes: 0,
        bytes: 0,
        lines: 0,
    };
    let mut errors = Vec::new(alloc);
    let code = start(alloc, words, &inputs, &mut output, &mut errors);
    (code == ExitCode::SUCCESS && errors.is_empty()).then_some(output)
}

/// Whether an answer of this many lines is written in pages.
fn is_in_pages(counter: Option<Counter>, lines: usize) -> bool {
    let Some(counter) = counter else {
        return false;
    };
    counter.lines == lines && counter.writes <= (counter.bytes / PAGE).saturating_add(2)
}

#[test]
fn a_hundred_thousand_lines_are_written_in_pages(rt: HostRuntime) {
    match ranges(rt.alloc()) {
        Ok(text) => {
            let blocks = counted(rt.alloc(), &text, "--blocks");
            assert!(rt; is_in_pages(blocks, 100_800));
            let ranges = counted(rt.alloc(), &text, "--ranges");
            assert!(rt; is_in_pages(ranges, 800));
        }
        Err(_) => assert!(rt; false),
    }
}
