//! Lists that are read in more than a million parts.

use ip_commands::{Inputs, start};
use std::alloc::Global;
use std::io::{self, BufReader, Read};
use std::process::ExitCode;

/// How many line feeds a list has. A list of blank lines is read two lines at a time.
const LINES: usize = 2_200_000;

/// Files that all have many blank lines, and then a line that is not blank.
#[derive(Drop)]
struct Blank {
    alloc: Global,
    last: u8,
}

impl Inputs for Blank {
    type Input = BufReader<Feeder>;

    fn open(&self, _name: &str) -> io::Result<BufReader<Feeder>> {
        let reader = Feeder {
            left: LINES,
            last: Some(self.last),
        };
        BufReader::with_capacity(self.alloc, 7, reader)
    }
}

/// A reader that gives a line feed a call, and then its last byte.
#[derive(Drop)]
pub struct Feeder {
    left: usize,
    last: Option<u8>,
}

impl Read for Feeder {
    fn read(&mut self, buf: &mut [u8]) -> io::Result<usize> {
        let Some(byte) = buf.first_mut() else {
            return Ok(0);
        };
        if self.left > 0 {
            self.left = self.left - 1;
            *byte = b'\n';
            return Ok(1);
        }
        let Some(last) = self.last.take() else {
            return Ok(0);
        };
        *byte = last;
        Ok(1)
    }
}

/// Whether a run on a list with this last byte ends with this status, output and line.
fn ends(alloc: Global, last: u8, status: u8, written: &[u8], line: &[u8]) -> bool {
    let inputs = Blank { alloc, last };
    let words: &[&str] = &["complement", "-4", "a"];
    let mut output = Vec::new(alloc);
    let mut errors = Vec::new(alloc);
    let code = start(alloc, words, &inputs, &mut output, &mut errors);
    code == ExitCode::from(status) && output.as_slice() == written && errors.as_slice() == line
}

#[test]
fn a_list_is_read_past_a_million_parts(rt: HostRuntime) {
    assert!(rt; ends(rt.alloc(), b'#', 0, b"0.0.0.0/0\n", b""));
}

#[test]
fn a_bad_line_past_a_million_parts_is_counted(rt: HostRuntime) {
    let line = b"a:2200001: not an address, block or range: ?\n";
    assert!(rt; ends(rt.alloc(), b'?', 2, b"", line));
}
