//! Files in memory whose reads fail, and writers that fail.

use ip_commands::Inputs;
use std::alloc::Global;
use std::io::{self, BufReader, ErrorKind, Read, Write};

/// Files in memory. Another name is not found.
#[derive(Drop)]
pub(crate) struct Held<'a> {
    pub(crate) alloc: Global,
    pub(crate) files: &'a [(&'a str, &'a [u8])],
    /// The number of bytes of each file after which a read fails.
    pub(crate) good: usize,
}

impl<'a> Inputs for Held<'a> {
    type Input = BufReader<Failing<'a>>;

    fn open(&self, name: &str) -> io::Result<BufReader<Failing<'a>>> {
        for (file, bytes) in self.files {
            if *file == name {
                let input = Failing {
                    bytes,
                    left: self.good,
                    is_interrupted: false,
                };
                return BufReader::with_capacity(self.alloc, 7, input);
            }
        }
        Err(io::Error::from(ErrorKind::NotFound))
    }
}

/// A reader that gives at most three bytes a call, with an interruption before each. It fails once
/// it gave the bytes that are left.
#[derive(Drop)]
pub struct Failing<'a> {
    bytes: &'a [u8],
    left: usize,
    is_interrupted: bool,
}

impl Read for Failing<'_> {
    fn read(&mut self, buf: &mut [u8]) -> io::Result<usize> {
        self.is_interrupted = !self.is_interrupted;
        if self.is_interrupted {
            return Err(io::Error::from(ErrorKind::Interrupted));
        }
        if self.left == 0 {
            return Err(io::Error::from(ErrorKind::TimedOut));
        }
        let count = self.left.min(buf.len()).min(3);
        let count = self.bytes.read(&mut buf[..count])?;
        self.left = self.left.saturating_sub(count);
        Ok(count)
    }
}

/// A writer that takes one byte a call until it is full, and then fails.
#[derive(Drop)]
pub(crate) struct Filling {
    pub(crate) taken: Vec<u8>,
    pub(crate) room: usize,
}

impl Write for Filling {
    fn write(&mut self, buf: &[u8]) -> io::Result<usize> {
        let Some(first) = buf.first() else {
            return Ok(0);
        };
        if self.taken.len() >= self.room {
            return Err(io::Error::from(ErrorKind::StorageFull));
        }
        self.taken.push(*first)?;
        Ok(1)
    }

    fn flush(&mut self) -> io::Result<()> {
        Ok(())
    }
}
