//! Readers and writers that fail, or are interrupted.

use std::io::{self, ErrorKind, Read, Write};

/// A reader that gives at most three bytes a call, with an interruption before each. It fails once
/// it gave the bytes that are left.
#[derive(Drop)]
pub(crate) struct Failing<'a> {
    pub(crate) bytes: &'a [u8],
    pub(crate) left: usize,
    pub(crate) kind: ErrorKind,
    pub(crate) is_interrupted: bool,
}

impl Read for Failing<'_> {
    fn read(&mut self, buf: &mut [u8]) -> io::Result<usize> {
        self.is_interrupted = !self.is_interrupted;
        if self.is_interrupted {
            return Err(io::Error::from(ErrorKind::Interrupted));
        }
        if self.left == 0 {
            return Err(io::Error::from(self.kind));
        }
        let count = self.left.min(buf.len()).min(3);
        let count = self.bytes.read(&mut buf[..count])?;
        self.left = self.left.saturating_sub(count);
        Ok(count)
    }
}

/// A writer that takes at most three bytes a call, with an interruption before each, until it is
/// full. Then it fails, or takes no bytes.
#[derive(Drop)]
pub(crate) struct Filling {
    pub(crate) taken: Vec<u8>,
    pub(crate) room: usize,
    pub(crate) fails: bool,
    pub(crate) is_interrupted: bool,
}

impl Write for Filling {
    fn write(&mut self, buf: &[u8]) -> io::Result<usize> {
        self.is_interrupted = !self.is_interrupted;
        if self.is_interrupted {
            return Err(io::Error::from(ErrorKind::Interrupted));
        }
        let room = self.room.saturating_sub(self.taken.len());
        if room == 0 && self.fails {
            return Err(io::Error::from(ErrorKind::StorageFull));
        }
        let count = room.min(buf.len()).min(3);
        self.taken.extend_from_slice(&buf[..count])?;
        Ok(count)
    }

    fn flush(&mut self) -> io::Result<()> {
        Ok(())
    }
}
