//! Readers and writers that fail, or are interrupted.

use linked_list_allocator::LocalHeap;
use std::alloc::AllocError;
use std::io;
use std::io::{ErrorKind, Read, Write};

/// Each kind of error except an interruption.
pub(crate) static KINDS: [ErrorKind; 40] = [
    ErrorKind::NotFound,
    ErrorKind::PermissionDenied,
    ErrorKind::ConnectionRefused,
    ErrorKind::ConnectionReset,
    ErrorKind::HostUnreachable,
    ErrorKind::NetworkUnreachable,
    ErrorKind::ConnectionAborted,
    ErrorKind::NotConnected,
    ErrorKind::AddrInUse,
    ErrorKind::AddrNotAvailable,
    ErrorKind::NetworkDown,
    ErrorKind::BrokenPipe,
    ErrorKind::AlreadyExists,
    ErrorKind::WouldBlock,
    ErrorKind::NotADirectory,
    ErrorKind::IsADirectory,
    ErrorKind::DirectoryNotEmpty,
    ErrorKind::ReadOnlyFilesystem,
    ErrorKind::FilesystemLoop,
    ErrorKind::StaleNetworkFileHandle,
    ErrorKind::InvalidInput,
    ErrorKind::InvalidData,
    ErrorKind::TimedOut,
    ErrorKind::WriteZero,
    ErrorKind::StorageFull,
    ErrorKind::NotSeekable,
    ErrorKind::QuotaExceeded,
    ErrorKind::FileTooLarge,
    ErrorKind::ResourceBusy,
    ErrorKind::ExecutableFileBusy,
    ErrorKind::Deadlock,
    ErrorKind::CrossesDevices,
    ErrorKind::TooManyLinks,
    ErrorKind::InvalidFilename,
    ErrorKind::ArgumentListTooLong,
    ErrorKind::Unsupported,
    ErrorKind::UnexpectedEof,
    ErrorKind::OutOfMemory,
    ErrorKind::InProgress,
    ErrorKind::Other,
];

/// A reader that gives one byte a call, with an interruption before each. At the end of the bytes
/// it may fail once.
#[derive(Drop)]
pub struct Dripping<'a> {
    pub bytes: &'a [u8],
    pub failure: Option<ErrorKind>,
    pub is_interrupted: bool,
}

impl Read for Dripping<'_> {
    fn read(&mut self, buf: &mut [u8]) -> io::Result<usize> {
        self.is_interrupted = !self.is_interrupted;
        if self.is_interrupted {
            return Err(io::Error::from(ErrorKind::Interrupted));
        }
        if self.bytes.is_empty()
            && let Some(kind) = self.failure.take()
        {
            return Err(io::Error::from(kind));
        }
        let count = self.bytes.len().min(buf.len()).min(1);
        self.bytes.read(&mut buf[..count])
    }
}

/// A writer that takes one byte a call, with an interruption before each, until it is full. Then it
/// either fails once and takes the rest, or takes no more.
#[derive(Drop)]
pub struct Filling {
    pub taken: Vec<u8>,
    pub room: usize,
    pub failure: Option<ErrorKind>,
    pub is_interrupted: bool,
}

impl Write for Filling {
    fn write(&mut self, buf: &[u8]) -> io::Result<usize> {
        self.is_interrupted = !self.is_interrupted;
        if self.is_interrupted {
            return Err(io::Error::from(ErrorKind::Interrupted));
        }
        let Some(first) = buf.first() else {
            return Ok(0);
        };
        if self.taken.len() < self.room {
            self.taken.push(*first)?;
            return Ok(1);
        }
        let Some(kind) = self.failure.take() else {
            return Ok(0);
        };
        self.room = usize::MAX;
        Err(io::Error::from(kind))
    }

    fn flush(&mut self) -> io::Result<()> {
        Ok(())
    }
}

/// A reader that is interrupted the given number of times, and then reads the bytes.
#[derive(Drop)]
pub struct Delayed<'a> {
    pub bytes: &'a [u8],
    pub interruptions: u32,
}

impl Read for Delayed<'_> {
    fn read(&mut self, buf: &mut [u8]) -> io::Result<usize> {
        if self.interruptions > 0 {
            self.interruptions -= 1;
            return Err(io::Error::from(ErrorKind::Interrupted));
        }
        self.bytes.read(buf)
    }
}

/// A writer that is interrupted the given number of times, and then takes all bytes.
#[derive(Drop)]
pub struct Hesitant {
    pub taken: Vec<u8>,
    pub interruptions: u32,
}

impl Write for Hesitant {
    fn write(&mut self, buf: &[u8]) -> io::Result<usize> {
        if self.interruptions > 0 {
            self.interruptions -= 1;
            return Err(io::Error::from(ErrorKind::Interrupted));
        }
        self.taken.write(buf)
    }

    fn flush(&mut self) -> io::Result<()> {
        Ok(())
    }
}

/// A reader of the bytes. At their end it allocates all that is free in a heap, except one block of
/// the given size, and keeps it until it is dropped.
#[derive(Drop)]
pub struct Holding<'a> {
    pub bytes: &'a [u8],
    pub heap: &'a LocalHeap,
    pub spared: usize,
    pub held: Vec<Vec<u8, &'a LocalHeap>>,
}

impl Holding<'_> {
    fn hold(&mut self) -> Result<(), AllocError> {
        let spared = Vec::<u8, &LocalHeap>::with_capacity(self.heap, self.spared)?;
        for _ in 0..self.heap.size() {
            let Ok(block) = Vec::with_capacity(self.heap, 1) else {
                break;
            };
            self.held.push(block)?;
        }
        drop(spared);
        Ok(())
    }
}

impl Read for Holding<'_> {
    fn read(&mut self, buf: &mut [u8]) -> io::Result<usize> {
        if self.bytes.is_empty() {
            self.hold()?;
        }
        self.bytes.read(buf)
    }
}
