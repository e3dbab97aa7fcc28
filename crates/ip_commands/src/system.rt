//! The files of the system, and its standard input.

use crate::inputs::Inputs;
use std::fs::{self, Files};
use std::io::{self, BufReader, Read};

/// The number of bytes that are read at a time.
const PART: usize = 65_536;

/// Opens files by their paths, and standard input as `-`.
#[derive(Drop)]
pub struct SystemInputs<'a, R> {
    runtime: &'a R,
}

impl<'a, R: Files + Input + AllocGlobal> SystemInputs<'a, R> {
    /// Returns the inputs of a runtime.
    pub fn new(runtime: &'a R) -> Self {
        SystemInputs { runtime }
    }
}

/// A file, or standard input.
#[derive(Drop)]
pub enum Source<F, S> {
    /// A file.
    File(F),
    /// Standard input.
    Standard(S),
}

impl<F: Read, S: Read> Read for Source<F, S> {
    fn read(&mut self, buf: &mut [u8]) -> io::Result<usize> {
        match self {
            Source::File(file) => file.read(buf),
            Source::Standard(input) => input.read(buf),
        }
    }
}

impl<'a, R: Files + Input + AllocGlobal> Inputs for SystemInputs<'a, R> {
    type Input = BufReader<Source<R::File, R::Reader>>;

    fn open(&self, name: &str) -> io::Result<Self::Input> {
        let source = match name {
            "-" => Source::Standard(self.runtime.reader()),
            path => Source::File(fs::open(self.runtime, path)?),
        };
        BufReader::with_capacity(self.runtime.alloc(), PART, source)
    }
}
