//! Text that is buffered before it is written (docs/DECISIONS.md, page).

ghost use Rattle.std.specs.Prelude.{◌≡◌, ◌+◌, ◌≤◌, [], length, OnOk};
ghost use Rattle.rsb_commands.specs.Page.{Lays, Waits, waiting_text};

use crate::transfer::write_all;
use arrayvec::ArrayVec;
use rsb_command_parser::Fault;
use std::io::Write;

/// The number of bytes that a page holds.
pub(crate) const PAGE: usize = 65_536;

/// The number of bytes that a page has room for after `make_room`.
pub(crate) const ROOM: usize = 32;

/// A writer, and the text that waits to be written, in a buffer of fixed size. It does not
/// allocate.
#[derive(Drop)]
pub(crate) struct Page<'a, W: Write> {
    output: &'a mut W,
    text: ArrayVec<u8, PAGE>,
    // The writer fails once it was interrupted this many more times.
    patience: u64,
}

impl<'a, W: Write> Page<'a, W> {
    /// Returns an empty page for a writer. The writer fails once it has been interrupted 2^64 - 1
    /// times in total, over all of its writes.
    pub(crate) fn new(output: &'a mut W) -> Page<'a, W>
        ensures output { result.output ≡ output.entry }
        ensures empty { waiting_text result ≡ [] }
    {
        Page {
            output,
            text: ArrayVec::new(),
            patience: u64::MAX,
        }
    }

    /// Appends to the text that waits. There must be room for the new text.
    #[inline(always)]
    pub(crate) fn lay(&mut self, text: &[u8])
        requires { length (waiting_text self.old) + length text.now ≤ PAGE }
        ensures { Waits self.old self.new text.now }
    {
        self.text.try_extend_from_slice(text).unwrap();
    }

    /// Makes room for `ROOM` bytes: if there is less, it writes the text that waits.
    #[inline(always)]
    pub(crate) fn make_room(&mut self) -> Result<(), Fault>
        ensures laid { Lays W.contents self.old self.new result [] }
        ensures room { OnOk result (length (waiting_text self.new) + ROOM ≤ PAGE) }
    {
        if self.text.remaining_capacity() < ROOM {
            return self.send();
        }
        Ok(())
    }

    /// Writes the text that waits.
    pub(crate) fn send(&mut self) -> Result<(), Fault>
        ensures laid { Lays W.contents self.old self.new result [] }
        ensures empty { OnOk result (waiting_text self.new ≡ []) }
    {
        let patience = self.patience;
        self.patience = write_all(self.output, self.text.as_slice(), patience)?;
        self.text.clear();
        Ok(())
    }
}
