//! The commands of an input that is read in parts.

ghost use Rattle.std.specs.Prelude.{
  ◌≡◌,
  ◌≢◌,
  ℕ,
  ℤ,
  ◌+◌,
  ◌<◌,
  ◌≤◌,
  ◌++◌,
  [],
  Err,
  IfErr,
  IfOk,
  IfSome,
  IsNone,
  List,
  OnOk,
  length,
  take,
};
ghost use Rattle.std.specs.Io.KnownBytes.{IsAtEnd};
ghost use Rattle.rsb_command_parser.specs.declared.command.Command.{Command};
ghost use Rattle.rsb_command_parser.specs.Input.{HasBytes, HasTaken, IsClosed};
ghost use Rattle.rsb_command_parser.specs.Spelling.{AreCommands, IsFirstBadLine};

use crate::command::Command;
use crate::fault::Fault;
use crate::parse::parse_lines;
use memchr::memrchr;
use std::alloc::Allocator;
use std::io::{ErrorKind, Read};

/// What was read so far: the commands of whole lines, and the bytes after the last line feed.
#[derive(Drop)]
struct Reading<A: Allocator> {
    commands: Vec<Command<i32>, A>,
    // The number of these lines.
    count: u64,
    rest: Vec<u8, A>,
    // The number of the first bad line, if there is one. What follows is read but not kept.
    bad_line: Option<u64>,
    alloc: A,
}

/// Reads an input to its end, and returns the commands that its lines spell. Besides the commands,
/// it keeps only the last part that was read and the unfinished line before it.
///
/// `BadLine` has the number of the first bad line. The rest of the input is then still read, but
/// not kept. `NoMemory` is returned if an allocation for these bytes or for the commands fails.
/// `Io` is returned if a read fails, or if there are 2^64 lines or more. It is also returned if the
/// reader has not ended after 2^64 - 1 calls, counting interrupted ones.
///
/// No clause states what an error leaves of the input. After `BadLine` it is at its end. After
/// `NoMemory` and `Io` it is past the bytes that were read, and these and their commands are lost.
pub fn read_commands<A: Allocator + Copy, R: Read>(
    alloc: A,
    input: &mut R,
) -> Result<Vec<Command<i32>, A>, Fault>
    ensures commands { IfOk result (λ commands.
        IfSome (R.remaining input.old) (λ bytes. AreCommands bytes commands.items)) }
    ensures only { IfOk result (λ commands. IfSome (R.remaining input.old) (λ bytes.
        (others : List (Command ℤ)) → AreCommands bytes others → others ≡ commands.items)) }
    ensures end { OnOk result (IsAtEnd (R.remaining input.new)) }
    ensures bad_line { (number : ℕ) → result ≡ Err (Fault.BadLine number)
        → IfSome (R.remaining input.old) (λ bytes. IsFirstBadLine bytes number) }
    ensures some_input { result ≡ Err Fault.NoMemory → HasBytes (R.remaining input.old) }
{
    let mut reading = Reading::new(alloc);
    let mut buffer = [0; 65_536];
    for _ in 0..u64::MAX {
        match input.read(&mut buffer) {
            Ok(0) => return reading.finish(),
            Ok(count) => reading.take(&buffer[..count])?,
            Err(error) => {
                if error.kind() != ErrorKind::Interrupted {
                    return Err(Fault::Io);
                }
            }
        }
    }
    Err(Fault::Io)
}

impl<A: Allocator + Copy> Reading<A> {
    // Returns the state before the first byte.
    fn new(alloc: A) -> Self
        ensures { HasTaken [] result }
    {
        Reading {
            commands: Vec::new(alloc),
            count: 0,
            rest: Vec::new(alloc),
            bad_line: None,
            alloc,
        }
    }

    // Takes the next bytes of the input. Returns `NoMemory` or `Io`, but never `BadLine`: the
    // number of a bad line is stored.
    fn take(&mut self, bytes: &[u8]) -> Result<(), Fault>
        ensures taken { (before : List ℕ) → HasTaken before self.old
            → OnOk result (HasTaken (before ++ bytes.now) self.new) }
        ensures no_bad_line { (number : ℕ) → result ≢ Err (Fault.BadLine number) }
    {
        if self.bad_line.is_some() {
            return Ok(());
        }
        let before = self.rest.len();
        self.rest.extend_from_slice(bytes)?;
        match memrchr(b'\n', bytes) {
            Some(last) => self.take_lines(before + last + 1),
            None => Ok(()),
        }
    }

    // Takes the lines of the first `end` bytes of `rest`, which must end with a line feed.
    fn take_lines(&mut self, end: usize) -> Result<(), Fault>
        requires within { end ≤ length self.old.rest.items }
        requires closed { IsClosed (take end self.old.rest.items) }
        requires good { IsNone self.old.bad_line }
        ensures taken { (before : List ℕ) → HasTaken before self.old
            → OnOk result (HasTaken before self.new) }
        ensures no_bad_line { (number : ℕ) → result ≢ Err (Fault.BadLine number) }
    {
        match parse_lines(self.alloc, &self.rest[..end]) {
            Ok((commands, count)) => {
                self.count = sum(self.count, count)?;
                let mut commands = commands;
                self.commands.append(&mut commands)?;
                let mut rest = Vec::new(self.alloc);
                rest.extend_from_slice(&self.rest[end..])?;
                self.rest = rest;
            }
            Err(Fault::BadLine(number)) => self.bad_line = Some(sum(self.count, number)?),
            Err(fault) => return Err(fault),
        }
        Ok(())
    }

    // Returns the commands, or the first bad line, once there are no more bytes.
    fn finish(self) -> Result<Vec<Command<i32>, A>, Fault>
        ensures commands { (bytes : List ℕ) → HasTaken bytes self
            → IfOk result (λ commands. AreCommands bytes commands.items) }
        ensures bad_line { (bytes : List ℕ) (number : ℕ) → HasTaken bytes self
            → result ≡ Err (Fault.BadLine number) → IsFirstBadLine bytes number }
        ensures took_memory { (bytes : List ℕ) → HasTaken bytes self
            → result ≡ Err Fault.NoMemory → 0 < length bytes }
    {
        let Reading {
            commands,
            count,
            rest,
            bad_line,
            alloc,
        } = self;
        if let Some(number) = bad_line {
            return Err(Fault::BadLine(number));
        }
        if rest.is_empty() {
            return Ok(commands);
        }
        match parse_lines(alloc, &rest) {
            Ok((last, _)) => {
                let mut commands = commands;
                let mut last = last;
                commands.append(&mut last)?;
                Ok(commands)
            }
            Err(Fault::BadLine(number)) => Err(Fault::BadLine(sum(count, number)?)),
            Err(fault) => Err(fault),
        }
    }
}

// Returns the sum of two numbers of lines, or `Io` if it is 2^64 or more.
fn sum(left: u64, right: u64) -> Result<u64, Fault>
    ensures sum { IfOk result (λ sum. sum ≡ left + right) }
    ensures err { IfErr result (λ fault. fault ≡ Fault.Io) }
{
    left.checked_add(right).ok_or(Fault::Io)
}
