//! The program, from its input to its output and exit status (docs/DECISIONS.md, first-fault).

ghost use Rattle.std.specs.Prelude.{◌≡◌, ◌≢◌, ◌<◌, [], ℕ, ℤ, Err, IfSome, List, OnOk, length};
ghost use Rattle.std.specs.Io.KnownBytes.{IsAtEnd, Keeps};
ghost use Rattle.std.specs.Process.{exit_status};
ghost use Rattle.rsb_command_parser.specs.Input.{HasBytes};
ghost use Rattle.rsb_command_parser.specs.Spelling.{IsFirstBadLine};
ghost use Rattle.rsb_commands.specs.Answer.{
  WritesReplies,
  AreNumberReplies,
  KeepsWithoutCommands,
  Replies,
  StopsForMemory,
  WroteFirstReplies,
  WrotePartOfReplies,
};
ghost use Rattle.rsb_commands.specs.Interpreter.{Content};
ghost use Rattle.rsb_commands.specs.Ending.{ProgramEnds, TellsFault, channels, status_after};
ghost use Rattle.rsb_commands.specs.Page.{sent_bytes, waiting_text};
ghost use Rattle.rsb_commands.specs.Text.{text};
ghost use Rattle.rsb_commands.specs.Transfer.{AppendsShortOf};

use crate::interpreter::{empty_sets, run_command};
use crate::page::Page;
use crate::text::{write_fault, write_line};
use rsb_command_parser::{Command, Fault, read_commands};
use std::alloc::Allocator;
use std::io::{Read, Write};
use std::process::ExitCode;

/// Runs the program and returns its exit status: 0, or that of the fault. It writes a line for a
/// fault to `errors`.
pub fn start<A: Allocator + Copy, R: Read, W: Write, E: Write>(
    alloc: A,
    input: &mut R,
    output: &mut W,
    errors: &mut E,
) -> ExitCode
    ensures { ProgramEnds
        (channels (R.remaining input.old) (W.contents output.old) (E.contents errors.old))
        (channels (R.remaining input.new) (W.contents output.new) (E.contents errors.new))
        (exit_status result) }
{
    let outcome = run(alloc, input, output);
    finish(errors, outcome)
}

/// Returns the exit status of an outcome, and writes a line for a fault. If that line cannot be
/// written in full, the status is the same, as there is nowhere left to report it.
pub fn finish<W: Write>(errors: &mut W, outcome: Result<(), Fault>) -> ExitCode
    ensures status { exit_status result ≡ status_after outcome }
    ensures line { TellsFault (W.contents errors.old) (W.contents errors.new) outcome }
{
    match outcome {
        Ok(()) => ExitCode::SUCCESS,
        Err(fault) => {
            let _ = write_fault(errors, fault);
            ExitCode::from(fault.status())
        }
    }
}

/// Reads all of the input, runs the commands that its lines spell, and writes a line for each
/// reply.
///
/// After `BadLine`, nothing has been written. After `NoMemory`, exactly the replies before the
/// command that failed have been written, or nothing if the input was still being read. After `Io`,
/// a prefix of the text of the replies has been written. It is shorter than the text, unless the
/// text is empty. `Io` is also returned for an input that is too long (`Fault::Io`). If a line is
/// bad, nothing is written, whatever the fault is.
pub fn run<A: Allocator + Copy, R: Read, W: Write>(
    alloc: A,
    input: &mut R,
    output: &mut W,
) -> Result<(), Fault>
    ensures end { OnOk result (IsAtEnd (R.remaining input.new)) }
    ensures answers { OnOk result (IfSome (R.remaining input.old) (λ bytes.
        WritesReplies bytes (W.contents output.old) (W.contents output.new))) }

    // After a bad line nothing was written.
    ensures bad_line { (number : ℕ) → result ≡ Err (Fault.BadLine number)
        → IfSome (R.remaining input.old) (λ bytes. IsFirstBadLine bytes number) }
    ensures bad_line_keeps { (number : ℕ) → result ≡ Err (Fault.BadLine number)
        → Keeps (W.contents output.old) (W.contents output.new) }

    // After the other faults the first replies were written, or less than all of their text. By
    // `laws::replies_exist` and `replies_are_unique` there is exactly one list of replies.
    ensures no_memory { result ≡ Err Fault.NoMemory → WroteFirstReplies
        (R.remaining input.old) (W.contents output.old) (W.contents output.new) }
    ensures io { result ≡ Err Fault.Io → WrotePartOfReplies
        (R.remaining input.old) (W.contents output.old) (W.contents output.new) }
    ensures no_commands { KeepsWithoutCommands
        (R.remaining input.old) (W.contents output.old) (W.contents output.new) }

    // An empty input never allocates.
    ensures some_input { result ≡ Err Fault.NoMemory → HasBytes (R.remaining input.old) }
{
    let commands = read_commands(alloc, input)?;
    let mut page = Page::new(output);
    answer(alloc, &commands, &mut page)
}

// Runs the commands, and writes a line for each reply by way of a page on which no text waits. It
// keeps no list of replies: a page is written when it is full. If an allocation fails in a command,
// the replies before it are written.
fn answer<A: Allocator + Copy, W: Write>(
    alloc: A,
    commands: &[Command<i32>],
    page: &mut Page<'_, W>,
) -> Result<(), Fault>
    requires { waiting_text page.old ≡ [] }
    ensures same_output { page.new.output.ghost_name ≡ page.old.output.ghost_name }
    ensures ok { OnOk result
        (Replies commands.now (sent_bytes W.contents page.old) (sent_bytes W.contents page.new)) }
    ensures no_bad_line { (number : ℕ) → result ≢ Err (Fault.BadLine number) }
    ensures no_memory { result ≡ Err Fault.NoMemory → (replies : List (Content ℤ))
        → AreNumberReplies commands.now replies → StopsForMemory commands.now replies
        (sent_bytes W.contents page.old) (sent_bytes W.contents page.new) }
    ensures io { result ≡ Err Fault.Io → (replies : List (Content ℤ))
        → AreNumberReplies commands.now replies
        → AppendsShortOf (sent_bytes W.contents page.old) (sent_bytes W.contents page.new)
        (text replies) }
    ensures some { result ≡ Err Fault.NoMemory → 0 < length commands.now }
{
    if commands.is_empty() {
        return Ok(());
    }
    let mut sets = empty_sets(alloc)?;
    for command in commands {
        let Ok(reply) = run_command(alloc, &mut sets, command) else {
            page.send()?;
            return Err(Fault::NoMemory);
        };
        write_line(page, &reply)?;
    }
    page.send()
}
