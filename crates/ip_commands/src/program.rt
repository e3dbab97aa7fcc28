//! The program, from its command line and inputs to its output and exit status.

ghost use Rattle.std.specs.Prelude.{◌≡◌, ℕ, [], List, Result, map};
ghost use Rattle.std.specs.Io.KnownBytes.{Keeps};
ghost use Rattle.std.specs.Process.{exit_status};
ghost use Rattle.ip_commands.specs.CommandLine.{AreArguments};
ghost use Rattle.ip_commands.specs.Fault.{IsQuiet, status_after};
ghost use Rattle.ip_commands.specs.Program.{Ends};
ghost use Rattle.ip_commands.specs.declared.commands.Outcome.{Outcome};
ghost use Rattle.ip_commands.specs.declared.fault.Fault.{Fault};

use crate::arguments::Arguments;
use crate::commands::{Outcome, run};
use crate::fault::Fault;
use crate::inputs::Inputs;
use std::alloc::Allocator;
use std::convert::AsStr;
use std::io::Write;
use std::process::ExitCode;

/// Runs the program on the words after its name, and returns its exit status. It writes a line for
/// each bad line that is passed over, and for a fault, to `errors`.
pub fn start<A: Allocator + Copy, S: AsStr, I: Inputs, W: Write, E: Write>(
    alloc: A,
    words: &[S],
    inputs: &I,
    output: &mut W,
    errors: &mut E,
) -> ExitCode
    ensures ends { (end : Result Outcome Fault) × (told : List ℕ)
        × Ends (I.bytes inputs.now) (map S.text words.now) told (W.contents output.old)
        (W.contents output.new) end
        × (exit_status result ≡ status_after end)
        × (told ≡ [] → IsQuiet end → Keeps (E.contents errors.old) (E.contents errors.new)) }
{
    match Arguments::new(alloc, words) {
        Ok(arguments) => {
            let mut told = Vec::new(alloc);
            let end = answer(alloc, &arguments, inputs, output, &mut told);
            tell(errors, &told);
            finish(errors, end)
        }
        Err(fault) => finish(errors, Err(fault)),
    }
}

// Writes the reports of bad lines that were passed over. If they cannot be written in full, there is
// nowhere left to report it.
fn tell<E: Write>(errors: &mut E, told: &[u8])
    ensures { told.now ≡ [] → Keeps (E.contents errors.old) (E.contents errors.new) }
{
    if !told.is_empty() {
        let _ = errors.write_all(told);
    }
}

// Runs what the arguments ask for. Adds a line for each bad line that is passed over to `told`.
fn answer<'s, 'a, A: Allocator + Copy, I: Inputs, W: Write>(
    alloc: A,
    arguments: &'s Arguments<'a, A>,
    inputs: &I,
    output: &mut W,
    told: &mut Vec<u8, A>,
) -> Result<Outcome, Fault<'s>>
    ensures { (words : List (List ℕ)) → AreArguments words arguments.now
        → told.old.items ≡ [] → Ends (I.bytes inputs.now) words told.new.items
        (W.contents output.old) (W.contents output.new) result }
{
    let request = arguments.request()?;
    let outcome = run(alloc, inputs, request, output, told)?;
    output.flush()?;
    Ok(outcome.past(told))
}

/// Returns the exit status of an outcome, and writes a line for a fault, unless the reader of the
/// output went away. If that line cannot be written in full, the status is the same, as there is
/// nowhere left to report it.
pub fn finish<E: Write>(errors: &mut E, outcome: Result<Outcome, Fault<'_>>) -> ExitCode
    ensures status { exit_status result ≡ status_after outcome.entry }
    ensures quiet { IsQuiet outcome.entry
        → Keeps (E.contents errors.old) (E.contents errors.new) }
{
    match outcome {
        Ok(outcome) => ExitCode::from(outcome.status()),
        Err(fault) => {
            if !fault.is_silent() {
                let _ = writeln!(errors, "{fault}");
            }
            ExitCode::from(fault.status())
        }
    }
}
