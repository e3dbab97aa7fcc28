//! The program with the arguments of its process.

ghost use Rattle.std.specs.Prelude.{◌≡◌, ◌≢◌, ℕ, [], IfErr, List, Result};
ghost use Rattle.std.specs.Io.KnownBytes.{Keeps};
ghost use Rattle.std.specs.Process.{exit_status};
ghost use Rattle.std.specs.IoError.{error_kind};
ghost use Rattle.std.specs.declared.io.ErrorKind.{ErrorKind};
ghost use Rattle.ip_commands.specs.Fault.{IsQuiet, status_after};
ghost use Rattle.ip_commands.specs.Program.{EndsOnSomeWords, IsBeforeWords};
ghost use Rattle.ip_commands.specs.declared.commands.Outcome.{Outcome};
ghost use Rattle.ip_commands.specs.declared.fault.Fault.{Fault};

use crate::fault::{Fault, Misuse};
use crate::inputs::Inputs;
use crate::program::{finish, start};
use std::alloc::Alloc;
use std::env::{self, Env};
use std::io::{self, ErrorKind, Write};
use std::process::ExitCode;

/// Runs the program on the arguments of its process, and returns its exit status. It writes a line
/// for each bad line that is passed over, and for a fault, to `errors`. An argument that is not UTF-8
/// is a wrong command line.
pub fn start_from_env<R: Env + Alloc, I: Inputs, W: Write, E: Write>(
    rt: &R,
    inputs: &I,
    output: &mut W,
    errors: &mut E,
) -> ExitCode
where
    R::A: Copy,
    ensures ends { (end : Result Outcome Fault) × (told : List ℕ)
        × EndsOnSomeWords (I.bytes inputs.now) told (W.contents output.old)
        (W.contents output.new) end
        × (exit_status result ≡ status_after end)
        × (told ≡ [] → IsQuiet end → Keeps (E.contents errors.old) (E.contents errors.new)) }
{
    match words_of(rt) {
        Ok(words) => start(rt.alloc(), &words, inputs, output, errors),
        Err(fault) => finish(errors, Err(fault)),
    }
}

// Returns the words after the program's name.
fn words_of<R: Env + Alloc>(rt: &R) -> Result<Vec<String<R::A>, R::A>, Fault<'static>>
    ensures { IfErr result IsBeforeWords }
{
    match env::args(rt) {
        Ok(arguments) => Ok(arguments.skip(1).collect(rt.alloc())?),
        Err(error) => Err(no_arguments(error)),
    }
}

// Returns the fault of arguments that could not be read.
fn no_arguments(error: io::Error) -> Fault<'static>
    ensures memory { error_kind error ≡ ErrorKind.OutOfMemory → result ≡ Fault.NoMemory }
    ensures others { error_kind error ≢ ErrorKind.OutOfMemory
        → result ≡ Fault.CommandLine Misuse.NotText }
{
    match error.kind() {
        ErrorKind::OutOfMemory => Fault::NoMemory,
        _ => Fault::CommandLine(Misuse::NotText),
    }
}
