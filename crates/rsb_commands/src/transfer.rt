//! Writing a whole text, in as many calls as it takes (docs/DECISIONS.md, own-loops).

ghost use Rattle.rsb_commands.specs.Transfer.{Writes};

use rsb_command_parser::Fault;
use std::io::{ErrorKind, Write};

/// Writes all of the text and returns the patience that is left: the number of further
/// interruptions at which the writer fails. Returns `Io` if a call fails or takes no bytes. An
/// interruption at a patience of 1 or 0 is a failure.
pub(crate) fn write_all<W: Write>(output: &mut W, text: &[u8], patience: u64) -> Result<u64, Fault>
    ensures { Writes (W.contents output.old) (W.contents output.new) result text.now }
{
    let mut rest = text;
    let mut left = patience;
    while !rest.is_empty() {
        match output.write(rest) {
            Ok(0) => return Err(Fault::Io),
            Ok(count) => rest = &rest[count..],
            Err(error) => {
                if error.kind() != ErrorKind::Interrupted || left <= 1 {
                    return Err(Fault::Io);
                }
                left -= 1;
            }
        }
    }
    Ok(left)
}
