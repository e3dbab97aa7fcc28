//! The bytes of a reader, one by one.

ghost use Rattle.std.specs.Prelude.{◌≡◌, ◌+◌, IfOk, IfErr};
ghost use Rattle.std.specs.Io.KnownBytes.{Keeps};
ghost use Rattle.range_set_byte_streams.specs.Source.{Shows};

use std::io::{self, BufRead, ErrorKind};

/// Returns the next byte, or `None` at the end. The byte stays, and may then be consumed. A read
/// that was interrupted is made again.
#[inline(always)]
pub(crate) fn peek<R: BufRead>(input: &mut R) -> io::Result<Option<u8>>
    ensures kept { Keeps (R.remaining input.old) (R.remaining input.new) }
    ensures shown { IfOk result
        (Shows (R.remaining input.old) (R.consumable_len input.new)) }
{
    for _ in 0..u64::MAX {
        match input.fill_buf() {
            Ok(bytes) => return Ok(bytes.first().copied()),
            Err(error) => {
                if error.kind() != ErrorKind::Interrupted {
                    return Err(error);
                }
            }
        }
    }
    Err(io::Error::from(ErrorKind::Interrupted))
}

/// Returns the position after another one, or an error if it is too large.
#[inline(always)]
pub(crate) fn next_place(place: usize) -> io::Result<usize>
    ensures { IfOk result (λ next. next ≡ place + 1) }
{
    match place.checked_add(1) {
        Some(next) => Ok(next),
        None => Err(io::Error::from(ErrorKind::FileTooLarge)),
    }
}
