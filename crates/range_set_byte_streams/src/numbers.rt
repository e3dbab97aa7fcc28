//! Numbers in LEB128, read from a stream.

ghost use Rattle.std.specs.declared.alloc.AllocError.{AllocError as Refused};
ghost use Rattle.std.specs.Prelude.{◌≡◌, ◌≢◌, ◌+◌, ◌-◌, ◌≤◌, ℕ, List, Err, IfOk, OnErr, length};
ghost use Rattle.range_set_bytes.specs.Leb128.{leb128};
ghost use Rattle.range_set_bytes.specs.Reading.{reason_of};
ghost use Rattle.range_set_bytes.specs.declared.fault.Fault.{Fault as TheFault};
ghost use Rattle.range_set_byte_streams.specs.Source.{HasNumber, IsPast, StopsAtNumber};
ghost use Rattle.range_set_byte_streams.specs.declared.stream_error.StreamError.TheVariants.{
  Invalid,
  NoMemory,
};

use crate::source::{next_place, peek};
use crate::stream_error::StreamError;
use range_set_bytes::Fault;
use range_set_bytes::numbers::{BadNumber, Wrong, wrong_byte};
use range_set_bytes::read::fault_at;
use std::io::BufRead;

/// Returns the number that comes next, from `least` to `most`, and the position after it. The first
/// `place - start` bytes of the number that starts at `start` were read before, and the number is
/// that of the other bytes.
pub(crate) fn read_number<R: BufRead>(
    input: &mut R,
    start: usize,
    place: usize,
    least: u128,
    most: u128,
) -> Result<(u128, usize), StreamError>
    requires low { least ≤ 1 }
    requires some { least ≤ most }
    requires begun { start ≤ place }
    ensures value { IfOk result (λ read. (least ≤ read.0) × (read.0 ≤ most)) }
    ensures end { IfOk result (λ read. read.1 ≡ place + length (leb128 read.0)) }
    ensures read { (bytes : List ℕ) → R.remaining input.old ≡ Some bytes
        → IfOk result (λ read. HasNumber bytes (R.remaining input.new) read.0) }
    ensures fault { (bytes : List ℕ) (fault : TheFault) → R.remaining input.old ≡ Some bytes
        → result ≡ Err (Invalid fault)
        → StopsAtNumber bytes (R.remaining input.new) least most start place fault }
    ensures past { (bytes : List ℕ) → R.remaining input.old ≡ Some bytes
        → OnErr result (IsPast bytes (R.remaining input.new)) }
    ensures no_memory { (error : Refused) → result ≢ Err (NoMemory error) }
{
    let Some(byte) = peek(input)? else {
        return Err(StreamError::Invalid(wrong_at(start, place, Wrong::Ended)));
    };
    if let Some(wrong) = wrong_byte(byte, least, most) {
        return Err(StreamError::Invalid(wrong_at(start, place, wrong)));
    }
    input.consume(1);
    let after = next_place(place)?;
    let number = u128::from(byte);
    if byte < 128 {
        return Ok((number, after));
    }
    let low = number - 128;
    let (high, end) = read_number(input, start, after, 1, (most - low) / 128)?;
    Ok((low + 128 * high, end))
}

// Returns what is wrong with a byte of the number that starts at `start`.
fn wrong_at(start: usize, place: usize, wrong: Wrong) -> Fault
    requires { start ≤ place }
    ensures place { result.place ≡ place }
    ensures reason { result.reason ≡ reason_of wrong (place - start) }
{
    let taken = place - start;
    fault_at(start, BadNumber { taken, wrong })
}
