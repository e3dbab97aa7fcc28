//! The lines of a text that are kept.

ghost use Rattle.std.specs.Prelude.{◌≡◌, [], IfErr, IfOk, IfSome, OnOk, Some};
ghost use Rattle.ip_matches.specs.KeptLines.{CountsKept, StopsKeeping, WritesKept};

mod progress;
mod reading;

use crate::fault::MatchFault;
use crate::filter::LineFilter;
use crate::text::progress::Progress;
use crate::text::reading::read_lines;
use std::alloc::Allocator;
use std::io::{self, BufRead, Write};

/// Reads a text to its end, and writes the lines that are kept, in order. Returns how many they are.
/// Each is written with a line feed, which the last line of the text may lack.
///
/// A line that is whole in the buffer of the input is not copied. Memory has the longest line that
/// is cut by the end of a buffer.
///
/// After `NotRead` or `NoMemory`, all kept ones of the first lines are written. After `NotWritten`,
/// only a part of their text is. `NotRead` is also returned if 2^64 lines or more are kept.
pub fn write_kept_lines<A: Allocator, B: Allocator, R: BufRead, W: Write>(
    alloc: B,
    filter: &LineFilter<'_, A>,
    input: &mut R,
    output: &mut W,
) -> Result<u64, MatchFault>
    ensures kept { IfOk result (λ count. IfSome (R.remaining input.old) (λ bytes.
        WritesKept filter.now bytes (W.contents output.old) (W.contents output.new) count)) }
    ensures end { OnOk result (IfSome (R.remaining input.old) (λ bytes.
        R.remaining input.new ≡ Some [])) }
    ensures fault { IfErr result (λ fault. IfSome (R.remaining input.old) (λ bytes.
        StopsKeeping filter.now bytes (W.contents output.old) (W.contents output.new) fault)) }
{
    let mut progress = Progress::new();
    match read_lines(alloc, filter, input, output, &mut progress) {
        Ok(()) => progress.finish(output),
        Err(fault) => {
            if fault.is_of_write() {
                return Err(fault);
            }
            match progress.finish(output) {
                Ok(_) => Err(fault),
                Err(unwritten) => Err(unwritten),
            }
        }
    }
}

/// Reads a text to its end, and returns how many of its lines are kept. Memory has the longest line
/// that is cut by the end of a buffer.
///
/// `NotRead` is returned as by `write_kept_lines`.
pub fn count_kept_lines<A: Allocator, B: Allocator, R: BufRead>(
    alloc: B,
    filter: &LineFilter<'_, A>,
    input: &mut R,
) -> Result<u64, MatchFault>
    ensures count { IfOk result (λ count. IfSome (R.remaining input.old) (λ bytes.
        CountsKept filter.now bytes count)) }
    ensures end { OnOk result (IfSome (R.remaining input.old) (λ bytes.
        R.remaining input.new ≡ Some [])) }
{
    write_kept_lines(alloc, filter, input, &mut io::sink())
}
