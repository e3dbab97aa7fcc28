//! The lines of a text, read one after the other.

ghost use Rattle.std.specs.Prelude.{◌≡◌, ◌++◌, ◌≤◌, ℕ, [], IfErr, IfOk, List, OnOk, Option, Some, drop, length};
ghost use Rattle.std.specs.Io.BufRead.{strip_last};
ghost use Rattle.ip_matches.specs.Progress.{HasKeptTo, HasKeptUpTo, StopsIn};

use crate::fault::MatchFault;
use crate::filter::LineFilter;
use crate::text::progress::{Progress, too_many_lines};
use memchr::memchr;
use std::alloc::Allocator;
use std::io::{BufRead, ErrorKind, Write};

/// Reads the lines to the end of the input, and keeps them or not.
pub(crate) fn read_lines<A: Allocator, B: Allocator, R: BufRead, W: Write>(
    alloc: B,
    filter: &LineFilter<'_, A>,
    input: &mut R,
    output: &mut W,
    progress: &mut Progress,
) -> Result<(), MatchFault>
    ensures kept { (bytes : List ℕ) (start : Option (List ℕ))
        → HasKeptTo filter.now bytes start (R.remaining input.old) (W.contents output.old) progress.old
        → OnOk result (HasKeptTo filter.now bytes start (Some []) (W.contents output.new) progress.new
        × (R.remaining input.new ≡ Some [])) }
    ensures fault { (bytes : List ℕ) (start : Option (List ℕ))
        → HasKeptTo filter.now bytes start (R.remaining input.old) (W.contents output.old) progress.old
        → IfErr result (StopsIn filter.now bytes start (W.contents output.new) progress.new) }
{
    let mut line = Vec::new(alloc);
    for _ in 0..u64::MAX {
        add_buffered(filter, input, output, progress)?;
        // What is left of the buffer is the start of a line, which ends in another part of the
        // input.
        line.clear();
        if input.read_until(b'\n', &mut line)? == 0 {
            return Ok(());
        }
        progress.add_line(filter, without_feed(&line), output)?;
    }
    Err(too_many_lines())
}

// Consumes every complete line in the buffer. The rest stays in the buffer.
fn add_buffered<A: Allocator, R: BufRead, W: Write>(
    filter: &LineFilter<'_, A>,
    input: &mut R,
    output: &mut W,
    progress: &mut Progress,
) -> Result<(), MatchFault>
    ensures kept { (bytes : List ℕ) (start : Option (List ℕ))
        → HasKeptTo filter.now bytes start (R.remaining input.old) (W.contents output.old) progress.old
        → OnOk result (HasKeptTo filter.now bytes start (R.remaining input.new)
        (W.contents output.new) progress.new) }
    ensures fault { (bytes : List ℕ) (start : Option (List ℕ))
        → HasKeptTo filter.now bytes start (R.remaining input.old) (W.contents output.old) progress.old
        → IfErr result (StopsIn filter.now bytes start (W.contents output.new) progress.new) }
{
    match input.fill_buf() {
        Ok(bytes) => {
            let count = add_lines(filter, bytes, output, progress)?;
            input.consume(count);
            Ok(())
        }
        Err(error) => {
            // The next read tries again.
            if error.kind() == ErrorKind::Interrupted {
                return Ok(());
            }
            Err(MatchFault::from(error))
        }
    }
}

// Goes on to the end of the last complete line of the bytes. Returns how many bytes these lines
// have.
fn add_lines<A: Allocator, W: Write>(
    filter: &LineFilter<'_, A>,
    bytes: &[u8],
    output: &mut W,
    progress: &mut Progress,
) -> Result<usize, MatchFault>
    ensures within { IfOk result (λ count. count ≤ length bytes.now) }
    ensures kept { (all more : List ℕ) (start : Option (List ℕ))
        → HasKeptUpTo filter.now all start (bytes.now ++ more) (W.contents output.old) progress.old
        → IfOk result (λ count. HasKeptUpTo filter.now all start (drop count bytes.now ++ more)
        (W.contents output.new) progress.new) }
    ensures fault { (all more : List ℕ) (start : Option (List ℕ))
        → HasKeptUpTo filter.now all start (bytes.now ++ more) (W.contents output.old) progress.old
        → IfErr result (StopsIn filter.now all start (W.contents output.new) progress.new) }
{
    let mut rest = bytes;
    while let Some(end) = memchr(b'\n', rest) {
        progress.add_line(filter, &rest[..end], output)?;
        rest = &rest[end + 1..];
    }
    Ok(bytes.len() - rest.len())
}

// Returns a line without the line feed at its end, if it has one.
fn without_feed(line: &[u8]) -> &[u8]
    ensures { result.now ≡ strip_last 10 line.now }
{
    match line {
        [front @ .., b'\n'] => front,
        _ => line,
    }
}
