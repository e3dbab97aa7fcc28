//! Plain lines, without white space and comments, read in one pass over their bytes.

ghost use Rattle.std.specs.Prelude.{IfSome};
ghost use Rattle.ip_sets.specs.AddressRange.{WritesRange, numbers};
ghost use Rattle.ip_sets.specs.Line.{content};
ghost use Rattle.ip_sets.specs.Plain.{BeginsWithLine, EndsBlock, EndsSpan};

use crate::line::family::Family;
use crate::line::octets::{after, octet};
use crate::line::range::block_around;
use std::ops::RangeInclusive;

/// Reads the first line of the bytes, if it is plain and ends in them. Returns the addresses that
/// it means and the bytes after it. `None` means only that the fast path does not apply.
#[inline(always)]
pub(crate) fn plain_line<F: Family>(bytes: &[u8]) -> Option<(RangeInclusive<F>, &[u8])>
    ensures { IfSome result (λ read. BeginsWithLine
        (λ line. WritesRange F.width F.is_address (content line) (numbers F.rank read.0))
        bytes.now read.1.now) }
{
    let (first, rest) = F::read(bytes)?;
    let (end, rest) = rest.split_first()?;
    match *end {
        b'\n' => Some((first..=first, rest)),
        b'/' => plain_block(first, rest),
        b'-' => plain_span(first, rest),
        _ => None,
    }
}

// Reads the length of a block at the start of the bytes, and the line feed after it. Returns the
// addresses of the block and the bytes after the line feed.
#[inline(always)]
fn plain_block<F: Family>(address: F, bytes: &[u8]) -> Option<(RangeInclusive<F>, &[u8])>
    ensures { IfSome result (λ read. EndsBlock F.width (F.rank address) bytes.now
        (numbers F.rank read.0) read.1.now) }
{
    let (length, rest) = octet(bytes)?;
    let rest = after(rest, b'\n')?;
    let length = u32::from(length);
    if length > F::bits() {
        return None;
    }
    Some((block_around(address, length), rest))
}

// Reads the last address of a range at the start of the bytes, and the line feed after it. Returns
// the addresses of the range and the bytes after the line feed.
#[inline(always)]
fn plain_span<F: Family>(first: F, bytes: &[u8]) -> Option<(RangeInclusive<F>, &[u8])>
    ensures { IfSome result (λ read. EndsSpan F.is_address (F.rank first) bytes.now
        (numbers F.rank read.0) read.1.now) }
{
    let (last, rest) = F::read(bytes)?;
    let rest = after(rest, b'\n')?;
    if last.number() < first.number() {
        return None;
    }
    Some((first..=last, rest))
}
