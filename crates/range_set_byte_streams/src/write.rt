//! Writes a set to a stream.

ghost use Rattle.std.specs.Prelude.{◌≡◌};
ghost use Rattle.range_set_bytes.specs.Format.{bytes_of, header};
ghost use Rattle.range_set_byte_streams.specs.Transfer.{Writes};

use crate::page::{Page, lay_number, send};
use range_set_blaze::RangeSetBlaze;
use range_set_bytes::RankedInteger;
use range_set_bytes::write::{header_of, rank_after};
use std::alloc::Allocator;
use std::io::{self, Write};

/// Writes the bytes of a set (`docs/FORMAT.md`). They are gathered in a buffer of 8 KiB, so the
/// writer needs none, and no memory is allocated. The writer is not flushed.
///
/// Returns an error if a write fails or takes no bytes. Then the first of the bytes were written,
/// but not all of them. A write that was interrupted is made again.
pub fn write_to<T: RankedInteger, A: Allocator, W: Write>(
    set: &RangeSetBlaze<T, A>,
    output: &mut W,
) -> io::Result<()>
    ensures { Writes (W.contents output.old) (W.contents output.new) result
        (bytes_of T.value_count set.now) }
{
    let mut page = begun::<T>();
    lay_number(output, &mut page, set.ranges_len() as u128)?;
    let mut ranges = set.ranges();
    let mut previous = None;
    while let Some(range) = ranges.next() {
        let first = range.start().to_rank();
        let last = range.end().to_rank();
        lay_number(output, &mut page, first - rank_after(previous))?;
        lay_number(output, &mut page, last - first)?;
        previous = Some(last);
    }
    send(output, &mut page)
}

// Returns a page with what the bytes of each set of a type begin with.
fn begun<T: RankedInteger>() -> Page
    ensures { result.items ≡ header T.value_count }
{
    let mut page = Page::new();
    page.try_extend_from_slice(&header_of::<T>()).unwrap();
    page
}
