//! Writes a set as bytes (docs/DECISIONS.md, bytes-by-ranks).

ghost use Rattle.std.specs.Prelude.{◌≡◌, ◌<◌, ◌^◌, IfOk};
ghost use Rattle.range_set_bytes.specs.Format.{bytes_of, header};
ghost use Rattle.range_set_bytes.specs.Reading.{from_of};

use crate::numbers::push_number;
use crate::ranked_integer::RankedInteger;
use range_set_blaze::RangeSetBlaze;
use std::alloc::{AllocError, Allocator};

/// Returns the bytes of a set (`docs/FORMAT.md`). Equal sets of a type have equal bytes, and
/// different ones different bytes. If allocation fails, nothing is made.
pub fn to_bytes<T: RankedInteger, A: Allocator, B: Allocator>(
    alloc: B,
    set: &RangeSetBlaze<T, A>,
) -> Result<Vec<u8, B>, AllocError>
    ensures { IfOk result (λ bytes. bytes.items ≡ bytes_of T.value_count set.now) }
{
    let mut bytes = Vec::new(alloc);
    bytes.extend_from_slice(&header_of::<T>())?;
    push_number(&mut bytes, set.ranges_len() as u128)?;
    let mut ranges = set.ranges();
    let mut previous = None;
    while let Some(range) = ranges.next() {
        let first = range.start().to_rank();
        let last = range.end().to_rank();
        push_number(&mut bytes, first - rank_after(previous))?;
        push_number(&mut bytes, last - first)?;
        previous = Some(last);
    }
    Ok(bytes)
}

/// Returns what the bytes of each set of a type begin with.
pub fn header_of<T: RankedInteger>() -> [u8; 6]
    ensures { result ≡ header T.value_count }
{
    let greatest = T::max_value().to_rank();
    let bits = (128 - greatest.leading_zeros()) as u8;
    [0xF5, 0x52, 0x53, 0x42, 1, bits]
}

/// Returns the rank after that at which a run ends, or 0 if there is no run.
pub fn rank_after(previous: Option<u128>) -> u128
    requires { from_of previous < 2 ^ 128 }
    ensures { result ≡ from_of previous }
{
    match previous {
        Some(last) => last + 1,
        None => 0,
    }
}
