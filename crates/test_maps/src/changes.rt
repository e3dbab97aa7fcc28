//! Changes of a map by name, and what each does.

use range_map_blaze::RangeMapBlaze;
use std::alloc::{AllocError, Allocator};

/// A change of a map from bytes to bytes.
#[derive(Clone, Copy)]
pub(crate) enum Change {
    Insert(u8, u8),
    RangesInsert(u8, u8, u8),
    Remove(u8),
    RangesRemove(u8, u8),
    PopFirst,
    PopLast,
    SplitOff(u8),
}

/// Carries out a change, and returns the value that it returns, or 0 for none.
pub(crate) fn carry_out<A: Allocator + Copy>(
    change: Change,
    map: &mut RangeMapBlaze<u8, u8, A>,
) -> Result<u8, AllocError> {
    match change {
        Change::Insert(key, value) => Ok(map.insert(key, value)?.unwrap_or(0)),
        Change::RangesInsert(first, last, value) => {
            map.ranges_insert(first..=last, value)?;
            Ok(0)
        }
        Change::Remove(key) => Ok(map.remove(key)?.unwrap_or(0)),
        Change::RangesRemove(first, last) => {
            map.ranges_remove(first..=last)?;
            Ok(0)
        }
        Change::PopFirst => Ok(value_of(map.pop_first()?)),
        Change::PopLast => Ok(value_of(map.pop_last()?)),
        Change::SplitOff(key) => {
            let high = map.split_off(key)?;
            Ok(high.first_key_value().map(|pair| *pair.1).unwrap_or(0))
        }
    }
}

/// Returns the value of a pair, or 0 for none.
fn value_of(pair: Option<(u8, u8)>) -> u8 {
    match pair {
        Some((_, value)) => value,
        None => 0,
    }
}
