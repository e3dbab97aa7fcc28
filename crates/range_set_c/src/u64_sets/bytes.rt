//! The bytes of a set (docs/FORMAT.md).

ghost use Rattle.std.specs.Prelude.{◌≡◌, ◌⊎◌, ◌++◌, ◌<◌, ◌^◌, List, drop, length};
ghost use Rattle.rsb_integer.specs.Runs.{Interval};
ghost use Rattle.range_set_bytes.specs.Format.{bytes_of, IsWritable};
ghost use Rattle.range_set_c.specs.Answer.{HasNoRoom, IsChanged, IsRefused};
ghost use Rattle.range_set_c.specs.BadBytes.{IsBadBytes, IsWrongAt};

use super::handle::Handle;
use super::text::put;
use crate::bad_bytes::reason_number;
use crate::status::{BAD_BYTES, CHANGED, NO_MEMORY, NO_ROOM};
use range_set_blaze::RangeSetBlaze;
use range_set_bytes::{ReadError, from_bytes, to_bytes};
use std::alloc::Global;

/// Writes the bytes of a set to the front of a buffer, stores their number in `needed`, and returns
/// `CHANGED`. If they do not fit, it returns `NO_ROOM`, and the buffer is unchanged. If an
/// allocation fails, it returns `NO_MEMORY`, and `needed` is unchanged too.
#[unsafe(no_mangle)]
pub extern "C" fn rsb_u64_to_bytes(
    alloc: Global,
    set: &mut Handle,
    buffer: &mut [u8],
    needed: &mut usize,
) -> u32
    ensures answer { IsChanged result ⊎ IsRefused result ⊎ HasNoRoom result }
    ensures written { IsChanged result → buffer.new ≡ bytes_of (2 ^ 64) set.old.kept.set
        ++ drop (length (bytes_of (2 ^ 64) set.old.kept.set)) buffer.old }
    ensures needed { ¬ IsRefused result
        → needed.new ≡ length (bytes_of (2 ^ 64) set.old.kept.set) }
    ensures no_room { HasNoRoom result
        → length buffer.old < length (bytes_of (2 ^ 64) set.old.kept.set) }
    ensures left { ¬ IsChanged result → buffer.new ≡ buffer.old }
    ensures refused { IsRefused result → needed.new ≡ needed.old }
    ensures same { set.new.kept.set ≡ set.old.kept.set }
{
    let empty = RangeSetBlaze::new(alloc);
    let set = set.set_or(&empty);
    let Ok(bytes) = to_bytes(alloc, set) else {
        return NO_MEMORY;
    };
    *needed = bytes.len();
    if !put(&bytes, buffer) {
        return NO_ROOM;
    }
    CHANGED
}

/// Sets `out` to the set whose bytes these are, and returns `CHANGED`. If they are those of no set,
/// it stores the position of the first wrong byte in `at`, and the number of the reason in
/// `reason`, and returns `BAD_BYTES`. If an allocation fails, it returns `NO_MEMORY`. In both cases,
/// `out` is unchanged.
#[unsafe(no_mangle)]
pub extern "C" fn rsb_u64_from_bytes(
    alloc: Global,
    out: &mut Handle,
    bytes: &[u8],
    at: &mut usize,
    reason: &mut u32,
) -> u32
    ensures answer { IsChanged result ⊎ IsRefused result ⊎ IsBadBytes result }
    ensures read { IsChanged result → bytes.now ≡ bytes_of (2 ^ 64) out.new.kept.set }
    ensures only { (runs : List Interval) → IsChanged result → IsWritable (2 ^ 64) runs
        → bytes.now ≡ bytes_of (2 ^ 64) runs → out.new.kept.set ≡ runs }
    ensures taken { (runs : List Interval) → IsWritable (2 ^ 64) runs
        → bytes.now ≡ bytes_of (2 ^ 64) runs → ¬ IsBadBytes result }
    ensures wrong { IsBadBytes result → IsWrongAt (2 ^ 64) bytes.now at.new reason.new }
    ensures left { ¬ IsChanged result → out.new.kept.set ≡ out.old.kept.set }
    ensures unstored { ¬ IsBadBytes result → (at.new ≡ at.old) × (reason.new ≡ reason.old) }
{
    match from_bytes(alloc, bytes) {
        Ok(set) => out.set_to(alloc, Ok(set)),
        Err(ReadError::NoMemory(_)) => NO_MEMORY,
        Err(ReadError::Invalid(fault)) => {
            *at = fault.place;
            *reason = reason_number(fault.reason);
            BAD_BYTES
        }
    }
}
