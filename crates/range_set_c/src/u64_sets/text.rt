//! The text of a set, such as `1..=5, 10..=20`.

ghost use Rattle.std.specs.Prelude.{
  ◌≡◌,
  ◌⊎◌,
  ◌++◌,
  ◌<◌,
  [],
  drop,
  length,
  IfOk,
  IsFalse,
  IsTrue,
  MatchOption,
};
ghost use Rattle.std.specs.String.{string_bytes};
ghost use Rattle.range_set_c.specs.Answer.{HasNoRoom, IsBadText, IsChanged, IsRefused};
ghost use Rattle.range_set_c.specs.SetText.{text_of, IsRead, IsUnexpectedAt, IsUnread};

use super::handle::Handle;
use crate::nullable_box::NullableBox;
use crate::status::{BAD_TEXT, CHANGED, NO_MEMORY, NO_ROOM};
use range_set_blaze::{ParseError, RangeSetBlaze};
use rsb_range_text::spelled_ranges;
use std::alloc::{AllocError, Global};
use std::str;

/// Writes the text of a set to the front of a buffer, stores the length of the text in `needed`,
/// and returns `CHANGED`. If the text does not fit, it returns `NO_ROOM`, and the buffer is
/// unchanged. If an allocation fails, it returns `NO_MEMORY`, and `needed` is unchanged too. It
/// does not allocate if the set is empty.
#[unsafe(no_mangle)]
pub extern "C" fn rsb_u64_to_text(
    alloc: Global,
    set: &mut Handle,
    buffer: &mut [u8],
    needed: &mut usize,
) -> u32
    ensures answer { IsChanged result ⊎ IsRefused result ⊎ HasNoRoom result }
    ensures written { IsChanged result → buffer.new ≡ text_of set.old.kept.set
        ++ drop (length (text_of set.old.kept.set)) buffer.old }
    ensures needed { ¬ IsRefused result → needed.new ≡ length (text_of set.old.kept.set) }
    ensures no_room { HasNoRoom result
        → length buffer.old < length (text_of set.old.kept.set) }
    ensures left { ¬ IsChanged result → buffer.new ≡ buffer.old }
    ensures refused { IsRefused result → needed.new ≡ needed.old }
    ensures spared { set.old.kept.set ≡ [] → IsChanged result }
    ensures same { set.new.kept.set ≡ set.old.kept.set }
{
    let empty = RangeSetBlaze::new(alloc);
    let set = set.set_or(&empty);
    if set.first().is_none() {
        *needed = 0;
        return CHANGED;
    }
    let Ok(text) = text_of_set(alloc, set) else {
        return NO_MEMORY;
    };
    let bytes = text.as_bytes();
    *needed = bytes.len();
    if !put(bytes, buffer) {
        return NO_ROOM;
    }
    CHANGED
}

/// Sets `out` to the values of the ranges that text lists, and returns `CHANGED`. The ranges may
/// come in any order, and may overlap. If the text does not list ranges, it returns `BAD_TEXT`. If
/// an allocation fails, it returns `NO_MEMORY`. In both cases, `out` is unchanged. It does not
/// allocate if the text is empty.
#[unsafe(no_mangle)]
pub extern "C" fn rsb_u64_from_text(alloc: Global, out: &mut Handle, text: &[u8]) -> u32
    ensures answer { IsChanged result ⊎ IsRefused result ⊎ IsBadText result }
    ensures read { IsChanged result → IsRead 64 text.now out.new.kept.set }
    ensures unread { IsBadText result → IsUnread 64 text.now }
    ensures left { ¬ IsChanged result → out.new.kept.set ≡ out.old.kept.set }
    ensures spared { text.now ≡ [] → IsChanged result }
{
    if text.is_empty() {
        *out.as_box() = NullableBox::empty(alloc);
        return CHANGED;
    }
    let Ok(found) = read(alloc, text) else {
        return NO_MEMORY;
    };
    let Some(set) = found else {
        return BAD_TEXT;
    };
    out.set_to(alloc, Ok(set))
}

/// Does the same as `rsb_u64_from_text`. If it returns `BAD_TEXT`, it also stores the position of
/// the first byte that no list of ranges has there in `at`. Otherwise, `at` is unchanged.
#[unsafe(no_mangle)]
pub extern "C" fn rsb_u64_from_text_at(
    alloc: Global,
    out: &mut Handle,
    text: &[u8],
    at: &mut usize,
) -> u32
    ensures answer { IsChanged result ⊎ IsRefused result ⊎ IsBadText result }
    ensures read { IsChanged result → IsRead 64 text.now out.new.kept.set }
    ensures unread { IsBadText result → IsUnread 64 text.now }
    ensures unexpected { IsBadText result → IsUnexpectedAt 64 text.now at.new }
    ensures left { ¬ IsChanged result → out.new.kept.set ≡ out.old.kept.set }
    ensures found { ¬ IsBadText result → at.new ≡ at.old }
    ensures spared { text.now ≡ [] → IsChanged result }
{
    let answer = rsb_u64_from_text(alloc, out, text);
    if answer != BAD_TEXT {
        return answer;
    }
    let Ok(place) = unexpected(alloc, text) else {
        return NO_MEMORY;
    };
    *at = place;
    BAD_TEXT
}

// Returns the text of a set.
fn text_of_set(alloc: Global, set: &RangeSetBlaze<u64, Global>) -> Result<String, AllocError>
    ensures { IfOk result (λ text. string_bytes text ≡ text_of set.now) }
{
    let text = set.to_string(alloc)?;
    Ok(text)
}

// Writes text, or bytes, to the front of a buffer and returns true. If it does not fit, it returns false, and
// the buffer is unchanged.
pub(super) fn put(text: &[u8], buffer: &mut [u8]) -> bool
    ensures written { IsTrue result
        → buffer.new ≡ text.now ++ drop (length text.now) buffer.old }
    ensures left { IsFalse result → buffer.new ≡ buffer.old }
    ensures no_room { IsFalse result → length buffer.old < length text.now }
{
    let count = text.len();
    if buffer.len() < count {
        return false;
    }
    buffer[..count].copy_from_slice(text);
    true
}

// Returns the set of the values of the ranges that text lists, or `None` if it does not list
// ranges.
fn read(alloc: Global, text: &[u8]) -> Result<Option<RangeSetBlaze<u64, Global>>, AllocError>
    ensures { IfOk result (λ read. MatchOption read (IsUnread 64 text.now) (IsRead 64 text.now)) }
{
    match str::from_utf8(text) {
        Err(_) => Ok(None),
        Ok(string) => match RangeSetBlaze::parse(alloc, string) {
            Ok(set) => Ok(Some(set)),
            Err(ParseError::NoMemory(error)) => Err(error),
            Err(ParseError::Unexpected(_)) => Ok(None),
        },
    }
}

// Returns the position of the first unexpected byte of text that does not list ranges.
fn unexpected(alloc: Global, text: &[u8]) -> Result<usize, AllocError>
    requires { IsUnread 64 text.now }
    ensures { IfOk result (λ place. IsUnexpectedAt 64 text.now place) }
{
    match spelled_ranges::<u64, Global>(alloc, text) {
        Ok(_) => unreachable!(),
        Err(ParseError::NoMemory(error)) => Err(error),
        Err(ParseError::Unexpected(place)) => Ok(place),
    }
}
