//! Reads the ranges that text lists.

ghost use Rattle.std.specs.Prelude.{◌≡◌, ◌≢◌, ℕ, ◌<◌, List, IfOk, SomeIff, false};
ghost use Rattle.std.specs.Char.{digit_value};
ghost use Rattle.std.specs.declared.ops.RangeInclusive.{RangeInclusive as Range};
ghost use Rattle.rsb_integer.specs.Rank.{range_of};
ghost use Rattle.rsb_range_text.specs.Reading.{Finishes, Steps, start_or};
ghost use Rattle.rsb_range_text.specs.Text.{IsFirstUnexpected, Spells, is_blank as is_blank_byte};
ghost use Rattle.rsb_range_text.specs.declared.ranges.Place.TheVariants.{
  Signed,
  Digits,
  Behind,
  Before,
};

use crate::parse_error::ParseError;
use crate::parse_integer::ParseInteger;
use std::alloc::Allocator;
use std::ops::RangeInclusive;

// A position in text that lists ranges: what comes before the next byte, and what was read of its
// range.
#[derive(Clone, Copy)]
enum Place<T> {
    // Before the first byte that is not blank.
    Start,
    // Before a number. It ends the range if there is a `start`, and starts one otherwise.
    Before(Option<T>),
    // After the sign of such a number.
    Signed {
        start: Option<T>,
        negative: bool,
    },
    // After a digit of such a number.
    Digits {
        start: Option<T>,
        negative: bool,
        value: T,
    },
    // After a blank that follows such a number.
    Behind {
        start: Option<T>,
        value: T,
    },
    // After one dot that follows the start of a range.
    Dot(T),
    // After two dots that follow the start of a range.
    Dots(T),
}

/// Returns the ranges that text lists, in its order.
///
/// Returns `Unexpected` with the position of the first unexpected byte if the text does not list
/// ranges, and `NoMemory` if allocation fails. Not in range-set-blaze.
pub fn spelled_ranges<T: ParseInteger, A: Allocator>(
    alloc: A,
    text: &[u8],
) -> Result<Vec<RangeInclusive<T>, A>, ParseError>
    ensures spelled { IfOk result (λ ranges. Spells T.number T.fits text.now ranges.items) }
    ensures only { IfOk result (λ ranges. (others : List (Range T))
        → Spells T.number T.fits text.now others → others ≡ ranges.items) }
    ensures unexpected { (place : ℕ) → result ≡ Err (ParseError.Unexpected place)
        → IsFirstUnexpected T.number T.fits text.now place }
{
    let mut ranges = Vec::new(alloc);
    let mut place = Place::Start;
    for (at, byte) in text.iter().enumerate() {
        if *byte == b',' {
            let Some(range) = finished(place) else {
                return Err(ParseError::Unexpected(at));
            };
            ranges.push(range)?;
            place = Place::Before(None);
        } else {
            let Some(next) = after(place, *byte) else {
                return Err(ParseError::Unexpected(at));
            };
            place = next;
        }
    }
    if let Place::Start = place {
        return Ok(ranges);
    }
    let Some(range) = finished(place) else {
        return Err(ParseError::Unexpected(text.len()));
    };
    ranges.push(range)?;
    Ok(ranges)
}

// Returns the place after a byte that is not a comma, or `None` if the byte is unexpected there.
fn after<T: ParseInteger>(place: Place<T>, byte: u8) -> Option<Place<T>>
    requires { byte ≢ 44 }
    ensures { Steps T.number T.fits place byte result }
{
    match place {
        Place::Start => {
            if is_blank(byte) {
                Some(Place::Start)
            } else {
                after_blanks(None, byte)
            }
        }
        Place::Before(start) => {
            if is_blank(byte) {
                Some(Place::Before(start))
            } else {
                after_blanks(start, byte)
            }
        }
        Place::Signed { start, negative } => after_sign(start, negative, byte),
        Place::Digits {
            start,
            negative,
            value,
        } => after_digit(start, negative, value, byte),
        Place::Behind { start, value } => after_number(start, value, byte),
        Place::Dot(start) => {
            if byte == b'.' {
                Some(Place::Dots(start))
            } else {
                None
            }
        }
        Place::Dots(start) => {
            if byte == b'=' {
                Some(Place::Before(Some(start)))
            } else {
                None
            }
        }
    }
}

// Returns the place after the first byte of a number, or `None` if the byte is unexpected there.
fn after_blanks<T: ParseInteger>(start: Option<T>, byte: u8) -> Option<Place<T>>
    requires { is_blank_byte byte ≡ false }
    ensures { Steps T.number T.fits (Before start) byte result }
{
    if byte == b'+' {
        return Some(Place::Signed {
            start,
            negative: false,
        });
    }
    if byte == b'-' {
        return Some(Place::Signed {
            start,
            negative: true,
        });
    }
    after_sign(start, false, byte)
}

// Returns the place after the first digit of a number, or `None` if the byte is unexpected there.
// Numbers are read digit by digit, since the contract of `str::parse` does not say where the text
// goes wrong.
fn after_sign<T: ParseInteger>(start: Option<T>, negative: bool, byte: u8) -> Option<Place<T>>
    ensures { Steps T.number T.fits (Signed start negative) byte result }
{
    let digit = value_of(byte)?;
    let value = T::zero_value().with_digit(negative, digit)?;
    Some(Place::Digits {
        start,
        negative,
        value,
    })
}

// Returns the place after a byte that follows a digit, or `None` if the byte is unexpected there.
fn after_digit<T: ParseInteger>(
    start: Option<T>,
    negative: bool,
    value: T,
    byte: u8,
) -> Option<Place<T>>
    requires { byte ≢ 44 }
    ensures { Steps T.number T.fits (Digits start negative value) byte result }
{
    let Some(digit) = value_of(byte) else {
        return after_number(start, value, byte);
    };
    let value = value.with_digit(negative, digit)?;
    Some(Place::Digits {
        start,
        negative,
        value,
    })
}

// Returns the place after a byte that follows a number, or `None` if the byte is unexpected there.
fn after_number<T: ParseInteger>(start: Option<T>, value: T, byte: u8) -> Option<Place<T>>
    requires { byte ≢ 44 }
    ensures { Steps T.number T.fits (Behind start value) byte result }
{
    if is_blank(byte) {
        return Some(Place::Behind { start, value });
    }
    if byte != b'.' {
        return None;
    }
    match start {
        None => Some(Place::Dot(value)),
        Some(_) => None,
    }
}

// Returns the range that may end at a place, or `None` if no range may end there.
fn finished<T: ParseInteger>(place: Place<T>) -> Option<RangeInclusive<T>>
    ensures { Finishes T.number T.fits place result }
{
    match place {
        Place::Digits { start, value, .. } => Some(range_to(start, value)),
        Place::Behind { start, value } => Some(range_to(start, value)),
        _ => None,
    }
}

// Returns the range from `start` to `value`, or the range of only `value` if there is no `start`.
fn range_to<T: Copy>(start: Option<T>, value: T) -> RangeInclusive<T>
    ensures { result ≡ range_of (start_or start value, value) }
{
    match start {
        Some(start) => start..=value,
        None => value..=value,
    }
}

// Returns whether a byte is a space, a tab, a line feed or a carriage return.
fn is_blank(byte: u8) -> bool
    ensures { result ≡ is_blank_byte byte }
{
    byte == b' ' || byte == b'\t' || byte == b'\n' || byte == b'\r'
}

// Returns the value of a decimal digit, or `None` for any other byte.
fn value_of(byte: u8) -> Option<u8>
    ensures { SomeIff result (digit_value byte < 10) (digit_value byte) }
{
    if byte.is_ascii_digit() {
        Some(byte - b'0')
    } else {
        None
    }
}
