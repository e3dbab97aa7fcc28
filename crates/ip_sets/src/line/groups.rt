//! Groups of hexadecimal digits at the start of bytes, with colons between them.

ghost use Rattle.std.specs.Prelude.{◌≡◌, ◌+◌, ◌*◌, ◌-◌, ◌^◌, ◌<◌, IfSome};
ghost use Rattle.std.specs.Char.{digit_value};
ghost use Rattle.std.specs.Net.Grammar.{IsGroup};
ghost use Rattle.ip_sets.specs.Groups.{AreGroups, BeginsWithDigit, BeginsWithGroup};
ghost use Rattle.ip_sets.specs.Plain.{BeginsWith};

use crate::line::octets::after;

/// Groups at the start of bytes.
#[derive(Clone, Copy)]
pub(crate) struct Groups<'a> {
    /// The number that they write, with 16 bits for each group.
    pub(crate) number: u128,
    /// How many they are.
    pub(crate) count: u32,
    /// The bytes after them.
    pub(crate) rest: &'a [u8],
}

/// Reads up to eight groups at the start of the bytes.
#[inline(always)]
pub(crate) fn read_groups(bytes: &[u8]) -> Groups<'_>
    ensures { AreGroups bytes.now result }
{
    let mut read = Groups {
        number: 0,
        count: 0,
        rest: bytes,
    };
    'reading: while read.count < 8 {
        let Some((value, rest)) = next_group(read.rest, read.count == 0) else {
            break;
        };
        read = Groups {
            number: read.number * 65_536 + u128::from(value),
            count: read.count + 1,
            rest,
        };
    }
    read
}

/// Returns the number of eight groups: the first ones, zeros, and the last ones.
#[inline(always)]
pub(crate) fn elided(first: Groups<'_>, last: Groups<'_>) -> u128
    requires room { first.count + last.count < 8 }
    requires first_fits { first.number < 2 ^ (16 * first.count) }
    requires last_fits { last.number < 2 ^ (16 * last.count) }
    ensures { result ≡ first.entry.number * 2 ^ (16 * (8 - first.entry.count)) + last.entry.number }
{
    if first.count == 0 {
        return last.number;
    }
    (first.number << (16 * (8 - first.count))) + last.number
}

// Reads a group at the start of the bytes, after a colon unless it is the first. Returns its value
// and the bytes after it.
#[inline(always)]
fn next_group(bytes: &[u8], is_first: bool) -> Option<(u32, &[u8])>
    ensures fits { IfSome result (λ read. read.0 < 2 ^ 16) }
    ensures front { IfSome result (λ read.
        BeginsWithGroup is_first bytes.now read.0 read.1.now) }
{
    if is_first {
        return group(bytes);
    }
    group(after(bytes, b':')?)
}

// Reads one to four hexadecimal digits at the start of the bytes. Returns their value and the bytes
// after them.
#[inline(always)]
fn group(bytes: &[u8]) -> Option<(u32, &[u8])>
    ensures fits { IfSome result (λ read. read.0 < 2 ^ 16) }
    ensures front { IfSome result (λ read. BeginsWith IsGroup bytes.now read.0 read.1.now) }
{
    let (first, after_first) = hex_digit(bytes)?;
    let Some((second, after_second)) = hex_digit(after_first) else {
        return Some((first, after_first));
    };
    let two = first * 16 + second;
    let Some((third, after_third)) = hex_digit(after_second) else {
        return Some((two, after_second));
    };
    let three = two * 16 + third;
    let Some((fourth, after_fourth)) = hex_digit(after_third) else {
        return Some((three, after_third));
    };
    Some((three * 16 + fourth, after_fourth))
}

// Reads a hexadecimal digit at the start of the bytes. Returns its value and the bytes after it.
#[inline(always)]
fn hex_digit(bytes: &[u8]) -> Option<(u32, &[u8])>
    ensures { IfSome result (λ read. BeginsWithDigit bytes.now read.0 read.1.now) }
{
    let (first, rest) = bytes.split_first()?;
    let value = hex_value(*first);
    if value < 16 {
        Some((u32::from(value), rest))
    } else {
        None
    }
}

// The value of each byte as a hexadecimal digit, or 255.
const HEX_VALUES: [u8; 256] = [
    255, 255, 255, 255, 255, 255, 255, 255, 255, 255, 255, 255, 255, 255, 255, 255, 255, 255, 255,
    255, 255, 255, 255, 255, 255, 255, 255, 255, 255, 255, 255, 255, 255, 255, 255, 255, 255, 255,
    255, 255, 255, 255, 255, 255, 255, 255, 255, 255, 0, 1, 2, 3, 4, 5, 6, 7, 8, 9, 255, 255, 255,
    255, 255, 255, 255, 10, 11, 12, 13, 14, 15, 255, 255, 255, 255, 255, 255, 255, 255, 255, 255,
    255, 255, 255, 255, 255, 255, 255, 255, 255, 255, 255, 255, 255, 255, 255, 255, 10, 11, 12, 13,
    14, 15, 255, 255, 255, 255, 255, 255, 255, 255, 255, 255, 255, 255, 255, 255, 255, 255, 255,
    255, 255, 255, 255, 255, 255, 255, 255, 255, 255, 255, 255, 255, 255, 255, 255, 255, 255, 255,
    255, 255, 255, 255, 255, 255, 255, 255, 255, 255, 255, 255, 255, 255, 255, 255, 255, 255, 255,
    255, 255, 255, 255, 255, 255, 255, 255, 255, 255, 255, 255, 255, 255, 255, 255, 255, 255, 255,
    255, 255, 255, 255, 255, 255, 255, 255, 255, 255, 255, 255, 255, 255, 255, 255, 255, 255, 255,
    255, 255, 255, 255, 255, 255, 255, 255, 255, 255, 255, 255, 255, 255, 255, 255, 255, 255, 255,
    255, 255, 255, 255, 255, 255, 255, 255, 255, 255, 255, 255, 255, 255, 255, 255, 255, 255, 255,
    255, 255, 255, 255, 255, 255, 255, 255, 255, 255, 255, 255, 255, 255, 255, 255, 255, 255, 255,
    255, 255, 255,
];

// Returns the value of a hexadecimal digit, or 255 for another byte. A branch on letter or digit
// would be mispredicted about half the time.
#[inline(always)]
fn hex_value(byte: u8) -> u8
    ensures { result < 16 → digit_value byte ≡ result }
{
    HEX_VALUES[byte as usize]
}
