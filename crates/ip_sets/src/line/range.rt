//! Ranges of addresses in a line, in either family.

ghost use Rattle.std.specs.Prelude.{◌≡◌, ℕ, ◌≤◌, [], ◌∷◌, ◌++◌, List, MatchOption};
ghost use Rattle.ip_sets.specs.AddressRange.{
  IsBlockAround,
  ReadsRange,
  WritesBlock,
  WritesBracketed,
  WritesEnd,
  WritesOne,
  WritesRange,
  WritesSpan,
  numbers,
};

use crate::line::family::Family;
use crate::line::mask::block_length;
use crate::line::parts::{Parts, parts_of, trimmed};
use std::ops::RangeInclusive;

/// Returns the addresses that a text writes: an address, a block, or a range between two of these.
pub(crate) fn range<F: Family>(text: &[u8]) -> Option<RangeInclusive<F>>
    ensures { ReadsRange F.rank result (WritesRange F.width F.is_address text.now) }
{
    match parts_of(text, b'-') {
        Parts::One => one_or_block(text),
        Parts::Two(first, last) => span(first, last),
        Parts::More => None,
    }
}

/// Returns the addresses of `ADDRESS`, `ADDRESS/LENGTH` or `ADDRESS/MASK`.
pub(crate) fn one_or_block<F: Family>(text: &[u8]) -> Option<RangeInclusive<F>>
    ensures { ReadsRange F.rank result (WritesEnd F.width F.is_address text.now) }
{
    match parts_of(text, b'/') {
        Parts::One => one(text),
        Parts::Two(address, length) => block(address, length),
        Parts::More => None,
    }
}

/// Returns the address of `[ADDRESS]`, as a range.
pub(crate) fn bracketed<F: Family>(text: &[u8]) -> Option<RangeInclusive<F>>
    ensures { ReadsRange F.rank result (WritesBracketed F.is_address text.now) }
{
    one(enclosed(text)?)
}

// Returns what is between brackets, if these are the first and the last byte.
fn enclosed(text: &[u8]) -> Option<&[u8]>
    ensures { MatchOption result
        ((inner : List ℕ) → ¬ (text.now ≡ 91 ∷ inner ++ 93 ∷ []))
        (λ inner. text.now ≡ 91 ∷ inner.now ++ 93 ∷ []) }
{
    let (first, rest) = text.split_first()?;
    let (last, inner) = rest.split_last()?;
    if *first == b'[' && *last == b']' {
        return Some(inner);
    }
    None
}

// Returns the one address that the text writes, as a range.
fn one<F: Family>(text: &[u8]) -> Option<RangeInclusive<F>>
    ensures { ReadsRange F.rank result (WritesOne F.is_address text.now) }
{
    let address = F::parse(text)?;
    Some(address..=address)
}

// Returns the block of an address and a length or a mask.
fn block<F: Family>(address_text: &[u8], length_text: &[u8]) -> Option<RangeInclusive<F>>
    ensures { ReadsRange F.rank result
        (WritesBlock F.width F.is_address address_text.now length_text.now) }
{
    let address = F::parse(address_text)?;
    let length = block_length::<F>(length_text)?;
    Some(block_around(address, length))
}

// Returns the addresses from the first one of one end to the last one of the other, if these are in
// order.
fn span<F: Family>(first_text: &[u8], last_text: &[u8]) -> Option<RangeInclusive<F>>
    ensures { ReadsRange F.rank result
        (WritesSpan F.width F.is_address first_text.now last_text.now) }
{
    let first = one_or_block::<F>(trimmed(first_text))?;
    let last = one_or_block::<F>(trimmed(last_text))?;
    if last.end().number() < first.start().number() {
        return None;
    }
    Some(*first.start()..=*last.end())
}

/// Returns the addresses that have the same first bits as the address.
#[inline(always)]
pub(crate) fn block_around<F: Family>(address: F, length: u32) -> RangeInclusive<F>
    requires { length ≤ F.width }
    ensures { IsBlockAround F.width length (F.rank address) (numbers F.rank result) }
{
    let number = address.number();
    if length == 0 {
        return F::min_value()..=F::max_value();
    }
    let size = 1u128 << (F::bits() - length);
    let first = number - (number & (size - 1));
    F::from_number(first)..=F::from_number(first + (size - 1))
}
