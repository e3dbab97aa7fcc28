//! The first address of a text.

ghost use Rattle.std.specs.Prelude.{◌≡◌, ◌<◌, ◌==◌, IfSome, length, not};
ghost use Rattle.std.specs.List.{position};
ghost use Rattle.ip_sets.specs.Address.{IsV4, IsV6};
ghost use Rattle.ip_sets.specs.LineParts.{Reads, parts};
ghost use Rattle.ip_matches.specs.FoundAddress.{
  IsFirst,
  IsFirstAddress,
  IsWordAddress,
  is_word_byte,
};

use std::net::{Ipv4Addr, Ipv6Addr};

/// An address that was found in a text, as a number.
#[derive(Clone, Copy, Debug, PartialEq, Eq)]
pub enum FoundAddress {
    /// An IPv4 address.
    V4(u32),
    /// An IPv6 address.
    V6(u128),
}

/// Returns the first address of a text.
///
/// The words of a text are its longest runs of letters, digits, dots and colons. The first address
/// is that of the first word that is an IPv6 address, or that has an IPv4 address as a part between
/// colons.
pub fn first_address(text: &[u8]) -> Option<FoundAddress>
    ensures { Reads result (IsFirstAddress text.now) }
{
    let mut rest = text;
    while let Some(end) = word_end(rest) {
        if let Some(address) = word_address(&rest[..end]) {
            return Some(address);
        }
        rest = &rest[end + 1..];
    }
    word_address(rest)
}

// Returns the place of the first byte that is in no word.
fn word_end(text: &[u8]) -> Option<usize>
    ensures place { result ≡ position (λ byte. not (is_word_byte byte)) text.now }
    ensures within { IfSome result (λ end. end < length text.now) }
{
    text.iter().position(|byte| !is_word_byte(*byte))
}

// Returns whether the byte is one of a word.
#[inline(always)]
fn is_word_byte(byte: u8) -> bool
    ensures { result ≡ is_word_byte byte }
{
    byte.is_ascii_alphanumeric() || byte == b'.' || byte == b':'
}

// Returns the address of a word.
fn word_address(word: &[u8]) -> Option<FoundAddress>
    ensures { Reads result (IsWordAddress word.now) }
{
    if let Some(address) = v6_address(word) {
        return Some(FoundAddress::V6(address));
    }
    match first_v4_address(word) {
        Some(address) => Some(FoundAddress::V4(address)),
        None => None,
    }
}

// Returns the first IPv4 address among the parts of a word between colons.
fn first_v4_address(word: &[u8]) -> Option<u32>
    ensures { Reads result (IsFirst IsV4 (parts 58 word.now)) }
{
    let mut rest = word;
    while let Some(end) = colon(rest) {
        if let Some(address) = v4_address(&rest[..end]) {
            return Some(address);
        }
        rest = &rest[end + 1..];
    }
    v4_address(rest)
}

// Returns the place of the first colon.
fn colon(word: &[u8]) -> Option<usize>
    ensures place { result ≡ position (λ byte. byte == 58) word.now }
    ensures within { IfSome result (λ end. end < length word.now) }
{
    word.iter().position(|byte| *byte == b':')
}

// Returns the IPv4 address that a text writes.
fn v4_address(text: &[u8]) -> Option<u32>
    ensures { Reads result (IsV4 text.now) }
{
    match Ipv4Addr::parse_ascii(text) {
        Ok(address) => Some(address.to_bits()),
        Err(_) => None,
    }
}

// Returns the IPv6 address that a text writes.
fn v6_address(text: &[u8]) -> Option<u128>
    ensures { Reads result (IsV6 text.now) }
{
    match Ipv6Addr::parse_ascii(text) {
        Ok(address) => Some(address.to_bits()),
        Err(_) => None,
    }
}
