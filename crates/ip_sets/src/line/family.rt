//! The two families of addresses, and how a text writes an address of each.

ghost use Rattle.std.specs.Prelude.{◌≡◌, ℕ, ◌≤◌, All, IfSome, IsFalse, List};
ghost use Rattle.std.proofs.Common.{lit≤};
ghost use Rattle.ip_sets.specs.Address.{IsV4, IsV6};
ghost use Rattle.ip_sets.specs.laws.Address.{one_v4, one_v6, unmarked_v4, unmarked_v6};
ghost use Rattle.ip_sets.specs.Line.{is_mark};
ghost use Rattle.ip_sets.specs.LineParts.{ReadsNumber};
ghost use Rattle.ip_sets.specs.Plain.{BeginsWith};

use crate::blocks::Address;
use crate::line::groups::{elided, read_groups};
use crate::line::octets::{after, after_at, octet_at};
use std::net::{Ipv4Addr, Ipv6Addr};

/// A family of addresses.
pub(crate) trait Family: Address {
    // Whether a text writes the address with a number.
    ghost is_address: { List ℕ → ℕ → Type 0 };

    /// Returns the address that a text writes.
    fn parse(text: &[u8]) -> Option<Self>
        ensures { ReadsNumber Self.rank result (is_address text.now) };

    /// Reads an address at the start of the bytes in one of its commonest spellings, faster than
    /// `parse`. Returns the address and the bytes after it. `None` means only that the fast path
    /// does not apply.
    fn read(bytes: &[u8]) -> Option<(Self, &[u8])>
        ensures { IfSome result (λ read.
            BeginsWith is_address bytes.now (Self.rank read.0) read.1.now) };

    // A text writes at most one address.
    ghost one_address: { (text : List ℕ) (m n : ℕ) → is_address text m → is_address text n
        → m ≡ n };

    // No byte of an address has a meaning of its own in a line.
    ghost unmarked: { (text : List ℕ) (number : ℕ) → is_address text number
        → All (λ byte. IsFalse (is_mark byte)) text };

    // A number of 128 bits is enough for an address.
    ghost fits: { Self.width ≤ 128 };
}

impl Family for u32 {
    ghost is_address = { IsV4 };

    fn parse(text: &[u8]) -> Option<u32> {
        match Ipv4Addr::parse_ascii(text) {
            Ok(address) => Some(address.to_bits()),
            Err(_) => None,
        }
    }

    // An address is at most 15 bytes long. Past that check no place is out of range.
    #[inline(always)]
    fn read(bytes: &[u8]) -> Option<(u32, &[u8])> {
        if bytes.len() < 16 {
            return None;
        }
        let (a, end) = octet_at(bytes, 0)?;
        let (b, end) = octet_at(bytes, after_at(bytes, end, b'.')?)?;
        let (c, end) = octet_at(bytes, after_at(bytes, end, b'.')?)?;
        let (d, end) = octet_at(bytes, after_at(bytes, end, b'.')?)?;
        Some((Ipv4Addr::new(a, b, c, d).to_bits(), &bytes[end..]))
    }

    ghost one_address = { one_v4 };

    ghost unmarked = { unmarked_v4 };

    ghost fits = { lit≤ tt };
}

impl Family for u128 {
    ghost is_address = { IsV6 };

    fn parse(text: &[u8]) -> Option<u128> {
        match Ipv6Addr::parse_ascii(text) {
            Ok(address) => Some(address.to_bits()),
            Err(_) => None,
        }
    }

    // A spelling that ends in an IPv4 address is not read here.
    #[inline(always)]
    fn read(bytes: &[u8]) -> Option<(u128, &[u8])> {
        let first = read_groups(bytes);
        if first.count == 8 {
            return Some((first.number, first.rest));
        }
        let last = read_groups(after(after(first.rest, b':')?, b':')?);
        if first.count + last.count > 7 {
            return None;
        }
        Some((elided(first, last), last.rest))
    }

    ghost one_address = { one_v6 };

    ghost unmarked = { unmarked_v6 };

    ghost fits = { lit≤ tt };
}
