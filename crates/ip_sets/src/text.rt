//! Addresses, blocks and ranges as text, for callers that write lists of their own. As a line of a
//! list, each text means what it was made from.

ghost use Rattle.std.specs.Prelude.{◌≡◌, ◌≤◌, ◌++◌, IfOk, codes, decimal};
ghost use Rattle.std.specs.String.{string_bytes};
ghost use Rattle.ip_sets.specs.Address.{v4_text, v6_text};
ghost use Rattle.ip_sets.specs.AddressRange.{block_end, block_start};
ghost use Rattle.ip_sets.specs.Line.{MeansV4, MeansV6};

use std::alloc::{AllocError, Allocator};
use std::net::{Ipv4Addr, Ipv6Addr};

/// Returns the text of an IPv4 address: four decimal numbers with dots between them. As a line, it
/// means that address.
pub fn v4_text<A: Allocator>(alloc: A, address: u32) -> Result<String<A>, AllocError>
    ensures text { IfOk result (λ text. string_bytes text ≡ v4_text address) }
    ensures reads_back { IfOk result (λ text. MeansV4 (string_bytes text) address address) }
{
    Ipv4Addr::from_bits(address).to_string(alloc)
}

/// Returns the text of a block of IPv4 addresses: an address in it, a slash, and its length. As a
/// line, it means all addresses that share their first `length` bits with `address`.
pub fn v4_block_text<A: Allocator>(
    alloc: A,
    address: u32,
    length: u32,
) -> Result<String<A>, AllocError>
    requires { length ≤ 32 }
    ensures text { IfOk result (λ text.
        string_bytes text ≡ v4_text address ++ codes "/" ++ decimal length) }
    ensures reads_back { IfOk result (λ text. MeansV4 (string_bytes text)
        (block_start 32 length address) (block_end 32 length address)) }
{
    let address = Ipv4Addr::from_bits(address);
    format!(in alloc; "{address}/{length}")
}

/// Returns the text of a range of IPv4 addresses: its ends, with a dash between them. As a line, it
/// means the addresses from `first` to `last`.
pub fn v4_range_text<A: Allocator>(alloc: A, first: u32, last: u32) -> Result<String<A>, AllocError>
    requires { first ≤ last }
    ensures text { IfOk result (λ text.
        string_bytes text ≡ v4_text first ++ codes "-" ++ v4_text last) }
    ensures reads_back { IfOk result (λ text. MeansV4 (string_bytes text) first last) }
{
    let first = Ipv4Addr::from_bits(first);
    let last = Ipv4Addr::from_bits(last);
    format!(in alloc; "{first}-{last}")
}

/// Returns the text of an IPv6 address, as RFC 5952 recommends it: lower case, and `::` for the
/// longest run of two or more zero groups, the first such run if several are longest. As a line, it
/// means that address.
pub fn v6_text<A: Allocator>(alloc: A, address: u128) -> Result<String<A>, AllocError>
    ensures text { IfOk result (λ text. string_bytes text ≡ v6_text address) }
    ensures reads_back { IfOk result (λ text. MeansV6 (string_bytes text) address address) }
{
    Ipv6Addr::from_bits(address).to_string(alloc)
}

/// Returns the text of a block of IPv6 addresses: an address in it, a slash, and its length. As a
/// line, it means all addresses that share their first `length` bits with `address`.
pub fn v6_block_text<A: Allocator>(
    alloc: A,
    address: u128,
    length: u32,
) -> Result<String<A>, AllocError>
    requires { length ≤ 128 }
    ensures text { IfOk result (λ text.
        string_bytes text ≡ v6_text address ++ codes "/" ++ decimal length) }
    ensures reads_back { IfOk result (λ text. MeansV6 (string_bytes text)
        (block_start 128 length address) (block_end 128 length address)) }
{
    let address = Ipv6Addr::from_bits(address);
    format!(in alloc; "{address}/{length}")
}

/// Returns the text of a range of IPv6 addresses: its ends, with a dash between them. As a line, it
/// means the addresses from `first` to `last`.
pub fn v6_range_text<A: Allocator>(
    alloc: A,
    first: u128,
    last: u128,
) -> Result<String<A>, AllocError>
    requires { first ≤ last }
    ensures text { IfOk result (λ text.
        string_bytes text ≡ v6_text first ++ codes "-" ++ v6_text last) }
    ensures reads_back { IfOk result (λ text. MeansV6 (string_bytes text) first last) }
{
    let first = Ipv6Addr::from_bits(first);
    let last = Ipv6Addr::from_bits(last);
    format!(in alloc; "{first}-{last}")
}
