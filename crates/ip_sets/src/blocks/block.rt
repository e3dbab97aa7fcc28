//! A block of addresses.

/// A block of addresses (a CIDR block): all addresses that share their first `length` bits with
/// `first`. The other bits of `first` are 0.
#[derive(Clone, Copy, Debug, PartialEq, Eq)]
pub struct Block<T> {
    /// The first address.
    pub first: T,
    /// The length of the prefix, from 0 for all addresses to the number of bits for a single one.
    pub length: u32,
}
