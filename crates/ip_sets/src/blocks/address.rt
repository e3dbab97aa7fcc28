//! The types of addresses.

ghost use Rattle.std.specs.Prelude.{◌≡◌, ℕ, ◌^◌, ◌<◌};
ghost use Rattle.std.proofs.Common.{refl};

use range_set_blaze::Integer;

/// A type of addresses: `u32` for IPv4, and `u128` for IPv6. The rank of an address is its number.
pub trait Address: Integer {
    // The number of bits of an address.
    ghost width: { ℕ };

    /// Returns the number of bits of an address.
    fn bits() -> u32
        ensures { result ≡ width };

    /// Returns the address as a number.
    fn number(self) -> u128
        ensures rank { result ≡ Self.rank self }
        ensures fits { result < Self.value_count };

    /// Returns the address with the given number.
    fn from_number(number: u128) -> Self
        requires { number < Self.value_count }
        ensures { Self.rank result ≡ number };

    // Every number of `width` bits is an address.
    ghost all_numbers: { Self.value_count ≡ 2 ^ width };
}

impl Address for u32 {
    ghost width = { 32 };

    fn bits() -> u32 {
        32
    }

    fn number(self) -> u128 {
        u128::from(self)
    }

    fn from_number(number: u128) -> u32 {
        number as u32
    }

    ghost all_numbers = { refl };
}

impl Address for u128 {
    ghost width = { 128 };

    fn bits() -> u32 {
        128
    }

    fn number(self) -> u128 {
        self
    }

    fn from_number(number: u128) -> u128 {
        number
    }

    ghost all_numbers = { refl };
}
