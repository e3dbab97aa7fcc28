//! Lengths as `u128`, and back, for any element type.

ghost use Rattle.std.specs.Prelude.{◌≡◌, ◌↔◌, ◌+◌, ◌*◌, ◌<◌, ◌≤◌, ◌^◌, IsTrue};

use rsb_length::SafeLength;

/// Returns the number of a length. Requires that it is a length of the type, and below 2^128.
pub fn number_of_length<L: SafeLength>(length: L) -> u128
    requires fits { L.number length < 2 ^ 128 }
    requires limit { L.number length ≤ L.limit }
    ensures { result ≡ L.number length }
{
    number_by(length, L::one(), 1).0
}

// Returns a multiple of `weight`, and the rest of a length, which is less than `weight`. Together,
// they are the length. `power` is the length of the number `weight`.
fn number_by<L: SafeLength>(length: L, power: L, weight: u128) -> (u128, L)
    requires fits { L.number length < 2 ^ 128 }
    requires limit { L.number length ≤ L.limit }
    requires power { L.number power ≡ weight }
    requires some { 1 ≤ weight }
    ensures whole { result.0 + L.number result.1 ≡ L.number length }
    ensures rest { L.number result.1 < weight }
{
    if is_less(length, power) {
        return (0, length);
    }
    let past = difference(length, power);
    if is_less(past, power) {
        return (weight, past);
    }
    let (high, rest) = number_by(length, twice(power), 2 * weight);
    if is_less(rest, power) {
        return (high, rest);
    }
    (high + weight, difference(rest, power))
}

fn is_less<L: SafeLength>(length: L, other: L) -> bool
    ensures { IsTrue result ↔ (L.number length < L.number other) }
{
    length < other
}

fn difference<L: SafeLength>(length: L, other: L) -> L
    requires { L.number other ≤ L.number length }
    ensures { L.number result + L.number other ≡ L.number length }
{
    let mut rest = length;
    rest -= other;
    rest
}

fn twice<L: SafeLength>(length: L) -> L
    requires { 2 * L.number length ≤ L.limit }
    ensures { L.number result ≡ 2 * L.number length }
{
    let mut double = length;
    double += length;
    double
}

/// Returns the length of a number. Requires that the type has such a length.
pub fn length_of_number<L: SafeLength>(number: u128) -> L
    requires { number ≤ L.limit }
    ensures { L.number result ≡ number }
{
    if number == 0 {
        return L::zero();
    }
    let mut length = twice(length_of_number::<L>(number / 2));
    if number % 2 == 1 {
        length += L::one();
    }
    length
}
