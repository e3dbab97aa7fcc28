//! The unsigned types that `UIntPlusOne` extends by one number.
//!
//! `checked_difference` has the clause `value` because nothing else in generic code says that a
//! number is at most the greatest one.

ghost use Rattle.std.specs.Prelude.{
  ◌≡◌,
  ◌↔◌,
  ℕ,
  ◌+◌,
  ◌-◌,
  ◌*◌,
  ◌<◌,
  ◌≤◌,
  ◌^◌,
  List,
  pos,
  Some,
  IsNone,
  IfSome,
  IsTrue,
  codes,
};
ghost use Rattle.std.specs.Ordering.{nat_cmp};
ghost use Rattle.std.proofs.Common.{refl};
ghost use Rattle.rsb_length.specs.SafeLength.{unsigned-equal, unsigned-fits};

use num_traits::{One, Zero};
use std::fmt::{Debug, Display};

/// An unsigned type: the whole numbers from 0 up to a maximum, in order. Its arithmetic is exact,
/// and returns `None` if the result is not a value of the type. (`UInt` in range-set-blaze, which
/// takes its methods from `Unsigned`, `Bounded`, `OverflowingAdd` and similar traits. The five
/// methods here are not in range-set-blaze.)
pub trait UInt: Zero + One + PartialOrd + Copy + Display + Debug {
    // The whole number that a value represents.
    ghost number: { Self → ℕ };

    // The number of the greatest value.
    ghost limit: { ℕ };

    // The value that represents a whole number up to the limit.
    ghost value_at: { ℕ → Self };

    // The text of the number one past the limit.
    ghost past_text: { List ℕ };

    /// Returns the greatest value. Not in range-set-blaze.
    fn greatest() -> Self
        ensures { number result ≡ limit };

    /// Returns the sum, or `None` exactly when it is past the greatest value. Not in
    /// range-set-blaze.
    fn checked_sum(self, other: Self) -> Option<Self>
        ensures none { IsNone result ↔ (limit < number self + number other) }
        ensures sum { IfSome result (λ sum. number sum ≡ number self + number other) };

    /// Returns `self` minus `other`, or `None` exactly when `other` is greater. Not in
    /// range-set-blaze.
    fn checked_difference(self, other: Self) -> Option<Self>
        ensures value { number self ≤ limit }
        ensures none { IsNone result ↔ (number self < number other) }
        ensures rest { IfSome result (λ rest. number rest + number other ≡ number self) };

    /// Returns the product, or `None` exactly when it is past the greatest value. Not in
    /// range-set-blaze.
    fn checked_product(self, other: Self) -> Option<Self>
        ensures none { IsNone result ↔ (limit < number self * number other) }
        ensures product { IfSome result (λ product.
            number product ≡ number self * number other) };

    /// Returns the text of the number one past the greatest value. Not in range-set-blaze.
    fn one_past_text() -> &'static str
        ensures { result.now ≡ past_text };

    // To `num_traits`, values are whole numbers too: exact and never negative.
    ghost exactly: { Self.exact };

    ghost values: { (a : Self) → Self.value a ≡ pos (number a) };

    // A whole number fits exactly when it is at most the limit.
    ghost fitting: { (n : ℕ) → Self.fits (pos n) ↔ (n ≤ limit) };

    ghost zero_is_0: { number Self.zero ≡ 0 };

    ghost one_is_1: { number Self.one ≡ 1 };

    // Values are equal, and ordered, as their numbers are.
    ghost equal: { (a b : Self) → IsTrue (Self.eq a b) ↔ (number a ≡ number b) };

    ghost in_order: { (a b : Self) → Self.partial_cmp a b ≡ Some (nat_cmp (number a) (number b)) };

    // `value_at` takes the number of a value back to that value.
    ghost numbers: { (a : Self) → number a ≤ limit → value_at (number a) ≡ a };
}

impl UInt for u8 {
    ghost number = { λ a. a };

    ghost limit = { 2 ^ 8 - 1 };

    ghost value_at = { λ n. n };

    ghost past_text = { codes "256" };

    fn greatest() -> u8 {
        u8::MAX
    }

    fn checked_sum(self, other: u8) -> Option<u8> {
        self.checked_add(other)
    }

    fn checked_difference(self, other: u8) -> Option<u8> {
        self.checked_sub(other)
    }

    fn checked_product(self, other: u8) -> Option<u8> {
        self.checked_mul(other)
    }

    fn one_past_text() -> &'static str {
        "256"
    }

    ghost exactly = { tt };

    ghost values = { λ a. refl };

    ghost fitting = { unsigned-fits 8 };

    ghost zero_is_0 = { refl };

    ghost one_is_1 = { refl };

    ghost equal = { unsigned-equal };

    ghost in_order = { λ a b. refl };

    ghost numbers = { λ a within. refl };
}

impl UInt for u128 {
    ghost number = { λ a. a };

    ghost limit = { 2 ^ 128 - 1 };

    ghost value_at = { λ n. n };

    ghost past_text = { codes "(u128::MAX + 1)" };

    fn greatest() -> u128 {
        u128::MAX
    }

    fn checked_sum(self, other: u128) -> Option<u128> {
        self.checked_add(other)
    }

    fn checked_difference(self, other: u128) -> Option<u128> {
        self.checked_sub(other)
    }

    fn checked_product(self, other: u128) -> Option<u128> {
        self.checked_mul(other)
    }

    fn one_past_text() -> &'static str {
        "(u128::MAX + 1)"
    }

    ghost exactly = { tt };

    ghost values = { λ a. refl };

    ghost fitting = { unsigned-fits 128 };

    ghost zero_is_0 = { refl };

    ghost one_is_1 = { refl };

    ghost equal = { unsigned-equal };

    ghost in_order = { λ a b. refl };

    ghost numbers = { λ a within. refl };
}
