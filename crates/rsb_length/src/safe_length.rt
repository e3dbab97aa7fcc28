//! The trait of length types, and its implementations for unsigned types.

ghost use Rattle.std.specs.Prelude.{◌≡◌, ◌↔◌, ℕ, ◌+◌, ◌-◌, ◌≤◌, ◌^◌, pos, Some, IsTrue};
ghost use Rattle.std.specs.Ordering.{nat_cmp};
ghost use Rattle.std.proofs.Common.{refl};
ghost use Rattle.rsb_length.specs.SafeLength.{
  unsigned-difference,
  unsigned-equal,
  unsigned-fits,
  unsigned-sum_fits,
};

use num_traits::{One, Zero};
use std::ops::{AddAssign, SubAssign};

/// A type of lengths: the whole numbers from 0 up to a maximum, in order. `+=` and `-=` are exact;
/// they require that the result is a length of the type. Not in range-set-blaze, which requires
/// only traits of std and num-traits.
pub trait SafeLength: Copy + PartialOrd + Zero + One + AddAssign + SubAssign {
    // The whole number that a length represents.
    ghost number: { Self → ℕ };

    // The number of the greatest length.
    ghost limit: { ℕ };

    // The length that represents a whole number up to the limit.
    ghost length_at: { ℕ → Self };

    /// Returns the greatest length. Not in range-set-blaze.
    fn greatest() -> Self
        ensures { number result ≡ limit };

    // To `num_traits`, lengths are whole numbers too: exact and never negative.
    ghost exactly: { Self.exact };

    ghost values: { (a : Self) → Self.value a ≡ pos (number a) };

    // A whole number fits exactly when it is at most the limit.
    ghost fitting: { (n : ℕ) → Self.fits (pos n) ↔ (n ≤ limit) };

    ghost zero_is_0: { number Self.zero ≡ 0 };

    ghost one_is_1: { number Self.one ≡ 1 };

    // A sum of at most the limit is allowed, and is exact.
    ghost sum_allowed: { (a b : Self) → number a + number b ≤ limit → Self.can_add_assign a b };

    ghost sum_exact: { (a b sum : Self) → Self.add_assign_gives a b sum
        → number sum ≡ number a + number b };

    // A difference of at least 0 is allowed, and is exact.
    ghost difference_allowed: { (a b : Self) → number b ≤ number a → Self.can_sub_assign a b };

    ghost difference_exact: { (a b rest : Self) → number b ≤ number a
        → Self.sub_assign_gives a b rest → number rest + number b ≡ number a };

    // Lengths are equal, and ordered, as their numbers are.
    ghost equal: { (a b : Self) → IsTrue (Self.eq a b) ↔ (number a ≡ number b) };

    ghost in_order: { (a b : Self) → Self.partial_cmp a b ≡ Some (nat_cmp (number a) (number b)) };

    // `length_at` takes the number of a length back to that length.
    ghost lengths: { (a : Self) → number a ≤ limit → length_at (number a) ≡ a };
}

impl SafeLength for u16 {
    ghost number = { λ a. a };

    ghost limit = { 2 ^ 16 - 1 };

    ghost length_at = { λ n. n };

    fn greatest() -> u16 {
        u16::MAX
    }

    ghost exactly = { tt };

    ghost values = { λ a. refl };

    ghost fitting = { unsigned-fits 16 };

    ghost zero_is_0 = { refl };

    ghost one_is_1 = { refl };

    ghost sum_allowed = { unsigned-sum_fits 16 };

    ghost sum_exact = { λ a b sum h. h };

    ghost difference_allowed = { λ a b h. h };

    ghost difference_exact = { unsigned-difference };

    ghost equal = { unsigned-equal };

    ghost in_order = { λ a b. refl };

    ghost lengths = { λ a within. refl };
}

impl SafeLength for u32 {
    ghost number = { λ a. a };

    ghost limit = { 2 ^ 32 - 1 };

    ghost length_at = { λ n. n };

    fn greatest() -> u32 {
        u32::MAX
    }

    ghost exactly = { tt };

    ghost values = { λ a. refl };

    ghost fitting = { unsigned-fits 32 };

    ghost zero_is_0 = { refl };

    ghost one_is_1 = { refl };

    ghost sum_allowed = { unsigned-sum_fits 32 };

    ghost sum_exact = { λ a b sum h. h };

    ghost difference_allowed = { λ a b h. h };

    ghost difference_exact = { unsigned-difference };

    ghost equal = { unsigned-equal };

    ghost in_order = { λ a b. refl };

    ghost lengths = { λ a within. refl };
}

impl SafeLength for u64 {
    ghost number = { λ a. a };

    ghost limit = { 2 ^ 64 - 1 };

    ghost length_at = { λ n. n };

    fn greatest() -> u64 {
        u64::MAX
    }

    ghost exactly = { tt };

    ghost values = { λ a. refl };

    ghost fitting = { unsigned-fits 64 };

    ghost zero_is_0 = { refl };

    ghost one_is_1 = { refl };

    ghost sum_allowed = { unsigned-sum_fits 64 };

    ghost sum_exact = { λ a b sum h. h };

    ghost difference_allowed = { λ a b h. h };

    ghost difference_exact = { unsigned-difference };

    ghost equal = { unsigned-equal };

    ghost in_order = { λ a b. refl };

    ghost lengths = { λ a within. refl };
}

impl SafeLength for u128 {
    ghost number = { λ a. a };

    ghost limit = { 2 ^ 128 - 1 };

    ghost length_at = { λ n. n };

    fn greatest() -> u128 {
        u128::MAX
    }

    ghost exactly = { tt };

    ghost values = { λ a. refl };

    ghost fitting = { unsigned-fits 128 };

    ghost zero_is_0 = { refl };

    ghost one_is_1 = { refl };

    ghost sum_allowed = { unsigned-sum_fits 128 };

    ghost sum_exact = { λ a b sum h. h };

    ghost difference_allowed = { λ a b h. h };

    ghost difference_exact = { unsigned-difference };

    ghost equal = { unsigned-equal };

    ghost in_order = { λ a b. refl };

    ghost lengths = { λ a within. refl };
}
