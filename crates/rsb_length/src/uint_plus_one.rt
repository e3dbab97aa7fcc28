//! The whole numbers from 0 to one past the greatest value of an unsigned type.

ghost use Rattle.std.specs.Prelude.{◌≡◌, ◌≢◌, ℕ, ◌+◌, ◌*◌, ◌≤◌, ⊤, Some, pos};
ghost use Rattle.std.specs.Ordering.{nat_cmp};
ghost use Rattle.std.proofs.Common.{ap, refl};
ghost use Rattle.num_traits.specs.Ints.{unsigned-order};
ghost use Rattle.rsb_length.specs.UIntPlusOne.{
  IsUpTo,
  IsUpTo-between,
  number_of,
  one-le_next,
  order-by_number,
  plus_one_at,
  plus_one_at-number,
  same-integers,
  same-number_of,
  stretched-within,
  text_of,
  zero-le,
};

use crate::safe_length::SafeLength;
use crate::uint::UInt;
use num_traits::{Number, One, Zero};
use std::cmp::Ordering;
use std::fmt::{self, Display, Formatter};
use std::ops::{Add, AddAssign, Mul, SubAssign};

/// The whole numbers from 0 to one past the greatest value of `T`, in order: every length that a
/// range of `T` can have. `+`, `+=`, `-=` and `*` are exact; they require that the result is one of
/// these numbers. (`UIntPlusOne` in range-set-blaze, which panics if it is not.)
#[derive(Debug, Clone, Copy, PartialEq, Eq, Hash)]
pub enum UIntPlusOne<T: UInt> {
    /// A number that is a value of `T`.
    UInt(T),
    /// The number one past the greatest value of `T`.
    MaxPlusOne,
}

// These numbers are ordered by size.
impl<T: UInt> PartialOrd for UIntPlusOne<T> {
    ghost partial_cmp = { λ a b.
        Some (nat_cmp (number_of T.number T.limit a) (number_of T.number T.limit b)) };

    ghost laws = { order-by_number (number_of T.number T.limit) Self.eq
        (same-number_of T.number T.limit T.eq Self.eq T.UInt.equal
        (λ a b. refl) (λ a. refl) (λ b. refl) refl) };

    fn partial_cmp(&self, other: &Self) -> Option<Ordering> {
        match (*self, *other) {
            (Self::UInt(value), Self::UInt(limit)) => value.partial_cmp(&limit),
            // Nothing here states that `value` is at most the greatest, so `T` compares the two. If
            // they are equal, one past the greatest is still above `value`.
            (Self::UInt(value), Self::MaxPlusOne) => {
                Some(value.partial_cmp(&T::greatest())?.then(Ordering::Less))
            }
            (Self::MaxPlusOne, Self::UInt(limit)) => {
                Some(T::greatest().partial_cmp(&limit)?.then(Ordering::Greater))
            }
            (Self::MaxPlusOne, Self::MaxPlusOne) => Some(Ordering::Equal),
        }
    }
}

// To `num_traits`, these are integers: exact and never negative.
impl<T: UInt> Number for UIntPlusOne<T> {
    ghost exact = { ⊤ };

    ghost value = { λ a. pos (number_of T.number T.limit a) };

    ghost fits = { IsUpTo (T.limit + 1) };

    ghost nonzero = { λ z. z ≢ pos 0 };

    ghost wrap = { λ z. z };

    ghost eq_law = { λ a b _.
        same-integers (Self.eq a b) (number_of T.number T.limit a) (number_of T.number T.limit b)
        (same-number_of T.number T.limit T.eq Self.eq T.UInt.equal
        (λ a b. refl) (λ a. refl) (λ b. refl) refl a b) };

    ghost order_law = { λ a b _.
        unsigned-order (number_of T.number T.limit a) (number_of T.number T.limit b) };

    ghost between_law = { λ x y z _. IsUpTo-between (T.limit + 1) x y z };

    ghost nonzero_law = { λ z _ _. ((λ h. h), (λ h. h)) };
}

// A sum of at most one past the greatest is allowed, and is exact.
impl<T: UInt> Add for UIntPlusOne<T> {
    type Output = Self;

    ghost can_add = { λ a b.
        number_of T.number T.limit a + number_of T.number T.limit b ≤ T.limit + 1 };

    ghost add_gives = { λ a b sum. number_of T.number T.limit sum
        ≡ number_of T.number T.limit a + number_of T.number T.limit b };

    fn add(self, rhs: Self) -> Self {
        match (self, rhs) {
            (Self::UInt(a), Self::UInt(b)) => match a.checked_sum(b) {
                Some(sum) => Self::UInt(sum),
                None => Self::MaxPlusOne,
            },
            // The other number is 0.
            _ => Self::MaxPlusOne,
        }
    }
}

// `+=` has the contract of `+`.
impl<T: UInt> AddAssign for UIntPlusOne<T> {
    ghost can_add_assign = { λ a b.
        number_of T.number T.limit a + number_of T.number T.limit b ≤ T.limit + 1 };

    ghost add_assign_gives = { λ a b sum. number_of T.number T.limit sum
        ≡ number_of T.number T.limit a + number_of T.number T.limit b };

    fn add_assign(&mut self, rhs: Self) {
        *self = *self + rhs;
    }
}

// A difference of at least 0 is allowed, and is exact.
impl<T: UInt> SubAssign for UIntPlusOne<T> {
    ghost can_sub_assign = { λ a b.
        number_of T.number T.limit b ≤ number_of T.number T.limit a };

    ghost sub_assign_gives = { λ a b rest.
        number_of T.number T.limit rest + number_of T.number T.limit b
        ≡ number_of T.number T.limit a };

    fn sub_assign(&mut self, rhs: Self) {
        *self = match (*self, rhs) {
            (Self::MaxPlusOne, Self::MaxPlusOne) => Self::zero(),
            (Self::MaxPlusOne, Self::UInt(less)) => {
                Self::UInt(T::greatest().checked_difference(less).unwrap()) + Self::one()
            }
            (Self::UInt(value), Self::UInt(less)) => {
                Self::UInt(value.checked_difference(less).unwrap())
            }
            (Self::UInt(value), Self::MaxPlusOne) => {
                // The contract of this call states that `value` is at most the greatest, which
                // rules this case out.
                value.checked_difference(value);
                unreachable!()
            }
        };
    }
}

// A product of at most one past the greatest is allowed, and is exact.
impl<T: UInt> Mul for UIntPlusOne<T> {
    type Output = Self;

    ghost can_mul = { λ a b.
        number_of T.number T.limit a * number_of T.number T.limit b ≤ T.limit + 1 };

    ghost mul_gives = { λ a b product. number_of T.number T.limit product
        ≡ number_of T.number T.limit a * number_of T.number T.limit b };

    #[tactic(auto, using(crate::proofs::lemmas::UIntPlusOne::stretched_product))]
    fn mul(self, rhs: Self) -> Self {
        match (self, rhs) {
            (Self::UInt(a), Self::UInt(b)) => match a.checked_product(b) {
                Some(product) => Self::UInt(product),
                None => Self::MaxPlusOne,
            },
            // The other number is 0 or 1.
            (Self::UInt(a), Self::MaxPlusOne) => if a.is_zero() { self } else { rhs },
            (Self::MaxPlusOne, Self::UInt(b)) => if b.is_zero() { rhs } else { self },
            (Self::MaxPlusOne, Self::MaxPlusOne) => Self::MaxPlusOne,
        }
    }
}

impl<T: UInt> Zero for UIntPlusOne<T> {
    ghost use Rattle.rsb_length.specs.declared.uint_plus_one.UIntPlusOne.TheVariants.{UInt};

    ghost zero = { UInt T.zero };

    fn zero() -> Self {
        Self::UInt(Zero::zero())
    }

    fn is_zero(&self) -> bool {
        match self {
            Self::UInt(value) => value.is_zero(),
            Self::MaxPlusOne => false,
        }
    }

    ghost zero_law = { λ _.
        ap pos (stretched-within T.limit (T.number T.zero) 0 T.zero_is_0 (zero-le T.limit)) };

    ghost zero_fits_law = { λ _. zero-le (T.limit + 1) };

    ghost can_add_law = { λ a b fits. fits tt };

    ghost add_law = { λ a b sum h _ _. ap pos h };
}

impl<T: UInt> One for UIntPlusOne<T> {
    ghost use Rattle.rsb_length.specs.declared.uint_plus_one.UIntPlusOne.TheVariants.{UInt};

    ghost one = { UInt T.one };

    fn one() -> Self {
        Self::UInt(One::one())
    }

    ghost one_law = { λ _.
        ap pos (stretched-within T.limit (T.number T.one) 1 T.one_is_1
        ((T.fitting 1).0 (T.one_fits_law T.exactly))) };

    ghost one_fits_law = { λ _. one-le_next T.limit };

    ghost can_mul_law = { λ a b fits. fits tt };

    ghost mul_law = { λ a b product h _ _. ap pos h };
}

impl<T: UInt> SafeLength for UIntPlusOne<T> {
    ghost number = { number_of T.number T.limit };

    ghost limit = { T.limit + 1 };

    ghost length_at = { plus_one_at T.value_at T.limit };

    fn greatest() -> Self {
        Self::MaxPlusOne
    }

    ghost exactly = { tt };

    ghost values = { λ a. refl };

    ghost fitting = { λ n. ((λ h. h), (λ h. h)) };

    ghost zero_is_0 = { stretched-within T.limit (T.number T.zero) 0 T.zero_is_0
        (zero-le T.limit) };

    ghost one_is_1 = { stretched-within T.limit (T.number T.one) 1 T.one_is_1
        ((T.fitting 1).0 (T.one_fits_law T.exactly)) };

    ghost sum_allowed = { λ a b h. h };

    ghost sum_exact = { λ a b sum h. h };

    ghost difference_allowed = { λ a b h. h };

    ghost difference_exact = { λ a b rest _ h. h };

    ghost equal = { same-number_of T.number T.limit T.eq Self.eq T.UInt.equal
        (λ a b. refl) (λ a. refl) (λ b. refl) refl };

    ghost in_order = { λ a b. refl };

    ghost lengths = { plus_one_at-number T.number T.limit T.value_at T.numbers };
}

/// Writes a number of `T` as `T` does, and the number one past the greatest as `one_past_text`.
/// (range-set-blaze writes `(u128::MAX + 1)` for every `T`.)
impl<T: UInt> Display for UIntPlusOne<T> {
    ghost output = { text_of T.output T.past_text };

    fn fmt<W: fmt::Write>(&self, f: &mut Formatter<W>) -> fmt::Result {
        match self {
            Self::MaxPlusOne => f.write_str(T::one_past_text()),
            Self::UInt(value) => write!(f, "{value}"),
        }
    }
}
