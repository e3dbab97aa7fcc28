//! `u128` as an element type, with lengths in `UIntPlusOne<u128>`.

ghost use Rattle.std.specs.Prelude.{◌^◌};
ghost use Rattle.std.proofs.Common.{lit<, lit≤, refl};
ghost use Rattle.std.proofs.lemmas.Map.Lookups.{exact_unsigned};
ghost use Rattle.rsb_integer.specs.Room.{have_room};

use crate::integer::Integer;
use rsb_length::UIntPlusOne;
use std::ops::RangeInclusive;

impl Integer for u128 {
    type SafeLen = UIntPlusOne<u128>;

    ghost rank = { λ x. x };

    ghost value_count = { 2 ^ 128 };

    ghost value_at = { λ n. n };

    fn checked_add_one(self) -> Option<u128> {
        self.checked_add(1)
    }

    fn add_one(self) -> u128 {
        self + 1
    }

    fn sub_one(self) -> u128 {
        self - 1
    }

    fn min_value() -> u128 {
        u128::MIN
    }

    fn max_value() -> u128 {
        u128::MAX
    }

    fn safe_len(range: &RangeInclusive<u128>) -> UIntPlusOne<u128> {
        UIntPlusOne::UInt(range.end() - range.start()) + UIntPlusOne::UInt(1)
    }

    fn inclusive_end_from_start(self, b: UIntPlusOne<u128>) -> u128 {
        match b {
            UIntPlusOne::UInt(length) => self + (length - 1),
            // Only the whole type has this length.
            UIntPlusOne::MaxPlusOne => u128::MAX,
        }
    }

    fn start_from_inclusive_end(self, b: UIntPlusOne<u128>) -> u128 {
        match b {
            UIntPlusOne::UInt(length) => self - (length - 1),
            // Only the whole type has this length.
            UIntPlusOne::MaxPlusOne => u128::MIN,
        }
    }

    ghost ranks = { λ place below. refl };

    ghost exact = { exact_unsigned };

    ghost in_order = { λ x y left right. refl };

    ghost some_values = { lit≤ tt };

    ghost countable = { lit≤ tt };

    ghost lengths_suffice = { lit≤ tt };

    ghost two_ends_fit = { λ end. have_room _ (lit< tt) };
}
