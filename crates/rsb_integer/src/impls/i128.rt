//! `i128` as an element type, with lengths in `UIntPlusOne<u128>`.

ghost use Rattle.std.specs.Prelude.{◌^◌};
ghost use Rattle.std.specs.Int.{w128};
ghost use Rattle.std.proofs.Common.{lit<, lit≤};
ghost use Rattle.std.proofs.lemmas.Map.Lookups.{exact_signed};
ghost use Rattle.rsb_integer.specs.Rank.{signed_rank, signed_value};
ghost use Rattle.rsb_integer.specs.laws.Rank.{signed-ranks, signed-in_order};
ghost use Rattle.rsb_integer.specs.Room.{have_room};

use crate::integer::Integer;
use rsb_length::UIntPlusOne;
use std::ops::RangeInclusive;

impl Integer for i128 {
    type SafeLen = UIntPlusOne<u128>;

    ghost rank = { signed_rank w128 };

    ghost value_count = { 2 ^ 128 };

    ghost value_at = { signed_value w128 };

    fn checked_add_one(self) -> Option<i128> {
        self.checked_add(1)
    }

    fn add_one(self) -> i128 {
        self + 1
    }

    fn sub_one(self) -> i128 {
        self - 1
    }

    fn min_value() -> i128 {
        i128::MIN
    }

    fn max_value() -> i128 {
        i128::MAX
    }

    fn safe_len(range: &RangeInclusive<i128>) -> UIntPlusOne<u128> {
        let start = range.start().cast_unsigned();
        let steps = range.end().cast_unsigned().wrapping_sub(start);
        UIntPlusOne::UInt(steps) + UIntPlusOne::UInt(1)
    }

    fn inclusive_end_from_start(self, b: UIntPlusOne<u128>) -> i128 {
        match b {
            UIntPlusOne::UInt(length) => self.checked_add_unsigned(length - 1).unwrap(),
            // Only the whole type has this length.
            UIntPlusOne::MaxPlusOne => i128::MAX,
        }
    }

    fn start_from_inclusive_end(self, b: UIntPlusOne<u128>) -> i128 {
        match b {
            UIntPlusOne::UInt(length) => self.checked_sub_unsigned(length - 1).unwrap(),
            // Only the whole type has this length.
            UIntPlusOne::MaxPlusOne => i128::MIN,
        }
    }

    ghost ranks = { signed-ranks w128 };

    ghost exact = { exact_signed };

    ghost in_order = { signed-in_order w128 };

    ghost some_values = { lit≤ tt };

    ghost countable = { lit≤ tt };

    ghost lengths_suffice = { lit≤ tt };

    ghost two_ends_fit = { λ end. have_room _ (lit< tt) };
}
