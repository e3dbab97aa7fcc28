//! `i64` as an element type, with lengths in `u128`.

ghost use Rattle.std.specs.Prelude.{◌^◌};
ghost use Rattle.std.specs.Int.{w64};
ghost use Rattle.std.proofs.Common.{lit<, lit≤};
ghost use Rattle.std.proofs.lemmas.Map.Lookups.{exact_signed};
ghost use Rattle.rsb_integer.specs.Rank.{signed_rank, signed_value};
ghost use Rattle.rsb_integer.specs.laws.Rank.{signed-ranks, signed-in_order};
ghost use Rattle.rsb_integer.specs.Room.{have_room};

use crate::integer::Integer;
use std::ops::RangeInclusive;

impl Integer for i64 {
    type SafeLen = u128;

    ghost rank = { signed_rank w64 };

    ghost value_count = { 2 ^ 64 };

    ghost value_at = { signed_value w64 };

    fn checked_add_one(self) -> Option<i64> {
        self.checked_add(1)
    }

    fn add_one(self) -> i64 {
        self + 1
    }

    fn sub_one(self) -> i64 {
        self - 1
    }

    fn min_value() -> i64 {
        i64::MIN
    }

    fn max_value() -> i64 {
        i64::MAX
    }

    fn safe_len(range: &RangeInclusive<i64>) -> u128 {
        let start = range.start().cast_unsigned();
        let steps = range.end().cast_unsigned().wrapping_sub(start);
        u128::from(steps) + 1
    }

    fn inclusive_end_from_start(self, b: u128) -> i64 {
        self.checked_add_unsigned((b - 1) as u64).unwrap()
    }

    fn start_from_inclusive_end(self, b: u128) -> i64 {
        self.checked_sub_unsigned((b - 1) as u64).unwrap()
    }

    ghost ranks = { signed-ranks w64 };

    ghost exact = { exact_signed };

    ghost in_order = { signed-in_order w64 };

    ghost some_values = { lit≤ tt };

    ghost countable = { lit≤ tt };

    ghost lengths_suffice = { lit≤ tt };

    ghost two_ends_fit = { λ end. have_room _ (lit< tt) };
}
