//! `i8` as an element type, with lengths in `u16`.

ghost use Rattle.std.specs.Prelude.{◌^◌};
ghost use Rattle.std.specs.Int.{w8};
ghost use Rattle.std.proofs.Common.{lit<, lit≤};
ghost use Rattle.std.proofs.lemmas.Map.Lookups.{exact_signed};
ghost use Rattle.rsb_integer.specs.Rank.{signed_rank, signed_value};
ghost use Rattle.rsb_integer.specs.laws.Rank.{signed-ranks, signed-in_order};
ghost use Rattle.rsb_integer.specs.Room.{have_room};

use crate::integer::Integer;
use std::ops::RangeInclusive;

impl Integer for i8 {
    type SafeLen = u16;

    ghost rank = { signed_rank w8 };

    ghost value_count = { 2 ^ 8 };

    ghost value_at = { signed_value w8 };

    fn checked_add_one(self) -> Option<i8> {
        self.checked_add(1)
    }

    fn add_one(self) -> i8 {
        self + 1
    }

    fn sub_one(self) -> i8 {
        self - 1
    }

    fn min_value() -> i8 {
        i8::MIN
    }

    fn max_value() -> i8 {
        i8::MAX
    }

    fn safe_len(range: &RangeInclusive<i8>) -> u16 {
        let start = range.start().cast_unsigned();
        let steps = range.end().cast_unsigned().wrapping_sub(start);
        u16::from(steps) + 1
    }

    fn inclusive_end_from_start(self, b: u16) -> i8 {
        self.checked_add_unsigned((b - 1) as u8).unwrap()
    }

    fn start_from_inclusive_end(self, b: u16) -> i8 {
        self.checked_sub_unsigned((b - 1) as u8).unwrap()
    }

    ghost ranks = { signed-ranks w8 };

    ghost exact = { exact_signed };

    ghost in_order = { signed-in_order w8 };

    ghost some_values = { lit≤ tt };

    ghost countable = { lit≤ tt };

    ghost lengths_suffice = { lit≤ tt };

    ghost two_ends_fit = { λ end. have_room _ (lit< tt) };
}
