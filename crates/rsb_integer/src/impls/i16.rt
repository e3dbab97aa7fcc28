//! `i16` as an element type, with lengths in `u32`.

ghost use Rattle.std.specs.Prelude.{◌^◌};
ghost use Rattle.std.specs.Int.{w16};
ghost use Rattle.std.proofs.Common.{lit<, lit≤};
ghost use Rattle.std.proofs.lemmas.Map.Lookups.{exact_signed};
ghost use Rattle.rsb_integer.specs.Rank.{signed_rank, signed_value};
ghost use Rattle.rsb_integer.specs.laws.Rank.{signed-ranks, signed-in_order};
ghost use Rattle.rsb_integer.specs.Room.{have_room};

use crate::integer::Integer;
use std::ops::RangeInclusive;

impl Integer for i16 {
    type SafeLen = u32;

    ghost rank = { signed_rank w16 };

    ghost value_count = { 2 ^ 16 };

    ghost value_at = { signed_value w16 };

    fn checked_add_one(self) -> Option<i16> {
        self.checked_add(1)
    }

    fn add_one(self) -> i16 {
        self + 1
    }

    fn sub_one(self) -> i16 {
        self - 1
    }

    fn min_value() -> i16 {
        i16::MIN
    }

    fn max_value() -> i16 {
        i16::MAX
    }

    fn safe_len(range: &RangeInclusive<i16>) -> u32 {
        let start = range.start().cast_unsigned();
        let steps = range.end().cast_unsigned().wrapping_sub(start);
        u32::from(steps) + 1
    }

    fn inclusive_end_from_start(self, b: u32) -> i16 {
        self.checked_add_unsigned((b - 1) as u16).unwrap()
    }

    fn start_from_inclusive_end(self, b: u32) -> i16 {
        self.checked_sub_unsigned((b - 1) as u16).unwrap()
    }

    ghost ranks = { signed-ranks w16 };

    ghost exact = { exact_signed };

    ghost in_order = { signed-in_order w16 };

    ghost some_values = { lit≤ tt };

    ghost countable = { lit≤ tt };

    ghost lengths_suffice = { lit≤ tt };

    ghost two_ends_fit = { λ end. have_room _ (lit< tt) };
}
