//! `isize` as an element type, with lengths in `u128`.

ghost use Rattle.std.specs.Prelude.{◌^◌};
ghost use Rattle.std.specs.Int.{w64};
ghost use Rattle.std.proofs.Common.{lit<, lit≤};
ghost use Rattle.std.proofs.lemmas.Map.Lookups.{exact_signed};
ghost use Rattle.rsb_integer.specs.Rank.{signed_rank, signed_value};
ghost use Rattle.rsb_integer.specs.laws.Rank.{signed-ranks, signed-in_order};
ghost use Rattle.rsb_integer.specs.Room.{have_room};

use crate::integer::Integer;
use std::ops::RangeInclusive;

impl Integer for isize {
    type SafeLen = u128;

    ghost rank = { signed_rank w64 };

    ghost value_count = { 2 ^ 64 };

    ghost value_at = { signed_value w64 };

    fn checked_add_one(self) -> Option<isize> {
        self.checked_add(1)
    }

    fn add_one(self) -> isize {
        self + 1
    }

    fn sub_one(self) -> isize {
        self - 1
    }

    fn min_value() -> isize {
        isize::MIN
    }

    fn max_value() -> isize {
        isize::MAX
    }

    fn safe_len(range: &RangeInclusive<isize>) -> u128 {
        let start = range.start().cast_unsigned();
        let steps = range.end().cast_unsigned().wrapping_sub(start);
        steps as u128 + 1
    }

    fn inclusive_end_from_start(self, b: u128) -> isize {
        self.checked_add_unsigned((b - 1) as usize).unwrap()
    }

    fn start_from_inclusive_end(self, b: u128) -> isize {
        self.checked_sub_unsigned((b - 1) as usize).unwrap()
    }

    ghost ranks = { signed-ranks w64 };

    ghost exact = { exact_signed };

    ghost in_order = { signed-in_order w64 };

    ghost some_values = { lit≤ tt };

    ghost countable = { lit≤ tt };

    ghost lengths_suffice = { lit≤ tt };

    ghost two_ends_fit = { λ end. have_room _ (lit< tt) };
}
