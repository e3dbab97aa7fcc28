//! `u64` as an element type, with lengths in `u128`.

ghost use Rattle.std.specs.Prelude.{◌^◌};
ghost use Rattle.std.proofs.Common.{lit<, lit≤, refl};
ghost use Rattle.std.proofs.lemmas.Map.Lookups.{exact_unsigned};
ghost use Rattle.rsb_integer.specs.Room.{have_room};

use crate::integer::Integer;
use std::ops::RangeInclusive;

impl Integer for u64 {
    type SafeLen = u128;

    ghost rank = { λ x. x };

    ghost value_count = { 2 ^ 64 };

    ghost value_at = { λ n. n };

    fn checked_add_one(self) -> Option<u64> {
        self.checked_add(1)
    }

    fn add_one(self) -> u64 {
        self + 1
    }

    fn sub_one(self) -> u64 {
        self - 1
    }

    fn min_value() -> u64 {
        u64::MIN
    }

    fn max_value() -> u64 {
        u64::MAX
    }

    fn safe_len(range: &RangeInclusive<u64>) -> u128 {
        u128::from(range.end() - range.start()) + 1
    }

    fn inclusive_end_from_start(self, b: u128) -> u64 {
        self + (b - 1) as u64
    }

    fn start_from_inclusive_end(self, b: u128) -> u64 {
        self - (b - 1) as u64
    }

    ghost ranks = { λ place below. refl };

    ghost exact = { exact_unsigned };

    ghost in_order = { λ x y left right. refl };

    ghost some_values = { lit≤ tt };

    ghost countable = { lit≤ tt };

    ghost lengths_suffice = { lit≤ tt };

    ghost two_ends_fit = { λ end. have_room _ (lit< tt) };
}
