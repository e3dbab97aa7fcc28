//! `usize` as an element type, with lengths in `u128`.

ghost use Rattle.std.specs.Prelude.{◌^◌};
ghost use Rattle.std.proofs.Common.{lit<, lit≤, refl};
ghost use Rattle.std.proofs.lemmas.Map.Lookups.{exact_unsigned};
ghost use Rattle.rsb_integer.specs.Room.{have_room};

use crate::integer::Integer;
use std::ops::RangeInclusive;

impl Integer for usize {
    type SafeLen = u128;

    ghost rank = { λ x. x };

    ghost value_count = { 2 ^ 64 };

    ghost value_at = { λ n. n };

    fn checked_add_one(self) -> Option<usize> {
        self.checked_add(1)
    }

    fn add_one(self) -> usize {
        self + 1
    }

    fn sub_one(self) -> usize {
        self - 1
    }

    fn min_value() -> usize {
        usize::MIN
    }

    fn max_value() -> usize {
        usize::MAX
    }

    fn safe_len(range: &RangeInclusive<usize>) -> u128 {
        (range.end() - range.start()) as u128 + 1
    }

    fn inclusive_end_from_start(self, b: u128) -> usize {
        self + (b - 1) as usize
    }

    fn start_from_inclusive_end(self, b: u128) -> usize {
        self - (b - 1) as usize
    }

    ghost ranks = { λ place below. refl };

    ghost exact = { exact_unsigned };

    ghost in_order = { λ x y left right. refl };

    ghost some_values = { lit≤ tt };

    ghost countable = { lit≤ tt };

    ghost lengths_suffice = { lit≤ tt };

    ghost two_ends_fit = { λ end. have_room _ (lit< tt) };
}
