//! `u16` as an element type, with lengths in `u32`.

ghost use Rattle.std.specs.Prelude.{◌^◌};
ghost use Rattle.std.proofs.Common.{lit<, lit≤, refl};
ghost use Rattle.std.proofs.lemmas.Map.Lookups.{exact_unsigned};
ghost use Rattle.rsb_integer.specs.Room.{have_room};

use crate::integer::Integer;
use std::ops::RangeInclusive;

impl Integer for u16 {
    type SafeLen = u32;

    ghost rank = { λ x. x };

    ghost value_count = { 2 ^ 16 };

    ghost value_at = { λ n. n };

    fn checked_add_one(self) -> Option<u16> {
        self.checked_add(1)
    }

    fn add_one(self) -> u16 {
        self + 1
    }

    fn sub_one(self) -> u16 {
        self - 1
    }

    fn min_value() -> u16 {
        u16::MIN
    }

    fn max_value() -> u16 {
        u16::MAX
    }

    fn safe_len(range: &RangeInclusive<u16>) -> u32 {
        u32::from(range.end() - range.start()) + 1
    }

    fn inclusive_end_from_start(self, b: u32) -> u16 {
        self + (b - 1) as u16
    }

    fn start_from_inclusive_end(self, b: u32) -> u16 {
        self - (b - 1) as u16
    }

    ghost ranks = { λ place below. refl };

    ghost exact = { exact_unsigned };

    ghost in_order = { λ x y left right. refl };

    ghost some_values = { lit≤ tt };

    ghost countable = { lit≤ tt };

    ghost lengths_suffice = { lit≤ tt };

    ghost two_ends_fit = { λ end. have_room _ (lit< tt) };
}
