//! `char` as an element type of 1,112,064 values, with lengths in `u32`.

ghost use Rattle.std.proofs.Common.{lit<, lit≤};
ghost use Rattle.std.proofs.lemmas.Map.Lookups.{exact_unsigned};
ghost use Rattle.rsb_integer.specs.Rank.{scalar_rank, scalar_value};
ghost use Rattle.rsb_integer.specs.laws.Rank.{scalar-ranks, scalar-in_order};
ghost use Rattle.rsb_integer.specs.Room.{have_room};

use crate::integer::Integer;
use std::ops::RangeInclusive;

// The codes from this one to `SURROGATE_END` are not characters.
const SURROGATE_START: u32 = 0xD800;

const SURROGATE_END: u32 = 0xDFFF;

const SURROGATE_COUNT: u32 = SURROGATE_END - SURROGATE_START + 1;

impl Integer for char {
    type SafeLen = u32;

    ghost rank = { scalar_rank };

    ghost value_count = { 1112064 };

    ghost value_at = { scalar_value };

    fn checked_add_one(self) -> Option<char> {
        match self {
            char::MAX => None,
            '\u{D7FF}' => Some('\u{E000}'),
            c => char::from_u32(u32::from(c) + 1),
        }
    }

    fn add_one(self) -> char {
        self.checked_add_one().unwrap()
    }

    fn sub_one(self) -> char {
        match self {
            '\u{E000}' => '\u{D7FF}',
            c => char::from_u32(u32::from(c) - 1).unwrap(),
        }
    }

    fn min_value() -> char {
        '\0'
    }

    fn max_value() -> char {
        char::MAX
    }

    fn safe_len(range: &RangeInclusive<char>) -> u32 {
        let start = u32::from(*range.start());
        let end = u32::from(*range.end());
        let codes = end - start + 1;
        if start < SURROGATE_START && SURROGATE_END < end {
            codes - SURROGATE_COUNT
        } else {
            codes
        }
    }

    fn inclusive_end_from_start(self, b: u32) -> char {
        let start = u32::from(self);
        let end = start + (b - 1);
        let end = if start < SURROGATE_START && SURROGATE_START <= end {
            end + SURROGATE_COUNT
        } else {
            end
        };
        char::from_u32(end).unwrap()
    }

    fn start_from_inclusive_end(self, b: u32) -> char {
        let end = u32::from(self);
        let start = end - (b - 1);
        let start = if start <= SURROGATE_END && SURROGATE_END < end {
            start - SURROGATE_COUNT
        } else {
            start
        };
        char::from_u32(start).unwrap()
    }

    ghost ranks = { scalar-ranks };

    ghost exact = { exact_unsigned };

    ghost in_order = { scalar-in_order };

    ghost some_values = { lit≤ tt };

    ghost countable = { lit≤ tt };

    ghost lengths_suffice = { lit≤ tt };

    ghost two_ends_fit = { λ end. have_room _ (lit< tt) };
}
