//! An example of an element type: the quarter hours of a day.

ghost use Rattle.std.specs.Prelude.{◌≡◌, ◌↔◌, ◌<◌, ℕ, IsSome, IfSome};
ghost use Rattle.std.proofs.Common.{lit<, lit≤, refl};
ghost use Rattle.std.proofs.lemmas.Map.Lookups.{exact_unsigned};
ghost use Rattle.range_set_blaze.specs.Room.{have_room};

use range_set_blaze::Integer;
use std::fmt::{self, Debug, Display, Formatter, Write};
use std::marker::Model;
use std::ops::RangeInclusive;

/// A quarter hour of a day. The one that begins at midnight has number 0, and the last has number
/// 95. Contracts see it as that number. Not in range-set-blaze.
#[derive(Clone, Copy, PartialEq, Eq, PartialOrd, Ord, Hash)]
pub struct Slot {
    number: u8,
}

impl Model for Slot {
    ghost Value = { ℕ };

    ghost view = { λ slot. slot.number };

    ghost invariant = { λ slot. slot.number < 96 };

    ghost inverse = { λ number. record { number = number } };
}

impl Slot {
    /// Returns the slot with this number, or `None` if the number is not below 96. Not in
    /// range-set-blaze.
    pub fn new(n: u8) -> Option<Slot>
        ensures some { IsSome result ↔ (n < 96) }
        ensures number { IfSome result (λ slot. slot ≡ n) }
    {
        if n < 96 {
            Some(Slot { number: n })
        } else {
            None
        }
    }

    /// Returns the number of the slot, from 0 to 95. Not in range-set-blaze.
    pub fn get(self) -> u8
        ensures number { result ≡ self }
        ensures in_day { result < 96 }
    {
        self.number
    }
}

/// Writes the number.
impl Display for Slot {
    ghost output = { ⟦<u8 as Display>⟧.output };

    fn fmt<W: Write>(&self, f: &mut Formatter<W>) -> fmt::Result {
        Display::fmt(&self.number, f)
    }
}

/// Also writes only the number, because a set is displayed with the `Debug` texts of its values.
impl Debug for Slot {
    ghost debug_output = { ⟦<u8 as Display>⟧.output };

    fn fmt<W: Write>(&self, f: &mut Formatter<W>) -> fmt::Result {
        Display::fmt(self, f)
    }
}

impl Integer for Slot {
    type SafeLen = u16;

    ghost rank = { λ slot. slot };

    ghost value_count = { 96 };

    ghost value_at = { λ place. place };

    fn checked_add_one(self) -> Option<Slot> {
        Slot::new(self.number + 1)
    }

    fn add_one(self) -> Slot {
        Slot {
            number: self.number + 1,
        }
    }

    fn sub_one(self) -> Slot {
        Slot {
            number: self.number - 1,
        }
    }

    fn min_value() -> Slot {
        Slot { number: 0 }
    }

    fn max_value() -> Slot {
        Slot { number: 95 }
    }

    fn safe_len(range: &RangeInclusive<Slot>) -> u16 {
        u16::from(range.end().number - range.start().number) + 1
    }

    fn inclusive_end_from_start(self, b: u16) -> Slot {
        Slot {
            number: self.number + (b - 1) as u8,
        }
    }

    fn start_from_inclusive_end(self, b: u16) -> Slot {
        Slot {
            number: self.number - (b - 1) as u8,
        }
    }

    ghost ranks = { λ place below. refl };

    ghost exact = { exact_unsigned };

    ghost in_order = { λ x y left right. refl };

    ghost some_values = { lit≤ tt };

    ghost countable = { lit≤ tt };

    ghost lengths_suffice = { lit≤ tt };

    ghost two_ends_fit = { λ end. have_room _ (lit< tt) };
}
