//! The slots of the ten sets.

ghost use Rattle.std.specs.Prelude.{◌≡◌, ◌↔◌, ◌<◌, ℕ, IsSome, IfSome};

use std::marker::Model;

/// A slot: the number of one of the ten sets, from 0 to 9.
#[derive(Clone, Copy, Debug, PartialEq, Eq)]
pub struct SetNo {
    number: u8,
}

impl Model for SetNo {
    ghost Value = { ℕ };

    ghost view = { λ slot. slot.number };

    ghost invariant = { λ slot. slot.number < 10 };

    ghost inverse = { λ number. record { number = number } };
}

impl SetNo {
    /// Returns the slot with this number, or `None` if the number is not below 10.
    pub fn new(n: u8) -> Option<SetNo>
        ensures some { IsSome result ↔ (n < 10) }
        ensures number { IfSome result (λ slot. slot ≡ n) }
    {
        if n < 10 {
            Some(SetNo { number: n })
        } else {
            None
        }
    }

    /// Returns the slot as an index into the ten sets.
    pub fn index(self) -> usize
        ensures place { result ≡ self }
        ensures below { result < 10 }
    {
        self.number as usize
    }
}
