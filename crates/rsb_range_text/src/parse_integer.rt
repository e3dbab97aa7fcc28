//! Element types whose values are read from decimal digits.

ghost use Rattle.std.specs.Prelude.{◌≡◌, ℕ, ℤ, ◌*◌, ◌+◌, ◌<◌, IfSome, IsNone, pos, unsigned_abs};
ghost use Rattle.std.specs.Int.{FitsUnsignedBits, w8, w16, w32, w64, w128};
ghost use Rattle.std.specs.Int.RustNames.{FitsSigned};
ghost use Rattle.std.proofs.Common.{lit<, lit≤, refl};
ghost use Rattle.rsb_range_text.specs.laws.Number.{signed-numbers, unsigned-numbers};
ghost use Rattle.rsb_range_text.specs.Numbers.{AreNumbers};
ghost use Rattle.rsb_range_text.specs.Text.{HasDigit, signed_by};

use rsb_integer::Integer;

/// An element type whose values are whole numbers, written in decimal. It is implemented for `u8`
/// to `u128`, `usize`, `i8` to `i128` and `isize`. Not in range-set-blaze.
pub trait ParseInteger: Integer {
    // The number of a value.
    ghost number: { Self → ℤ };

    // Whether a number is one of the type.
    ghost fits: { ℤ → Type 0 };

    /// Returns the number 0.
    fn zero_value() -> Self
        ensures { number result ≡ pos 0 };

    /// Appends a decimal digit and returns the number, which is negative or 0 if `negative` is
    /// true. The sign of `self` does not matter. Returns `None` if the result is not a number of
    /// the type.
    fn with_digit(self, negative: bool, digit: u8) -> Option<Self>
        ensures none { IsNone result → ¬ fits
            (signed_by negative (unsigned_abs (number self) * 10 + digit)) }
        ensures some { IfSome result
            (HasDigit number fits negative (unsigned_abs (number self)) digit) };

    // One of the values is 0.
    ghost has_zero: { (zero : Self) × (number zero ≡ pos 0) × fits (pos 0) };

    // Each number of the type is one value, and `Debug` writes it in decimal.
    ghost numbers: { AreNumbers Self.rank Self.value_count number fits Self.debug_output };
}

impl ParseInteger for u8 {
    ghost number = { λ n. pos n };

    ghost fits = { FitsUnsignedBits 8 };

    fn zero_value() -> u8 {
        0
    }

    fn with_digit(self, negative: bool, digit: u8) -> Option<u8> {
        let longer = self.checked_mul(10)?.checked_add(digit)?;
        if negative && longer != 0 {
            None
        } else {
            Some(longer)
        }
    }

    ghost has_zero = { (0, refl, lit< tt) };

    ghost numbers = { unsigned-numbers 8 (lit≤ tt) };
}

impl ParseInteger for u16 {
    ghost number = { λ n. pos n };

    ghost fits = { FitsUnsignedBits 16 };

    fn zero_value() -> u16 {
        0
    }

    fn with_digit(self, negative: bool, digit: u8) -> Option<u16> {
        let longer = self.checked_mul(10)?.checked_add(u16::from(digit))?;
        if negative && longer != 0 {
            None
        } else {
            Some(longer)
        }
    }

    ghost has_zero = { (0, refl, lit< tt) };

    ghost numbers = { unsigned-numbers 16 (lit≤ tt) };
}

impl ParseInteger for u32 {
    ghost number = { λ n. pos n };

    ghost fits = { FitsUnsignedBits 32 };

    fn zero_value() -> u32 {
        0
    }

    fn with_digit(self, negative: bool, digit: u8) -> Option<u32> {
        let longer = self.checked_mul(10)?.checked_add(u32::from(digit))?;
        if negative && longer != 0 {
            None
        } else {
            Some(longer)
        }
    }

    ghost has_zero = { (0, refl, lit< tt) };

    ghost numbers = { unsigned-numbers 32 (lit≤ tt) };
}

impl ParseInteger for u64 {
    ghost number = { λ n. pos n };

    ghost fits = { FitsUnsignedBits 64 };

    fn zero_value() -> u64 {
        0
    }

    fn with_digit(self, negative: bool, digit: u8) -> Option<u64> {
        let longer = self.checked_mul(10)?.checked_add(u64::from(digit))?;
        if negative && longer != 0 {
            None
        } else {
            Some(longer)
        }
    }

    ghost has_zero = { (0, refl, lit< tt) };

    ghost numbers = { unsigned-numbers 64 (lit≤ tt) };
}

impl ParseInteger for u128 {
    ghost number = { λ n. pos n };

    ghost fits = { FitsUnsignedBits 128 };

    fn zero_value() -> u128 {
        0
    }

    fn with_digit(self, negative: bool, digit: u8) -> Option<u128> {
        let longer = self.checked_mul(10)?.checked_add(u128::from(digit))?;
        if negative && longer != 0 {
            None
        } else {
            Some(longer)
        }
    }

    ghost has_zero = { (0, refl, lit< tt) };

    ghost numbers = { unsigned-numbers 128 (lit≤ tt) };
}

impl ParseInteger for usize {
    ghost number = { λ n. pos n };

    ghost fits = { FitsUnsignedBits 64 };

    fn zero_value() -> usize {
        0
    }

    fn with_digit(self, negative: bool, digit: u8) -> Option<usize> {
        let longer = self.checked_mul(10)?.checked_add(usize::from(digit))?;
        if negative && longer != 0 {
            None
        } else {
            Some(longer)
        }
    }

    ghost has_zero = { (0, refl, lit< tt) };

    ghost numbers = { unsigned-numbers 64 (lit≤ tt) };
}

impl ParseInteger for i8 {
    ghost number = { λ z. z };

    ghost fits = { FitsSigned w8 };

    fn zero_value() -> i8 {
        0
    }

    fn with_digit(self, negative: bool, digit: u8) -> Option<i8> {
        let longer = self.unsigned_abs().checked_mul(10)?.checked_add(digit)?;
        if negative {
            0i8.checked_sub_unsigned(longer)
        } else {
            0i8.checked_add_unsigned(longer)
        }
    }

    ghost has_zero = { (pos 0, refl, record { sfits = lit< tt }) };

    ghost numbers = { signed-numbers w8 (lit≤ tt) };
}

impl ParseInteger for i16 {
    ghost number = { λ z. z };

    ghost fits = { FitsSigned w16 };

    fn zero_value() -> i16 {
        0
    }

    fn with_digit(self, negative: bool, digit: u8) -> Option<i16> {
        let longer = self
            .unsigned_abs()
            .checked_mul(10)?
            .checked_add(u16::from(digit))?;
        if negative {
            0i16.checked_sub_unsigned(longer)
        } else {
            0i16.checked_add_unsigned(longer)
        }
    }

    ghost has_zero = { (pos 0, refl, record { sfits = lit< tt }) };

    ghost numbers = { signed-numbers w16 (lit≤ tt) };
}

impl ParseInteger for i32 {
    ghost number = { λ z. z };

    ghost fits = { FitsSigned w32 };

    fn zero_value() -> i32 {
        0
    }

    fn with_digit(self, negative: bool, digit: u8) -> Option<i32> {
        let longer = self
            .unsigned_abs()
            .checked_mul(10)?
            .checked_add(u32::from(digit))?;
        if negative {
            0i32.checked_sub_unsigned(longer)
        } else {
            0i32.checked_add_unsigned(longer)
        }
    }

    ghost has_zero = { (pos 0, refl, record { sfits = lit< tt }) };

    ghost numbers = { signed-numbers w32 (lit≤ tt) };
}

impl ParseInteger for i64 {
    ghost number = { λ z. z };

    ghost fits = { FitsSigned w64 };

    fn zero_value() -> i64 {
        0
    }

    fn with_digit(self, negative: bool, digit: u8) -> Option<i64> {
        let longer = self
            .unsigned_abs()
            .checked_mul(10)?
            .checked_add(u64::from(digit))?;
        if negative {
            0i64.checked_sub_unsigned(longer)
        } else {
            0i64.checked_add_unsigned(longer)
        }
    }

    ghost has_zero = { (pos 0, refl, record { sfits = lit< tt }) };

    ghost numbers = { signed-numbers w64 (lit≤ tt) };
}

impl ParseInteger for i128 {
    ghost number = { λ z. z };

    ghost fits = { FitsSigned w128 };

    fn zero_value() -> i128 {
        0
    }

    fn with_digit(self, negative: bool, digit: u8) -> Option<i128> {
        let longer = self
            .unsigned_abs()
            .checked_mul(10)?
            .checked_add(u128::from(digit))?;
        if negative {
            0i128.checked_sub_unsigned(longer)
        } else {
            0i128.checked_add_unsigned(longer)
        }
    }

    ghost has_zero = { (pos 0, refl, record { sfits = lit< tt }) };

    ghost numbers = { signed-numbers w128 (lit≤ tt) };
}

impl ParseInteger for isize {
    ghost number = { λ z. z };

    ghost fits = { FitsSigned w64 };

    fn zero_value() -> isize {
        0
    }

    fn with_digit(self, negative: bool, digit: u8) -> Option<isize> {
        let longer = self
            .unsigned_abs()
            .checked_mul(10)?
            .checked_add(usize::from(digit))?;
        if negative {
            0isize.checked_sub_unsigned(longer)
        } else {
            0isize.checked_add_unsigned(longer)
        }
    }

    ghost has_zero = { (pos 0, refl, record { sfits = lit< tt }) };

    ghost numbers = { signed-numbers w64 (lit≤ tt) };
}
