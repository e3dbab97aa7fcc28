//! Element types whose values are converted to ranks, and back
//! (docs/DECISIONS.md, ranks-in-code).

ghost use Rattle.std.specs.Prelude.{◌≡◌, ◌<◌};

use crate::lengths::{length_of_number, number_of_length};
use num_traits::One;
use rsb_integer::{Element, Enumerated, Integer};

/// An element type whose ranks are available as numbers. Any element type has an implementation of
/// one line, such as `impl RankedInteger for Slot {}`, which computes ranks from lengths. It takes
/// a step for each bit of a rank. Types of the standard library convert at once. Not in
/// range-set-blaze.
pub trait RankedInteger: Integer {
    /// Returns the rank of the value.
    fn to_rank(self) -> u128
        ensures value { Self.rank self < Self.value_count }
        ensures rank { result ≡ Self.rank self }
    {
        // After this call, `self` is known to be a value.
        self.checked_add_one();
        let mut length = Self::safe_len(&(Self::min_value()..=self));
        length -= Self::SafeLen::one();
        number_of_length(length)
    }

    /// Returns the value with a rank. Requires that there is one.
    fn from_rank(rank: u128) -> Self
        requires { rank < Self.value_count }
        ensures { Self.rank result ≡ rank }
    {
        let mut length: Self::SafeLen = length_of_number(rank);
        length += Self::SafeLen::one();
        Self::min_value().inclusive_end_from_start(length)
    }
}

impl RankedInteger for u8 {
    fn to_rank(self) -> u128 {
        self as u128
    }

    fn from_rank(rank: u128) -> u8 {
        rank as u8
    }
}

impl RankedInteger for u16 {
    fn to_rank(self) -> u128 {
        self as u128
    }

    fn from_rank(rank: u128) -> u16 {
        rank as u16
    }
}

impl RankedInteger for u32 {
    fn to_rank(self) -> u128 {
        self as u128
    }

    fn from_rank(rank: u128) -> u32 {
        rank as u32
    }
}

impl RankedInteger for u64 {
    fn to_rank(self) -> u128 {
        self as u128
    }

    fn from_rank(rank: u128) -> u64 {
        rank as u64
    }
}

impl RankedInteger for usize {
    fn to_rank(self) -> u128 {
        self as u128
    }

    fn from_rank(rank: u128) -> usize {
        rank as usize
    }
}

impl RankedInteger for u128 {
    fn to_rank(self) -> u128 {
        self
    }

    fn from_rank(rank: u128) -> u128 {
        rank
    }
}

impl RankedInteger for i8 {
    fn to_rank(self) -> u128 {
        self.abs_diff(i8::MIN) as u128
    }

    fn from_rank(rank: u128) -> i8 {
        i8::MIN.checked_add_unsigned(rank as u8).unwrap()
    }
}

impl RankedInteger for i16 {
    fn to_rank(self) -> u128 {
        self.abs_diff(i16::MIN) as u128
    }

    fn from_rank(rank: u128) -> i16 {
        i16::MIN.checked_add_unsigned(rank as u16).unwrap()
    }
}

impl RankedInteger for i32 {
    fn to_rank(self) -> u128 {
        self.abs_diff(i32::MIN) as u128
    }

    fn from_rank(rank: u128) -> i32 {
        i32::MIN.checked_add_unsigned(rank as u32).unwrap()
    }
}

impl RankedInteger for i64 {
    fn to_rank(self) -> u128 {
        self.abs_diff(i64::MIN) as u128
    }

    fn from_rank(rank: u128) -> i64 {
        i64::MIN.checked_add_unsigned(rank as u64).unwrap()
    }
}

impl RankedInteger for isize {
    fn to_rank(self) -> u128 {
        self.abs_diff(isize::MIN) as u128
    }

    fn from_rank(rank: u128) -> isize {
        isize::MIN.checked_add_unsigned(rank as usize).unwrap()
    }
}

impl RankedInteger for i128 {
    fn to_rank(self) -> u128 {
        self.abs_diff(i128::MIN)
    }

    fn from_rank(rank: u128) -> i128 {
        i128::MIN.checked_add_unsigned(rank).unwrap()
    }
}

impl RankedInteger for char {}

impl<T: Enumerated> RankedInteger for Element<T> {}
