//! Values, runs and numbers of members of sets of `u128`, as C sees them
//! (docs/DECISIONS.md, wide-by-words).

ghost use Rattle.std.specs.Prelude.{◌≡◌};
ghost use Rattle.rsb_integer.specs.Runs.{from_to};
ghost use Rattle.range_set_c.specs.U128Runs.{interval_of_run};
ghost use Rattle.range_set_c.specs.U128Values.{length_number, number, total};

use crate::u128_sets::run::Run;
use range_set_blaze::UIntPlusOne;

/// A value, `low + 2^64 * high`.
#[repr(C)]
#[derive(Clone, Copy)]
pub struct Value {
    pub low: u64,
    pub high: u64,
}

impl Value {
    /// Returns the value of two words.
    #[tactic(auto, unfolding(crate::specs::U128Values::number))]
    pub(crate) fn number(self) -> u128
        ensures { result ≡ number self }
    {
        self.low as u128 + (1 << 64) * self.high as u128
    }

    /// Returns this value as a number of members.
    pub(crate) fn length(self) -> UIntPlusOne<u128>
        ensures { length_number result ≡ number self }
    {
        UIntPlusOne::UInt(self.number())
    }

    /// Splits a value into two words.
    #[tactic(auto, unfolding(crate::specs::U128Values::number))]
    pub(crate) fn of(value: u128) -> Value
        ensures { number result ≡ value }
    {
        Value {
            low: (value % (1 << 64)) as u64,
            high: (value / (1 << 64)) as u64,
        }
    }
}

/// A run or a gap, both ends included.
#[repr(C)]
#[derive(Drop)]
pub struct ValueRun {
    pub first: Value,
    pub last: Value,
}

impl ValueRun {
    /// Splits the ends of a run into words.
    pub(crate) fn of(run: Run) -> ValueRun
        ensures run { interval_of_run result ≡ from_to run.first run.last }
        ensures first { number result.first ≡ run.first }
        ensures last { number result.last ≡ run.last }
    {
        ValueRun {
            first: Value::of(run.first),
            last: Value::of(run.last),
        }
    }
}

/// The number of members, `low + 2^64 * high + 2^128 * top`.
#[repr(C)]
#[derive(Drop)]
pub struct Count {
    pub low: u64,
    pub high: u64,
    pub top: u64,
}

impl Count {
    /// Splits a number of members into words.
    #[tactic(auto, unfolding(crate::specs::U128Values::number, crate::specs::U128Values::total))]
    pub(crate) fn of(len: UIntPlusOne<u128>) -> Count
        ensures { total result ≡ length_number len }
    {
        match len {
            UIntPlusOne::UInt(value) => {
                let Value { low, high } = Value::of(value);
                Count { low, high, top: 0 }
            }
            UIntPlusOne::MaxPlusOne => Count {
                low: 0,
                high: 0,
                top: 1,
            },
        }
    }
}
