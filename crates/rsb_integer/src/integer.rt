//! The trait of element types (docs/DECISIONS.md, one-element-trait). It requires neither
//! `Send` nor `Sync` (docs/DECISIONS.md, no-send-above).

ghost use Rattle.std.specs.Prelude.{◌≡◌, ◌↔◌, ℕ, ◌+◌, ◌^◌, ◌<◌, ◌≤◌, IsNone, IfSome};
ghost use Rattle.std.specs.Ordering.{nat_cmp};
ghost use Rattle.std.specs.Range.{range_inclusive_start, range_inclusive_end};
ghost use Rattle.std.proofs.lemmas.Map.Lookups.{CmpEqualImpliesEq};
ghost use Rattle.rsb_integer.specs.Rank.{interval_of};
ghost use Rattle.rsb_integer.specs.Room.{two_ends, HaveRoom};
ghost use Rattle.rsb_integer.specs.Runs.{
  length_of,
  HasRanks,
  HasNoRanks,
  IsAfterFirst,
  IsBeforeLast,
};

use num_traits::{One, Zero};
use rsb_length::SafeLength;
use std::fmt::Debug;
use std::hash::Hash;
use std::ops::{AddAssign, RangeInclusive, SubAssign};

/// A type of elements: finitely many values in a fixed order, each one step from the next. The rank
/// of a value is its position in that order, starting at 0. (`Integer` in range-set-blaze.)
///
/// An implementation for your own type states its `rank`, `value_count` and `value_at`, and proves
/// the seven laws below. The types that this crate implements it for are also `Send` and `Sync`;
/// generic code that uses threads requires `T: Integer + Send + Sync`.
pub trait Integer: Copy + PartialEq + PartialOrd + Ord + Debug {
    /// The type of the lengths of ranges. (`Integer::SafeLen`.)
    type SafeLen: SafeLength
        + Hash
        + Copy
        + PartialEq
        + PartialOrd
        + Zero
        + One
        + AddAssign
        + SubAssign;

    // The rank of a value, starting at 0. A term that is not a value, such as 256 for `u8`, has a
    // rank of `value_count` or more (docs/DECISIONS.md, rank-count-value).
    ghost rank: { Self → ℕ };

    // The number of values.
    ghost value_count: { ℕ };

    // The value with a given rank. It is unspecified for a number that is not the rank of a value.
    ghost value_at: { ℕ → Self };

    /// Returns the value one rank higher, or `None` exactly when `self` is the greatest value.
    /// (`Integer::checked_add_one`.)
    fn checked_add_one(self) -> Option<Self>
        ensures value { rank self < value_count }
        ensures none { IsNone result ↔ (rank self + 1 ≡ value_count) }
        ensures next { IfSome result (λ next. rank next ≡ rank self + 1) };

    /// Returns the value one rank higher. Requires a value below the greatest.
    /// (`Integer::add_one`.)
    fn add_one(self) -> Self
        requires { rank self + 1 < value_count }
        ensures { rank result ≡ rank self + 1 };

    /// Returns the value one rank lower. Requires a value above the least. (`Integer::sub_one`.)
    fn sub_one(self) -> Self
        requires { 0 < rank self }
        ensures { rank result + 1 ≡ rank self };

    /// Returns the least value, whose rank is 0. (`Integer::min_value`.)
    fn min_value() -> Self
        ensures { rank result ≡ 0 };

    /// Returns the greatest value, whose rank is `value_count - 1`. (`Integer::max_value`.)
    fn max_value() -> Self
        ensures { rank result + 1 ≡ value_count };

    /// Returns the number of values in a range. Requires a non-empty range. (`Integer::safe_len`.)
    fn safe_len(range: &RangeInclusive<Self>) -> Self::SafeLen
        requires { HasRanks (interval_of rank range.now) }
        ensures { Self.SafeLen.number result ≡ length_of (interval_of rank range.now) };

    /// Returns the end of the range of `b` values that starts at `self`. Requires that `b` is at
    /// least 1, and at most the number of values from `self` to the greatest.
    /// (`Integer::inclusive_end_from_start`.)
    fn inclusive_end_from_start(self, b: Self::SafeLen) -> Self
        requires some { 1 ≤ Self.SafeLen.number b }
        requires room { rank self + Self.SafeLen.number b ≤ value_count }
        ensures { rank result + 1 ≡ rank self + Self.SafeLen.number b };

    /// Returns the start of the range of `b` values that ends at `self`. Requires that `b` is at
    /// least 1, and at most the number of values from the least to `self`.
    /// (`Integer::start_from_inclusive_end`.)
    fn start_from_inclusive_end(self, b: Self::SafeLen) -> Self
        requires some { 1 ≤ Self.SafeLen.number b }
        requires room { Self.SafeLen.number b ≤ rank self + 1 }
        ensures { rank result + Self.SafeLen.number b ≡ rank self + 1 };

    /// Replaces the value with the value one rank lower. Requires a value above the least.
    /// (`Integer::assign_sub_one`.)
    fn assign_sub_one(&mut self)
        requires { 0 < rank self.old }
        ensures { rank self.new + 1 ≡ rank self.old }
    {
        *self = self.sub_one();
    }

    /// Returns an empty range, from the greatest value to the least. (`Integer::exhausted_range`.)
    fn exhausted_range() -> RangeInclusive<Self>
        ensures start { rank (range_inclusive_start result) + 1 ≡ value_count }
        ensures end { rank (range_inclusive_end result) ≡ 0 }
        ensures empty { HasNoRanks (interval_of rank result) }
    {
        Self::max_value()..=Self::min_value()
    }

    /// Removes and returns the first member of a range, or returns `None` exactly when the range is
    /// empty. If no member is left, the ends of the range are unspecified. (`Integer::range_next`.)
    fn range_next(range: &mut RangeInclusive<Self>) -> Option<Self>
        ensures value { (interval_of rank range.old).last < value_count }
        ensures none { IsNone result ↔ HasNoRanks (interval_of rank range.old) }
        ensures first { IfSome result (λ first. rank first ≡ (interval_of rank range.old).first) }
        ensures rest { IsAfterFirst (interval_of rank range.old) (interval_of rank range.new) }
    {
        let start = *range.start();
        let end = *range.end();
        // After these calls, both ends are known to be values.
        start.checked_add_one();
        end.checked_add_one();
        if range.is_empty() {
            return None;
        }
        *range = if start < end {
            start.add_one()..=end
        } else {
            Self::exhausted_range()
        };
        Some(start)
    }

    /// Removes and returns the last member of a range, or returns `None` exactly when the range is
    /// empty. If no member is left, the ends of the range are unspecified.
    /// (`Integer::range_next_back`.)
    fn range_next_back(range: &mut RangeInclusive<Self>) -> Option<Self>
        ensures value { (interval_of rank range.old).last < value_count }
        ensures none { IsNone result ↔ HasNoRanks (interval_of rank range.old) }
        ensures last { IfSome result (λ last. rank last ≡ (interval_of rank range.old).last) }
        ensures rest { IsBeforeLast (interval_of rank range.old) (interval_of rank range.new) }
    {
        let start = *range.start();
        let end = *range.end();
        // After these calls, both ends are known to be values.
        start.checked_add_one();
        end.checked_add_one();
        if range.is_empty() {
            return None;
        }
        *range = if start < end {
            start..=end.sub_one()
        } else {
            Self::exhausted_range()
        };
        Some(end)
    }

    // `value_at` gives a value with the given rank.
    ghost ranks: { (place : ℕ) → place < value_count → rank (value_at place) ≡ place };

    // Values that compare as equal are equal, so no two values have the same rank
    // (docs/DECISIONS.md, exact-of-all).
    ghost exact: { CmpEqualImpliesEq Self.cmp };

    // Values are ordered by rank.
    ghost in_order: { (x y : Self) → rank x < value_count → rank y < value_count
        → Self.cmp x y ≡ nat_cmp (rank x) (rank y) };

    // There are at least two values.
    ghost some_values: { 2 ≤ value_count };

    // There are at most as many values as 128 bits can distinguish.
    ghost countable: { value_count ≤ 2 ^ 128 };

    // The lengths reach the length of the whole type.
    ghost lengths_suffice: { value_count ≤ Self.SafeLen.limit };

    // Two optional ends of ranges fit in memory.
    ghost two_ends_fit: { (end : Self) → HaveRoom (two_ends Self.row) };
}
