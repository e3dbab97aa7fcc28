//! Element types whose values are listed, such as enums.

ghost use Rattle.std.specs.Prelude.{◌≡◌, ◌≤◌, true, List, ◌∷◌, length};
ghost use Rattle.rsb_integer.specs.Enumerated.{place_in, ascends, IsListed};
ghost use Rattle.rsb_integer.specs.ElementRoom.{two_elements};
ghost use Rattle.rsb_integer.specs.Room.{HaveRoom};

use std::fmt::Debug;

/// A type whose values are listed in ascending order, such as an enum without fields. Sets and
/// streams hold its values as `Element`s. Not in range-set-blaze.
///
/// An implementation for a type of your own gives the list and the place of a value in it, and
/// proves the five laws below. The type must have at least 2 and at most 65,535 values.
pub trait Enumerated: Copy + PartialEq + PartialOrd + Ord + Debug {
    // The least value.
    ghost least: { Self };

    // The other values, in ascending order.
    ghost others: { List Self };

    /// Returns all values, in ascending order.
    fn values<'a>() -> &'a [Self]
        ensures { result.now ≡ least ∷ others };

    /// Returns the number of values before this one.
    fn number(self) -> u16
        ensures { result ≡ place_in Self.eq (least ∷ others) self };

    // Every value is in the list, at its place.
    ghost complete: { (value : Self) → IsListed Self.eq (least ∷ others) value };

    // Each value of the list is less than the next.
    ghost ascending: { ascends Self.cmp (least ∷ others) ≡ true };

    // There are at least two values.
    ghost some_values: { 2 ≤ length (least ∷ others) };

    // Their number fits in a `u16`.
    ghost few_values: { length (least ∷ others) ≤ 65_535 };

    // Two ends of ranges, each of which may be missing, fit in memory.
    ghost two_ends_fit: { (end : Self) → HaveRoom (two_elements Self.row) };
}
