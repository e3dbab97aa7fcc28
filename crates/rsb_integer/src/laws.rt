//! Laws that callers rely on. Each function does nothing, and its clauses state the law.

ghost use Rattle.std.specs.Prelude.{◌≡◌, ◌↔◌, ℕ, ◌+◌, ◌<◌, ◌≤◌, IsTrue, List, length};
ghost use Rattle.std.specs.declared.ops.RangeInclusive.{RangeInclusive};
ghost use Rattle.rsb_integer.specs.Rank.{intervals_of};
ghost use Rattle.rsb_integer.specs.Runs.{
  Interval,
  length_of,
  members,
  AllEndBelow,
  AreRuns,
  IsCanonical,
  IsCanonicalIn,
};
ghost use Rattle.rsb_integer.specs.Selection.{
  Agree,
  Selection,
  all_of,
  any_of,
  at_least,
  complement,
  difference,
  intersection,
  symmetric_difference,
  union,
};

use crate::integer::Integer;

/// Two canonical lists of ranges with the same members are equal. Not in range-set-blaze.
pub fn equal_members_equal_lists<T: Integer>()
    ensures { (ranges others : List (RangeInclusive T))
        → IsCanonical (intervals_of T.rank ranges) → IsCanonical (intervals_of T.rank others)
        → AllEndBelow T.value_count (intervals_of T.rank ranges)
        → AllEndBelow T.value_count (intervals_of T.rank others)
        → Agree T.value_count (members (intervals_of T.rank ranges))
        (members (intervals_of T.rank others))
        → ranges ≡ others }
{}

/// A list of intervals is canonical and within the type exactly when it is the ascending list of
/// all maximal runs of its members. Not in range-set-blaze.
pub fn canonical_lists_are_runs<T: Integer>()
    ensures { (runs : List Interval)
        → IsCanonicalIn T.value_count runs ↔ AreRuns T.value_count (members runs) runs }
{}

/// The start and the length of a range determine its end, and its end and length determine its
/// start. For that length, `inclusive_end_from_start` and `start_from_inclusive_end` can return
/// only these. Not in range-set-blaze.
pub fn offsets_undo_length<T: Integer>()
    ensures end { (start end found : T) (length : ℕ)
        → T.rank start ≤ T.rank end → T.rank end < T.value_count
        → length ≡ length_of (record { first = T.rank start; last = T.rank end })
        → T.rank found + 1 ≡ T.rank start + length → found ≡ end }
    ensures start { (start end found : T) (length : ℕ)
        → T.rank start ≤ T.rank end → T.rank end < T.value_count
        → length ≡ length_of (record { first = T.rank start; last = T.rank end })
        → T.rank found + length ≡ T.rank end + 1 → found ≡ start }
{}

/// The complement of the complement is the set itself. Not in range-set-blaze.
pub fn complement_twice<T: Integer>()
    ensures { (selected : Selection) (rank : ℕ)
        → complement (complement selected) rank ≡ selected rank }
{}

/// The complement of a union is the intersection of the complements. The complement of an
/// intersection is the union of the complements. Not in range-set-blaze.
pub fn de_morgan<T: Integer>()
    ensures union { (left right : Selection) (rank : ℕ) → complement (union left right) rank
        ≡ intersection (complement left) (complement right) rank }
    ensures intersection { (left right : Selection) (rank : ℕ)
        → complement (intersection left right) rank
        ≡ union (complement left) (complement right) rank }
{}

/// The difference of two sets is the intersection of the left set and the complement of the right
/// one. Not in range-set-blaze.
pub fn difference_by_complement<T: Integer>()
    ensures { (left right : Selection) (rank : ℕ)
        → difference left right rank ≡ intersection left (complement right) rank }
{}

/// The symmetric difference of two sets is their union minus their intersection. Not in
/// range-set-blaze.
pub fn symmetric_by_union<T: Integer>()
    ensures { (left right : Selection) (rank : ℕ) → symmetric_difference left right rank
        ≡ difference (union left right) (intersection left right) rank }
{}

/// The ranks in at least one of any number of sets are their union. Not in range-set-blaze.
pub fn at_least_one<T: Integer>()
    ensures { (sets : List Selection) (rank : ℕ) → at_least 1 sets rank ≡ any_of sets rank }
{}

/// The ranks in at least n of n sets are the intersection of the sets. Not in range-set-blaze.
pub fn at_least_all<T: Integer>()
    ensures { (sets : List Selection) (rank : ℕ)
        → at_least (length sets) sets rank ≡ all_of sets rank }
{}

/// A rank in at least k + 1 of any number of sets is in at least k of them. Not in range-set-blaze.
pub fn at_least_falls<T: Integer>()
    ensures { (k : ℕ) (sets : List Selection) (rank : ℕ)
        → IsTrue (at_least (k + 1) sets rank) → IsTrue (at_least k sets rank) }
{}
