//! Laws of sets as nested operations on any ready streams, proved only from public contracts.

ghost use Rattle.std.specs.Prelude.{IsTrue, List};
ghost use Rattle.rsb_integer.specs.Runs.{Interval};
ghost use Rattle.rsb_integer.specs.Selection.{complement, union, Selection};
ghost use Rattle.rsb_streams.specs.Stream.{◌⊆◌, joined_runs, just, runs_by_two};

use rsb_integer::Integer;
use rsb_streams::{Difference, Draw, DrawDisjoint, Intersection, NotIter, RangeOnce, Union};
use test_support::gives;

/// Returns the union of the intersection and the difference of two streams. If both pairs give the
/// same two lists, the result has the members of the first list.
fn parts_joined<T: Integer, A: DrawDisjoint<T>, B: DrawDisjoint<T>>(
    some: (A, B),
    again: (A, B),
) -> Union<T, Intersection<T, A, B>, Difference<T, A, B>>
    requires some { (A.can_draw some.0) × (B.can_draw some.1) }
    requires again { (A.can_draw again.0) × (B.can_draw again.1) }
    ensures ready { ⟦<Union<T, Intersection<T, A, B>, Difference<T, A, B>> as Draw<T>>⟧.can_draw
        result }
    ensures gives { (these those : List Interval)
        → A.may_give some.0 ⊆ just these → B.may_give some.1 ⊆ just those
        → A.may_give again.0 ⊆ just these → B.may_give again.1 ⊆ just those
        → ⟦<Union<T, Intersection<T, A, B>, Difference<T, A, B>> as Draw<T>>⟧.may_give result
        ⊆ joined_runs T.value_count (just these) }
{
    let common = some.0.intersection(some.1);
    let rest = again.0.difference(again.1);
    common.union(rest)
}

/// Returns the values in neither of two streams, as the complement of their union.
fn outside_union<T: Integer, L: DrawDisjoint<T>, R: DrawDisjoint<T>>(
    left: L,
    right: R,
) -> NotIter<T, Union<T, L, R>>
    requires left { L.can_draw left }
    requires right { R.can_draw right }
    ensures ready { ⟦<NotIter<T, Union<T, L, R>> as Draw<T>>⟧.can_draw result }
    ensures gives { ⟦<NotIter<T, Union<T, L, R>> as Draw<T>>⟧.may_give result
        ⊆ runs_by_two T.value_count (λ these those. complement (union these those))
        (L.may_give left) (R.may_give right) }
{
    let either = left.union(right);
    either.complement()
}

/// Returns the values in neither of two streams, as the intersection of their complements.
fn inside_complements<T: Integer, L: DrawDisjoint<T>, R: DrawDisjoint<T>>(
    left: L,
    right: R,
) -> Intersection<T, NotIter<T, L>, NotIter<T, R>>
    requires left { L.can_draw left }
    requires right { R.can_draw right }
    ensures ready { ⟦<Intersection<T, NotIter<T, L>, NotIter<T, R>> as Draw<T>>⟧.can_draw result }
    ensures gives { ⟦<Intersection<T, NotIter<T, L>, NotIter<T, R>> as Draw<T>>⟧.may_give result
        ⊆ runs_by_two T.value_count (λ these those. complement (union these those))
        (L.may_give left) (R.may_give right) }
{
    let gaps = left.complement();
    let others = right.complement();
    gaps.intersection(others)
}

/// Returns whether two streams are equal. They are if both give the runs of one operation on the
/// same two lists.
pub(crate) fn are_the_same<T: Integer, L: DrawDisjoint<T>, R: DrawDisjoint<T>>(
    left: L,
    right: R,
) -> bool
    requires left { L.can_draw left }
    requires right { R.can_draw right }
    ensures { (operation : Selection → Selection → Selection) (these those : List Interval)
        → L.may_give left ⊆ runs_by_two T.value_count operation (just these) (just those)
        → R.may_give right ⊆ runs_by_two T.value_count operation (just these) (just those)
        → IsTrue result }
{
    left.equal(right)
}

/// Returns whether both ways to the values in neither of two streams give the same list. They do if
/// both pairs give the same two lists.
fn neither_is_the_same<T: Integer, L: DrawDisjoint<T>, R: DrawDisjoint<T>>(
    some: (L, R),
    again: (L, R),
) -> bool
    requires some { (L.can_draw some.0) × (R.can_draw some.1) }
    requires again { (L.can_draw again.0) × (R.can_draw again.1) }
    ensures { (these those : List Interval)
        → L.may_give some.0 ⊆ just these → R.may_give some.1 ⊆ just those
        → L.may_give again.0 ⊆ just these → R.may_give again.1 ⊆ just those
        → IsTrue result }
{
    let outside = outside_union(some.0, some.1);
    let inside = inside_complements(again.0, again.1);
    are_the_same(outside, inside)
}

/// Returns streams of the ranges 3..=5 and 5..=9.
pub(crate) fn three_to_nine() -> (RangeOnce<u8>, RangeOnce<u8>)
    ensures low { ⟦<RangeOnce<u8> as Draw<u8>>⟧.can_draw result.0 }
    ensures high { ⟦<RangeOnce<u8> as Draw<u8>>⟧.can_draw result.1 }
{
    (RangeOnce::new(3..=5), RangeOnce::new(5..=9))
}

#[test]
fn the_two_parts_of_a_stream_join_to_it(rt: HostRuntime) {
    assert!(rt; gives(parts_joined(three_to_nine(), three_to_nine()), &[(3, 5)]));
}

#[test]
fn what_is_in_neither_is_the_same_both_ways(rt: HostRuntime) {
    assert!(rt; neither_is_the_same(three_to_nine(), three_to_nine()));
}
