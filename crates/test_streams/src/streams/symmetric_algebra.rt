//! The symmetric difference of two streams in two ways, on any ready streams.

ghost use Rattle.std.specs.Prelude.{IsTrue, List};
ghost use Rattle.rsb_integer.specs.Runs.{Interval};
ghost use Rattle.rsb_integer.specs.Selection.{symmetric_difference};
ghost use Rattle.rsb_streams.specs.Stream.{◌⊆◌, just, runs_by_two};

use crate::streams::set_algebra::{are_the_same, three_to_nine};
use rsb_integer::Integer;
use rsb_streams::{Difference, Draw, DrawDisjoint, Intersection, Union};

/// The values in either of two streams but not in both.
type Unshared<T, L, R> = Difference<T, Union<T, L, R>, Intersection<T, L, R>>;

/// Returns the union of two streams minus their intersection. If both pairs give the same two
/// lists, the result gives the runs of their symmetric difference.
fn unshared<T: Integer, L: DrawDisjoint<T>, R: DrawDisjoint<T>>(
    some: (L, R),
    again: (L, R),
) -> Unshared<T, L, R>
    requires some { (L.can_draw some.0) × (R.can_draw some.1) }
    requires again { (L.can_draw again.0) × (R.can_draw again.1) }
    ensures ready { ⟦<Unshared<T, L, R> as Draw<T>>⟧.can_draw result }
    ensures gives { (these those : List Interval)
        → L.may_give some.0 ⊆ just these → R.may_give some.1 ⊆ just those
        → L.may_give again.0 ⊆ just these → R.may_give again.1 ⊆ just those
        → ⟦<Unshared<T, L, R> as Draw<T>>⟧.may_give result
        ⊆ runs_by_two T.value_count symmetric_difference (just these) (just those) }
{
    let either = some.0.union(some.1);
    let common = again.0.intersection(again.1);
    either.difference(common)
}

/// Returns whether both ways to the symmetric difference of two streams give the same list. They do
/// if the three pairs give the same two lists.
fn alone_is_the_same<T: Integer, L: DrawDisjoint<T>, R: DrawDisjoint<T>>(
    first: (L, R),
    some: (L, R),
    again: (L, R),
) -> bool
    requires first { (L.can_draw first.0) × (R.can_draw first.1) }
    requires some { (L.can_draw some.0) × (R.can_draw some.1) }
    requires again { (L.can_draw again.0) × (R.can_draw again.1) }
    ensures { (these those : List Interval)
        → L.may_give first.0 ⊆ just these → R.may_give first.1 ⊆ just those
        → L.may_give some.0 ⊆ just these → R.may_give some.1 ⊆ just those
        → L.may_give again.0 ⊆ just these → R.may_give again.1 ⊆ just those
        → IsTrue result }
{
    let alone = first.0.symmetric_difference(first.1);
    let parts = unshared(some, again);
    are_the_same(alone, parts)
}

#[test]
fn what_lies_in_one_alone_is_the_same_both_ways(rt: HostRuntime) {
    assert!(rt; alone_is_the_same(three_to_nine(), three_to_nine(), three_to_nine()));
}
