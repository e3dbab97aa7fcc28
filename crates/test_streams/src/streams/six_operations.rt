//! Six operations on any ready streams, proved only from public contracts.

ghost use Rattle.rsb_integer.specs.Selection.{complement, intersection};
ghost use Rattle.rsb_streams.specs.Stream.{◌⊆◌, runs_by, runs_by_two};

use rsb_integer::Integer;
use rsb_streams::{Draw, DrawDisjoint, NotIter, RangeOnce, Union};
use test_support::gives;

/// Returns the values that at least one of two streams leaves out: the gaps of their intersection.
fn left_out_of_two<T: Integer, A: DrawDisjoint<T>, B: DrawDisjoint<T>>(
    first: A,
    second: B,
) -> Union<T, NotIter<T, A>, NotIter<T, B>>
    requires first { A.can_draw first }
    requires second { B.can_draw second }
    ensures ready { ⟦<Union<T, NotIter<T, A>, NotIter<T, B>> as Draw<T>>⟧.can_draw result }
    ensures gives { ⟦<Union<T, NotIter<T, A>, NotIter<T, B>> as Draw<T>>⟧.may_give result
        ⊆ runs_by T.value_count complement
        (runs_by_two T.value_count intersection (A.may_give first) (B.may_give second)) }
{
    let gaps = first.complement();
    let others = second.complement();
    gaps.union(others)
}

/// The values that at least one of three streams leaves out.
type LeftOut<T, A, B, C> = Union<T, Union<T, NotIter<T, A>, NotIter<T, B>>, NotIter<T, C>>;

/// Returns the intersection of three streams: the values that none of them leaves out.
fn in_all_three<T: Integer, A: DrawDisjoint<T>, B: DrawDisjoint<T>, C: DrawDisjoint<T>>(
    first: A,
    second: B,
    third: C,
) -> NotIter<T, LeftOut<T, A, B, C>>
    requires first { A.can_draw first }
    requires second { B.can_draw second }
    requires third { C.can_draw third }
    ensures ready { ⟦<NotIter<T, LeftOut<T, A, B, C>> as Draw<T>>⟧.can_draw result }
    ensures gives { ⟦<NotIter<T, LeftOut<T, A, B, C>> as Draw<T>>⟧.may_give result
        ⊆ runs_by_two T.value_count intersection
        (runs_by_two T.value_count intersection (A.may_give first) (B.may_give second))
        (C.may_give third) }
{
    let either = left_out_of_two(first, second);
    let last = third.complement();
    let any = either.union(last);
    any.complement()
}

#[test]
fn what_lies_in_all_of_three_streams_is_their_intersection(rt: HostRuntime) {
    let low = RangeOnce::new(0u8..=100).union(RangeOnce::new(200..=255));
    let all = in_all_three(low, RangeOnce::new(50..=220), RangeOnce::new(90..=255));
    assert!(rt; gives(all, &[(90, 100), (200, 220)]));
}
