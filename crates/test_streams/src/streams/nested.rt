//! Operations on results of operations, proved only from public contracts.

ghost use Rattle.rsb_integer.specs.Selection.{complement, union};
ghost use Rattle.rsb_streams.specs.Stream.{◌⊆◌, joined_runs, runs_by, runs_by_two};

use rsb_integer::Integer;
use rsb_streams::{
    AssumeSortedStarts, CheckSortedDisjoint, CheckSortedTouching, Draw, DrawDisjoint, NotIter,
    RangeOnce, SortedDisjoint, SortedStarts, SortedTouching, Union, UnionIter,
};
use test_support::{gives, neighbors_of, three_tens};

/// Returns the complement of the complement, which has the members of the stream.
pub(crate) fn complement_twice<T: Integer, I: SortedDisjoint<T>>(
    stream: I,
) -> NotIter<T, NotIter<T, I>>
    requires { I.can_draw stream }
    ensures ready { ⟦<NotIter<T, NotIter<T, I>> as Draw<T>>⟧.can_draw result }
    ensures gives { ⟦<NotIter<T, NotIter<T, I>> as Draw<T>>⟧.may_give result
        ⊆ joined_runs T.value_count (I.may_give stream) }
{
    !stream.complement()
}

/// Returns the values that are in the first stream or not in the second.
pub(crate) fn union_with_complement<T: Integer, L: SortedDisjoint<T>, R: SortedDisjoint<T>>(
    left: L,
    right: R,
) -> Union<T, L, NotIter<T, R>>
    requires left { L.can_draw left }
    requires right { R.can_draw right }
    ensures ready { ⟦<Union<T, L, NotIter<T, R>> as Draw<T>>⟧.can_draw result }
    ensures gives { ⟦<Union<T, L, NotIter<T, R>> as Draw<T>>⟧.may_give result
        ⊆ runs_by_two T.value_count union (L.may_give left)
        (runs_by T.value_count complement (R.may_give right)) }
{
    left.union(right.complement())
}

/// Returns the ranges of a stream again, joined. They are known to be sorted by start.
pub(crate) fn joined_again<T: Integer, I: SortedStarts<T>>(
    stream: I,
) -> UnionIter<T, AssumeSortedStarts<T, I>>
    requires { I.can_draw stream }
    ensures { ⟦<UnionIter<T, AssumeSortedStarts<T, I>> as Draw<T>>⟧.can_draw result }
{
    UnionIter::new(sorted(stream))
}

/// Returns the ranges of a stream again. They are known to be sorted by start.
pub(crate) fn sorted<T: Integer, I: SortedStarts<T>>(stream: I) -> AssumeSortedStarts<T, I>
    requires { I.can_draw stream }
    ensures { ⟦<AssumeSortedStarts<T, I> as Draw<T>>⟧.can_draw result }
{
    AssumeSortedStarts::new(stream)
}

/// Returns the ranges of a stream again. They are known to be canonical.
pub(crate) fn known<T: Integer, I: SortedDisjoint<T>>(stream: I) -> CheckSortedDisjoint<T, I>
    requires { I.can_draw stream }
    ensures { ⟦<CheckSortedDisjoint<T, I> as Draw<T>>⟧.can_draw result }
{
    CheckSortedDisjoint::new(stream)
}

/// Returns the ranges of a stream again. No two of them overlap.
pub(crate) fn touching<T: Integer, I: SortedDisjoint<T>>(stream: I) -> CheckSortedTouching<T, I>
    requires { I.can_draw stream }
    ensures { ⟦<CheckSortedTouching<T, I> as Draw<T>>⟧.can_draw result }
{
    CheckSortedTouching::new(stream)
}

/// Returns the ranges of a stream again, which may touch.
pub(crate) fn touching_again<T: Integer, I: SortedTouching<T>>(
    stream: I,
) -> CheckSortedTouching<T, I>
    requires { I.can_draw stream }
    ensures { ⟦<CheckSortedTouching<T, I> as Draw<T>>⟧.can_draw result }
{
    CheckSortedTouching::new(stream)
}

#[test]
fn streams_are_ones_whose_ranges_may_touch(rt: HostRuntime) {
    let ends = [(0, 0), (10, 10), (20, 20)];
    assert!(rt; gives(touching(three_tens()), &ends));
    assert!(rt; gives(touching(three_tens()).joined(), &ends));
    let neighbors = [(0, 1), (2, 9), (11, 11)];
    assert!(rt; gives(touching_again(neighbors_of(&neighbors)), &neighbors));
    let joined = touching_again(neighbors_of(&neighbors)).joined();
    assert!(rt; gives(joined, &[(0, 9), (11, 11)]));
}

#[test]
fn complement_twice_is_the_stream(rt: HostRuntime) {
    assert!(rt; gives(complement_twice(RangeOnce::new(3u8..=5)), &[(3, 5)]));
}

#[test]
fn union_with_a_complement_reaches_the_ends(rt: HostRuntime) {
    let either = union_with_complement(RangeOnce::new(3u8..=5), RangeOnce::new(5..=9));
    assert!(rt; gives(either, &[(0, 5), (10, 255)]));
}
