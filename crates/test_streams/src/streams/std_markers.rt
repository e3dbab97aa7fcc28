//! The adapters of std over streams.

use rsb_integer::Integer;
use rsb_streams::{CheckSortedDisjoint, Draw, DrawDisjoint, NotIter, RangeOnce, SortedDisjoint};
use std::iter::{Filter, Fuse, Skip, SkipWhile, TakeWhile};
use std::ops::RangeInclusive;
use test_support::{Listed, gives, stream_of};

/// Returns a stream of the ranges 3..=5 and 7..=9.
fn two_ranges() -> Listed<'static>
    ensures { ⟦<Listed<'static> as Draw<u8>>⟧.can_draw result }
{
    stream_of(&[(3, 5), (7, 9)])
}

/// The ends of ranges.
type Ranges = &'static [(u8, u8)];

/// The ends of these two ranges.
const BOTH: Ranges = &[(3, 5), (7, 9)];

/// The number of first ranges, those ranges, and the others.
static BY_NUMBER: [(usize, Ranges, Ranges); 4] = [
    (0, &[], BOTH),
    (1, &[(3, 5)], &[(7, 9)]),
    (2, BOTH, &[]),
    (3, BOTH, &[]),
];

#[test]
fn first_ranges_come_and_those_after_them(rt: HostRuntime) {
    for (count, first, others) in &BY_NUMBER {
        let first_come = gives(two_ranges().take(*count), first);
        let others_come = gives(two_ranges().skip(*count), others);
        assert!(rt; first_come && others_come, "{count}");
    }
}

/// A limit, the ranges before the first that does not end below it, and the others.
static BY_LIMIT: [(u8, Ranges, Ranges); 3] = [
    (5, &[], BOTH),
    (6, &[(3, 5)], &[(7, 9)]),
    (10, BOTH, &[]),
];

/// Returns whether the ranges before the first that does not end below a limit are the wanted ones.
fn come_before(limit: u8, wanted: Ranges) -> bool {
    gives(
        two_ranges().take_while(move |range| *range.end() < limit),
        wanted,
    )
}

/// Returns whether the ranges starting at that one are the wanted ones.
fn come_from(limit: u8, wanted: Ranges) -> bool {
    gives(
        two_ranges().skip_while(move |range| *range.end() < limit),
        wanted,
    )
}

#[test]
fn ranges_come_up_to_one_that_fails_and_from_it_on(rt: HostRuntime) {
    for (limit, before, from) in &BY_LIMIT {
        assert!(rt;
            come_before(*limit, before) && come_from(*limit, from),
            "{limit}"
        );
    }
}

/// Returns the gaps that are left if only the ranges that pass a test are kept.
fn outside_of_kept<T: Integer, I: SortedDisjoint<T>, P: FnMut(&RangeInclusive<T>) -> bool>(
    stream: I,
    passes: P,
) -> NotIter<T, Filter<I, P>>
    requires stream { I.can_draw stream }
    requires passes { (test : P) (range : _) → P.pre test range }
    ensures { ⟦<NotIter<T, Filter<I, P>> as Draw<T>>⟧.can_draw result }
{
    stream.filter(passes).complement()
}

#[test]
fn gaps_of_the_ranges_that_pass_a_test(rt: HostRuntime) {
    let stream = stream_of(&[(1, 2), (4, 5), (7, 8)]);
    let gaps = outside_of_kept(stream, |range| *range.start() > 1);
    assert!(rt; gives(gaps, &[(0, 3), (6, 6), (9, 255)]));
}

/// Returns the ranges starting at the first that fails a test.
fn from_failing<T: Integer, I: SortedDisjoint<T>, P: FnMut(&RangeInclusive<T>) -> bool>(
    stream: I,
    passes: P,
) -> SkipWhile<I, P>
    requires stream { I.can_draw stream }
    requires passes { (test : P) (range : _) → P.pre test range }
    ensures { ⟦<SkipWhile<I, P> as Draw<T>>⟧.can_draw result }
{
    stream.skip_while(passes)
}

/// Returns the ranges before the first that fails a test.
fn before_failing<T: Integer, I: SortedDisjoint<T>, P: FnMut(&RangeInclusive<T>) -> bool>(
    stream: I,
    passes: P,
) -> TakeWhile<I, P>
    requires stream { I.can_draw stream }
    requires passes { (test : P) (range : _) → P.pre test range }
    ensures { ⟦<TakeWhile<I, P> as Draw<T>>⟧.can_draw result }
{
    stream.take_while(passes)
}

/// Returns the ranges that pass a test.
fn passing<T: Integer, I: SortedDisjoint<T>, P: FnMut(&RangeInclusive<T>) -> bool>(
    stream: I,
    passes: P,
) -> Filter<I, P>
    requires stream { I.can_draw stream }
    requires passes { (test : P) (range : _) → P.pre test range }
    ensures { ⟦<Filter<I, P> as Draw<T>>⟧.can_draw result }
{
    stream.filter(passes)
}

/// Returns the ranges after the given number of first ones, from a stream that is not called again
/// after its end.
fn fused_after<T: Integer, I: SortedDisjoint<T>>(stream: I, count: usize) -> Skip<Fuse<I>>
    requires { I.can_draw stream }
    ensures { ⟦<Skip<Fuse<I>> as Draw<T>>⟧.can_draw result }
{
    stream.fuse().skip(count)
}

/// Returns whether the union of an empty stream with a fused and filtered one gives only 10..=20.
fn passing_are_ten_to_twenty<I: SortedDisjoint<u64>>(stream: I) -> bool
    requires { I.can_draw stream }
{
    let kept = passing(fused_after(stream, 0), |_| true);
    gives(CheckSortedDisjoint::default().union(kept), &[(10, 20)])
}

/// Returns the same for the ranges of a stream before the first that fails a test.
fn before_are_ten_to_twenty<I: SortedDisjoint<u64>>(stream: I) -> bool
    requires { I.can_draw stream }
{
    passing_are_ten_to_twenty(before_failing(stream, |_| true))
}

#[test]
fn union_over_five_adapters(rt: HostRuntime) {
    let from = from_failing(RangeOnce::new(10u64..=20), |_| false);
    assert!(rt; before_are_ten_to_twenty(from));
}
