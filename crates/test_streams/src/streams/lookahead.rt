//! How many ranges a stream has drawn from its inputs after each call.

ghost use Rattle.std.specs.Prelude.{IfSome};
ghost use Rattle.rsb_integer.specs.Rank.{interval_of};
ghost use Rattle.rsb_streams.specs.Lookahead.{DrawsFew, Left};
ghost use Rattle.rsb_streams.specs.Union.{union_inputs};

use rsb_integer::Integer;
use rsb_streams::{Draw, DrawDisjoint, Merge, Union};
use rsb_user_types::Counted;
use std::cell::Cell;
use std::ops::RangeInclusive;
use test_support::stream_of;

/// Three ranges.
const LEFT: &[(u8, u8)] = &[(0, 9), (20, 29), (40, 49)];

/// Two ranges. The first covers a gap of `LEFT`.
const RIGHT: &[(u8, u8)] = &[(5, 24), (60, 69)];

/// Returns whether a new stream has drawn nothing, and then gives exactly the listed ranges. Beside
/// each range is the number of ranges that the stream has drawn from each input after it.
fn draws<I: Draw<u8>>(
    stream: I,
    lefts: &Cell<usize>,
    rights: &Cell<usize>,
    calls: &[((u8, u8), (usize, usize))],
) -> bool
    requires { I.can_draw stream }
{
    let mut stream = stream;
    let mut drawn = (0, 0);
    for ((start, end), after) in calls {
        if (lefts.get(), rights.get()) != drawn || stream.draw() != Some(*start..=*end) {
            return false;
        }
        drawn = *after;
    }
    let before_the_end = (lefts.get(), rights.get());
    before_the_end == drawn && stream.draw().is_none() && (lefts.get(), rights.get()) == drawn
}

/// Returns the first range of a union of two streams, and the union after it. From the left stream,
/// at most one range more was drawn than lie within that range.
fn first_of_both<T: Integer, L: DrawDisjoint<T>, R: DrawDisjoint<T>>(
    left: L,
    right: R,
) -> (Option<RangeInclusive<T>>, Union<T, L, R>)
    requires left { L.can_draw left }
    requires right { R.can_draw right }
    ensures { IfSome result.0 (λ answer. DrawsFew (interval_of T.rank answer) (L.may_give left)
        (union_inputs T.Integer.own L.Draw R.Draw Left result.1 Left).undrawn) }
{
    let mut both = left.union(right);
    let first = both.next();
    (first, both)
}

#[test]
fn union_draws_what_lies_in_its_answer_and_one_range_more(rt: HostRuntime) {
    let (lefts, rights) = (Cell::new(0), Cell::new(0));
    let left = Counted::new(stream_of(LEFT), &lefts);
    let right = Counted::new(stream_of(RIGHT), &rights);
    let calls = [((0, 29), (3, 2)), ((40, 49), (3, 2)), ((60, 69), (3, 2))];
    assert!(rt; draws(left.union(right), &lefts, &rights, &calls));

    let (lefts, rights) = (Cell::new(0), Cell::new(0));
    let left = Counted::new(stream_of(LEFT), &lefts);
    let right = Counted::new(stream_of(RIGHT), &rights);
    let (first, _) = first_of_both(left, right);
    assert!(rt; first == Some(0..=29) && (lefts.get(), rights.get()) == (3, 2));
}

#[test]
fn union_answers_what_both_begin_with_by_two_ranges_of_each(rt: HostRuntime) {
    let (lefts, rights) = (Cell::new(0), Cell::new(0));
    let left = Counted::new(stream_of(&[(1, 2), (10, 11), (20, 21)]), &lefts);
    let right = Counted::new(stream_of(&[(1, 3), (30, 31)]), &rights);
    let calls = [
        ((1, 3), (2, 2)),
        ((10, 11), (3, 2)),
        ((20, 21), (3, 2)),
        ((30, 31), (3, 2)),
    ];
    assert!(rt; draws(left.union(right), &lefts, &rights, &calls));
}

#[test]
fn merge_and_complement_draw_a_range_where_they_want_one(rt: HostRuntime) {
    let (lefts, rights) = (Cell::new(0), Cell::new(0));
    let left = Counted::new(stream_of(LEFT), &lefts);
    let right = Counted::new(stream_of(RIGHT), &rights);
    let calls = [
        ((0, 9), (1, 1)),
        ((5, 24), (2, 1)),
        ((20, 29), (2, 2)),
        ((40, 49), (3, 2)),
        ((60, 69), (3, 2)),
    ];
    assert!(rt; draws(Merge::new(left, right), &lefts, &rights, &calls));

    let (none, drawn) = (Cell::new(0), Cell::new(0));
    let gaps = Counted::new(stream_of(RIGHT), &drawn).complement();
    let calls = [((0, 4), (1, 0)), ((25, 59), (2, 0)), ((70, 255), (2, 0))];
    assert!(rt; draws(gaps, &drawn, &none, &calls));
}
