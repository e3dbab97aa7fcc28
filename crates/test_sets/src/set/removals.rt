//! `remove`, `take`, `pop_first` and `pop_last`, on rows worked by hand.

use crate::set::calls::{Answer, Change};
use crate::set::rows::changes;
use std::test::*;
use test_support::Table;

/// Two runs.
const TWO: Table<'static> = &[(1, 5), (9, 9)];

/// A removal, the set before, what it returns, and the set after.
static REMOVED: [(Change, Table<'static>, Answer, Table<'static>); 24] = [
    (
        Change::Remove(3),
        TWO,
        Answer::Truth(true),
        &[(1, 2), (4, 5), (9, 9)],
    ),
    (
        Change::Remove(5),
        TWO,
        Answer::Truth(true),
        &[(1, 4), (9, 9)],
    ),
    (
        Change::Remove(1),
        TWO,
        Answer::Truth(true),
        &[(2, 5), (9, 9)],
    ),
    (Change::Remove(9), TWO, Answer::Truth(true), &[(1, 5)]),
    (Change::Remove(7), TWO, Answer::Truth(false), TWO),
    (Change::Remove(1), &[], Answer::Truth(false), &[]),
    (
        Change::Take(3),
        TWO,
        Answer::Value(Some(3)),
        &[(1, 2), (4, 5), (9, 9)],
    ),
    (
        Change::Take(5),
        TWO,
        Answer::Value(Some(5)),
        &[(1, 4), (9, 9)],
    ),
    (
        Change::Take(1),
        TWO,
        Answer::Value(Some(1)),
        &[(2, 5), (9, 9)],
    ),
    (Change::Take(9), TWO, Answer::Value(Some(9)), &[(1, 5)]),
    (Change::Take(7), TWO, Answer::Value(None), TWO),
    (
        Change::Take(2),
        &[(1, 5)],
        Answer::Value(Some(2)),
        &[(1, 1), (3, 5)],
    ),
    (
        Change::Remove(3),
        &[(1, 2), (4, 5)],
        Answer::Truth(false),
        &[(1, 2), (4, 5)],
    ),
    (
        Change::Take(3),
        &[(1, 2), (4, 5)],
        Answer::Value(None),
        &[(1, 2), (4, 5)],
    ),
    (
        Change::PopFirst,
        &[(1, 2), (7, 7)],
        Answer::Value(Some(1)),
        &[(2, 2), (7, 7)],
    ),
    (
        Change::PopFirst,
        &[(2, 2), (7, 7)],
        Answer::Value(Some(2)),
        &[(7, 7)],
    ),
    (Change::PopFirst, &[(7, 7)], Answer::Value(Some(7)), &[]),
    (Change::PopFirst, &[], Answer::Value(None), &[]),
    (
        Change::PopLast,
        &[(1, 1), (6, 7)],
        Answer::Value(Some(7)),
        &[(1, 1), (6, 6)],
    ),
    (
        Change::PopLast,
        &[(1, 1), (6, 6)],
        Answer::Value(Some(6)),
        &[(1, 1)],
    ),
    (Change::PopLast, &[(1, 1)], Answer::Value(Some(1)), &[]),
    (Change::PopLast, &[], Answer::Value(None), &[]),
    (
        Change::Remove(i32::MAX),
        &[(i32::MIN, i32::MAX)],
        Answer::Truth(true),
        &[(i32::MIN, i32::MAX - 1)],
    ),
    (
        Change::PopFirst,
        &[(i32::MIN, i32::MAX)],
        Answer::Value(Some(i32::MIN)),
        &[(i32::MIN + 1, i32::MAX)],
    ),
];

#[test]
fn removals_and_pops_tell_what_was_a_member(rt: HostRuntime) {
    for (call, before, answer, after) in &REMOVED {
        assert!(rt;
            changes(rt.alloc(), *call, (before, &[]), *answer, (after, &[])) == Ok(true),
            "{after:?} of {before:?}"
        );
    }
}

/// A value removed from {1..=5}, and what is left.
static CUT: [(i32, Table<'static>); 2] = [(1, &[(2, 5)]), (3, &[(1, 2), (4, 5)])];

#[test]
fn a_removal_shortens_or_cuts_the_run(rt: HostRuntime) {
    for (value, after) in &CUT {
        let call = Change::Remove(*value);
        let answer = Answer::Truth(true);
        assert!(rt;
            changes(rt.alloc(), call, (&[(1, 5)], &[]), answer, (after, &[])) == Ok(true),
            "of {value}"
        );
    }
}
