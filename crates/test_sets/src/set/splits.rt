//! `split_off`, on rows worked by hand.

use crate::set::calls::{Answer, Change};
use crate::set::rows::changes;
use std::test::*;
use test_support::Table;

/// One run.
const ONE: Table<'static> = &[(1, 5)];

/// Three runs.
const THREE: Table<'static> = &[(1, 3), (17, 17), (41, 41)];

/// Three runs with sixteen members.
const SIXTEEN: Table<'static> = &[(1, 5), (9, 9), (20, 29)];

/// Every value.
const UNIVERSE: Table<'static> = &[(i32::MIN, i32::MAX)];

/// A set, the value that it is split at, and its two parts.
static PARTED: [(Table<'static>, i32, Table<'static>, Table<'static>); 15] = [
    (ONE, 6, ONE, &[]),
    (ONE, 5, &[(1, 4)], &[(5, 5)]),
    (ONE, 1, &[], ONE),
    (ONE, -7, &[], ONE),
    (THREE, 3, &[(1, 2)], &[(3, 3), (17, 17), (41, 41)]),
    (THREE, 4, &[(1, 3)], &[(17, 17), (41, 41)]),
    (THREE, 17, &[(1, 3)], &[(17, 17), (41, 41)]),
    (THREE, 18, &[(1, 3), (17, 17)], &[(41, 41)]),
    (SIXTEEN, 4, &[(1, 3)], &[(4, 5), (9, 9), (20, 29)]),
    (SIXTEEN, 25, &[(1, 5), (9, 9), (20, 24)], &[(25, 29)]),
    (SIXTEEN, 0, &[], SIXTEEN),
    (SIXTEEN, 30, SIXTEEN, &[]),
    (&[], 0, &[], &[]),
    (
        UNIVERSE,
        i32::MAX,
        &[(i32::MIN, i32::MAX - 1)],
        &[(i32::MAX, i32::MAX)],
    ),
    (UNIVERSE, i32::MIN, &[], UNIVERSE),
];

// The values below the given one stay. The others are split off, whatever the other set was.
#[test]
fn a_set_is_parted_at_a_value(rt: HostRuntime) {
    for (before, key, low, high) in &PARTED {
        let call = Change::SplitOff(*key);
        let answer = changes(
            rt.alloc(),
            call,
            (before, &[(2, 9)]),
            Answer::Nothing,
            (low, high),
        );
        assert!(rt; answer == Ok(true), "{before:?} at {key}");
    }
}

/// A value that {1..=5} is split at, and its two parts.
static PARTED_RUN: [(i32, Table<'static>, Table<'static>); 2] = [
    (3, &[(1, 2)], &[(3, 5)]),
    (9, &[(1, 5)], &[]),
];

#[test]
fn one_run_is_parted_inside_or_not_at_all(rt: HostRuntime) {
    for (key, low, high) in &PARTED_RUN {
        let call = Change::SplitOff(*key);
        let answer = changes(
            rt.alloc(),
            call,
            (&[(1, 5)], &[]),
            Answer::Nothing,
            (low, high),
        );
        assert!(rt; answer == Ok(true), "at {key}");
    }
}
