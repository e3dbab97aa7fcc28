//! `retain` and `ranges_retain`, on rows worked by hand.

ghost use Rattle.std.specs.List.{filter};
ghost use Rattle.std.specs.Prelude.{◌≡◌, nat_lt};

use crate::set::calls::{Answer, Change};
use crate::set::rows::changes;
use range_set_blaze::{Integer, RangeSetBlaze};
use std::alloc::Allocator;
use std::test::*;
use test_support::{Table, has, set_of};

/// Four runs with nineteen members.
const SOME: Table<'static> = &[(1, 9), (11, 14), (20, 24), (30, 30)];

/// Three runs.
const THREE: Table<'static> = &[(1, 3), (7, 7), (9, 10)];

/// Every value.
const UNIVERSE: Table<'static> = &[(i32::MIN, i32::MAX)];

/// A closure, the set before, how often it is called, and the set after.
static RETAINED: [(Change, Table<'static>, u64, Table<'static>); 13] = [
    (
        Change::Retain(5, 0),
        SOME,
        19,
        &[(1, 4), (6, 9), (11, 14), (21, 24)],
    ),
    (Change::Retain(1, 1), SOME, 19, SOME),
    (Change::Retain(1, 0), SOME, 19, &[]),
    (Change::Retain(1, 1), &[], 0, &[]),
    (Change::Retain(1, 0), &[], 0, &[]),
    (
        Change::Retain(3, 1),
        &[(i32::MIN, i32::MIN + 3)],
        4,
        &[(i32::MIN + 1, i32::MIN + 2)],
    ),
    (
        Change::Retain(2, 0),
        &[(i32::MAX - 2, i32::MAX)],
        3,
        &[(i32::MAX - 2, i32::MAX - 2), (i32::MAX, i32::MAX)],
    ),
    (Change::RangesRetain(7, 0), THREE, 3, &[(1, 3), (9, 10)]),
    (Change::RangesRetain(1, 1), THREE, 3, THREE),
    (Change::RangesRetain(1, 0), THREE, 3, &[]),
    (Change::RangesRetain(1, 1), &[], 0, &[]),
    (Change::RangesRetain(1, 1), UNIVERSE, 1, UNIVERSE),
    (Change::RangesRetain(1, 0), UNIVERSE, 1, &[]),
];

// A divisor of 1 leaves only the remainder 0, so the remainder 0 selects every value, and 1 selects
// none.
#[test]
fn values_and_runs_are_kept_by_a_test(rt: HostRuntime) {
    for (call, before, asked, after) in &RETAINED {
        let answer = changes(
            rt.alloc(),
            *call,
            (before, &[]),
            Answer::Asked(*asked),
            (after, &[]),
        );
        assert!(rt; answer == Ok(true), "{after:?} of {before:?}");
    }
}

#[test]
fn even_values_are_kept(rt: HostRuntime) {
    let after = (&[(2, 2), (4, 4), (6, 6)] as Table<'_>, &[] as Table<'_>);
    let answer = changes(
        rt.alloc(),
        Change::Retain(2, 1),
        (&[(1, 6)], &[]),
        Answer::Asked(6),
        after,
    );
    assert!(rt; answer == Ok(true));
}

/// Keeps the runs of more than one value.
fn keep_long<T: Integer, A: Allocator>(set: &mut RangeSetBlaze<T, A>)
    ensures { set.new ≡ filter (λ run. nat_lt run.first run.last) set.old }
{
    set.ranges_retain(|range| range.start() < range.end());
}

#[test]
fn runs_of_one_value_are_left_out(rt: HostRuntime) -> Result<(), Fail> {
    let mut set = set_of(rt.alloc(), &[(1, 3), (7, 7), (9, 10)])?;
    keep_long(&mut set);
    assert!(rt; has(&set, &[(1, 3), (9, 10)]));
    Ok(())
}

// The closure keeps every second member.
#[test]
fn each_member_is_asked_about_once_in_order(rt: HostRuntime) -> Result<(), Fail> {
    let mut set = set_of(rt.alloc(), &[(1, 3), (7, 7), (9, 10)])?;
    let mut asked = Vec::new(rt.alloc());
    let mut is_noted = true;
    set.retain(|value| {
        is_noted = asked.push(*value).is_ok() && is_noted;
        asked.len() % 2 == 1
    })?;
    assert!(rt; is_noted && asked.as_slice() == [1, 2, 3, 7, 9, 10].as_slice());
    assert!(rt; has(&set, &[(1, 1), (3, 3), (9, 9)]));
    Ok(())
}
