//! Sets built from others, from streams and from items, on rows worked by hand.

use crate::set::calls::Making;
use crate::set::rows::{is_byte_run, makes_of_two};
use range_set_blaze::{
    CheckSortedDisjoint, DrawDisjoint, Integer, IntoRangeSetBlaze, RangeOnce, RangeSetBlaze,
    UIntPlusOne,
};
use std::alloc::{AllocError, Global};
use std::ops::RangeInclusive;
use std::test::*;
use test_support::{Operation, Table, has, operation_gives, set_of};

/// Two runs.
const TWO: Table<'static> = &[(1, 2), (5, 100)];

/// All values except 0.
const ENDS: Table<'static> = &[(i32::MIN, -1), (1, i32::MAX)];

/// Every value.
const UNIVERSE: Table<'static> = &[(i32::MIN, i32::MAX)];

/// A making from {1..=2, 5..=100} and {2..=6}, and its result.
static OF_TWO: [(Making, Table<'static>); 4] = [
    (Making::Bitand, &[(2, 2), (5, 6)]),
    (Making::Sub, &[(1, 1), (7, 100)]),
    (Making::Bitxor, &[(1, 1), (3, 4), (7, 100)]),
    (Making::Not, &[(-2147483648, 0), (3, 4), (101, 2147483647)]),
];

#[test]
fn two_sets_are_met_told_apart_and_turned(rt: HostRuntime) {
    for (making, wanted) in &OF_TWO {
        let answer = makes_of_two(rt.alloc(), *making, &[(1, 2), (5, 100)], &[(2, 6)], wanted);
        assert!(rt; answer == Ok(true), "{wanted:?}");
    }
}

/// An operation and its making from {0..=9, 20..=29} and {5..=24, 26..=40}, and the runs of the
/// result: as many as are possible.
static MOST_RUNS: [(Operation, Making, Table<'static>); 3] = [
    (
        Operation::Intersection,
        Making::Bitand,
        &[(5, 9), (20, 24), (26, 29)],
    ),
    (
        Operation::SymmetricDifference,
        Making::Bitxor,
        &[(0, 4), (10, 19), (25, 25), (30, 40)],
    ),
    (
        Operation::Complement,
        Making::Not,
        &[(i32::MIN, -1), (10, 19), (30, i32::MAX)],
    ),
];

/// Two runs, and two others.
const LEFT: Table<'static> = &[(0, 9), (20, 29)];

const RIGHT: Table<'static> = &[(5, 24), (26, 40)];

/// Whether an operation on the runs of {0..=9, 20..=29} and {5..=24, 26..=40} gives those of a
/// table.
fn operation_comes_to(
    alloc: Global,
    operation: Operation,
    wanted: Table<'_>,
) -> Result<bool, AllocError> {
    let left = set_of(alloc, LEFT)?;
    let right = set_of(alloc, RIGHT)?;
    Ok(operation_gives(operation, left.ranges(), right.ranges(), wanted))
}

#[test]
fn results_of_two_runs_and_two_have_up_to_four(rt: HostRuntime) {
    for (operation, making, wanted) in &MOST_RUNS {
        let given = operation_comes_to(rt.alloc(), *operation, wanted);
        let made = makes_of_two(rt.alloc(), *making, LEFT, RIGHT, wanted);
        assert!(rt; given == Ok(true) && made == Ok(true), "{operation:?}");
    }
}

/// A making, the two sets that it gets, and its result.
static MADE: [(Making, Table<'static>, Table<'static>, Table<'static>); 20] = [
    (Making::Clone, TWO, &[], TWO),
    (Making::Bitor, TWO, &[(2, 6)], &[(1, 100)]),
    (Making::FromIter, TWO, &[(2, 6)], &[(1, 100)]),
    (
        Making::FromIterValues(1, 10),
        &[],
        &[],
        &[(1, 1), (5, 5), (9, 9)],
    ),
    (
        Making::FromArray,
        &[],
        &[],
        &[(1, 1), (4, 4), (7, 7), (9, 9)],
    ),
    (Making::FromSortedDisjoint, TWO, &[], TWO),
    (Making::IntoRangeSetBlaze, TWO, &[], TWO),
    (Making::From(3, 7), &[], &[], &[(3, 7)]),
    (Making::From(7, 3), &[], &[], &[]),
    (
        Making::From(i32::MAX, i32::MAX),
        &[],
        &[],
        &[(i32::MAX, i32::MAX)],
    ),
    (Making::Universe, &[], &[], UNIVERSE),
    (Making::Bitor, ENDS, &[(0, 0)], UNIVERSE),
    (Making::Bitand, ENDS, UNIVERSE, ENDS),
    (Making::Sub, UNIVERSE, ENDS, &[(0, 0)]),
    (Making::Bitxor, UNIVERSE, ENDS, &[(0, 0)]),
    (Making::Not, ENDS, &[], &[(0, 0)]),
    (Making::Not, UNIVERSE, &[], &[]),
    (Making::Not, &[], &[], UNIVERSE),
    (Making::FromIter, ENDS, &[(0, 0)], UNIVERSE),
    (Making::Clone, ENDS, &[], ENDS),
];

#[test]
fn sets_streams_and_items_make_sets(rt: HostRuntime) {
    for (making, left, right, wanted) in &MADE {
        let answer = makes_of_two(rt.alloc(), *making, left, right, wanted);
        assert!(rt; answer == Ok(true), "{wanted:?} of {left:?} and {right:?}");
    }
}

/// Whether the union of the runs of two sets gives a set of these.
fn union_makes(
    alloc: Global,
    left: &RangeSetBlaze<i32>,
    right: &RangeSetBlaze<i32>,
    wanted: Table<'_>,
) -> Result<bool, AllocError> {
    let both = left.ranges().union(right.ranges());
    Ok(has(&both.into_range_set_blaze(alloc)?, wanted))
}

#[test]
fn a_union_makes_a_set(rt: HostRuntime) -> Result<(), Fail> {
    let left = set_of(rt.alloc(), &[(100, 499), (501, 999)])?;
    let right = set_of(rt.alloc(), &[(-20, -20), (400, 599)])?;
    let wanted = [(-20, -20), (100, 999)];
    assert!(rt; union_makes(rt.alloc(), &left, &right, &wanted)?);
    Ok(())
}

#[test]
fn a_complement_makes_a_set(rt: HostRuntime) -> Result<(), Fail> {
    let mut bytes = RangeSetBlaze::<u8>::from(rt.alloc(), 0..=9)?;
    assert!(rt; bytes.ranges_insert(20..=255)?);
    let gaps = RangeSetBlaze::from_sorted_disjoint(rt.alloc(), bytes.ranges().complement())?;
    assert!(rt; bytes.range_or_gap_at(15) == (10..=19, false) && is_byte_run(&gaps, 10, 19));
    Ok(())
}

#[test]
fn every_value_of_a_wide_type_makes_a_set(rt: HostRuntime) -> Result<(), Fail> {
    assert!(rt; RangeSetBlaze::<char>::universe(rt.alloc())?.len() == 1_112_064);
    let numbers = RangeSetBlaze::<i128>::universe(rt.alloc())?;
    assert!(rt; numbers.len() == UIntPlusOne::MaxPlusOne);
    Ok(())
}

#[test]
fn ranges_in_any_order_make_a_set(rt: HostRuntime) -> Result<(), Fail> {
    let set = RangeSetBlaze::from_iter(rt.alloc(), [1..=2, 2..=2, -10..=-5, 1..=0])?;
    assert!(rt; has(&set, &[(-10, -5), (1, 2)]));
    Ok(())
}

#[test]
fn all_wide_numbers_but_one_are_counted(rt: HostRuntime) -> Result<(), Fail> {
    let ranges = [i128::MIN..=10, -10..=i128::MAX - 1];
    let set = RangeSetBlaze::from_iter(rt.alloc(), ranges)?;
    let length = UIntPlusOne::UInt(340282366920938463463374607431768211455);
    assert!(rt; set.len() == length);
    Ok(())
}

/// Whether a range and 7..=8 make the set of 7 and 8.
fn makes_nothing(alloc: Global, range: RangeInclusive<u8>) -> Result<bool, AllocError> {
    let set = RangeSetBlaze::from_iter(alloc, [range, 7..=8])?;
    Ok(is_byte_run(&set, 7, 8))
}

/// Whether the list of a range is refused.
fn is_refused(alloc: Global, range: RangeInclusive<u8>) -> Result<bool, AllocError> {
    let refused = CheckSortedDisjoint::try_new(Vec::from_array(alloc, [range])?).err();
    Ok(refused.is_some_and(|refused| refused.position == 0))
}

/// Whether a range adds nothing to the set of 9.
fn adds_nothing(alloc: Global, range: RangeInclusive<u8>) -> Result<bool, AllocError> {
    let mut nine = RangeSetBlaze::from(alloc, 9..=9_u8)?;
    nine.extend([range])?;
    Ok(is_byte_run(&nine, 9, 9))
}

#[test]
fn a_range_iterated_to_its_end_has_no_members(rt: HostRuntime) -> Result<(), Fail> {
    let mut range = 1u8..=3;
    for wanted in [Some(1), Some(2), Some(3), None] {
        assert!(rt; u8::range_next(&mut range) == wanted, "{wanted:?}");
    }
    assert!(rt; RangeOnce::new(range.clone()?).next() == None);
    assert!(rt; makes_nothing(rt.alloc(), range.clone()?)?);
    assert!(rt; is_refused(rt.alloc(), range.clone()?)? && adds_nothing(rt.alloc(), range)?);
    Ok(())
}
