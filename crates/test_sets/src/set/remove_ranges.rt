//! `ranges_remove`, `contains_range` and `is_disjoint_range`, on rows worked by hand.

ghost use Rattle.std.specs.Prelude.{◌↔◌, IfOk, IsTrue};
ghost use Rattle.rsb_integer.specs.Runs.{members};
ghost use Rattle.rsb_integer.specs.Selection.{difference, intersection, IsEmpty};
ghost use Rattle.range_set_blaze.specs.Joining.{HasAll};
ghost use Rattle.range_set_blaze.specs.Set.{ranks_between, ranks_in, IsSetOf, Removes};
ghost use Rattle.std.specs.declared.ops.Bound.TheVariants.{Included, Unbounded};

use crate::set::calls::Change;
use crate::set::many_runs::{change, counts};
use range_set_blaze::{Integer, RangeSetBlaze};
use rsb_user_types::Slot;
use std::alloc::{AllocError, Allocator, Global};
use std::ops::{Bound, RangeBounds};
use std::test::*;
use test_support::{Table, every_fifth, gives, has, set_of, slot, slots};

/// How much a set has of the values between two bounds, if there are any.
#[derive(Clone, Copy)]
enum Held {
    All,
    Part,
    Nothing,
    NoValues,
}

/// Whether a set reports what it has between two bounds, and is the set of a table once that is
/// removed.
fn is_removed(
    alloc: Global,
    bounds: (Bound<i32>, Bound<i32>),
    before: Table<'_>,
    held: Held,
    after: Table<'_>,
) -> Result<bool, AllocError> {
    let mut set = set_of(alloc, before)?;
    let has_all = matches!(held, Held::All | Held::NoValues);
    let has_some = matches!(held, Held::All | Held::Part);
    let is_told = set.contains_range(bounds) == has_all
        && set.is_disjoint_range(bounds) != has_some;
    Ok(is_told && set.ranges_remove(bounds)? == has_some && has(&set, after))
}

/// Two runs.
const TWO: Table<'static> = &[(1, 5), (9, 9)];

/// Four runs.
const FOUR: Table<'static> = &[(1, 2), (5, 6), (9, 10), (13, 20)];

/// Every value.
const ALL: Table<'static> = &[(i32::MIN, i32::MAX)];

/// A start and an end, the set before, what it has between them, and the set after.
static REMOVED: [(i32, i32, Table<'static>, Held, Table<'static>); 27] = [
    (1, 5, &[], Held::Nothing, &[]),
    (3, 4, TWO, Held::All, &[(1, 2), (5, 5), (9, 9)]),
    (3, 3, TWO, Held::All, &[(1, 2), (4, 5), (9, 9)]),
    (1, 3, TWO, Held::All, &[(4, 5), (9, 9)]),
    (0, 3, TWO, Held::Part, &[(4, 5), (9, 9)]),
    (3, 5, TWO, Held::All, &[(1, 2), (9, 9)]),
    (3, 8, TWO, Held::Part, &[(1, 2), (9, 9)]),
    (1, 5, TWO, Held::All, &[(9, 9)]),
    (9, 9, TWO, Held::All, &[(1, 5)]),
    (5, 9, TWO, Held::Part, &[(1, 4)]),
    (0, 10, TWO, Held::Part, &[]),
    (6, 8, TWO, Held::Nothing, TWO),
    (i32::MIN, 0, TWO, Held::Nothing, TWO),
    (10, i32::MAX, TWO, Held::Nothing, TWO),
    (5, 3, TWO, Held::NoValues, TWO),
    (2, 15, FOUR, Held::Part, &[(1, 1), (16, 20)]),
    (3, 12, FOUR, Held::Part, &[(1, 2), (13, 20)]),
    (5, 10, FOUR, Held::Part, &[(1, 2), (13, 20)]),
    (
        6,
        9,
        FOUR,
        Held::Part,
        &[(1, 2), (5, 5), (10, 10), (13, 20)],
    ),
    (4, 9, FOUR, Held::Part, &[(1, 2), (10, 10), (13, 20)]),
    (1, 20, FOUR, Held::Part, &[]),
    (i32::MIN, i32::MAX, FOUR, Held::Part, &[]),
    (i32::MIN, i32::MAX, ALL, Held::All, &[]),
    (i32::MIN, -1, ALL, Held::All, &[(0, i32::MAX)]),
    (0, i32::MAX, ALL, Held::All, &[(i32::MIN, -1)]),
    (0, 0, ALL, Held::All, &[(i32::MIN, -1), (1, i32::MAX)]),
    (i32::MAX, i32::MIN, ALL, Held::NoValues, ALL),
];

#[test]
fn what_lies_in_a_range_is_told_and_removed(rt: HostRuntime) {
    for (start, end, before, held, after) in &REMOVED {
        let bounds = (Bound::Included(*start), Bound::Included(*end));
        assert!(rt;
            is_removed(rt.alloc(), bounds, before, *held, after) == Ok(true),
            "{start} to {end} of {before:?}"
        );
    }
}

/// A start and an end, the set before, what it has between them, and the set after.
static BOUNDED: [(Bound<i32>, Bound<i32>, Table<'static>, Held, Table<'static>); 7] = [
    (Bound::Unbounded, Bound::Unbounded, TWO, Held::Part, &[]),
    (Bound::Unbounded, Bound::Unbounded, ALL, Held::All, &[]),
    (
        Bound::Excluded(1),
        Bound::Excluded(5),
        TWO,
        Held::All,
        &[(1, 1), (5, 5), (9, 9)],
    ),
    (
        Bound::Excluded(5),
        Bound::Excluded(9),
        TWO,
        Held::Nothing,
        TWO,
    ),
    (
        Bound::Excluded(3),
        Bound::Excluded(4),
        TWO,
        Held::NoValues,
        TWO,
    ),
    (
        Bound::Excluded(i32::MAX),
        Bound::Unbounded,
        ALL,
        Held::NoValues,
        ALL,
    ),
    (
        Bound::Unbounded,
        Bound::Excluded(i32::MIN),
        ALL,
        Held::NoValues,
        ALL,
    ),
];

#[test]
fn what_lies_between_open_bounds_is_told_and_removed(rt: HostRuntime) {
    for (start, end, before, held, after) in &BOUNDED {
        assert!(rt;
            is_removed(rt.alloc(), (*start, *end), before, *held, after) == Ok(true),
            "{start:?} to {end:?} of {before:?}"
        );
    }
}

/// Removals, one after the other, from the first three of each five values. Each has the numbers of
/// runs and of members that it leaves.
static OF_MANY: [(Change, usize, u64); 4] = [
    (Change::RangesRemove(150_001, 150_001), 70_001, 209_999),
    (Change::RangesRemove(150_003, 150_004), 70_001, 209_999),
    (Change::RangesRemove(1_000, 1_999), 69_801, 209_399),
    (Change::RangesRemove(1, 349_996), 2, 2),
];

#[test]
fn ranges_are_removed_from_seventy_thousand_runs(rt: HostRuntime) -> Result<(), Fail> {
    let mut set = every_fifth(rt.alloc(), 0, 2)?;
    let none = RangeSetBlaze::new(rt.alloc());
    for (call, count, members) in &OF_MANY {
        change(rt.alloc(), *call, &mut set, &none)?;
        assert!(rt; counts(&set, *count, *members));
    }
    Ok(())
}

#[test]
fn booked_slots_are_freed(rt: HostRuntime) -> Result<(), Fail> {
    let mut booked = RangeSetBlaze::<Slot>::from(rt.alloc(), slots(32, 39))?;
    assert!(rt; booked.contains_range(slots(36, 39)) && booked.is_disjoint_range(slots(40, 95)));
    assert!(rt; booked.ranges_remove(slots(36, 41))?);
    assert!(rt; gives(booked.ranges(), &[(slot(32), slot(35))]));
    Ok(())
}

/// Returns the members of a set outside some bounds.
fn outside<T: Integer, A: Allocator + Copy, R: RangeBounds<T>>(
    set: &RangeSetBlaze<T, A>,
    range: R,
) -> Result<RangeSetBlaze<T, A>, AllocError>
    ensures { R.has_bounds range → IfOk result (λ rest. IsSetOf rest (difference (members set.now)
        (ranks_in T.rank T.value_count R.start_bound R.end_bound range))) }
{
    let mut rest = set.clone()?;
    rest.ranges_remove(range)?;
    Ok(rest)
}

/// Removes the values from a start on. It never fails, because no value is past them.
fn keep_below<T: Integer, A: Allocator + Clone>(set: &mut RangeSetBlaze<T, A>, start: T) -> bool
    ensures succeeds { IsTrue result }
    ensures members { Removes set.old set.new
        (ranks_between T.rank T.value_count (Included start) Unbounded) }
{
    set.ranges_remove(start..).is_ok()
}

/// Whether a set has all values between some bounds.
fn lacks_none<T: Integer, A: Allocator, R: RangeBounds<T>>(
    set: &RangeSetBlaze<T, A>,
    range: R,
) -> bool
    ensures { R.has_bounds range → (IsTrue result ↔ HasAll set.now
        (ranks_in T.rank T.value_count R.start_bound R.end_bound range)) }
{
    set.contains_range(range)
}

/// Whether all values between some bounds are free.
fn are_free<T: Integer, A: Allocator, R: RangeBounds<T>>(
    booked: &RangeSetBlaze<T, A>,
    range: R,
) -> bool
    ensures { R.has_bounds range → (IsTrue result ↔ IsEmpty (intersection (members booked.now)
        (ranks_in T.rank T.value_count R.start_bound R.end_bound range))) }
{
    booked.is_disjoint_range(range)
}

#[test]
fn callers_know_what_is_left_and_what_is_free(rt: HostRuntime) -> Result<(), Fail> {
    let mut set = set_of(rt.alloc(), TWO)?;
    let rest = outside(&set, 3..=9)?;
    assert!(rt; has(&rest, &[(1, 2)]) && lacks_none(&set, 2..5) && are_free(&set, 6..9));
    assert!(rt; keep_below(&mut set, 4) && has(&set, &[(1, 3)]));
    Ok(())
}
