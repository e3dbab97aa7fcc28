//! `bitand_assign`, `sub_assign` and `bitxor_assign`, on rows worked by hand, with each allocation
//! made to fail.

ghost use Rattle.std.specs.Prelude.{◌≡◌, OnErr, OnOk};
ghost use Rattle.rsb_integer.specs.Runs.{members};
ghost use Rattle.rsb_integer.specs.Selection.{difference, intersection, symmetric_difference};
ghost use Rattle.range_set_blaze.specs.Set.{IsSetOf};

use crate::set::calls::Change;
use crate::set::refusals::changes::tried;
use range_set_blaze::{Integer, RangeSetBlaze};
use rsb_user_types::Side;
use std::alloc::{AllocError, Allocator, Global};
use std::test::*;
use test_support::{Counting, Heap, Table, gives, has, set_in};

/// Keeps what another set has too.
fn keep<T: Integer, A: Allocator + Copy, B: Allocator>(
    set: &mut RangeSetBlaze<T, A>,
    other: &RangeSetBlaze<T, B>,
) -> Result<(), AllocError>
    ensures members { OnOk result
        (IsSetOf set.new (intersection (members set.old) (members other.now))) }
    ensures err { OnErr result (set.new ≡ set.old) }
{
    set.bitand_assign(other)
}

/// Removes what another set has.
fn free<T: Integer, A: Allocator + Copy, B: Allocator>(
    set: &mut RangeSetBlaze<T, A>,
    other: &RangeSetBlaze<T, B>,
) -> Result<(), AllocError>
    ensures members { OnOk result
        (IsSetOf set.new (difference (members set.old) (members other.now))) }
    ensures err { OnErr result (set.new ≡ set.old) }
{
    set.sub_assign(other)
}

/// Adds what only the other set has, and removes what both have.
fn toggle<T: Integer, A: Allocator + Copy, B: Allocator>(
    set: &mut RangeSetBlaze<T, A>,
    other: &RangeSetBlaze<T, B>,
) -> Result<(), AllocError>
    ensures members { OnOk result
        (IsSetOf set.new (symmetric_difference (members set.old) (members other.now))) }
    ensures err { OnErr result (set.new ≡ set.old) }
{
    set.bitxor_assign(other)
}

// `LEAST` and `MOST` are the ends of the type.
const LEAST: i32 = i32::MIN;

const MOST: i32 = i32::MAX;

const ALL: Table<'static> = &[(i32::MIN, i32::MAX)];

// The runs of `OTHER` overlap and touch those of `ONE`.
const ONE: Table<'static> = &[(1, 3), (7, 10)];

const OTHER: Table<'static> = &[(4, 4), (9, 20)];

/// A change, a set, another set, what the first becomes, and whether the change allocates.
static CHANGED: [(Change, Table<'static>, Table<'static>, Table<'static>, bool); 21] = [
    (Change::BitandAssign, ONE, OTHER, &[(9, 10)], true),
    (Change::BitandAssign, OTHER, ONE, &[(9, 10)], true),
    (Change::BitandAssign, ONE, &[(4, 6)], &[], false),
    (Change::BitandAssign, ONE, &[], &[], false),
    (Change::BitandAssign, &[], ONE, &[], false),
    (Change::BitandAssign, ALL, OTHER, OTHER, true),
    (
        Change::BitandAssign,
        &[(LEAST, 0), (5, MOST)],
        &[(LEAST, LEAST), (0, 5), (MOST, MOST)],
        &[(LEAST, LEAST), (0, 0), (5, 5), (MOST, MOST)],
        true,
    ),
    (Change::SubAssign, ONE, OTHER, &[(1, 3), (7, 8)], true),
    (Change::SubAssign, OTHER, ONE, &[(4, 4), (11, 20)], true),
    (
        Change::SubAssign,
        ONE,
        &[(2, 2)],
        &[(1, 1), (3, 3), (7, 10)],
        true,
    ),
    (Change::SubAssign, ONE, &[], ONE, false),
    (Change::SubAssign, &[], ONE, &[], false),
    (Change::SubAssign, ONE, ALL, &[], false),
    (
        Change::SubAssign,
        ALL,
        OTHER,
        &[(LEAST, 3), (5, 8), (21, MOST)],
        true,
    ),
    (
        Change::BitxorAssign,
        ONE,
        OTHER,
        &[(1, 4), (7, 8), (11, 20)],
        true,
    ),
    (
        Change::BitxorAssign,
        OTHER,
        ONE,
        &[(1, 4), (7, 8), (11, 20)],
        true,
    ),
    (Change::BitxorAssign, ONE, ONE, &[], false),
    (Change::BitxorAssign, ONE, &[], ONE, false),
    (Change::BitxorAssign, &[], ONE, ONE, true),
    (
        Change::BitxorAssign,
        ALL,
        OTHER,
        &[(LEAST, 3), (5, 8), (21, MOST)],
        true,
    ),
    (Change::BitxorAssign, &[(LEAST, 0)], &[(1, MOST)], ALL, true),
];

/// Returns the number of allocations that the heap must grant before a change succeeds. Each failed
/// try leaves both sets unchanged. The one that succeeds gives the set of a table, and leaves the
/// other set unchanged. Returns `None` if this does not hold, or if no try succeeds.
fn failures(
    alloc: Global,
    change: Change,
    before: Table<'_>,
    beside: Table<'_>,
    after: Table<'_>,
) -> Result<Option<usize>, AllocError> {
    let heap = Counting::new(alloc);
    let mut set = set_in(&heap, before)?;
    let mut other = set_in(&heap, beside)?;
    for granted in 0..20usize {
        let is_passed = tried(&heap, granted, change, &mut set, &mut other).is_some();
        let wanted = if is_passed { after } else { before };
        if !has(&set, wanted) || !has(&other, beside) {
            return Ok(None);
        }
        if is_passed {
            return Ok(Some(granted));
        }
    }
    Ok(None)
}

#[test]
fn another_set_changes_a_set_or_leaves_it(rt: HostRuntime) -> Result<(), Fail> {
    for (change, before, beside, after, allocates) in &CHANGED {
        let failed = failures(rt.alloc(), *change, before, beside, after)?;
        assert!(rt;
            failed.is_some_and(|times| (times > 0) == *allocates),
            "{failed:?} at {before:?} and {beside:?}"
        );
    }
    Ok(())
}

/// Whether keeping, removing and toggling what a set in a heap has changes a set of both sides as
/// it should.
fn sides_change(alloc: Global, heap: &Heap) -> Result<bool, AllocError> {
    let mut sides = RangeSetBlaze::from(alloc, Side::Lo..=Side::Hi)?;
    let low = RangeSetBlaze::from(heap, Side::Lo..=Side::Lo)?;
    keep(&mut sides, &low)?;
    let is_low = gives(sides.ranges(), &[(Side::Lo, Side::Lo)]);
    free(&mut sides, &low)?;
    let is_freed = sides.is_empty();
    toggle(&mut sides, &low)?;
    Ok(is_low && is_freed && gives(sides.ranges(), &[(Side::Lo, Side::Lo)]))
}

#[test]
fn a_set_of_another_allocator_changes_a_set(rt: HostRuntime) -> Result<(), Fail> {
    let heap = Counting::new(rt.alloc());
    assert!(rt; sides_change(rt.alloc(), &heap)?);
    Ok(())
}
