//! The part of a set between two bounds: its runs, its gaps, and how many members it has.

ghost use Rattle.std.specs.Prelude.{◌≡◌, IfOk};
ghost use Rattle.std.specs.declared.ops.Bound.TheVariants.{Included};
ghost use Rattle.range_set_blaze.specs.Runs.{members};
ghost use Rattle.range_set_blaze.specs.Selection.{count, difference, intersection};
ghost use Rattle.range_set_blaze.specs.Set.{ranks_between, IsSetOf};

use range_set_blaze::{Integer, IntoRangeSetBlaze, RangeSetBlaze};
use rsb_user_types::Slot;
use std::alloc::{AllocError, Global};
use std::ops::{Bound, RangeInclusive};
use std::test::*;
use test_support::{Table, every_fifth, gives, has, set_of, slot, slots};

/// Returns the set of the values from one to another that a set lacks.
fn missing<T: Integer>(
    alloc: Global,
    set: &RangeSetBlaze<T>,
    a: T,
    b: T,
) -> Result<RangeSetBlaze<T>, AllocError>
    ensures { IfOk result (λ gaps. IsSetOf gaps
        (difference (ranks_between T.rank T.value_count (Included a) (Included b))
        (members set.now))) }
{
    set.gaps_in(a..=b).into_range_set_blaze(alloc)
}

/// Returns how many gaps lie from one value to another.
fn gaps_between<T: Integer>(set: &RangeSetBlaze<T>, a: T, b: T) -> usize {
    let mut count = 0usize;
    for _ in set.gaps_in(a..=b) {
        count = count.saturating_add(1);
    }
    count
}

/// Returns the last gap that lies from one value to another.
fn last_gap<T: Integer>(set: &RangeSetBlaze<T>, a: T, b: T) -> Option<RangeInclusive<T>> {
    set.gaps_in(a..=b).next_back()
}

/// Returns the set of the members from one value to another.
fn kept<T: Integer>(
    alloc: Global,
    set: &RangeSetBlaze<T>,
    a: T,
    b: T,
) -> Result<RangeSetBlaze<T>, AllocError>
    ensures { IfOk result (λ part. IsSetOf part
        (intersection (members set.now)
        (ranks_between T.rank T.value_count (Included a) (Included b)))) }
{
    RangeSetBlaze::from_sorted_disjoint(alloc, set.ranges_in(a..=b))
}

/// Returns how many members lie from one value to another.
fn members_between<T: Integer>(set: &RangeSetBlaze<T>, a: T, b: T) -> T::SafeLen
    ensures { T.SafeLen.number result ≡ count T.value_count
        (intersection (members set.now)
        (ranks_between T.rank T.value_count (Included a) (Included b))) }
{
    set.len_in(a..=b)
}

/// Returns how many runs lie between two bounds, from either end, and how many gaps.
fn pieces(set: &RangeSetBlaze<i32>, bounds: (Bound<i32>, Bound<i32>)) -> (usize, usize, usize) {
    let (mut runs, mut back, mut gaps) = (0usize, 0usize, 0usize);
    for _ in set.ranges_in(bounds) {
        runs = runs.saturating_add(1);
    }
    for _ in set.ranges_in(bounds).rev() {
        back = back.saturating_add(1);
    }
    for _ in set.gaps_in(bounds) {
        gaps = gaps.saturating_add(1);
    }
    (runs, back, gaps)
}

/// Returns the set of the values from one to another that two sets have and a third lacks
/// nowhere from there on.
fn nest(
    alloc: Global,
    set: &RangeSetBlaze<i32>,
    other: &RangeSetBlaze<i32>,
    third: &RangeSetBlaze<i32>,
    a: i32,
    b: i32,
) -> Result<RangeSetBlaze<i32>, AllocError> {
    let nest = (set.ranges_in(a..=b) & other.ranges()) - !third.ranges_in(..);
    nest.into_range_set_blaze(alloc)
}

/// A set and two bounds, and what lies between these: runs, gaps, and the number of members.
struct Row {
    set: Table<'static>,
    start: Bound<i32>,
    end: Bound<i32>,
    runs: Table<'static>,
    gaps: Table<'static>,
    members: u64,
}

/// Three runs.
const THREE: Table<'static> = &[(1, 4), (8, 13), (20, 20)];

static ROWS: [Row; 17] = [
    Row {
        set: &[],
        start: Bound::Included(3),
        end: Bound::Included(9),
        runs: &[],
        gaps: &[(3, 9)],
        members: 0,
    },
    Row {
        set: &[],
        start: Bound::Unbounded,
        end: Bound::Unbounded,
        runs: &[],
        gaps: &[(i32::MIN, i32::MAX)],
        members: 0,
    },
    Row {
        set: THREE,
        start: Bound::Included(3),
        end: Bound::Included(9),
        runs: &[(3, 4), (8, 9)],
        gaps: &[(5, 7)],
        members: 4,
    },
    Row {
        set: THREE,
        start: Bound::Excluded(4),
        end: Bound::Excluded(8),
        runs: &[],
        gaps: &[(5, 7)],
        members: 0,
    },
    Row {
        set: THREE,
        start: Bound::Included(9),
        end: Bound::Included(12),
        runs: &[(9, 12)],
        gaps: &[],
        members: 4,
    },
    Row {
        set: THREE,
        start: Bound::Included(8),
        end: Bound::Included(13),
        runs: &[(8, 13)],
        gaps: &[],
        members: 6,
    },
    Row {
        set: THREE,
        start: Bound::Excluded(8),
        end: Bound::Excluded(20),
        runs: &[(9, 13)],
        gaps: &[(14, 19)],
        members: 5,
    },
    Row {
        set: THREE,
        start: Bound::Unbounded,
        end: Bound::Excluded(9),
        runs: &[(1, 4), (8, 8)],
        gaps: &[(i32::MIN, 0), (5, 7)],
        members: 5,
    },
    Row {
        set: THREE,
        start: Bound::Included(13),
        end: Bound::Unbounded,
        runs: &[(13, 13), (20, 20)],
        gaps: &[(14, 19), (21, i32::MAX)],
        members: 2,
    },
    Row {
        set: THREE,
        start: Bound::Included(0),
        end: Bound::Included(25),
        runs: THREE,
        gaps: &[(0, 0), (5, 7), (14, 19), (21, 25)],
        members: 11,
    },
    Row {
        set: THREE,
        start: Bound::Included(9),
        end: Bound::Included(8),
        runs: &[],
        gaps: &[],
        members: 0,
    },
    Row {
        set: THREE,
        start: Bound::Excluded(9),
        end: Bound::Excluded(9),
        runs: &[],
        gaps: &[],
        members: 0,
    },
    Row {
        set: THREE,
        start: Bound::Excluded(9),
        end: Bound::Included(-9),
        runs: &[],
        gaps: &[],
        members: 0,
    },
    Row {
        set: &[(i32::MIN, i32::MAX)],
        start: Bound::Excluded(i32::MAX),
        end: Bound::Unbounded,
        runs: &[],
        gaps: &[],
        members: 0,
    },
    Row {
        set: &[(i32::MIN, i32::MAX)],
        start: Bound::Unbounded,
        end: Bound::Excluded(i32::MIN),
        runs: &[],
        gaps: &[],
        members: 0,
    },
    Row {
        set: &[(i32::MIN, i32::MAX)],
        start: Bound::Unbounded,
        end: Bound::Unbounded,
        runs: &[(i32::MIN, i32::MAX)],
        gaps: &[],
        members: 4_294_967_296,
    },
    Row {
        set: &[(i32::MIN, i32::MIN), (i32::MAX, i32::MAX)],
        start: Bound::Included(i32::MIN),
        end: Bound::Included(i32::MAX),
        runs: &[(i32::MIN, i32::MIN), (i32::MAX, i32::MAX)],
        gaps: &[(-2_147_483_647, 2_147_483_646)],
        members: 2,
    },
];

/// Whether the gaps between the bounds come from the back in the reverse of their order.
fn come_back(set: &RangeSetBlaze<i32>, bounds: (Bound<i32>, Bound<i32>), gaps: Table) -> bool {
    let mut rest = gaps.iter().rev();
    for gap in set.gaps_in(bounds).rev() {
        let Some(pair) = rest.next() else {
            return false;
        };
        if gap != (pair.0..=pair.1) {
            return false;
        }
    }
    rest.next().is_none()
}

/// Whether these runs, gaps and members lie between the bounds.
fn lie_between(set: &RangeSetBlaze<i32>, row: &Row) -> bool {
    let bounds = (row.start, row.end);
    gives(set.ranges_in(bounds), row.runs)
        && gives(set.gaps_in(bounds), row.gaps)
        && come_back(set, bounds, row.gaps)
        && set.len_in(bounds) == row.members
        && pieces(set, bounds) == (row.runs.len(), row.runs.len(), row.gaps.len())
}

#[test]
fn what_lies_between_two_bounds_comes_in_order(rt: HostRuntime) -> Result<(), Fail> {
    let mut number = 0u8;
    for row in &ROWS {
        let set = set_of(rt.alloc(), row.set)?;
        assert!(rt; lie_between(&set, row), "row {number}");
        number = number.saturating_add(1);
    }
    Ok(())
}

/// Whether the runs between two values come from either end.
fn come_from_both_ends(set: &RangeSetBlaze<i32>) -> bool {
    let mut ranges = set.ranges_in(3..=9);
    ranges.next_back() == Some(8..=9)
        && ranges.next() == Some(3..=4)
        && ranges.next().is_none()
        && ranges.next_back().is_none()
}

/// Whether the gaps between two values come from either end, those in the middle last.
fn gaps_come_from_both_ends(set: &RangeSetBlaze<i32>) -> bool {
    let mut gaps = set.gaps_in(0..=25);
    gaps.next_back() == Some(21..=25)
        && gaps.next() == Some(0..=0)
        && gaps.next_back() == Some(14..=19)
        && gaps.next() == Some(5..=7)
        && gaps.next_back().is_none()
        && gaps.next().is_none()
}

/// Whether the gaps between two values are these at any type: how many, and which comes last.
fn gaps_are_counted(set: &RangeSetBlaze<i32>) -> bool {
    gaps_between(set, 3, 25) == 3
        && last_gap(set, 3, 25) == Some(21..=25)
        && last_gap(set, 3, 13) == Some(5..=7)
        && last_gap(set, 9, 12).is_none()
}

/// Whether the sets of what lies between two values are these.
fn make_sets(alloc: Global, set: &RangeSetBlaze<i32>) -> Result<bool, AllocError> {
    let mut numbers = RangeSetBlaze::from(alloc, 1..=4)?;
    let is_new = numbers.ranges_insert(8..=13)?;
    Ok(
        is_new
            && gives(missing(alloc, &numbers, 3, 9)?.ranges(), &[(5, 7)])
            && has(&kept(alloc, set, 3, 9)?, &[(3, 4), (8, 9)])
            && members_between(set, 3, 9) == 4,
    )
}

/// Whether a nest of windows has these values.
fn nests(alloc: Global, set: &RangeSetBlaze<i32>) -> Result<bool, AllocError> {
    let (other, third) = (set_of(alloc, &[(0, 9)])?, set_of(alloc, &[(4, 30)])?);
    Ok(has(&nest(alloc, set, &other, &third, 2, 12)?, &[(4, 4), (8, 9)]))
}

#[test]
fn windows_are_streams(rt: HostRuntime) -> Result<(), Fail> {
    let set = set_of(rt.alloc(), THREE)?;
    assert!(rt; come_from_both_ends(&set) && gaps_come_from_both_ends(&set));
    assert!(rt; gaps_are_counted(&set));
    assert!(rt; make_sets(rt.alloc(), &set)? && nests(rt.alloc(), &set)?);
    Ok(())
}

/// Whether the runs and the gaps between two slots are right, at a user-defined type.
fn slots_lie_between(alloc: Global) -> Result<bool, AllocError> {
    let mut booked = RangeSetBlaze::<Slot>::from(alloc, slots(8, 11))?;
    let is_new = booked.ranges_insert(slots(20, 23))?;
    Ok(
        is_new
            && gives(
                booked.ranges_in(slots(10, 20)),
                &[(slot(10), slot(11)), (slot(20), slot(20))],
            )
            && gives(booked.gaps_in(slots(10, 20)), &[(slot(12), slot(19))])
            && booked.len_in(slots(10, 20)) == 3,
    )
}

#[test]
fn free_slots_of_a_morning_are_gaps(rt: HostRuntime) -> Result<(), Fail> {
    assert!(rt; slots_lie_between(rt.alloc())?);
    Ok(())
}

/// Whether the five operators on the runs between two values return these ranges.
fn runs_combine(set: &RangeSetBlaze<i32>, other: &RangeSetBlaze<i32>) -> bool {
    gives(set.ranges_in(3..=12) | other.ranges(), &[(3, 4), (6, 12)])
        && gives(set.ranges_in(3..=12) & other.ranges(), &[(8, 9)])
        && gives(set.ranges_in(3..=12) - other.ranges(), &[(3, 4), (10, 12)])
        && gives(
            set.ranges_in(3..=12) ^ other.ranges(),
            &[(3, 4), (6, 7), (10, 12)],
        )
        && gives(
            !set.ranges_in(3..=12),
            &[(i32::MIN, 2), (5, 7), (13, i32::MAX)],
        )
}

/// Whether the five operators on the gaps between two values return these ranges.
fn gaps_combine(set: &RangeSetBlaze<i32>, other: &RangeSetBlaze<i32>) -> bool {
    gives(set.gaps_in(3..=12) | other.ranges(), &[(5, 9)])
        && gives(set.gaps_in(3..=12) & other.ranges(), &[(6, 7)])
        && gives(set.gaps_in(3..=12) - other.ranges(), &[(5, 5)])
        && gives(set.gaps_in(3..=12) ^ other.ranges(), &[(5, 5), (8, 9)])
        && gives(!set.gaps_in(3..=12), &[(i32::MIN, 4), (8, i32::MAX)])
}

#[test]
fn all_operators_take_a_window(rt: HostRuntime) -> Result<(), Fail> {
    let set = set_of(rt.alloc(), THREE)?;
    let other = set_of(rt.alloc(), &[(6, 9)])?;
    assert!(rt; runs_combine(&set, &other) && gaps_combine(&set, &other));
    Ok(())
}

/// Whether a copy of the runs between two values goes on where they were copied.
fn copied_runs_go_on(set: &RangeSetBlaze<i32>) -> Result<bool, AllocError> {
    let mut runs = set.ranges_in(0..=25);
    let first = runs.next();
    let copy = runs.clone()?;
    let rest: Table = &[(8, 13), (20, 20)];
    Ok(first == Some(1..=4) && gives(copy, rest) && gives(runs, rest))
}

/// Whether a copy of the gaps between two values goes on where they were copied.
fn copied_gaps_go_on(set: &RangeSetBlaze<i32>) -> Result<bool, AllocError> {
    let mut gaps = set.gaps_in(0..=25);
    let first = gaps.next();
    let copy = gaps.clone()?;
    let rest: Table = &[(5, 7), (14, 19), (21, 25)];
    Ok(first == Some(0..=0) && gives(copy, rest) && gives(gaps, rest))
}

#[test]
fn a_copy_of_a_window_goes_on_alike(rt: HostRuntime) -> Result<(), Fail> {
    let set = set_of(rt.alloc(), THREE)?;
    assert!(rt; copied_runs_go_on(&set)? && copied_gaps_go_on(&set)?);
    Ok(())
}

#[test]
fn seventy_thousand_runs_lie_between_two_bounds(rt: HostRuntime) -> Result<(), Fail> {
    let set = every_fifth(rt.alloc(), 0, 2)?;
    let bounds = (Bound::Included(1), Bound::Included(349_996));
    assert!(rt; pieces(&set, bounds) == (70_000, 70_000, 69_999));
    assert!(rt; set.len_in(bounds) == 209_998);
    Ok(())
}
