//! Every call on sets of seventy thousand runs, more than 16 bits can count. No call gives up at a
//! size.

use crate::set::calls::{Change, Making, carry_out, make};
use range_set_blaze::{DrawDisjoint, RangeSetBlaze};
use rsb_user_types::Counted;
use std::alloc::{AllocError, Global};
use std::cell::Cell;
use std::test::*;
use test_support::{every_fifth, has};

/// Changes, one after the other, of the set of the first three of every five values, starting at 0.
/// The other set has the fourth of each five. Each row has the number of runs and of members that
/// the change leaves.
static CHANGED: [(Change, usize, u64); 25] = [
    (Change::Insert(-5), 70_001, 210_001),
    (Change::Insert(170_003), 70_001, 210_002),
    (Change::Insert(170_004), 70_000, 210_003),
    (Change::Replace(180_004), 70_000, 210_004),
    (Change::Remove(150_000), 70_000, 210_003),
    (Change::Remove(150_101), 70_001, 210_002),
    (Change::Take(150_201), 70_002, 210_001),
    (Change::PopFirst, 70_001, 210_000),
    (Change::PopFirst, 70_001, 209_999),
    (Change::PopLast, 70_001, 209_998),
    (Change::SplitOff(349_001), 69_802, 209_400),
    (Change::SplitOff(348_003), 69_602, 208_802),
    (Change::Retain(3, 1), 92_801, 139_200),
    (Change::RangesRetain(7, 1), 79_542, 119_313),
    (Change::Append, 109_770, 189_313),
    (Change::ExtendValues(4, 349_990), 95_057, 229_484),
    (Change::Extend, 95_057, 229_484),
    (Change::BitorAssign, 95_057, 229_484),
    (Change::BitorAssignOwned, 95_057, 229_484),
    (Change::SubAssign, 89_886, 159_484),
    (Change::BitxorAssign, 95_057, 229_484),
    (Change::RangesInsert(10, 349_980), 7, 349_982),
    (Change::RangesInsert(-5, 350_005), 1, 350_011),
    (Change::BitandAssign, 70_000, 70_000),
    (Change::Clear, 0, 0),
];

/// Changes a set, with a copy of another if the call takes one.
pub(crate) fn change(
    alloc: Global,
    call: Change,
    set: &mut RangeSetBlaze<i32>,
    added: &RangeSetBlaze<i32>,
) -> Result<(), AllocError> {
    let mut other = RangeSetBlaze::new(alloc);
    if call.takes_other() {
        other = added.clone()?;
    }
    carry_out(alloc, call, set, &mut other)?;
    Ok(())
}

/// Whether a set has these numbers of runs and of members.
pub(crate) fn counts(set: &RangeSetBlaze<i32>, count: usize, members: u64) -> bool {
    set.ranges_len() == count && set.len() == members
}

#[test]
fn seventy_thousand_runs_are_changed(rt: HostRuntime) -> Result<(), Fail> {
    let mut set = every_fifth(rt.alloc(), 0, 2)?;
    let singles = every_fifth(rt.alloc(), 3, 0)?;
    for (call, count, members) in &CHANGED {
        change(rt.alloc(), *call, &mut set, &singles)?;
        assert!(rt; counts(&set, *count, *members));
    }
    Ok(())
}

/// A making from the same two sets, and the numbers of runs and of members of its result.
static MADE: [(Making, usize, u64); 10] = [
    (Making::Clone, 70_000, 210_000),
    (Making::Bitor, 70_000, 280_000),
    (Making::Bitand, 0, 0),
    (Making::Sub, 70_000, 210_000),
    (Making::Bitxor, 70_000, 280_000),
    (Making::Not, 70_001, 4_294_757_296),
    (Making::FromIter, 70_000, 280_000),
    (Making::FromIterValues(2, 280_004), 70_001, 70_001),
    (Making::FromSortedDisjoint, 70_000, 210_000),
    (Making::IntoRangeSetBlaze, 70_000, 210_000),
];

/// Whether the result of a making from two sets has these numbers of runs and of members.
pub(crate) fn makes(
    alloc: Global,
    making: Making,
    sets: (&RangeSetBlaze<i32>, &RangeSetBlaze<i32>),
    wanted: (usize, u64),
) -> Result<bool, AllocError> {
    let made = make(alloc, making, sets.0, sets.1)?;
    Ok(counts(&made, wanted.0, wanted.1))
}

/// Whether seventy thousand equal values make a set of one value.
fn equal_values_are_one(alloc: Global) -> Result<bool, AllocError> {
    let set = RangeSetBlaze::from_array(alloc, [7; 70_000])?;
    Ok(has(&set, &[(7, 7)]))
}

#[test]
fn seventy_thousand_runs_or_values_make_sets(rt: HostRuntime) -> Result<(), Fail> {
    let runs = every_fifth(rt.alloc(), 0, 2)?;
    let singles = every_fifth(rt.alloc(), 3, 0)?;
    for (making, count, members) in &MADE {
        assert!(rt; makes(rt.alloc(), *making, (&runs, &singles), (*count, *members))?);
    }
    assert!(rt; equal_values_are_one(rt.alloc())?);
    Ok(())
}

/// Whether a count of the runs of a set draws each run, and counts on to the greatest number.
fn runs_are_counted(set: &RangeSetBlaze<i32>) -> bool {
    let (drawn, full) = (Cell::new(0), Cell::new(usize::MAX - 1));
    let runs = Counted::new(Counted::new(set.ranges(), &drawn), &full);
    runs.count() == 70_000 && drawn.get() == 70_000 && full.get() == usize::MAX
}

/// Fills the gap of two values after each run, in an order that jumps, and returns whether each was
/// a gap.
fn gaps_are_filled(set: &mut RangeSetBlaze<i32>) -> Result<bool, AllocError> {
    let mut is_new = true;
    for place in 0..70_000i32 {
        let start = (place.saturating_mul(1237) % 70_000).saturating_mul(5);
        let gap = start.saturating_add(3)..=start.saturating_add(4);
        is_new = set.ranges_insert(gap)? && is_new;
    }
    Ok(is_new)
}

#[test]
fn seventy_thousand_runs_are_counted_and_their_gaps_filled(rt: HostRuntime) -> Result<(), Fail> {
    let mut set = every_fifth(rt.alloc(), 0, 2)?;
    assert!(rt; set.ranges().members_len() == 210_000 && runs_are_counted(&set));
    assert!(rt; gaps_are_filled(&mut set)? && has(&set, &[(0, 349_999)]));
    Ok(())
}

/// Whether each seventh value is found in a set exactly if it is one of the first three of its
/// five.
fn sevenths_are_found(set: &RangeSetBlaze<i32>) -> bool {
    for place in 0..50_000i32 {
        let value = place.saturating_mul(7);
        if set.contains(value) != (value % 5 < 3) {
            return false;
        }
    }
    true
}

/// Whether the ends of a set and the runs and gaps at some values are found.
fn runs_are_found(set: &RangeSetBlaze<i32>) -> bool {
    set.first() == Some(0)
        && set.last() == Some(349_997)
        && set.range_at(150_001) == Some(150_000..=150_002)
        && set.range_at(150_003) == None
        && set.range_or_gap_at(149_999) == (149_998..=149_999, false)
        && set.range_or_gap_at(150_000) == (150_000..=150_002, true)
}

/// Whether the elements between two bounds start and end with the right ones.
fn elements_are_found(set: &RangeSetBlaze<i32>) -> Result<bool, AllocError> {
    let mut between = set.range(1..=349_998)?;
    Ok(between.next() == Some(1) && between.next_back() == Some(349_997))
}

#[test]
fn seventy_thousand_runs_are_looked_up(rt: HostRuntime) -> Result<(), Fail> {
    let set = every_fifth(rt.alloc(), 0, 2)?;
    assert!(rt; sevenths_are_found(&set) && runs_are_found(&set) && elements_are_found(&set)?);
    Ok(())
}

/// Whether the lower size hint of the elements of a set is the number of its runs, by reference and
/// by value.
fn elements_hint(set: &RangeSetBlaze<i32>) -> Result<bool, AllocError> {
    let owned = set.clone()?.into_iter();
    Ok(owned.size_hint() == (70_000, None) && set.iter().size_hint() == (70_000, None))
}

/// Whether the size hint of the runs of a set is what is left after one from either end.
fn ranges_hint(set: &RangeSetBlaze<i32>) -> bool {
    let mut ranges = set.ranges();
    ranges.next() == Some(0..=2)
        && ranges.next_back() == Some(349_995..=349_997)
        && ranges.size_hint() == (69_998, Some(69_998))
}

/// Whether the size hint of the runs of a set passed by value is what is left after one from either
/// end.
fn owned_ranges_hint(set: RangeSetBlaze<i32>) -> bool {
    let mut ranges = set.into_ranges();
    ranges.next() == Some(0..=2)
        && ranges.next_back() == Some(349_995..=349_997)
        && ranges.size_hint() == (69_998, Some(69_998))
}

#[test]
fn hints_are_the_lengths_to_come(rt: HostRuntime) -> Result<(), Fail> {
    let set = every_fifth(rt.alloc(), 0, 2)?;
    assert!(rt; elements_hint(&set)? && ranges_hint(&set));
    assert!(rt; owned_ranges_hint(set));
    Ok(())
}
