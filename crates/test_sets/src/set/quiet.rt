//! The calls that never allocate, on sets of 0, 1, 3 and 100 runs. Calls that read a set do not
//! call its allocator. Calls that change a set or take it by value only free memory.

use crate::set::calls::{Change, carry_out};
use crate::set::cells::{Side, runs, spaced};
use crate::set::rows::{
    elements_given, elements_given_back, elements_given_up, ranges_given, ranges_given_up,
};
use range_set_blaze::laws::cmp_counted;
use range_set_blaze::{DrawDisjoint, RangeSetBlaze};
use std::alloc::{AllocError, Global};
use std::default::MadeWith;
use std::mem;
use std::test::*;
use test_support::{Counting, Heap, HeapSet, fed_by, set_in};

/// Groups of calls that read two sets.
#[derive(Clone, Copy)]
enum Reading {
    LookUps,
    Whole,
    Relations,
    Comparisons,
    Elements,
    Ranges,
    Streams,
    Questions,
    Text,
    Windows,
    Places,
}

/// All of them.
static READINGS: [Reading; 11] = [
    Reading::LookUps,
    Reading::Whole,
    Reading::Relations,
    Reading::Comparisons,
    Reading::Elements,
    Reading::Ranges,
    Reading::Streams,
    Reading::Questions,
    Reading::Text,
    Reading::Windows,
    Reading::Places,
];

/// Returns how many values from -8 to 815 are members, or 0 if two calls that look for a value do
/// not agree.
fn members_found(set: &HeapSet<'_>) -> u64 {
    let mut found = 0u64;
    for value in -8..816i32 {
        let is_member = set.contains(value);
        let (range, is_run) = set.range_or_gap_at(value);
        let is_told = set.range_at(value).is_some() == is_member
            && set.get(value).is_some() == is_member
            && is_run == is_member;
        if !is_told || *range.start() > value {
            return 0;
        }
        found = found.saturating_add(u64::from(is_member));
    }
    found
}

/// Whether the queries about a whole set agree.
fn is_whole(set: &HeapSet<'_>) -> bool {
    let is_empty = set.is_empty();
    set.first().is_none() == is_empty
        && set.last().is_none() == is_empty
        && (set.ranges_len() == 0) == is_empty
        && (set.len() == 0) == is_empty
        && !set.is_universal()
}

/// Whether two sets with no common member are disjoint, and are subsets only if they are empty.
fn are_apart<'a>(set: &HeapSet<'a>, other: &HeapSet<'a>) -> bool {
    set.is_disjoint(other)
        && set.is_subset(other) == set.is_empty()
        && set.is_superset(other) == other.is_empty()
}

/// Whether two sets with no common member are equal only if both are empty, by each comparison.
fn are_compared<'a>(set: &HeapSet<'a>, other: &HeapSet<'a>) -> bool {
    let is_same = set.is_empty() && other.is_empty();
    (set == other) == is_same
        && set.cmp(other).is_eq() == is_same
        && set.partial_cmp(other).is_some()
        && cmp_counted(set, other).0.is_eq() == is_same
        && (fed_by(set) == fed_by(other)) == is_same
}

/// Whether the elements of a set come from both ends, and all of them from either.
fn elements_come(set: &HeapSet<'_>) -> bool {
    let mut elements = set.iter();
    let (first, last) = (elements.next(), elements.next_back());
    first == set.first()
        && last.is_some() == (set.len() > 1)
        && elements_given(set) == set.len()
        && elements_given_back(set) == set.len()
}

/// Whether the runs of a set come from both ends, and all of them in order.
fn ranges_come(set: &HeapSet<'_>) -> bool {
    let mut ranges = set.ranges();
    let (first, last) = (ranges.next(), ranges.next_back());
    first.is_some() == !set.is_empty()
        && last.is_some() == (set.ranges_len() > 1)
        && ranges.len() == set.ranges_len().saturating_sub(2)
        && ranges_given(set) == set.ranges_len()
}

/// Returns how many members two sets without a common member have together, or 0 if the streams of
/// two operations do not agree.
fn members_of_both<'a>(set: &HeapSet<'a>, other: &HeapSet<'a>) -> u64 {
    let union = set.ranges().union(other.ranges()).members_len();
    let apart = set
        .ranges()
        .symmetric_difference(other.ranges())
        .members_len();
    let left = set.ranges().difference(other.ranges()).members_len();
    let right = other.ranges().difference(set.ranges()).members_len();
    let both = set.ranges().intersection(other.ranges()).members_len();
    if union != apart || union != left.saturating_add(right) || both != 0 {
        return 0;
    }
    union
}

/// Returns how many runs and gaps a set has.
fn pieces(set: &HeapSet<'_>) -> usize {
    let mut pieces = 0usize;
    for _ in set.ranges().fill_gaps() {
        pieces = pieces.saturating_add(1);
    }
    pieces
}

/// Returns how many values the gaps of a set have.
fn members_of_gaps(set: &HeapSet<'_>) -> u64 {
    set.ranges().complement().members_len()
}

/// Whether the runs and gaps of a set have every value, and alternate.
fn are_filled(set: &HeapSet<'_>) -> bool {
    let runs = set.ranges_len();
    members_of_gaps(set).saturating_add(set.len()) == 4_294_967_296
        && pieces(set) == runs.saturating_mul(2).saturating_add(1)
}

/// Whether the queries about streams of the runs of two sets with no common member are right.
fn are_asked<'a>(one: &HeapSet<'a>, other: &HeapSet<'a>) -> bool {
    let (left, right) = (one.is_empty(), other.is_empty());
    one.ranges().is_disjoint(other.ranges())
        && one.ranges().is_subset(other.ranges()) == left
        && one.ranges().is_superset(other.ranges()) == right
        && one.ranges().equal(other.ranges()) == (left && right)
        && DrawDisjoint::is_empty(one.ranges()) == left
        && !one.ranges().is_universal()
}

/// Whether the texts of a set, in other memory, are empty if and only if the set is.
fn is_written(alloc: Global, set: &HeapSet<'_>) -> bool {
    match format!(in alloc; "{set}{set:?}") {
        Ok(text) => text.is_empty() == set.is_empty(),
        Err(_) => false,
    }
}

/// Whether the runs between two bounds have the members there, and the gaps have the other values.
fn windows_come(set: &HeapSet<'_>) -> bool {
    let (mut members, mut others) = (0u64, 0u64);
    for run in set.ranges_in(2..=801) {
        let more = run.end().abs_diff(*run.start());
        members = members.saturating_add(u64::from(more)).saturating_add(1);
    }
    for gap in set.gaps_in(2..=801) {
        let more = gap.end().abs_diff(*gap.start());
        others = others.saturating_add(u64::from(more)).saturating_add(1);
    }
    members == set.len_in(2..=801) && members.saturating_add(others) == 800
}

/// Whether tests of the values between two bounds agree with the number of members there.
fn windows_are_asked(set: &HeapSet<'_>) -> bool {
    set.contains_range(16..=18) == (set.len_in(16..=18) == 3)
        && set.contains_range(16..=24) == (set.len_in(16..=24) == 9)
        && set.is_disjoint_range(3..=9) == (set.len_in(3..=9) == 0)
        && set.is_disjoint_range(3..=7) == (set.len_in(3..=7) == 0)
}

/// Whether gaps, runs and members are found by their lengths and numbers.
fn places_are_found(set: &HeapSet<'_>) -> bool {
    set.first_gap(5).is_some()
        && set.first_gap_from(801, 2_147_482_847).is_some()
        && set.first_run(2).is_some() == !set.is_empty()
        && set.nth(0) == set.first()
        && set.nth(set.len()).is_none()
        && set.rank(i32::MAX) == set.len()
}

/// Whether calls that read two sets with no common member return what they should.
fn reads<'a>(alloc: Global, reading: Reading, set: &HeapSet<'a>, other: &HeapSet<'a>) -> bool {
    match reading {
        Reading::LookUps => members_found(set) == set.len(),
        Reading::Whole => is_whole(set),
        Reading::Relations => are_apart(set, other),
        Reading::Comparisons => are_compared(set, other),
        Reading::Elements => elements_come(set),
        Reading::Ranges => ranges_come(set),
        Reading::Streams => {
            members_of_both(set, other) == set.len().saturating_add(other.len()) && are_filled(set)
        }
        Reading::Questions => are_asked(set, other),
        Reading::Text => is_written(alloc, set),
        Reading::Windows => windows_come(set) && windows_are_asked(set),
        Reading::Places => places_are_found(set),
    }
}

/// Whether a group of calls returns what it should without calling the allocator of the sets.
fn is_quiet<'a>(
    alloc: Global,
    reading: Reading,
    heap: &Heap,
    set: &HeapSet<'a>,
    other: &HeapSet<'a>,
) -> bool {
    let calls = heap.calls();
    reads(alloc, reading, set, other) && heap.calls() == calls
}

/// Returns how many of the readings of two sets pass without a call of their allocator, up to the
/// first that does not.
fn quiet_readings<'a>(alloc: Global, heap: &Heap, set: &HeapSet<'a>, other: &HeapSet<'a>) -> u8 {
    let mut quiet = 0u8;
    for reading in &READINGS {
        if !is_quiet(alloc, *reading, heap, set, other) {
            return quiet;
        }
        quiet = quiet.saturating_add(1);
    }
    quiet
}

/// Does the same with sets of the given numbers of runs.
fn quiet_at(alloc: Global, count: i32, others: i32) -> Result<u8, AllocError> {
    let heap = Counting::new(alloc);
    let cells = spaced(alloc, count, others)?;
    let set = set_in(&heap, &runs(alloc, &cells, Side::One)?)?;
    let other = set_in(&heap, &runs(alloc, &cells, Side::Other)?)?;
    Ok(quiet_readings(alloc, &heap, &set, &other))
}

/// The numbers of runs of the sets.
static COUNTS: [i32; 4] = [0, 1, 3, 100];

#[test]
fn what_reads_a_set_never_calls_its_allocator(rt: HostRuntime) -> Result<(), Fail> {
    for count in &COUNTS {
        for others in &COUNTS {
            let quiet = quiet_at(rt.alloc(), *count, *others)?;
            assert!(rt; quiet == 11, "{quiet} readings, {count} runs, {others}");
        }
    }
    Ok(())
}

/// Calls that change a set or take it by value, and never allocate.
#[derive(Clone, Copy)]
enum Freeing {
    PopLast,
    RangesRetain,
    Clear,
    Elements,
    LastElement,
    Ranges,
    LastRange,
    New,
    Taken,
    MadeWith,
}

/// All of them.
static FREEINGS: [Freeing; 10] = [
    Freeing::PopLast,
    Freeing::RangesRetain,
    Freeing::Clear,
    Freeing::Elements,
    Freeing::LastElement,
    Freeing::Ranges,
    Freeing::LastRange,
    Freeing::New,
    Freeing::Taken,
    Freeing::MadeWith,
];

/// Whether the greatest member is popped as often as a set has members.
fn are_popped(set: HeapSet<'_>) -> bool {
    let mut set = set;
    let length = set.len();
    let mut popped = 0u64;
    for _ in 0..400u16 {
        popped = popped.saturating_add(u64::from(set.pop_last().is_some()));
    }
    popped == length && set.is_empty()
}

/// Whether a set is empty after a change.
fn keeps_none<'a>(heap: &'a Heap, change: Change, set: HeapSet<'a>) -> Result<bool, AllocError> {
    let mut set = set;
    let mut other = RangeSetBlaze::new(heap);
    carry_out(heap, change, &mut set, &mut other)?;
    Ok(set.is_empty())
}

/// Whether a set passed by value gives as many elements as it has.
fn gives_elements(set: HeapSet<'_>) -> bool {
    let length = set.len();
    elements_given_up(set) == length
}

/// Whether a set passed by value gives its last element, and drops the others.
fn gives_last_element(set: HeapSet<'_>) -> bool {
    let last = set.last();
    let mut elements = set.into_iter();
    elements.next_back() == last
}

/// Whether a set passed by value gives as many runs as it has.
fn gives_ranges(set: HeapSet<'_>) -> bool {
    let count = set.ranges_len();
    ranges_given_up(set) == count
}

/// Whether a set passed by value gives its last run, and drops the others.
fn gives_last_range(set: HeapSet<'_>) -> bool {
    let is_empty = set.is_empty();
    let mut ranges = set.into_ranges();
    ranges.next_back().is_none() == is_empty
}

/// Whether a set is taken out of its place, and leaves the empty set there.
fn is_taken(set: HeapSet<'_>) -> Result<bool, AllocError> {
    let mut set = set;
    let length = set.len();
    let taken = mem::try_take(&mut set)?;
    Ok(set.is_empty() && taken.len() == length)
}

/// Whether the set that a map makes for a key that it lacks is empty.
fn is_made_empty(heap: &Heap) -> bool {
    let set: HeapSet<'_> = MadeWith::made_with(heap);
    set.is_empty()
}

/// Whether a call that changes a set or takes it by value returns what it should.
fn frees<'a>(freeing: Freeing, heap: &'a Heap, set: HeapSet<'a>) -> Result<bool, AllocError> {
    match freeing {
        Freeing::PopLast => Ok(are_popped(set)),
        Freeing::RangesRetain => keeps_none(heap, Change::RangesRetain(1, 0), set),
        Freeing::Clear => keeps_none(heap, Change::Clear, set),
        Freeing::Elements => Ok(gives_elements(set)),
        Freeing::LastElement => Ok(gives_last_element(set)),
        Freeing::Ranges => Ok(gives_ranges(set)),
        Freeing::LastRange => Ok(gives_last_range(set)),
        Freeing::New => Ok(
            RangeSetBlaze::<i32, &Heap>::new(heap) == RangeSetBlaze::<i32, &Heap>::default(heap),
        ),
        Freeing::Taken => is_taken(set),
        Freeing::MadeWith => Ok(is_made_empty(heap)),
    }
}

/// Whether such a call on a set of the given number of runs never allocates, and keeps no memory.
fn only_frees(alloc: Global, freeing: Freeing, count: i32) -> Result<bool, AllocError> {
    let heap = Counting::new(alloc);
    let cells = spaced(alloc, count, 0)?;
    let set = set_in(&heap, &runs(alloc, &cells, Side::One)?)?;
    let allocations = heap.allocations();
    let is_right = frees(freeing, &heap, set)?;
    Ok(is_right && heap.allocations() == allocations && heap.bytes() == 0)
}

#[test]
fn what_empties_a_set_or_gives_it_up_only_frees(rt: HostRuntime) {
    for count in &COUNTS {
        let mut passed = 0u8;
        for freeing in &FREEINGS {
            let is_right = only_frees(rt.alloc(), *freeing, *count);
            assert!(rt; is_right == Ok(true), "after {passed} calls, {count} runs");
            passed = passed.saturating_add(1);
        }
    }
}

/// Returns the set of every second value below 200,000, which has a hundred thousand runs.
fn hundred_thousand(heap: &Heap) -> Result<HeapSet<'_>, AllocError> {
    RangeSetBlaze::from_iter_values(heap, (0..=199_998).step_by(2))
}

/// Returns how many calls of the allocator a change makes that adds three runs to a set of a
/// hundred thousand runs. Two of the three join others. Returns `None` if the set is not what it
/// should be.
fn calls_to_add(heap: &Heap, change: Change) -> Result<Option<usize>, AllocError> {
    let mut set = hundred_thousand(heap)?;
    let mut few = set_in(heap, &[(1, 1), (99_999, 99_999), (300_000, 300_004)])?;
    let calls = heap.calls();
    carry_out(heap, change, &mut set, &mut few)?;
    let made = heap.calls().saturating_sub(calls);
    Ok((set.ranges_len() == 99_999 && set.len() == 100_007).then_some(made))
}

/// Changes that add a set.
static ADDING: [Change; 3] = [
    Change::Append,
    Change::BitorAssign,
    Change::BitorAssignOwned,
];

#[test]
fn few_runs_are_added_to_many_in_few_allocations(rt: HostRuntime) -> Result<(), Fail> {
    for change in &ADDING {
        let heap = Counting::new(rt.alloc());
        let calls = calls_to_add(&heap, *change)?;
        assert!(rt; calls.unwrap_or(usize::MAX) < 12, "{calls:?}");
    }
    Ok(())
}
