//! What rows worked by hand share: comparisons of a set with a table of its runs.

use crate::set::calls::{Answer, Change, Making, carry_out, make};
use range_set_blaze::RangeSetBlaze;
use std::alloc::{AllocError, Allocator, Global};
use test_support::{Table, gives, has, set_of};

/// A set and another beside it: what a change starts from, or what it leaves.
pub(crate) type Pair<'a> = (Table<'a>, Table<'a>);

/// Whether a change of two sets returns this, and leaves those of two tables.
fn comes_to(
    alloc: Global,
    call: Change,
    set: &mut RangeSetBlaze<i32>,
    other: &mut RangeSetBlaze<i32>,
    wanted: (Answer, Pair<'_>),
) -> Result<bool, AllocError> {
    let (answer, after) = wanted;
    let told = carry_out(alloc, call, set, other)?;
    Ok(told.is(answer) && has(set, after.0) && has(other, after.1))
}

/// Whether a change of the first of two sets returns this, and leaves these two.
pub(crate) fn changes(
    alloc: Global,
    call: Change,
    before: Pair<'_>,
    answer: Answer,
    after: Pair<'_>,
) -> Result<bool, AllocError> {
    let mut set = set_of(alloc, before.0)?;
    let mut other = set_of(alloc, before.1)?;
    comes_to(alloc, call, &mut set, &mut other, (answer, after))
}

/// Whether a making from the sets of two tables gives the set of another.
pub(crate) fn makes_of_two(
    alloc: Global,
    making: Making,
    left: Table<'_>,
    right: Table<'_>,
    wanted: Table<'_>,
) -> Result<bool, AllocError> {
    let left = set_of(alloc, left)?;
    let right = set_of(alloc, right)?;
    let set = make(alloc, making, &left, &right)?;
    Ok(has(&set, wanted))
}

/// Whether a set of bytes is the run with these ends.
pub(crate) fn is_byte_run(set: &RangeSetBlaze<u8>, start: u8, end: u8) -> bool {
    let length = u16::from(end.abs_diff(start)) + 1;
    set.range_at(start) == Some(start..=end) && set.len() == length && set.ranges_len() == 1
}

/// Returns the number of elements that a loop over a set gives.
pub(crate) fn elements_given<A: Allocator>(set: &RangeSetBlaze<i32, A>) -> u64 {
    let mut given = 0u64;
    for _ in set.iter() {
        given = given.saturating_add(1);
    }
    given
}

/// Returns the number of elements that a set gives, from the last to the first.
pub(crate) fn elements_given_back<A: Allocator>(set: &RangeSetBlaze<i32, A>) -> u64 {
    let mut given = 0u64;
    for _ in set.iter().rev() {
        given = given.saturating_add(1);
    }
    given
}

/// Returns the number of runs that a set gives.
pub(crate) fn ranges_given<A: Allocator>(set: &RangeSetBlaze<i32, A>) -> usize {
    let mut given = 0usize;
    for _ in set.ranges() {
        given = given.saturating_add(1);
    }
    given
}

/// Returns the number of elements that a set passed by value gives.
pub(crate) fn elements_given_up<A: Allocator>(set: RangeSetBlaze<i32, A>) -> u64 {
    let mut given = 0u64;
    for _ in set {
        given = given.saturating_add(1);
    }
    given
}

/// Returns the number of runs that a set passed by value gives.
pub(crate) fn ranges_given_up<A: Allocator>(set: RangeSetBlaze<i32, A>) -> usize {
    let mut given = 0usize;
    for _ in set.into_ranges() {
        given = given.saturating_add(1);
    }
    given
}
