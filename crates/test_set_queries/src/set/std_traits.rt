//! Sets as a Rust user writes them: operators, copies, `collect` and `Extend`.

ghost use Rattle.std.specs.Prelude.{IfOk, OnOk};
ghost use Rattle.rsb_integer.specs.Runs.{members};
ghost use Rattle.rsb_integer.specs.Selection.{
  difference,
  intersection,
  symmetric_difference,
  union,
};
ghost use Rattle.range_set_blaze.specs.Algebra.{ranks_of, AddsItems, AddsValues, IsSetOfItems};
ghost use Rattle.range_set_blaze.specs.Set.{IsSetOf};

use range_set_blaze::{Integer, RangeSetBlaze};
use std::alloc::{AllocError, Allocator, Global};
use std::ops::RangeInclusive;
use std::test::*;
use test_support::gives;

/// Returns the union of two sets, by a copy of one.
fn either<T: Integer, A: Allocator + Copy>(
    left: &RangeSetBlaze<T, A>,
    right: &RangeSetBlaze<T, A>,
) -> Result<RangeSetBlaze<T, A>, AllocError>
    ensures { IfOk result (λ set. IsSetOf set (union (members left.now) (members right.now))) }
{
    let copy = left.clone()?;
    &copy | right
}

/// Returns the intersection of two sets.
fn both<T: Integer, A: Allocator + Copy>(
    left: &RangeSetBlaze<T, A>,
    right: &RangeSetBlaze<T, A>,
) -> Result<RangeSetBlaze<T, A>, AllocError>
    ensures { IfOk result (λ set.
        IsSetOf set (intersection (members left.now) (members right.now))) }
{
    left & right
}

/// Returns the difference of two sets.
fn rest<T: Integer, A: Allocator + Copy>(
    left: &RangeSetBlaze<T, A>,
    right: &RangeSetBlaze<T, A>,
) -> Result<RangeSetBlaze<T, A>, AllocError>
    ensures { IfOk result (λ set.
        IsSetOf set (difference (members left.now) (members right.now))) }
{
    left - right
}

/// Returns the symmetric difference of two sets.
fn alone<T: Integer, A: Allocator + Copy>(
    left: &RangeSetBlaze<T, A>,
    right: &RangeSetBlaze<T, A>,
) -> Result<RangeSetBlaze<T, A>, AllocError>
    ensures { IfOk result (λ set.
        IsSetOf set (symmetric_difference (members left.now) (members right.now))) }
{
    left ^ right
}

/// Returns the set of the values of a list.
fn of_list<T: Integer>(alloc: Global, values: Vec<T>) -> Result<RangeSetBlaze<T>, AllocError>
    ensures { IfOk result (λ set. IsSetOf set (ranks_of T.rank values.items)) }
{
    values.into_iter().collect(alloc)
}

/// Returns the set of the values of a slice.
fn of_slice<T: Integer>(alloc: Global, values: &[T]) -> Result<RangeSetBlaze<T>, AllocError>
    ensures { IfOk result (λ set. IsSetOf set (ranks_of T.rank values.now)) }
{
    values.iter().copied().collect(alloc)
}

/// Returns the set of the ranges of a list.
fn of_ranges<T: Integer>(
    alloc: Global,
    ranges: Vec<RangeInclusive<T>>,
) -> Result<RangeSetBlaze<T>, AllocError>
    ensures { IfOk result (IsSetOfItems T.rank ranges.items) }
{
    ranges.into_iter().collect(alloc)
}

/// Adds the ranges of a list.
fn add_ranges<T: Integer>(
    set: &mut RangeSetBlaze<T>,
    ranges: Vec<RangeInclusive<T>>,
) -> Result<(), AllocError>
    ensures { OnOk result (AddsItems T.rank set.old ranges.items set.new) }
{
    Extend::extend(set, ranges)
}

/// Returns the set of the ranges with these ends.
fn of_ends<T: Integer>(alloc: Global, ends: &[(T, T)]) -> Result<RangeSetBlaze<T>, AllocError> {
    ends.iter().map(|(start, end)| *start..=*end).collect(alloc)
}

/// Adds the values of a slice.
fn add_slice<T: Integer>(set: &mut RangeSetBlaze<T>, values: &[T]) -> Result<(), AllocError>
    ensures { OnOk result (AddsValues T.rank set.old values.now set.new) }
{
    Extend::extend(set, values.iter().copied())
}

/// The ranges with these ends.
type Ends<T> = &'static [(T, T)];

/// Two sets, their union, intersection, difference and symmetric difference, and the complement of
/// the first.
struct Row<T: 'static> {
    left: Ends<T>,
    right: Ends<T>,
    either: Ends<T>,
    both: Ends<T>,
    rest: Ends<T>,
    alone: Ends<T>,
    lacking: Ends<T>,
}

static BYTES: Row<u8> = Row {
    left: &[(1, 3), (7, 255)],
    right: &[(0, 0), (9, 20)],
    either: &[(0, 3), (7, 255)],
    both: &[(9, 20)],
    rest: &[(1, 3), (7, 8), (21, 255)],
    alone: &[(0, 3), (7, 8), (21, 255)],
    lacking: &[(0, 0), (4, 6)],
};

static LETTERS: Row<char> = Row {
    left: &[('a', 'f'), ('\u{D7FF}', '\u{D7FF}')],
    right: &[('d', 'd'), ('\u{E000}', char::MAX)],
    either: &[('a', 'f'), ('\u{D7FF}', char::MAX)],
    both: &[('d', 'd')],
    rest: &[('a', 'c'), ('e', 'f'), ('\u{D7FF}', '\u{D7FF}')],
    alone: &[('a', 'c'), ('e', 'f'), ('\u{D7FF}', char::MAX)],
    lacking: &[('\0', '`'), ('g', '\u{D7FE}'), ('\u{E000}', char::MAX)],
};

/// Whether a set was made and has these runs.
fn is_made<T: Integer>(made: Result<RangeSetBlaze<T>, AllocError>, wanted: &[(T, T)]) -> bool {
    match made {
        Ok(set) => gives(set.ranges(), wanted),
        Err(_) => false,
    }
}

/// Whether the operators on two sets give what a row states.
fn make_of<T: Integer + 'static>(
    left: &RangeSetBlaze<T>,
    right: &RangeSetBlaze<T>,
    row: &Row<T>,
) -> bool {
    is_made(either(left, right), row.either)
        && is_made(both(left, right), row.both)
        && is_made(rest(left, right), row.rest)
        && is_made(alone(left, right), row.alone)
        && is_made(!left, row.lacking)
}

/// Whether the operators on the sets of a row give what it states.
fn operators_make<T: Integer + 'static>(alloc: Global, row: &Row<T>) -> Result<bool, AllocError> {
    let left = of_ends(alloc, row.left)?;
    let right = of_ends(alloc, row.right)?;
    Ok(make_of(&left, &right, row))
}

#[test]
fn operators_make_sets(rt: HostRuntime) -> Result<(), Fail> {
    assert!(rt; operators_make(rt.alloc(), &BYTES)? && operators_make(rt.alloc(), &LETTERS)?);
    Ok(())
}

/// Whether the set of some values, with more added, has these runs, and this greatest member.
fn collects<T: Integer>(
    alloc: Global,
    values: &[T],
    more: &[T],
    wanted: &[(T, T)],
    greatest: T,
) -> Result<bool, AllocError> {
    let mut set = of_slice(alloc, values)?;
    add_slice(&mut set, more)?;
    Ok(gives(set.ranges(), wanted) && set.last() == Some(greatest))
}

#[test]
fn values_are_collected_and_added(rt: HostRuntime) -> Result<(), Fail> {
    let alloc = rt.alloc();
    assert!(rt;
        collects(
            alloc,
            &[3, 1, 255, 3],
            &[0, 2_u8],
            &[(0, 3), (255, 255)],
            255
        )?
    );
    assert!(rt;
        collects(
            alloc,
            &['\u{E000}', 'a'],
            &['\u{D7FF}'],
            &[('a', 'a'), ('\u{D7FF}', '\u{E000}')],
            '\u{E000}'
        )?
    );
    Ok(())
}

/// Whether a set of numbers has these runs, and its members come from the back.
fn numbers_come(set: &RangeSetBlaze<i32>) -> bool {
    gives(set.ranges(), &[(1, 2), (4, 4)]) && set.iter().rev().eq([4, 2, 1])
}

/// Whether the values of a list are collected.
fn a_list_is_collected(alloc: Global) -> Result<bool, AllocError> {
    let set = of_list(alloc, Vec::from_array(alloc, [4, 1, 4, 2])?)?;
    Ok(numbers_come(&set))
}

/// Whether an array of ranges is added to the values of a list.
fn an_array_is_added(alloc: Global) -> Result<bool, AllocError> {
    let mut set = of_slice(alloc, &[4, 1, 4, 2])?;
    Extend::extend(&mut set, [8..=9, 3..=1, -1..=1])?;
    Ok(gives(set.ranges(), &[(-1, 2), (4, 4), (8, 9)]))
}

/// Whether the ranges of two lists are collected and added.
fn lists_of_ranges_are_collected(alloc: Global) -> Result<bool, AllocError> {
    let mut letters = of_ranges(alloc, Vec::from_array(alloc, ['c'..='d', 'b'..='a'])?)?;
    add_ranges(&mut letters, Vec::from_array(alloc, ['a'..='a'])?)?;
    Ok(gives(letters.ranges(), &[('a', 'a'), ('c', 'd')]))
}

#[test]
fn lists_and_ranges_are_collected_and_added(rt: HostRuntime) -> Result<(), Fail> {
    let alloc = rt.alloc();
    assert!(rt;
        a_list_is_collected(alloc)?
            && an_array_is_added(alloc)?
            && lists_of_ranges_are_collected(alloc)?
    );
    Ok(())
}

#[test]
fn a_list_of_sets_is_copied(rt: HostRuntime) -> Result<(), Fail> {
    let alloc = rt.alloc();
    let mut sets = Vec::new(alloc);
    sets.push(of_ends(alloc, &[(1_u8, 2), (7, 255)])?)?;
    let copies = sets.clone()?;
    assert!(rt; copies.len() == 1 && copies.first() == sets.first());
    Ok(())
}

/// Whether the operators are right for two disjoint sets of twenty thousand values.
fn are_halves(even: &RangeSetBlaze<i32>, odd: &RangeSetBlaze<i32>) -> Result<bool, AllocError> {
    Ok(
        (even | odd)?.ranges_len() == 1
            && (even & odd)?.is_empty()
            && (even ^ odd)?.len() == 40_000
            && even.clone()? == *even,
    )
}

#[test]
fn tens_of_thousands_are_collected(rt: HostRuntime) -> Result<(), Fail> {
    let alloc = rt.alloc();
    let even: RangeSetBlaze<i32> = (0..20_000)
        .map(|half| i32::saturating_mul(half, 2))
        .collect(alloc)?;
    assert!(rt; even.ranges_len() == 20_000);
    let odd = (&RangeSetBlaze::from(alloc, 0..=39_999)? - &even)?;
    assert!(rt; are_halves(&even, &odd)?);
    Ok(())
}
