//! Up to 120,000 streams and 20,000 sets, each of one value, and two sets of 70,000 runs. No call
//! fails because of its size.

ghost use Rattle.std.specs.Prelude.{All, IfOk};

use crate::many::sets::lent;
use range_set_blaze::RangeSetBlaze;
use rsb_integer::Integer;
use rsb_many::{KMerge, MultiwaySweep, SweepEvent};
use rsb_streams::{Draw, RangeOnce, UnionIter};
use std::alloc::{AllocError, Global};
use std::test::Fail;
use test_support::{Form, every_fifth, form_gives, gives, of_lent, of_sets};

/// Returns each range as a stream.
pub(crate) fn singles<T: Integer>(
    alloc: Global,
    ends: &[(T, T)],
) -> Result<Vec<RangeOnce<T>>, AllocError>
    ensures { IfOk result (λ streams. All ⟦<RangeOnce<T> as Draw<T>>⟧.can_draw streams.items) }
{
    let mut streams = Vec::new(alloc);
    for (start, end) in ends {
        streams.push(RangeOnce::new(*start..=*end))?;
    }
    Ok(streams)
}

/// Returns the given number of streams, each with only its own number.
fn numbers(alloc: Global, count: i32) -> Result<Vec<RangeOnce<i32>>, AllocError>
    ensures { IfOk result (λ streams. All ⟦<RangeOnce<i32> as Draw<i32>>⟧.can_draw streams.items) }
{
    let ends = (0..count)
        .map(|number| (number, number))
        .collect::<Vec<(i32, i32)>>(alloc)?;
    singles(alloc, &ends)
}

/// Whether the union and the symmetric difference of the given number of streams are one run of all
/// numbers.
fn are_one_run(alloc: Global, count: i32, run: (i32, i32)) -> Result<bool, AllocError> {
    Ok(
        form_gives(alloc, Form::Some, numbers(alloc, count)?, &[run])?
            && form_gives(alloc, Form::Odd, numbers(alloc, count)?, &[run])?,
    )
}

/// Whether a form of 20,000 streams, each with only 7, has only 7.
fn share_seven(alloc: Global, form: Form) -> Result<bool, AllocError> {
    form_gives(alloc, form, singles(alloc, &[(7, 7); 20_000])?, &[(7, 7)])
}

/// The number of streams of the largest rows.
const MOST: i32 = 120_000;

/// Whether a form of that many streams, each with only 7, has only 7.
fn most_share_seven(alloc: Global, form: Form) -> Result<bool, AllocError> {
    let ends = (0..MOST).map(|_| (7, 7)).collect::<Vec<(i32, i32)>>(alloc)?;
    form_gives(alloc, form, singles(alloc, &ends)?, &[(7, 7)])
}

/// Whether a merge of the given number of streams, joined, is one run of all numbers.
fn are_merged(alloc: Global, count: i32, run: (i32, i32)) -> Result<bool, AllocError> {
    let merged = KMerge::new(alloc, numbers(alloc, count)?)?;
    Ok(gives(UnionIter::new(merged), &[run]))
}

#[test]
fn a_thousand_single_values_are_one_run(rt: HostRuntime) -> Result<(), Fail> {
    let alloc = rt.alloc();
    assert!(rt; are_one_run(alloc, 1000, (0, 999))?);
    assert!(rt; are_one_run(alloc, 20_000, (0, 19_999))?);
    assert!(rt; are_merged(alloc, 20_000, (0, 19_999))?);
    assert!(rt; share_seven(alloc, Form::All)? && share_seven(alloc, Form::AtLeast(20_000))?);
    Ok(())
}

#[test]
fn unions_and_merges_of_a_hundred_and_twenty_thousand_streams(rt: HostRuntime) -> Result<(), Fail> {
    assert!(rt; are_one_run(rt.alloc(), MOST, (0, 119_999))?);
    assert!(rt; are_merged(rt.alloc(), MOST, (0, 119_999))?);
    Ok(())
}

#[test]
fn what_a_hundred_and_twenty_thousand_streams_share(rt: HostRuntime) -> Result<(), Fail> {
    assert!(rt; most_share_seven(rt.alloc(), Form::All)?);
    assert!(rt; most_share_seven(rt.alloc(), Form::AtLeast(120_000))?);
    Ok(())
}

/// Whether single values start and end alternately in a sweep.
fn start_and_end_in_turn(alloc: Global, count: i32) -> Result<bool, AllocError> {
    let mut events = Vec::new(alloc);
    let mut input = 0usize;
    for value in 0..count {
        let range = value..=value;
        events.push(SweepEvent::Start { range, input })?;
        events.push(SweepEvent::End { at: value, input })?;
        input = input.saturating_add(1);
    }
    let sweep = MultiwaySweep::new(alloc, numbers(alloc, count)?)?;
    Ok(sweep.eq(events))
}

#[test]
fn a_thousand_single_values_start_and_end_in_turn(rt: HostRuntime) -> Result<(), Fail> {
    assert!(rt; start_and_end_in_turn(rt.alloc(), 1000)?);
    assert!(rt; start_and_end_in_turn(rt.alloc(), 20_000)?);
    Ok(())
}

#[test]
fn a_hundred_and_twenty_thousand_single_values_start_and_end_in_turn(
    rt: HostRuntime,
) -> Result<(), Fail> {
    assert!(rt; start_and_end_in_turn(rt.alloc(), MOST)?);
    Ok(())
}

#[test]
fn twenty_thousand_sets_make_one(rt: HostRuntime) -> Result<(), Fail> {
    let alloc = rt.alloc();
    let mut sets = Vec::new(alloc);
    for value in 0..20_000i32 {
        sets.push(RangeSetBlaze::from(alloc, value..=value)?)?;
    }
    let all = of_lent(alloc, Form::Some, lent(alloc, &sets)?)?;
    assert!(rt; gives(all.ranges(), &[(0, 19_999)]));
    assert!(rt; of_sets(alloc, Form::Odd, sets)? == all);
    Ok(())
}

/// A form of two sets, the first three and the middle three of each five values: how many runs and
/// how many members it has.
static OF_TWO: [Row; 4] = [
    (Form::Some, 70_000, 280_000),
    (Form::All, 70_000, 140_000),
    (Form::Odd, 140_000, 140_000),
    (Form::AtLeast(2), 70_000, 140_000),
];

/// A form, its number of runs, and its number of members.
type Row = (Form, usize, u64);

/// Whether a form of two sets by reference has these numbers of runs and members.
fn lent_have(alloc: Global, sets: [&RangeSetBlaze<i32>; 2], row: &Row) -> Result<bool, AllocError> {
    let made = of_lent(alloc, row.0, Vec::from_array(alloc, sets)?)?;
    Ok(made.ranges_len() == row.1 && made.len() == row.2)
}

/// Whether a form of copies of two sets, by value, has these numbers of runs and members.
fn given_up_have(
    alloc: Global,
    sets: [&RangeSetBlaze<i32>; 2],
    row: &Row,
) -> Result<bool, AllocError> {
    let copies = [sets[0].clone()?, sets[1].clone()?];
    let made = of_sets(alloc, row.0, Vec::from_array(alloc, copies)?)?;
    Ok(made.ranges_len() == row.1 && made.len() == row.2)
}

#[test]
fn two_sets_of_seventy_thousand_runs_make_one(rt: HostRuntime) -> Result<(), Fail> {
    let alloc = rt.alloc();
    let (first, middle) = (every_fifth(alloc, 0, 2)?, every_fifth(alloc, 1, 2)?);
    for row in &OF_TWO {
        let sets = [&first, &middle];
        assert!(rt; lent_have(alloc, sets, row)? && given_up_have(alloc, sets, row)?);
    }
    Ok(())
}
