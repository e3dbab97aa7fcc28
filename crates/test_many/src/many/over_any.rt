//! Callers over any streams and any element type: lists that a loop fills, what lemmas tell of a
//! list and of a loop, and a loop over a stream that another function returned by its type.

ghost use Rattle.std.specs.Prelude.{All, IfOk, IfSome};
ghost use Rattle.rsb_integer.specs.Rank.{interval_of};
ghost use Rattle.rsb_integer.specs.Runs.{members, IsMaximalRun};
ghost use Rattle.rsb_integer.specs.Selection.{any_of};
ghost use Rattle.rsb_many.specs.MultiwayResults.{GivesByAll};

use range_set_blaze::{IntoRangeSetBlaze, RangeSetBlaze, RangesIter};
use rsb_integer::Integer;
use rsb_many::{MultiwaySortedDisjoint, MultiwayUnion, Streams};
use rsb_streams::{Difference, Draw, DrawDisjoint, RangeOnce, SortedDisjoint};
use std::alloc::{AllocError, Global};
use std::ops::RangeInclusive;
use std::test::Fail;
use test_support::{Table, gives, set_of, stream_of};

/// Returns the set of what lies in some of the streams of a list, by way of a loop.
fn in_some<T: Integer, I: SortedDisjoint<T>>(
    alloc: Global,
    list: Vec<I>,
) -> Result<RangeSetBlaze<T>, AllocError>
    requires { All I.can_draw list.items }
{
    let mut streams = Streams::new(alloc);
    for stream in list {
        streams.push(stream)?;
    }
    streams.union(alloc)?.into_range_set_blaze(alloc)
}

/// Returns the union of streams, of which the lemma `given-streams` tells what it gives.
fn union_of<T: Integer, I: DrawDisjoint<T>>(
    alloc: Global,
    streams: Streams<T, I>,
) -> Result<MultiwayUnion<T, I>, AllocError>
    ensures ready { IfOk result ⟦<MultiwayUnion<T, I> as Draw<T>>⟧.can_draw }
    ensures gives { IfOk result (λ union. GivesByAll any_of T.value_count I.may_give streams
        (⟦<MultiwayUnion<T, I> as Draw<T>>⟧.may_give union)) }
{
    streams.union(alloc)
}

/// Returns the run of a set that starts at a value, or `None`. The lemma `given-run` tells that it
/// is a run.
fn run_from<T: Integer>(set: &RangeSetBlaze<T>, start: T) -> Option<RangeInclusive<T>>
    ensures { IfSome result (λ run.
        IsMaximalRun T.value_count (members set.now) (interval_of T.rank run)) }
{
    for range in set.ranges() {
        if *range.start() == start {
            return Some(range);
        }
    }
    None
}

/// Returns what a range has and a set lacks.
fn lacking<'a, T: Integer>(
    set: &'a RangeSetBlaze<T>,
    range: RangeInclusive<T>,
) -> Difference<T, RangeOnce<T>, RangesIter<'a, T>>
    ensures { ⟦<Difference<T, RangeOnce<T>, RangesIter<'a, T>> as Draw<T>>⟧.can_draw result }
{
    RangeOnce::new(range).difference(set.ranges())
}

/// Returns how many ranges of a range of numbers a set lacks, by a loop over what a generic
/// function returned.
fn lacking_count(set: &RangeSetBlaze<i32>, range: RangeInclusive<i32>) -> usize {
    let mut count = 0usize;
    for _ in lacking(set, range) {
        count = count.saturating_add(1);
    }
    count
}

/// Returns how many ranges of a range a set lacks, at any element type without references.
fn lacking_any<T: Integer + 'static>(set: &RangeSetBlaze<T>, range: RangeInclusive<T>) -> usize {
    let mut count = 0usize;
    for _ in lacking(set, range) {
        count = count.saturating_add(1);
    }
    count
}

/// Two sets, the second of which touches no run of the first.
static ONE: Table<'static> = &[(1, 6), (8, 9), (11, 15)];

static OTHER: Table<'static> = &[(20, 29)];

#[test]
fn streams_that_a_loop_took_from_a_list_are_united(rt: HostRuntime) -> Result<(), Fail> {
    let alloc = rt.alloc();
    let list = Vec::from_array(alloc, [RangeOnce::new(7u8..=9), RangeOnce::new(1..=6)])?;
    assert!(rt; gives(in_some(alloc, list)?.ranges(), &[(1, 9)]));
    let mut streams = Streams::new(alloc);
    streams.push(stream_of(&[(1, 6), (8, 9)]))?;
    streams.push(stream_of(&[(7, 7)]))?;
    assert!(rt; gives(union_of(alloc, streams)?, &[(1, 9)]));
    Ok(())
}

#[test]
fn a_run_is_found_by_its_start(rt: HostRuntime) -> Result<(), Fail> {
    let set = set_of(rt.alloc(), ONE)?;
    assert!(rt; run_from(&set, 8) == Some(8..=9) && run_from(&set, 9).is_none());
    Ok(())
}

#[test]
fn a_loop_takes_what_a_function_returned(rt: HostRuntime) -> Result<(), Fail> {
    let set = set_of(rt.alloc(), ONE)?;
    assert!(rt; gives(lacking(&set, 5..=12), &[(7, 7), (10, 10)]));
    assert!(rt; lacking_count(&set, 5..=12) == 2 && lacking_count(&set, 8..=9) == 0);
    assert!(rt; lacking_count(&set_of(rt.alloc(), OTHER)?, 5..=12) == 1);
    assert!(rt; lacking_any(&set, 5..=12) == 2 && lacking_any(&set, 8..=9) == 0);
    Ok(())
}
