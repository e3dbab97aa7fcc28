//! What is built from the runs of three sets, in an allocator that counts its calls. No `next`
//! calls the allocator, and nothing leaks. A stream is quiet if no `next` of it calls the
//! allocator.

ghost use Rattle.std.specs.Prelude.{All, IfOk};

use range_set_blaze::RangeSetBlaze;
use rsb_many::{
    DynSortedDisjoint, KMerge, MultiwaySortedDisjoint, MultiwaySweep, MultiwaySymmetricDifference,
    intersection_dyn, symmetric_difference_dyn, union_dyn,
};
use rsb_streams::{CheckSortedTouching, Draw, DrawDisjoint, SortedTouching};
use std::alloc::{AllocError, Allocator, Global};
use std::ops::RangeInclusive;
use std::test::Fail;
use std::vec::IntoIter;
use test_support::Counting;

/// A set in the system's allocator.
type Set = RangeSetBlaze<i32>;

/// An allocator that counts its calls.
type Heap = Counting<Global>;

/// What is built from three streams.
#[derive(Clone, Copy, Debug)]
enum Built {
    Merge,
    Sweep,
    Union,
    Intersection,
    SymmetricDifference,
    AtLeast,
    /// From streams whose ranges may touch, like the next one.
    TouchingSweep,
    TouchingDifference,
    /// From all ranges of a stream, which are collected first, like the next three.
    AnyType,
    DynUnion,
    DynIntersection,
    DynSymmetricDifference,
}

/// Everything that is built.
static ALL: [Built; 12] = [
    Built::Merge,
    Built::Sweep,
    Built::Union,
    Built::Intersection,
    Built::SymmetricDifference,
    Built::AtLeast,
    Built::TouchingSweep,
    Built::TouchingDifference,
    Built::AnyType,
    Built::DynUnion,
    Built::DynIntersection,
    Built::DynSymmetricDifference,
];

/// Whether no `next` of a stream calls the allocator, in at most `draws` calls.
fn draws_quietly<I: Draw<i32>>(heap: &Heap, stream: I, draws: usize) -> bool
    requires { I.can_draw stream }
{
    let mut stream = stream;
    let before = heap.calls();
    for _ in 0..draws {
        if stream.draw().is_none() {
            break;
        }
    }
    heap.calls() == before
}

/// Whether no `next` of a sweep calls the allocator, in at most `draws` calls.
fn sweeps_quietly<I: Draw<i32>, A: Allocator>(
    heap: &Heap,
    sweep: MultiwaySweep<i32, I, A>,
    draws: usize,
) -> bool
    requires { ⟦<MultiwaySweep<i32, I, A> as Iterator>⟧.can_next sweep }
{
    let mut sweep = sweep;
    let before = heap.calls();
    for _ in 0..draws {
        if sweep.next().is_none() {
            break;
        }
    }
    heap.calls() == before
}

/// Whether what is built from streams of one type is quiet.
fn streams_are_quiet<I: DrawDisjoint<i32>>(
    heap: &Heap,
    built: Built,
    streams: Vec<I>,
    draws: usize,
) -> Result<bool, AllocError>
    requires { All I.can_draw streams.items }
{
    match built {
        Built::Merge => Ok(draws_quietly(heap, KMerge::new(heap, streams)?, draws)),
        Built::Sweep => Ok(sweeps_quietly(heap, MultiwaySweep::new(heap, streams)?, draws)),
        Built::Intersection => Ok(draws_quietly(heap, streams.intersection(heap)?, draws)),
        Built::SymmetricDifference => {
            Ok(draws_quietly(heap, streams.symmetric_difference(heap)?, draws))
        }
        Built::AtLeast => Ok(draws_quietly(heap, streams.at_least(heap, 2)?, draws)),
        _ => Ok(draws_quietly(heap, streams.union(heap)?, draws)),
    }
}

/// Whether what is built from streams whose ranges may touch is quiet.
fn touching_are_quiet<I: SortedTouching<i32>>(
    heap: &Heap,
    built: Built,
    streams: Vec<I>,
    draws: usize,
) -> Result<bool, AllocError>
    requires { All I.can_draw streams.items }
{
    if matches!(built, Built::TouchingSweep) {
        let sweep = MultiwaySweep::new_touching(heap, streams)?;
        return Ok(sweeps_quietly(heap, sweep, draws));
    }
    let odd = MultiwaySymmetricDifference::new_touching(heap, streams)?;
    Ok(draws_quietly(heap, odd, draws))
}

/// Whether what is built from the collected ranges of three streams is quiet.
fn taken_are_quiet<I: DrawDisjoint<i32>>(
    heap: &Heap,
    built: Built,
    one: I,
    other: I,
    third: I,
    draws: usize,
) -> Result<bool, AllocError>
    requires { (I.can_draw one) × (I.can_draw other) × (I.can_draw third) }
{
    match built {
        Built::AnyType => Ok(draws_quietly(heap, DynSortedDisjoint::new(heap, one)?, draws)),
        Built::DynIntersection => {
            Ok(draws_quietly(heap, intersection_dyn!(heap, one, other, third)?, draws))
        }
        Built::DynSymmetricDifference => {
            Ok(draws_quietly(
                heap,
                symmetric_difference_dyn!(heap, one, other, third)?,
                draws,
            ))
        }
        _ => Ok(draws_quietly(heap, union_dyn!(heap, one, other, third)?, draws)),
    }
}

/// Ranges in the system's allocator, which may touch.
type Touching = CheckSortedTouching<i32, IntoIter<RangeInclusive<i32>>>;

/// Adds the runs of a set, in the system's allocator, to streams whose ranges may touch.
fn add_touching(
    alloc: Global,
    set: &Set,
    streams: Vec<Touching>,
) -> Result<Vec<Touching>, AllocError>
    requires { All ⟦<Touching as Draw<i32>>⟧.can_draw streams.items }
    ensures { IfOk result (λ streams. All ⟦<Touching as Draw<i32>>⟧.can_draw streams.items) }
{
    let mut streams = streams;
    if let Ok(stream) = CheckSortedTouching::try_new(Vec::from_iter(alloc, set.ranges())?) {
        streams.push(stream)?;
    }
    Ok(streams)
}

/// Returns the runs of three sets, in the system's allocator, as streams whose ranges may touch.
fn touching(alloc: Global, sets: &[Set; 3]) -> Result<Vec<Touching>, AllocError>
    ensures { IfOk result (λ streams. All ⟦<Touching as Draw<i32>>⟧.can_draw streams.items) }
{
    let first = add_touching(alloc, &sets[0], Vec::new(alloc))?;
    let both = add_touching(alloc, &sets[1], first)?;
    add_touching(alloc, &sets[2], both)
}

/// Whether what is built from three sets is quiet.
fn is_quiet(
    alloc: Global,
    heap: &Heap,
    built: Built,
    sets: &[Set; 3],
    draws: usize,
) -> Result<bool, AllocError> {
    let (one, other, third) = (sets[0].ranges(), sets[1].ranges(), sets[2].ranges());
    match built {
        Built::TouchingSweep | Built::TouchingDifference => {
            touching_are_quiet(heap, built, touching(alloc, sets)?, draws)
        }
        Built::AnyType | Built::DynUnion | Built::DynIntersection | Built::DynSymmetricDifference =>
            taken_are_quiet(heap, built, one, other, third, draws),
        _ => streams_are_quiet(
            heap,
            built,
            Vec::from_array(alloc, [one, other, third])?,
            draws,
        ),
    }
}

/// Returns a set of the given number of runs of three values. Each starts five past the start of
/// the one before.
fn runs_from(alloc: Global, first: i32, runs: i32) -> Result<Set, AllocError> {
    let ranges = (0..runs).map(|place| {
        let start = first.saturating_add(place.saturating_mul(5));
        start..=start.saturating_add(2)
    });
    RangeSetBlaze::from_iter(alloc, ranges)
}

/// Returns three sets of the given number of runs, which overlap.
fn three_sets(alloc: Global, runs: i32) -> Result<[Set; 3], AllocError> {
    Ok([
        runs_from(alloc, 0, runs)?,
        runs_from(alloc, 1, runs)?,
        runs_from(alloc, 2, runs)?,
    ])
}

/// How many runs the sets of a row have.
static RUNS: [i32; 4] = [0, 1, 3, 100];

/// How many ranges are drawn before the stream is dropped.
static DRAWS: [usize; 3] = [0, 1, 1000];

/// Whether what is built from three sets is quiet and leaves nothing in the allocator, however few
/// of its ranges are drawn.
fn is_quiet_and_dropped(alloc: Global, built: Built, sets: &[Set; 3]) -> Result<bool, AllocError> {
    let heap = Counting::new(alloc);
    let mut is_right = true;
    for draws in DRAWS {
        let is_this = is_quiet(alloc, &heap, built, sets, draws)?;
        is_right = is_right && is_this && heap.bytes() == 0;
    }
    Ok(is_right)
}

#[test]
fn no_next_of_what_is_built_from_many_calls_the_allocator(rt: HostRuntime) -> Result<(), Fail> {
    for runs in RUNS {
        let sets = three_sets(rt.alloc(), runs)?;
        for built in ALL {
            assert!(rt;
                is_quiet_and_dropped(rt.alloc(), built, &sets)?,
                "{built:?} of {runs} runs"
            );
        }
    }
    Ok(())
}

/// Whether a failed allocation leaves nothing in the allocator. The first allocation fails, then
/// the second, and so on, until the call succeeds.
fn failures_leave_nothing(alloc: Global, built: Built, sets: &[Set; 3]) -> bool {
    let heap = Counting::new(alloc);
    for passed in 0..100usize {
        heap.fail_after(passed);
        let is_built = is_quiet(alloc, &heap, built, sets, 1).is_ok();
        if heap.bytes() > 0 {
            return false;
        }
        if is_built {
            return passed > 0;
        }
    }
    false
}

#[test]
fn nothing_leaks_after_a_failed_allocation(rt: HostRuntime) -> Result<(), Fail> {
    let sets = three_sets(rt.alloc(), 100)?;
    for built in ALL {
        assert!(rt;
            failures_leave_nothing(rt.alloc(), built, &sets),
            "{built:?}"
        );
    }
    Ok(())
}
