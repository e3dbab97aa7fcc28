//! What is built from the runs of two sets in a heap: streams, and sets from many sets.

ghost use Rattle.std.specs.Prelude.{All, IfOk};

use crate::set::calls::Making;
use range_set_blaze::{
    CheckSortedTouching, Draw, DynSortedDisjoint, KMerge, MultiwaySweep,
    MultiwaySymmetricDifference, RangeOnce, RangeSetBlaze, SortedTouching, UnionIter,
};
use rsb_many::intersection_dyn;
use std::alloc::{AllocError, Allocator, Global};
use std::ops::RangeInclusive;
use std::vec::IntoIter;
use test_support::{
    Form, Heap, HeapSet, Table, form_gives, gives, has, odd_of_three, of_lent, of_sets, some_of_two,
};

/// A call that builds something from two sets.
#[derive(Clone, Copy)]
pub(crate) enum Building {
    /// This and the next one use only the first set.
    UnionOfRanges,
    OneType,
    Merge,
    Sweep,
    Union,
    Intersection,
    SymmetricDifference,
    /// The values in at least one.
    AtLeast,
    /// This and the next one use streams whose ranges may touch.
    TouchingSweep,
    TouchingDifference,
    /// These collect all ranges of each stream first.
    DynUnion,
    DynIntersection,
    DynSymmetricDifference,
    /// These take the sets by value.
    SetsUnion,
    SetsIntersection,
    SetsSymmetricDifference,
    SetsAtLeast,
    LentUnion,
    LentIntersection,
    LentSymmetricDifference,
    LentAtLeast,
}

impl Building {
    /// The first of all.
    pub(crate) const FIRST: Building = Building::UnionOfRanges;

    /// Returns the one after it, or `None` after the last.
    pub(crate) fn after(self) -> Option<Building> {
        let next = match self {
            Building::UnionOfRanges => Building::OneType,
            Building::OneType => Building::Merge,
            Building::Merge => Building::Sweep,
            Building::Sweep => Building::Union,
            Building::Union => Building::Intersection,
            Building::Intersection => Building::SymmetricDifference,
            Building::SymmetricDifference => Building::AtLeast,
            Building::AtLeast => Building::TouchingSweep,
            Building::TouchingSweep => Building::TouchingDifference,
            Building::TouchingDifference => Building::DynUnion,
            Building::DynUnion => Building::DynIntersection,
            Building::DynIntersection => Building::DynSymmetricDifference,
            Building::DynSymmetricDifference => Building::SetsUnion,
            Building::SetsUnion => Building::SetsIntersection,
            Building::SetsIntersection => Building::SetsSymmetricDifference,
            Building::SetsSymmetricDifference => Building::SetsAtLeast,
            Building::SetsAtLeast => Building::LentUnion,
            Building::LentUnion => Building::LentIntersection,
            Building::LentIntersection => Building::LentSymmetricDifference,
            Building::LentSymmetricDifference => Building::LentAtLeast,
            Building::LentAtLeast => return None,
        };
        Some(next)
    }

    /// Returns the making from the same two sets that has the same result.
    pub(crate) fn meaning(self) -> Making {
        match self {
            Building::UnionOfRanges | Building::OneType => Making::Clone,
            Building::Merge
            | Building::Sweep
            | Building::Union
            | Building::AtLeast
            | Building::TouchingSweep
            | Building::DynUnion
            | Building::SetsUnion
            | Building::SetsAtLeast
            | Building::LentUnion
            | Building::LentAtLeast => Making::Bitor,
            Building::Intersection
            | Building::DynIntersection
            | Building::SetsIntersection
            | Building::LentIntersection => Making::Bitand,
            Building::SymmetricDifference
            | Building::TouchingDifference
            | Building::DynSymmetricDifference
            | Building::SetsSymmetricDifference
            | Building::LentSymmetricDifference => Making::Bitxor,
        }
    }

    /// Returns its form if it has one, and otherwise the form of a union.
    fn form(self) -> Form {
        match self {
            Building::Intersection | Building::SetsIntersection | Building::LentIntersection => {
                Form::All
            }
            Building::SymmetricDifference
            | Building::SetsSymmetricDifference
            | Building::LentSymmetricDifference => Form::Odd,
            Building::AtLeast | Building::SetsAtLeast | Building::LentAtLeast => Form::AtLeast(1),
            _ => Form::Some,
        }
    }

    /// Whether it allocates for two streams, whatever they give.
    pub(crate) fn wants_room_for_streams(self) -> bool {
        !matches!(self, Building::UnionOfRanges | Building::OneType)
    }
}

/// A set in ample memory.
type Set = RangeSetBlaze<i32>;

/// Whether a sweep gives the starts and the ends of the given number of ranges, and then nothing.
fn tells<I: Draw<i32>, A: Allocator>(sweep: MultiwaySweep<i32, I, A>, ranges: usize) -> bool
    requires { ⟦<MultiwaySweep<i32, I, A> as Iterator>⟧.can_next sweep }
{
    let mut sweep = sweep;
    for _ in 0..ranges.saturating_mul(2) {
        if sweep.next().is_none() {
            return false;
        }
    }
    sweep.next().is_none()
}

/// Returns the number of runs of two sets.
fn runs_of_both(one: &Set, other: &Set) -> usize {
    one.ranges_len().saturating_add(other.ranges_len())
}

/// Whether a merge, joined, gives these runs, or a sweep gives the right number of events.
fn merged_gives(
    heap: &Heap,
    building: Building,
    one: &Set,
    other: &Set,
    wanted: Table<'_>,
) -> Result<bool, AllocError> {
    let streams = [one.ranges(), other.ranges()];
    if matches!(building, Building::Merge) {
        return Ok(gives(UnionIter::new(KMerge::new(heap, streams)?), wanted));
    }
    let sweep = MultiwaySweep::new(heap, streams)?;
    Ok(tells(sweep, runs_of_both(one, other)))
}

/// Whether a form of the runs of two sets gives these.
fn streams_give(
    alloc: Global,
    heap: &Heap,
    form: Form,
    one: &Set,
    other: &Set,
    wanted: Table<'_>,
) -> Result<bool, AllocError> {
    let streams = Vec::from_array(alloc, [one.ranges(), other.ranges()])?;
    form_gives(heap, form, streams, wanted)
}

/// Ranges in ample memory, which may touch.
type Touching = CheckSortedTouching<i32, IntoIter<RangeInclusive<i32>>>;

/// Adds the runs of a set to streams whose ranges may touch.
fn add_touching(
    alloc: Global,
    set: &Set,
    streams: Vec<Touching>,
) -> Result<Vec<Touching>, AllocError>
    requires { All ⟦<Touching as Draw<i32>>⟧.can_draw streams.items }
    ensures { IfOk result (λ streams. All ⟦<Touching as Draw<i32>>⟧.can_draw streams.items) }
{
    let mut streams = streams;
    if let Ok(stream) = CheckSortedTouching::try_new(Vec::from_iter(alloc, set.ranges())?) {
        streams.push(stream)?;
    }
    Ok(streams)
}

/// Returns the runs of two sets as streams whose ranges may touch, in ample memory.
fn touching(alloc: Global, one: &Set, other: &Set) -> Result<Vec<Touching>, AllocError>
    ensures { IfOk result (λ streams. All ⟦<Touching as Draw<i32>>⟧.can_draw streams.items) }
{
    add_touching(alloc, other, add_touching(alloc, one, Vec::new(alloc))?)
}

/// Whether the symmetric difference of streams whose ranges may touch gives these runs.
fn touching_difference_gives<I: SortedTouching<i32>>(
    heap: &Heap,
    streams: Vec<I>,
    wanted: Table<'_>,
) -> Result<bool, AllocError>
    requires { All I.can_draw streams.items }
{
    let odd = MultiwaySymmetricDifference::new_touching(heap, streams)?;
    Ok(gives(odd, wanted))
}

/// Whether a sweep over streams whose ranges may touch gives as many events as the given number of
/// ranges has.
fn touching_sweep_tells<I: SortedTouching<i32>>(
    heap: &Heap,
    streams: Vec<I>,
    ranges: usize,
) -> Result<bool, AllocError>
    requires { All I.can_draw streams.items }
{
    let sweep = MultiwaySweep::new_touching(heap, streams)?;
    Ok(tells(sweep, ranges))
}

/// Whether a symmetric difference of streams whose ranges may touch gives these runs, or a sweep
/// over them gives the right number of events.
fn touching_gives(
    alloc: Global,
    heap: &Heap,
    building: Building,
    one: &Set,
    other: &Set,
    wanted: Table<'_>,
) -> Result<bool, AllocError> {
    let streams = touching(alloc, one, other)?;
    if matches!(building, Building::TouchingDifference) {
        return touching_difference_gives(heap, streams, wanted);
    }
    touching_sweep_tells(heap, streams, runs_of_both(one, other))
}

/// Whether the ranges of a set, all collected first, give these runs.
fn taken_give(
    heap: &Heap,
    building: Building,
    set: &Set,
    wanted: Table<'_>,
) -> Result<bool, AllocError> {
    if matches!(building, Building::OneType) {
        return Ok(gives(DynSortedDisjoint::new(heap, set.ranges())?, wanted));
    }
    Ok(gives(UnionIter::from_iter(heap, set.ranges())?, wanted))
}

/// Whether the union of the ranges of two sets, all collected first, gives these runs.
fn dyn_union_gives(
    heap: &Heap,
    one: &Set,
    other: &Set,
    wanted: Table<'_>,
) -> Result<bool, AllocError> {
    Ok(gives(some_of_two(heap, (one.ranges(), other.ranges()))?, wanted))
}

/// The same for their intersection.
fn dyn_intersection_gives(
    heap: &Heap,
    one: &Set,
    other: &Set,
    wanted: Table<'_>,
) -> Result<bool, AllocError> {
    Ok(gives(
        intersection_dyn!(heap, one.ranges(), other.ranges())?,
        wanted,
    ))
}

/// The same for their symmetric difference.
fn dyn_difference_gives(
    heap: &Heap,
    one: &Set,
    other: &Set,
    wanted: Table<'_>,
) -> Result<bool, AllocError> {
    let nothing = RangeOnce::new(1..=0);
    Ok(gives(
        odd_of_three(heap, (one.ranges(), other.ranges(), nothing))?,
        wanted,
    ))
}

/// Returns the set that a form makes from two sets by value.
fn made_of_sets<'a>(
    alloc: Global,
    heap: &'a Heap,
    form: Form,
    one: &Set,
    other: &Set,
) -> Result<HeapSet<'a>, AllocError> {
    of_sets(
        heap,
        form,
        Vec::from_array(alloc, [one.clone()?, other.clone()?])?,
    )
}

/// Returns the set that a form makes from two sets by reference.
fn made_of_lent<'a>(
    alloc: Global,
    heap: &'a Heap,
    form: Form,
    one: &Set,
    other: &Set,
) -> Result<HeapSet<'a>, AllocError> {
    of_lent(heap, form, Vec::from_array(alloc, [one, other])?)
}

/// Whether what is built from two sets in a heap gives these runs.
pub(crate) fn built_gives(
    alloc: Global,
    heap: &Heap,
    building: Building,
    one: &Set,
    other: &Set,
    wanted: Table<'_>,
) -> Result<bool, AllocError> {
    match building {
        Building::UnionOfRanges | Building::OneType => taken_give(heap, building, one, wanted),
        Building::Merge | Building::Sweep => merged_gives(heap, building, one, other, wanted),
        Building::Union
        | Building::Intersection
        | Building::SymmetricDifference
        | Building::AtLeast => streams_give(alloc, heap, building.form(), one, other, wanted),
        Building::TouchingSweep | Building::TouchingDifference => {
            touching_gives(alloc, heap, building, one, other, wanted)
        }
        Building::DynUnion => dyn_union_gives(heap, one, other, wanted),
        Building::DynIntersection => dyn_intersection_gives(heap, one, other, wanted),
        Building::DynSymmetricDifference => dyn_difference_gives(heap, one, other, wanted),
        Building::SetsUnion
        | Building::SetsIntersection
        | Building::SetsSymmetricDifference
        | Building::SetsAtLeast => {
            let set = made_of_sets(alloc, heap, building.form(), one, other)?;
            Ok(has(&set, wanted))
        }
        Building::LentUnion
        | Building::LentIntersection
        | Building::LentSymmetricDifference
        | Building::LentAtLeast => {
            let set = made_of_lent(alloc, heap, building.form(), one, other)?;
            Ok(has(&set, wanted))
        }
    }
}
