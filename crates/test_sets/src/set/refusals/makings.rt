//! Calls that make a set, a stream or elements.

use crate::set::calls::{Making, make};
use crate::set::cells::{Side, runs, runs_made, spaced};
use crate::set::refusals::built::{Building, built_gives};
use range_set_blaze::RangeSetBlaze;
use std::alloc::{AllocError, Global};
use std::test::*;
use test_support::{Counting, Heap, HeapSet, Table, has, set_in, set_of};

/// What is made from a set in a heap and from two sets beside it, the first of which is the same.
#[derive(Clone, Copy)]
enum Made {
    /// All elements of the set in the heap.
    Elements,
    Set(Making),
    Built(Building),
}

impl Made {
    /// Returns the one after it, or `None` after the last.
    fn after(self) -> Option<Made> {
        match self {
            Made::Elements => Some(Made::Set(Making::FIRST)),
            Made::Set(making) => match making.after() {
                Some(next) => Some(Made::Set(next)),
                None => Some(Made::Built(Building::FIRST)),
            },
            Made::Built(building) => Some(Made::Built(building.after()?)),
        }
    }

    /// Returns the making that has the same result.
    fn meaning(self) -> Making {
        match self {
            Made::Elements => Making::Clone,
            Made::Set(making) => making,
            Made::Built(building) => building.meaning(),
        }
    }

    /// Whether it allocates, given whether its result is empty.
    fn wants(self, is_nothing: bool) -> bool {
        match self {
            Made::Elements | Made::Set(_) => !is_nothing,
            Made::Built(building) => !is_nothing || building.wants_room_for_streams(),
        }
    }
}

/// Whether a making from a set in a heap and one beside it gives these runs.
fn is_made<'a>(
    heap: &'a Heap,
    making: Making,
    set: &HeapSet<'a>,
    other: &RangeSetBlaze<i32>,
    wanted: Table<'_>,
) -> Result<bool, AllocError> {
    Ok(has(&make(heap, making, set, other)?, wanted))
}

/// Whether the elements of a set are these.
fn elements_are(alloc: Global, set: &HeapSet<'_>, wanted: Table<'_>) -> Result<bool, AllocError> {
    let elements = set.range(..)?;
    Ok(has(&RangeSetBlaze::from_iter_values(alloc, elements)?, wanted))
}

/// The sets in ample memory from which something is made, and its result.
#[derive(Clone, Copy)]
struct Given<'a> {
    one: &'a RangeSetBlaze<i32>,
    other: &'a RangeSetBlaze<i32>,
    wanted: Table<'a>,
}

/// Whether the result is right if the heap grants the given number of allocations, or the call
/// fails.
fn tried<'a>(
    alloc: Global,
    heap: &'a Heap,
    granted: usize,
    made: Made,
    set: &HeapSet<'a>,
    given: Given<'_>,
) -> Option<bool> {
    let (one, other, wanted) = (given.one, given.other, given.wanted);
    heap.fail_after(granted);
    let answer = match made {
        Made::Elements => elements_are(alloc, set, wanted),
        Made::Set(making) => is_made(heap, making, set, other, wanted),
        Made::Built(building) => built_gives(alloc, heap, building, one, other, wanted),
    };
    heap.fail_never();
    answer.ok()
}

/// Whether a call fails until the heap grants enough allocations, if it allocates at all. Its last
/// result must be right, and no try may keep memory. Each try is granted one allocation more than
/// the one before it.
fn is_refused_rightly<'a>(
    alloc: Global,
    heap: &'a Heap,
    made: Made,
    set: &HeapSet<'a>,
    given: Given<'_>,
) -> bool {
    let bytes = heap.bytes();
    for step in 0..150u32 {
        let passed = tried(alloc, heap, step as usize, made, set, given);
        if heap.bytes() != bytes {
            return false;
        }
        if let Some(is_right) = passed {
            return is_right && (step > 0) == made.wants(given.wanted.is_empty());
        }
    }
    false
}

/// Whether a making from a set of these runs in a heap fails and succeeds as it should.
fn is_right_in_heap(
    alloc: Global,
    made: Made,
    runs: Table<'_>,
    given: Given<'_>,
) -> Result<bool, AllocError> {
    let heap = Counting::new(alloc);
    let set = set_in(&heap, runs)?;
    Ok(is_refused_rightly(alloc, &heap, made, &set, given))
}

/// Whether a making from the sets of two tables fails and succeeds as it should.
fn is_right_of(
    alloc: Global,
    made: Made,
    runs: Table<'_>,
    others: Table<'_>,
    wanted: Table<'_>,
) -> Result<bool, AllocError> {
    let one = set_of(alloc, runs)?;
    let other = set_of(alloc, others)?;
    let given = Given {
        one: &one,
        other: &other,
        wanted,
    };
    is_right_in_heap(alloc, made, runs, given)
}

/// Whether a making from sets of the given number of runs fails and succeeds as it should.
fn is_right(alloc: Global, made: Made, count: i32) -> Result<bool, AllocError> {
    let cells = spaced(alloc, count, count)?;
    let runs_of_one = runs(alloc, &cells, Side::One)?;
    let runs_of_other = runs(alloc, &cells, Side::Other)?;
    let wanted = runs_made(alloc, made.meaning(), &cells)?;
    is_right_of(alloc, made, &runs_of_one, &runs_of_other, &wanted)
}

/// Whether all makings from sets of the given number of runs fail and succeed as they should.
fn all_are_right(alloc: Global, count: i32) -> bool {
    let mut next = Some(Made::Elements);
    for _ in 0..u8::MAX {
        let Some(made) = next else {
            return true;
        };
        if is_right(alloc, made, count) != Ok(true) {
            return false;
        }
        next = made.after();
    }
    false
}

/// The numbers of runs of the sets.
static COUNTS: [i32; 4] = [0, 1, 3, 100];

#[test]
fn each_allocation_of_what_is_made_fails_in_turn(rt: HostRuntime) {
    for count in &COUNTS {
        assert!(rt; all_are_right(rt.alloc(), *count), "{count} runs");
    }
}
