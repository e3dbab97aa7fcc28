//! Ranges that may touch: lists of them that are accepted or refused, and what they are joined to.

use rsb_streams::{CheckSortedTouching, NotSortedTouching, SortedTouching};
use std::alloc::{AllocError, Global};
use std::test::Fail;
use test_support::{gives, list_of, neighbors_of};

/// Returns whether a list is refused at the wanted position and given back. If none is wanted,
/// returns whether the list is accepted and gives its ranges.
fn is_refused_at(alloc: Global, ranges: &[(u8, u8)], wanted: Option<usize>) -> Result<bool, Fail> {
    match CheckSortedTouching::try_new(list_of(alloc, ranges)?) {
        Ok(stream) => Ok(wanted.is_none() && gives(stream, ranges)),
        Err(refused) => {
            Ok(wanted == Some(refused.position) && refused.ranges == list_of(alloc, ranges)?)
        }
    }
}

/// Ranges, and the first position that is out of place, if there is one.
static LISTS: [(&[(u8, u8)], Option<usize>); 9] = [
    (&[(1, 2), (3, 4), (4, 5)], Some(2)),
    (&[(5, 6), (1, 2)], Some(1)),
    (&[(1, 2), (3, 3)], None),
    (&[], None),
    (&[(1, 2), (3, 2), (3, 4)], Some(1)),
    (&[(1, 0)], Some(0)),
    (&[(7, 7), (7, 7)], Some(1)),
    (&[(0, 254), (255, 255)], None),
    (&[(0, 255), (255, 255)], Some(1)),
];

#[test]
fn lists_that_overlap_are_refused_and_those_that_touch_are_not(
    rt: HostRuntime,
) -> Result<(), Fail> {
    for (ranges, wanted) in &LISTS {
        assert!(rt; is_refused_at(rt.alloc(), ranges, *wanted)?, "{ranges:?}");
    }
    Ok(())
}

/// Returns whether a list is accepted and joined to exactly these ranges.
fn is_joined_to(
    alloc: Global,
    ranges: &[(u8, u8)],
    wanted: &[(u8, u8)],
) -> Result<bool, AllocError> {
    match CheckSortedTouching::try_new(list_of(alloc, ranges)?) {
        Ok(known) => Ok(gives(known.joined(), wanted)),
        Err(_) => Ok(false),
    }
}

#[test]
fn ranges_that_touch_are_joined(rt: HostRuntime) -> Result<(), Fail> {
    let wanted = [(1, 4), (9, 9)];
    assert!(rt; is_joined_to(rt.alloc(), &[(1, 2), (3, 4), (9, 9)], &wanted)?);
    let own = neighbors_of(&[(0, 0), (1, 1), (3, 254), (255, 255)]);
    assert!(rt; gives(own.joined(), &[(0, 1), (3, 255)]));
    Ok(())
}

#[test]
fn a_refusal_of_what_may_touch_tells_the_position(rt: HostRuntime) -> Result<(), Fail> {
    let ranges = list_of(rt.alloc(), &[(1u8, 2), (2, 3)])?;
    let position = 1;
    let text = format!(in rt.alloc(); "{}", NotSortedTouching { position, ranges })?;
    let wanted = "the range at position 1 is empty, or does not lie past the one before it";
    assert!(rt; text.as_str() == wanted);
    Ok(())
}
