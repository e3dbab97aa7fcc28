//! Lists of ranges as streams, which are accepted if they are canonical.

ghost use Rattle.std.specs.Prelude.{IfSome};
ghost use Rattle.rsb_integer.specs.Rank.{intervals_of};
ghost use Rattle.rsb_integer.specs.Runs.{IsCanonical};
ghost use Rattle.rsb_streams.specs.OutOfPlace.{IsFirstBad};

use rsb_integer::Integer;
use rsb_streams::CheckSortedDisjoint;
use std::alloc::Global;
use std::ops::RangeInclusive;
use std::test::Fail;
use test_support::{gives, list_of};

/// Returns whether a list is refused at the wanted position and given back. If none is wanted,
/// returns whether the list is accepted and gives its ranges.
fn is_refused_at<T: Integer>(
    alloc: Global,
    ranges: &[(T, T)],
    wanted: Option<usize>,
) -> Result<bool, Fail> {
    match CheckSortedDisjoint::try_new(list_of(alloc, ranges)?) {
        Ok(stream) => Ok(wanted.is_none() && gives(stream, ranges)),
        Err(refused) => {
            Ok(wanted == Some(refused.position) && refused.ranges == list_of(alloc, ranges)?)
        }
    }
}

/// Returns the first position at which a list is out of order, for any element type.
fn first_out_of_order<T: Integer>(ranges: Vec<RangeInclusive<T>>) -> Option<usize>
    ensures { IfSome result (IsFirstBad IsCanonical (intervals_of T.rank ranges.items)) }
{
    match CheckSortedDisjoint::try_new(ranges) {
        Ok(_) => None,
        Err(refused) => Some(refused.position),
    }
}

#[test]
fn a_refused_list_is_out_of_order(rt: HostRuntime) -> Result<(), Fail> {
    let ends = [(1, 2), (4, 255), (0, 0)];
    assert!(rt; first_out_of_order(list_of(rt.alloc(), &ends)?) == Some(2));
    Ok(())
}

#[test]
fn touching_ranges_are_refused_where_they_stand(rt: HostRuntime) -> Result<(), Fail> {
    assert!(rt; is_refused_at(rt.alloc(), &[(1, 2), (3, 4), (9, 8)], Some(1))?);
    Ok(())
}

#[test]
fn the_empty_list_is_accepted(rt: HostRuntime) -> Result<(), Fail> {
    assert!(rt; is_refused_at::<u8>(rt.alloc(), &[], None)?);
    Ok(())
}

/// Ranges, and the first position that is out of place, if there is one.
static LISTS: [(&[(u8, u8)], Option<usize>); 13] = [
    (&[(1, 2), (9, 8), (9, 9)], Some(1)),
    (&[(1, 0)], Some(0)),
    (&[(0, 1), (3, 5), (5, 7)], Some(2)),
    (&[(9, 9), (0, 0)], Some(1)),
    (&[(5, 5), (7, 7), (8, 9), (1, 1)], Some(2)),
    (&[(1, 3), (1, 3)], Some(1)),
    (&[(250, 255), (0, 3)], Some(1)),
    (&[(0, 254), (255, 255)], Some(1)),
    (&[(0, 255), (0, 0)], Some(1)),
    (&[(1, 2), (4, 4), (9, 255)], None),
    (&[(0, 0), (2, 253), (255, 255)], None),
    (&[(0, 255)], None),
    (&[(255, 255)], None),
];

#[test]
fn lists_are_refused_at_the_first_range_out_of_place(rt: HostRuntime) -> Result<(), Fail> {
    for (ranges, wanted) in &LISTS {
        assert!(rt; is_refused_at(rt.alloc(), ranges, *wanted)?, "{ranges:?}");
    }
    Ok(())
}

// U+D7FF and U+E000 are neighbors.
#[test]
fn lists_of_wide_types_are_taken_to_their_ends(rt: HostRuntime) -> Result<(), Fail> {
    let letters = [('\0', '\u{D7FF}'), ('\u{E000}', '\u{E001}')];
    assert!(rt; is_refused_at(rt.alloc(), &letters, Some(1))?);
    assert!(rt; is_refused_at(rt.alloc(), &[(0, 0), (2, u128::MAX)], None)?);
    assert!(rt; is_refused_at(rt.alloc(), &[(i128::MIN, i128::MAX)], None)?);
    Ok(())
}
