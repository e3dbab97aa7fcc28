//! Comparisons, hashes and copies of maps, on rows worked by hand.

use crate::rows::{Row, has_rows};
use range_map_blaze::RangeMapBlaze;
use std::alloc::{AllocError, Global};
use std::cmp::Ordering;
use std::test::*;
use test_support::fed_by;

/// Two maps, and how the first compares with the second.
type Compared = (&'static [Row], &'static [Row], Ordering);

/// Pairs of maps that differ in a key, in a value, in where a range ends, and not at all.
static COMPARED: [Compared; 14] = [
    (&[], &[], Ordering::Equal),
    (&[], &[(0, 255, 1)], Ordering::Less),
    (&[(0, 0, 1)], &[(1, 1, 1)], Ordering::Less),
    (&[(5, 9, 1)], &[(5, 9, 2)], Ordering::Less),
    (&[(5, 9, 1)], &[(5, 9, 1)], Ordering::Equal),
    (&[(5, 9, 1)], &[(5, 10, 1)], Ordering::Less),
    (&[(5, 9, 1), (10, 10, 2)], &[(5, 10, 1)], Ordering::Greater),
    (&[(5, 9, 2), (10, 10, 1)], &[(5, 10, 2)], Ordering::Less),
    (&[(5, 9, 1), (11, 11, 1)], &[(5, 10, 1)], Ordering::Greater),
    (
        &[(5, 9, 1), (11, 11, 1)],
        &[(5, 9, 1), (12, 12, 1)],
        Ordering::Less,
    ),
    (
        &[(5, 9, 1), (11, 20, 1), (21, 30, 2)],
        &[(5, 9, 1), (11, 25, 1)],
        Ordering::Greater,
    ),
    (
        &[(0, 255, 1)],
        &[(0, 254, 1), (255, 255, 2)],
        Ordering::Less,
    ),
    (&[(0, 255, 1)], &[(0, 254, 1)], Ordering::Greater),
    (
        &[(1, 1, 1), (2, 2, 2), (3, 3, 1)],
        &[(1, 1, 1), (2, 2, 2), (3, 3, 1)],
        Ordering::Equal,
    ),
];

/// Returns the map with these ranges, put in from the last to the first.
pub(crate) fn map_of(alloc: Global, rows: &[Row]) -> Result<RangeMapBlaze<u8, u8>, AllocError> {
    let mut map = RangeMapBlaze::new(alloc);
    for (first, last, value) in rows.iter().rev() {
        map.ranges_insert(*first..=*last, *value)?;
    }
    Ok(map)
}

/// Whether two maps compare as they must, in both directions and by each operator. Equal maps must
/// have the same hash.
fn compare(left: &RangeMapBlaze<u8, u8>, right: &RangeMapBlaze<u8, u8>, order: Ordering) -> bool {
    left.cmp(right) == order
        && right.cmp(left) == order.reverse()
        && left.partial_cmp(right) == Some(order)
        && (left == right) == order.is_eq()
        && (left < right) == order.is_lt()
        && (fed_by(left) == fed_by(right)) == order.is_eq()
}

/// Returns the first row that does not compare as it says.
fn first_wrong(alloc: Global) -> Result<Option<usize>, AllocError> {
    for (row, (left, right, order)) in COMPARED.iter().enumerate() {
        let left = map_of(alloc, left)?;
        let right = map_of(alloc, right)?;
        if !compare(&left, &right, *order) {
            return Ok(Some(row));
        }
    }
    Ok(None)
}

/// Whether a copy is equal to its map, and changes on its own.
fn copies(alloc: Global) -> Result<bool, AllocError> {
    let map = map_of(alloc, &[(3, 7, 1), (8, 9, 2), (20, 255, 1)])?;
    let mut copy = map.clone()?;
    let is_equal = copy == map;
    copy.remove(5)?;
    Ok(
        is_equal
            && copy != map
            && has_rows(&map, &[(3, 7, 1), (8, 9, 2), (20, 255, 1)])
            && has_rows(&copy, &[(3, 4, 1), (6, 7, 1), (8, 9, 2), (20, 255, 1)]),
    )
}

#[test]
fn maps_are_written(rt: HostRuntime) -> Result<(), Fail> {
    let map = map_of(rt.alloc(), &[(1, 2, 7), (3, 3, 8), (250, 255, 7)])?;
    let empty = map_of(rt.alloc(), &[])?;
    let text = format!(in rt.alloc(); "{map} {map:?} [{empty}]")?;
    let wanted = "(1..=2, 7), (3..=3, 8), (250..=255, 7) (1..=2, 7), (3..=3, 8), (250..=255, 7) []";
    assert!(rt; text.as_str() == wanted);
    let mut names = RangeMapBlaze::new(rt.alloc());
    names.ranges_insert(1..=2u8, "a")?;
    names.insert(3, "b")?;
    let text = format!(in rt.alloc(); "{names}")?;
    assert!(rt; text.as_str() == "(1..=2, \"a\"), (3..=3, \"b\")");
    Ok(())
}

#[test]
fn maps_compare_as_their_pairs(rt: HostRuntime) -> Result<(), Fail> {
    let wrong = first_wrong(rt.alloc())?;
    assert!(rt; wrong.is_none(), "row {wrong:?}");
    assert!(rt; copies(rt.alloc())?);
    Ok(())
}
