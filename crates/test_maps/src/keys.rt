//! Counts of keys, walks over keys and their values, and maps with sets, on rows worked by hand.

use crate::compared::map_of;
use crate::rows::{Row, has_rows};
use range_map_blaze::RangeMapBlaze;
use range_set_blaze::RangeSetBlaze;
use std::alloc::{AllocError, Global};
use std::test::*;

/// A map with single keys, ranges that touch, and both ends of the type.
const SOME: &[Row] = &[(0, 1, 5), (2, 2, 6), (10, 12, 5), (254, 255, 7)];

/// The keys of that map, each with its value.
static PAIRS: [(u8, u8); 8] = [
    (0, 5),
    (1, 5),
    (2, 6),
    (10, 5),
    (11, 5),
    (12, 5),
    (254, 7),
    (255, 7),
];

/// Whether the pairs come in order, from the front, and the rest from the back.
fn walks(map: &RangeMapBlaze<u8, u8>, from_front: usize) -> bool {
    let mut pairs = map.iter();
    for (place, (key, value)) in PAIRS.iter().enumerate() {
        if place < from_front && pairs.next() != Some((*key, value)) {
            return false;
        }
    }
    for (place, (key, value)) in PAIRS.iter().rev().enumerate() {
        if place < 8usize.saturating_sub(from_front) && pairs.next_back() != Some((*key, value)) {
            return false;
        }
    }
    pairs.next().is_none() && pairs.next_back().is_none()
}

/// Whether the keys and the values come in order, from both ends.
fn walks_parts(map: &RangeMapBlaze<u8, u8>) -> bool {
    let mut keys = map.keys();
    let mut values = map.values();
    for (key, value) in &PAIRS {
        if keys.next() != Some(*key) || values.next() != Some(value) {
            return false;
        }
    }
    keys.next().is_none()
        && values.next().is_none()
        && map.keys().next_back() == Some(255)
        && map.values().next_back() == Some(&7)
}

/// Returns the value of a key by its index, or 0 if it has none.
fn indexed(map: &RangeMapBlaze<u8, u8>, key: u8) -> u8 {
    if map.contains_key(key) { map[key] } else { 0 }
}

/// Bounds, how many keys lie between them, and the sum of these keys.
static PARTS: [(u8, u8, u16, u16); 10] = [
    (0, 255, 8, 545),
    (2, 11, 3, 23),
    (1, 10, 3, 13),
    (11, 11, 1, 11),
    (10, 12, 3, 33),
    (3, 9, 0, 0),
    (13, 253, 0, 0),
    (12, 254, 2, 266),
    (255, 255, 1, 255),
    (9, 3, 0, 0),
];

/// Whether the keys between bounds are those inside, from the front and from the back.
fn walks_inside(map: &RangeMapBlaze<u8, u8>) -> bool {
    for (first, last, count, sum) in &PARTS {
        let mut left = (*count, *sum);
        for (key, value) in map.range(*first..=*last) {
            if map.get(key) != Some(value) {
                return false;
            }
            left = (left.0.wrapping_sub(1), left.1.wrapping_sub(u16::from(key)));
        }
        let mut right = (*count, *sum);
        for (key, value) in map.range(*first..=*last).rev() {
            if map.get(key) != Some(value) {
                return false;
            }
            right = (
                right.0.wrapping_sub(1),
                right.1.wrapping_sub(u16::from(key)),
            );
        }
        if left != (0, 0) || right != (0, 0) {
            return false;
        }
    }
    let mut inside = map.range(2..12);
    inside.next() == Some((2, &6))
        && inside.next_back() == Some((11, &5))
        && inside.next() == Some((10, &5))
        && inside.next().is_none()
}

/// Whether a map passed by value gives the same.
fn owned_walks(map: RangeMapBlaze<u8, u8>) -> Result<bool, AllocError> {
    let mut keys = map.clone()?.into_keys();
    let mut values = map.clone()?.into_values();
    for (key, value) in map {
        if keys.next() != Some(key) || values.next() != Some(value) {
            return Ok(false);
        }
    }
    Ok(keys.next().is_none() && values.next_back().is_none())
}

/// Whether maps have these numbers of keys.
fn counts(alloc: Global) -> Result<bool, AllocError> {
    let mut map = map_of(alloc, SOME)?;
    let has_some = map.len() == 8 && !map.is_universal();
    map.ranges_insert(.., 1)?;
    let has_all = map.len() == 256 && map.is_universal();
    map.ranges_insert(7..=9, 2)?;
    let is_whole = map.len() == 256 && map.is_universal();
    map.remove(8)?;
    let has_most = map.len() == 255 && !map.is_universal();
    map.clear();
    Ok(has_some && has_all && is_whole && has_most && map.len() == 0)
}

/// Whether the gaps are a set, and can be given a value.
fn complements(alloc: Global) -> Result<bool, AllocError> {
    let map = map_of(alloc, SOME)?;
    let gaps = (!&map)?;
    let mut wanted = RangeSetBlaze::from(alloc, 3..=9u8)?;
    wanted.ranges_insert(13..=253)?;
    let filled = map.complement_with(&9)?;
    Ok(gaps == wanted && has_rows(&filled, &[(3, 9, 9), (13, 253, 9)]))
}

/// Whether a map with only the members of a set, or without them, has these ranges.
fn meets_sets(alloc: Global) -> Result<bool, AllocError> {
    let mut set = RangeSetBlaze::from(alloc, 1..=11u8)?;
    set.insert(255)?;
    let mut inside = map_of(alloc, SOME)?.intersection_with_set(&set)?;
    let outside = map_of(alloc, SOME)?.difference_with_set(&set)?;
    let is_within = has_rows(&inside, &[(1, 1, 5), (2, 2, 6), (10, 11, 5), (255, 255, 7)]);
    inside.keep_set(&RangeSetBlaze::new(alloc))?;
    Ok(
        is_within
            && inside.is_empty()
            && has_rows(&outside, &[(0, 0, 5), (12, 12, 5), (254, 254, 7)]),
    )
}

/// Whether the keys, and the ranges, for which a closure returns true are kept.
fn keeps_some(alloc: Global) -> Result<bool, AllocError> {
    let mut keys = map_of(alloc, SOME)?;
    let mut asked = 0u8;
    keys.retain(|key, value| {
        asked = asked.saturating_add(1);
        *key % 2 == 0 || *value == 7
    })?;
    let mut ranges = map_of(alloc, SOME)?;
    ranges.ranges_retain(|range, value| *range.start() > 1 && *value != 7)?;
    Ok(
        asked == 8
            && has_rows(
                &keys,
                &[
                    (0, 0, 5),
                    (2, 2, 6),
                    (10, 10, 5),
                    (12, 12, 5),
                    (254, 255, 7),
                ],
            )
            && has_rows(&ranges, &[(2, 2, 6), (10, 12, 5)]),
    )
}

/// Whether arrays of pairs give these maps, in which later pairs win.
fn arrays_are_maps(alloc: Global) -> Result<bool, AllocError> {
    let ranges = RangeMapBlaze::from_array(alloc, [(0..=9u8, 1u8), (5..=7, 2), (9..=8, 3)])?;
    let keys = RangeMapBlaze::from_array_keys(alloc, [(4u8, 1u8), (5, 1), (4, 2)])?;
    Ok(
        has_rows(&ranges, &[(0, 4, 1), (5, 7, 2), (8, 9, 1)])
            && has_rows(&keys, &[(4, 4, 2), (5, 5, 1)]),
    )
}

#[test]
fn keys_come_in_order(rt: HostRuntime) -> Result<(), Fail> {
    let map = map_of(rt.alloc(), SOME)?;
    for from_front in 0..=8usize {
        assert!(rt; walks(&map, from_front), "{from_front} from the front");
    }
    assert!(rt; walks_parts(&map));
    assert!(rt; walks_inside(&map));
    assert!(rt; indexed(&map, 11) == 5 && indexed(&map, 255) == 7 && indexed(&map, 3) == 0);
    assert!(rt; owned_walks(map)?);
    Ok(())
}

#[test]
fn keys_are_counted(rt: HostRuntime) -> Result<(), Fail> {
    assert!(rt; counts(rt.alloc())?);
    assert!(rt; complements(rt.alloc())?);
    assert!(rt; meets_sets(rt.alloc())?);
    assert!(rt; arrays_are_maps(rt.alloc())?);
    assert!(rt; keeps_some(rt.alloc())?);
    Ok(())
}
