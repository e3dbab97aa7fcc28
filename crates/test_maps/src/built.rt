//! Maps made from pairs and sets, and the calls that read a whole map, on rows worked by hand.

use crate::rows::{Row, has_rows};
use range_map_blaze::RangeMapBlaze;
use range_set_blaze::RangeSetBlaze;
use std::alloc::{AllocError, Global};
use std::test::*;

/// Pairs that overlap, the last of which win.
fn overlapping(alloc: Global) -> Result<RangeMapBlaze<u8, u8>, AllocError> {
    let pairs = vec![in alloc;
        (0..=9u8, 1u8),
        (5..=14, 2),
        (7..=7, 1),
        (20..=29, 3),
        (25..=24, 9),
    ]?;
    RangeMapBlaze::from_iter(alloc, pairs)
}

/// The ranges of that map.
const OVERLAPPING: &[Row] = &[(0, 4, 1), (5, 6, 2), (7, 7, 1), (8, 14, 2), (20, 29, 3)];

/// Whether pairs of keys give these ranges, the last of which win.
fn keys_are_put(alloc: Global) -> Result<bool, AllocError> {
    let pairs = vec![in alloc; (3u8, 1u8), (4, 1), (5, 2), (4, 2)]?;
    let mut map = RangeMapBlaze::from_iter_keys(alloc, pairs)?;
    let is_made = has_rows(&map, &[(3, 3, 1), (4, 5, 2)]);
    map.extend_keys(vec![in alloc; (6u8, 2u8), (3, 2)]?)?;
    Ok(is_made && has_rows(&map, &[(3, 6, 2)]))
}

/// Whether a map that is appended wins, and is emptied.
fn appended_wins(alloc: Global) -> Result<bool, AllocError> {
    let mut map = overlapping(alloc)?;
    let mut other = RangeMapBlaze::new(alloc);
    other.extend(vec![in alloc; (3..=9u8, 4u8), (30..=31, 3)]?)?;
    map.append(&mut other)?;
    Ok(has_rows(&map, &[(0, 2, 1), (3, 9, 4), (10, 14, 2), (20, 31, 3)]) && other.is_empty())
}

/// Whether the keys of a map are a set, and a set gives the keys of a map.
fn sets_are_keys(alloc: Global) -> Result<bool, AllocError> {
    let mut map = overlapping(alloc)?;
    let keys = map.key_set(alloc)?;
    let mut wanted = RangeSetBlaze::from(alloc, 0..=14u8)?;
    wanted.ranges_insert(20..=29)?;
    let made = RangeMapBlaze::from_set(alloc, &wanted, &7u8)?;
    let mut some = RangeSetBlaze::from(alloc, 4..=22u8)?;
    some.remove(10)?;
    map.remove_set(&some)?;
    let is_removed = has_rows(&map, &[(0, 3, 1), (10, 10, 2), (23, 29, 3)]);
    map.put_set(&some, &3)?;
    Ok(
        keys == wanted
            && has_rows(&made, &[(0, 14, 7), (20, 29, 7)])
            && is_removed
            && has_rows(&map, &[(0, 3, 1), (4, 9, 3), (10, 10, 2), (11, 29, 3)]),
    )
}

/// Whether look-ups find the ranges and the ends of the map.
fn is_looked_up(map: &RangeMapBlaze<u8, u8>) -> bool {
    map.range_at(6) == Some((5..=6, &2))
        && map.range_at(15).is_none()
        && map.get_key_value(20) == Some((20, &3))
        && map.contains_key(7)
        && !map.contains_key(15)
        && map.first_key_value() == Some((0, &1))
        && map.last_key_value() == Some((29, &3))
}

/// Whether the ranges come from both ends, by reference and by value.
fn comes_from_both_ends(map: RangeMapBlaze<u8, u8>) -> bool {
    let mut lent = map.range_values();
    let is_lent = lent.next() == Some((0..=4, &1))
        && lent.next_back() == Some((20..=29, &3))
        && lent.len() == 3;
    let mut owned = map.into_range_values();
    is_lent
        && owned.next() == Some((0..=4, 1))
        && owned.next_back() == Some((20..=29, 3))
        && owned.len() == 3
}

#[test]
fn pairs_make_maps(rt: HostRuntime) -> Result<(), Fail> {
    let map = overlapping(rt.alloc())?;
    assert!(rt; has_rows(&map, OVERLAPPING));
    assert!(rt; is_looked_up(&map));
    assert!(rt; comes_from_both_ends(map));
    assert!(rt; keys_are_put(rt.alloc())?);
    assert!(rt; appended_wins(rt.alloc())?);
    assert!(rt; sets_are_keys(rt.alloc())?);
    Ok(())
}
