//! Maps of seventy thousand ranges, more than 16 bits can count, and of twenty thousand keys.

use range_map_blaze::RangeMapBlaze;
use range_set_blaze::RangeSetBlaze;
use std::alloc::{AllocError, Global};
use std::test::*;

/// Returns the map of the first two of every three keys, each pair of keys with its own number.
fn pairs(alloc: Global, ranges: u32) -> Result<RangeMapBlaze<u32, u32>, AllocError> {
    let mut map = RangeMapBlaze::new(alloc);
    for number in 0..ranges {
        let first = number.saturating_mul(3);
        map.ranges_insert(first..=first.saturating_add(1), number)?;
    }
    Ok(map)
}

/// Changes the map with each call, and returns whether it then has the right number of ranges.
fn changes_count(map: &mut RangeMapBlaze<u32, u32>) -> Result<bool, AllocError> {
    let is_filled = map.ranges_len() == 70_000;
    let is_new = map.insert(2, 7)?.is_none() && map.ranges_len() == 70_001;
    let is_old = map.remove(3)? == Some(1) && map.ranges_len() == 70_001;
    let first = map.pop_first()?.is_some_and(|pair| pair.1 == 0) && map.ranges_len() == 70_001;
    let last = map.pop_last()?.is_some_and(|pair| pair.1 == 69_999) && map.ranges_len() == 70_001;
    map.ranges_remove(30_000..=59_999)?;
    let is_removed = map.ranges_len() == 60_001;
    let high = map.split_off(150_000)?;
    let is_split = map.ranges_len() == 40_001 && high.ranges_len() == 20_000;
    map.ranges_insert(0..=u32::MAX, 5)?;
    Ok(
        is_filled
            && is_new
            && is_old
            && first
            && last
            && is_removed
            && is_split
            && map.ranges_len() == 1,
    )
}

#[test]
fn seventy_thousand_ranges_are_changed(rt: HostRuntime) -> Result<(), Fail> {
    let mut map = pairs(rt.alloc(), 70_000)?;
    assert!(rt; map.get(104_999) == Some(&34_999) || map.get(104_998) == Some(&34_999));
    assert!(rt; changes_count(&mut map)?);
    Ok(())
}

/// Returns the number of keys that a walk gives.
fn walked(map: &RangeMapBlaze<u32, u32>) -> usize {
    let mut count = 0usize;
    for _ in map.keys() {
        count = count.saturating_add(1);
    }
    count
}

/// Whether copies, made in several ways, are equal to the map.
fn copies(alloc: Global, map: &RangeMapBlaze<u32, u32>) -> Result<bool, AllocError> {
    let copy = map.clone()?;
    let is_equal = copy == *map && copy.cmp(map).is_eq();
    let mut ranges = RangeMapBlaze::from_iter(alloc, copy.into_range_values())?;
    let mut appended = RangeMapBlaze::new(alloc);
    appended.append(&mut ranges)?;
    let is_appended = appended == *map && ranges.is_empty();
    let keys = RangeMapBlaze::from_iter_keys(alloc, appended.into_iter())?;
    Ok(is_equal && is_appended && keys == *map && keys.len() == 20_000 && walked(map) == 20_000)
}

/// Whether calls with sets leave the right numbers of ranges.
fn meets_sets(alloc: Global, map: &RangeMapBlaze<u32, u32>) -> Result<bool, AllocError> {
    let keys = map.key_set(alloc)?;
    let gaps = (!map)?;
    let half = RangeSetBlaze::from(alloc, 0..=14_999u32)?;
    let mut filled = map.complement_with(&7)?;
    let is_complement = filled.ranges_len() == 10_000 && filled.len() == gaps.len();
    filled.put_set(&keys, &7)?;
    let is_one = filled.ranges_len() == 1 && filled.is_universal();
    let mut some = map.clone()?;
    some.keep_set(&half)?;
    let is_half = some.ranges_len() == 5_000;
    some.remove_set(&keys)?;
    Ok(is_complement && is_one && is_half && some.is_empty())
}

#[test]
fn twenty_thousand_keys_are_read(rt: HostRuntime) -> Result<(), Fail> {
    let map = pairs(rt.alloc(), 10_000)?;
    assert!(rt; copies(rt.alloc(), &map)?);
    assert!(rt; meets_sets(rt.alloc(), &map)?);
    Ok(())
}
