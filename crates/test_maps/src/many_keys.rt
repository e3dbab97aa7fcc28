//! Walks, closures, pairs, sets and text on a map of ten thousand ranges, which have twenty thousand
//! keys.

use range_map_blaze::RangeMapBlaze;
use range_set_blaze::RangeSetBlaze;
use std::alloc::{AllocError, Global};
use std::test::*;
use test_support::fed_by;

/// A map from numbers to numbers.
type Map = RangeMapBlaze<u32, u32>;

/// The sum of the values of all keys.
const SUM: u64 = 99_990_000;

/// Returns the map of the first two of every three keys, each pair of keys with its own number.
fn pairs(alloc: Global) -> Result<Map, AllocError> {
    let mut map = RangeMapBlaze::new(alloc);
    for number in 0..10_000u32 {
        let first = number.saturating_mul(3);
        map.ranges_insert(first..=first.saturating_add(1), number)?;
    }
    Ok(map)
}

/// Whether the values add up, from the front.
fn values_add_up(map: &Map) -> bool {
    let mut sum = 0u64;
    for value in map.values() {
        sum = sum.saturating_add(u64::from(*value));
    }
    sum == SUM
}

/// Whether the values of twenty thousand keys add up, from the back, and there is no other key.
fn values_add_up_from_the_back(map: &Map) -> bool {
    let mut sum = 0u64;
    let mut pairs = map.iter();
    for _ in 0..20_000 {
        let Some((_, value)) = pairs.next_back() else {
            return false;
        };
        sum = sum.saturating_add(u64::from(*value));
    }
    sum == SUM && pairs.next_back().is_none()
}

/// Whether the owned values add up, and there are as many owned keys.
fn owned_values_add_up(map: &Map) -> Result<bool, AllocError> {
    let mut sum = 0u64;
    for value in map.clone()?.into_values() {
        sum = sum.saturating_add(u64::from(value));
    }
    let mut count = 0u32;
    for _ in map.clone()?.into_keys() {
        count = count.saturating_add(1);
    }
    Ok(sum == SUM && count == 20_000)
}

/// Whether a part of the map has the right number of keys, and its last key is in it.
fn part_is_walked(map: &Map) -> bool {
    let mut count = 0u32;
    for _ in map.range(3_000..=20_998) {
        count = count.saturating_add(1);
    }
    count == 12_000 && map.range(3_001..=20_997).next_back() == Some((20_997, &6_999))
}

/// Whether look-ups find keys and ranges, and the ends of the map.
fn is_looked_up(map: &Map) -> bool {
    map.range_at(15_001) == Some((15_000..=15_001, &5_000))
        && map.get_key_value(29_998) == Some((29_998, &9_999))
        && map.first_key_value() == Some((0, &0))
        && map.last_key_value() == Some((29_998, &9_999))
        && map.contains_key(14_998)
        && !map.contains_key(14_999)
}

/// Whether closures keep the right numbers of keys and ranges.
fn closures_keep(map: &Map) -> Result<bool, AllocError> {
    let mut keys = map.clone()?;
    keys.retain(|key, _| *key % 3 == 0)?;
    let mut ranges = map.clone()?;
    ranges.ranges_retain(|_, value| *value < 5_000)?;
    Ok(keys.ranges_len() == 10_000 && keys.len() == 10_000 && ranges.ranges_len() == 5_000)
}

/// Whether the pairs of the map are put over another value, which one range joins.
fn pairs_are_put(alloc: Global, map: &Map) -> Result<bool, AllocError> {
    let mut ranges = RangeMapBlaze::from_array(alloc, [(0..=29_999u32, 7u32)])?;
    ranges.extend(map.clone()?.into_range_values())?;
    let mut keys = RangeMapBlaze::from_array(alloc, [(0..=29_999u32, 7u32)])?;
    keys.extend_keys(map.clone()?.into_iter())?;
    Ok(ranges.ranges_len() == 19_998 && keys == ranges && fed_by(&keys) == fed_by(&ranges))
}

/// Whether half of the map is inside a set, and half is outside.
fn set_halves(alloc: Global, map: &Map) -> Result<bool, AllocError> {
    let half = RangeSetBlaze::from(alloc, 0..=14_999u32)?;
    let inside = map.clone()?.intersection_with_set(&half)?;
    let outside = map.clone()?.difference_with_set(&half)?;
    Ok(
        inside.ranges_len() == 5_000
            && outside.ranges_len() == 5_000
            && !inside.contains_key(15_000),
    )
}

/// Returns the number of ranges in the text of the map.
fn shown(alloc: Global, map: &Map) -> Result<usize, AllocError> {
    let text = format!(in alloc; "{map}")?;
    let mut count = 0usize;
    for byte in text.as_bytes() {
        if *byte == b'(' {
            count = count.saturating_add(1);
        }
    }
    Ok(count)
}

#[test]
fn twenty_thousand_keys_are_walked(rt: HostRuntime) -> Result<(), Fail> {
    let map = pairs(rt.alloc())?;
    assert!(rt; is_looked_up(&map));
    assert!(rt; values_add_up(&map));
    assert!(rt; values_add_up_from_the_back(&map));
    assert!(rt; owned_values_add_up(&map)?);
    assert!(rt; part_is_walked(&map));
    assert!(rt; shown(rt.alloc(), &map)? == 10_000);
    Ok(())
}

#[test]
fn ten_thousand_ranges_are_kept_and_put(rt: HostRuntime) -> Result<(), Fail> {
    let map = pairs(rt.alloc())?;
    assert!(rt; closures_keep(&map)?);
    assert!(rt; pairs_are_put(rt.alloc(), &map)?);
    assert!(rt; set_halves(rt.alloc(), &map)?);
    Ok(())
}
