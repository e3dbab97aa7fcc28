//! Maps whose values are texts that they own, which are cloned if a range is cut.

use range_map_blaze::RangeMapBlaze;
use std::alloc::{AllocError, Global};
use std::test::*;
use test_support::fed_by;

/// A map from bytes to texts.
type Names = RangeMapBlaze<u8, String>;

/// Returns the map of ten keys with a name, of which two have another.
fn cut(alloc: Global) -> Result<Names, AllocError> {
    let mut names = RangeMapBlaze::new(alloc);
    names.ranges_insert(0..=9, format!(in alloc; "low")?)?;
    names.ranges_insert(4..=5, format!(in alloc; "mid")?)?;
    Ok(names)
}

/// Returns the same map, made from its ranges in another order, each with a name of its own.
fn in_parts(alloc: Global) -> Result<Names, AllocError> {
    let mut names = RangeMapBlaze::new(alloc);
    names.ranges_insert(6..=9, format!(in alloc; "l{}w", "o")?)?;
    names.ranges_insert(0..=3, format!(in alloc; "low")?)?;
    names.insert(5, format!(in alloc; "mid")?)?;
    names.insert(4, format!(in alloc; "mid")?)?;
    Ok(names)
}

/// Whether the names are looked up, and the ranges that have them.
fn is_named(names: &Names) -> bool {
    names.get(4).is_some_and(|name| name.as_str() == "mid")
        && names.get(10).is_none()
        && names
            .range_at(7)
            .is_some_and(|pair| pair.0 == (6..=9) && pair.1.as_str() == "low")
        && names.ranges_len() == 3
}

/// Whether the keys between bounds come with their names, from both ends, and the keys are owned.
fn is_walked(names: Names) -> bool {
    let mut inside = names.range(3..=6);
    let is_inside = inside
        .next()
        .is_some_and(|pair| pair.0 == 3 && pair.1.as_str() == "low")
        && inside
            .next_back()
            .is_some_and(|pair| pair.0 == 6 && pair.1.as_str() == "low")
        && inside
            .next()
            .is_some_and(|pair| pair.0 == 4 && pair.1.as_str() == "mid")
        && inside.next_back().is_some_and(|pair| pair.0 == 5)
        && inside.next().is_none();
    let mut keys = names.into_keys();
    let are_owned = keys.next() == Some(0) && keys.next_back() == Some(9) && keys.next() == Some(1);
    let mut count = 0u8;
    for _ in keys {
        count = count.saturating_add(1);
    }
    is_inside && are_owned && count == 7
}

/// Whether equal names are joined, and a removed name is returned.
fn changes(alloc: Global) -> Result<bool, AllocError> {
    let mut names = cut(alloc)?;
    let old = names.remove(9)?;
    names.ranges_insert(4..=5, format!(in alloc; "low")?)?;
    let is_joined = names.ranges_len() == 1 && names.len() == 9;
    let mut owned = names.into_range_values();
    Ok(
        is_joined
            && old.is_some_and(|name| name.as_str() == "low")
            && owned
                .next()
                .is_some_and(|pair| pair.0 == (0..=8) && pair.1.as_str() == "low"),
    )
}

#[test]
fn owned_texts_are_values(rt: HostRuntime) -> Result<(), Fail> {
    let names = cut(rt.alloc())?;
    let also = in_parts(rt.alloc())?;
    assert!(rt; is_named(&names) && is_named(&also));
    assert!(rt; names == also && names.cmp(&also).is_eq() && fed_by(&names) == fed_by(&also));
    let text = format!(in rt.alloc(); "{names}")?;
    assert!(rt; text.as_str() == "(0..=3, \"low\"), (4..=5, \"mid\"), (6..=9, \"low\")");
    assert!(rt; is_walked(names));
    assert!(rt; changes(rt.alloc())?);
    Ok(())
}
