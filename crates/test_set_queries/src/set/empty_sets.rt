//! `new`, `default` and `clear`.

use range_set_blaze::RangeSetBlaze;
use std::test::*;

/// Whether a set is empty by each of its calls.
fn is_nothing(set: &RangeSetBlaze<i32>) -> bool {
    set.is_empty()
        && set.len() == 0
        && set.ranges_len() == 0
        && set.first() == None
        && set.last() == None
        && set.ranges().next() == None
        && set.range_or_gap_at(0) == (i32::MIN..=i32::MAX, false)
}

#[test]
fn an_empty_set_has_nothing_and_a_cleared_one_is_empty(rt: HostRuntime) -> Result<(), Fail> {
    let mut set = RangeSetBlaze::<i32>::default(rt.alloc());
    assert!(rt; is_nothing(&set));
    set.ranges_insert(2..=4)?;
    set.clear();
    assert!(rt; is_nothing(&set));
    Ok(())
}
