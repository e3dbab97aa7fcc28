//! Sets that reach both ends of their types.

use crate::set::look_ups::lies;
use range_set_blaze::{RangeSetBlaze, UIntPlusOne};
use std::alloc::{AllocError, Global};
use std::test::*;
use test_support::{Counting, Heap};

#[test]
fn gaps_of_bytes_reach_both_ends(rt: HostRuntime) -> Result<(), Fail> {
    let mut bytes = RangeSetBlaze::<u8>::new(rt.alloc());
    assert!(rt; bytes.ranges_insert(1..=3)? && bytes.ranges_insert(7..=10)?);
    let rows = [
        (0, 0, 0, false),
        (5, 4, 6, false),
        (255, 11, 255, false),
        (7, 7, 10, true),
    ];
    for (value, start, end, is_run) in rows {
        assert!(rt; lies(&bytes, value, start, end, is_run), "at {value}");
    }
    Ok(())
}

#[test]
fn the_widest_set_has_one_member_past_the_greatest_number(rt: HostRuntime) -> Result<(), Fail> {
    let mut wide = RangeSetBlaze::<u128>::new(rt.alloc());
    assert!(rt; wide.ranges_insert(0..=0)? && wide.ranges_insert(2..=u128::MAX)?);
    assert!(rt; wide.len() == UIntPlusOne::UInt(u128::MAX));
    assert!(rt; wide.ranges_insert(0..=u128::MAX)?);
    assert!(rt; wide.len() == UIntPlusOne::MaxPlusOne && wide.is_universal());
    Ok(())
}

#[test]
fn the_widest_length_comes_and_goes_if_nothing_can_be_allocated(
    rt: HostRuntime,
) -> Result<(), Fail> {
    let heap = Counting::new(rt.alloc());
    let mut wide = RangeSetBlaze::<u128, &Heap>::from(&heap, 1..=u128::MAX)?;
    assert!(rt; wide.insert(0)? && wide.len() == UIntPlusOne::MaxPlusOne);
    heap.fail_after(0);
    let taken = wide.remove(u128::MAX);
    let length = UIntPlusOne::UInt(340282366920938463463374607431768211455);
    assert!(rt; taken == Ok(true) && wide.len() == length);
    Ok(())
}

#[test]
fn signed_runs_join_across_zero(rt: HostRuntime) -> Result<(), Fail> {
    let mut signed = RangeSetBlaze::<i128>::new(rt.alloc());
    assert!(rt; signed.ranges_insert(i128::MIN..=-1)? && signed.ranges_insert(1..=i128::MAX)?);
    assert!(rt; signed.insert(0)? && signed.ranges_len() == 1 && signed.is_universal());
    Ok(())
}

/// Whether a set has the two characters beside the surrogates.
fn are_two(letters: &RangeSetBlaze<char>) -> bool {
    letters.len() == 2
        && letters.first() == Some('\u{D7FF}')
        && letters.last() == Some('\u{E000}')
        && letters.iter().eq(['\u{D7FF}', '\u{E000}'])
}

#[test]
fn characters_beside_the_surrogates_are_two(rt: HostRuntime) -> Result<(), Fail> {
    let mut letters = RangeSetBlaze::<char>::new(rt.alloc());
    assert!(rt; letters.ranges_insert('\u{D7FF}'..='\u{E000}')? && are_two(&letters));
    Ok(())
}

/// Whether a set has the second of two characters, and the set of both.
fn has_pair(
    alloc: Global,
    letters: &RangeSetBlaze<char>,
    before: char,
    after: char,
) -> Result<bool, AllocError> {
    let mut pair = RangeSetBlaze::new(alloc);
    pair.ranges_insert(before..=after)?;
    Ok(pair.len() == 2 && letters.contains(after) && letters.is_superset(&pair))
}

/// Returns the first character whose pair with the next one is not in the set, and the number of
/// pairs tried. The last pair tried ends with `last`.
fn first_lacked(
    alloc: Global,
    letters: &RangeSetBlaze<char>,
    last: char,
) -> Result<(Option<char>, u32), AllocError> {
    let mut before = '\0';
    let mut pairs = 0u32;
    for after in '\u{1}'..=last {
        if !has_pair(alloc, letters, before, after)? {
            return Ok((Some(before), pairs));
        }
        before = after;
        pairs = pairs.saturating_add(1);
    }
    Ok((None, pairs))
}

// One of the pairs steps over the surrogates. The checked build of `rt try --test` takes more than
// a minute here, and `--seconds 900` lets it finish. So `tools/test` runs only the next test.
#[test]
fn the_universe_has_every_character_and_each_pair_of_neighbors(
    rt: HostRuntime,
) -> Result<(), Fail> {
    let universe = RangeSetBlaze::<char>::universe(rt.alloc())?;
    assert!(rt; universe.contains('\0'));
    assert!(rt; first_lacked(rt.alloc(), &universe, char::MAX)? == (None, 1_112_063));
    Ok(())
}

#[test]
fn the_universe_has_the_first_characters_and_each_pair_of_neighbors(
    rt: HostRuntime,
) -> Result<(), Fail> {
    let universe = RangeSetBlaze::<char>::universe(rt.alloc())?;
    assert!(rt; universe.contains('\0'));
    assert!(rt; first_lacked(rt.alloc(), &universe, '\u{E100}')? == (None, 55_552));
    Ok(())
}
