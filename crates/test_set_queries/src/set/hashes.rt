//! What sets feed to a hasher.

use range_set_blaze::RangeSetBlaze;
use rsb_user_types::{Side, Slot};
use std::alloc::{AllocError, Global};
use std::test::*;
use test_support::{fed_by, fed_by_bytes, slots};

/// Returns the set of the ranges of a table.
fn bytes_of(alloc: Global, ranges: &[(u8, u8)]) -> Result<RangeSetBlaze<u8>, AllocError> {
    let mut set = RangeSetBlaze::new(alloc);
    for (start, end) in ranges {
        set.ranges_insert(*start..=*end)?;
    }
    Ok(set)
}

/// Ranges inserted one after the other, and the bytes that the set then feeds.
static FED: [(&[(u8, u8)], &[u8]); 6] = [
    (&[(1, 3), (7, 10)], &[7, 0, 1, 3, 7, 10]),
    (
        &[(9, 10), (3, 3), (8, 8), (7, 7), (1, 2)],
        &[7, 0, 1, 3, 7, 10],
    ),
    (&[(2, 3), (1, 1)], &[3, 0, 1, 3]),
    (&[(255, 255), (0, 0)], &[2, 0, 0, 0, 255, 255]),
    (&[(0, 255)], &[0, 1, 0, 255]),
    (&[], &[0, 0]),
];

// The length of a set of bytes takes two bytes, the lower one first. The order of insertions does
// not matter.
#[test]
fn the_length_is_fed_and_the_ends_of_each_run(rt: HostRuntime) -> Result<(), Fail> {
    for (ranges, bytes) in &FED {
        let set = bytes_of(rt.alloc(), ranges)?;
        assert!(rt; fed_by(&set) == fed_by_bytes(bytes), "{ranges:?}");
    }
    Ok(())
}

// The loop tries all sets of numbers below 6.
#[test]
fn unlike_sets_feed_unlike_bytes(rt: HostRuntime) -> Result<(), Fail> {
    let mut known = Vec::new(rt.alloc());
    for bits in 0..64u8 {
        let mut set = RangeSetBlaze::<u8>::new(rt.alloc());
        for (member, bit) in [(0, 1), (1, 2), (2, 4), (3, 8), (4, 16), (5, 32)] {
            if bits & bit != 0 {
                set.insert(member)?;
            }
        }
        let fed = fed_by(&set);
        assert!(rt; !known.contains(&fed), "{set}");
        known.push(fed)?;
    }
    Ok(())
}

/// Whether a run of letters feeds its length and its ends, in four bytes each.
fn letters_feed(alloc: Global) -> Result<bool, AllocError> {
    let letters = RangeSetBlaze::from(alloc, 'a'..='c')?;
    Ok(fed_by(&letters) == fed_by_bytes(&[3, 0, 0, 0, 97, 0, 0, 0, 99, 0, 0, 0]))
}

/// Returns the set of both sides, inserted one after the other.
fn both_sides(alloc: Global) -> Result<RangeSetBlaze<Side>, AllocError> {
    let mut sides = RangeSetBlaze::new(alloc);
    sides.insert(Side::Hi)?;
    sides.insert(Side::Lo)?;
    Ok(sides)
}

/// Whether the set of both sides feeds what the set of every side does.
fn sides_feed(alloc: Global) -> Result<bool, AllocError> {
    let fed = fed_by(&both_sides(alloc)?);
    Ok(fed == fed_by(&RangeSetBlaze::<Side>::universe(alloc)?))
}

/// Whether two runs of slots feed their length and their ends.
fn slots_feed(alloc: Global) -> Result<bool, AllocError> {
    let mut booked = RangeSetBlaze::<Slot>::from(alloc, slots(48, 51))?;
    booked.ranges_insert(slots(32, 39))?;
    Ok(fed_by(&booked) == fed_by_bytes(&[12, 0, 32, 39, 48, 51]))
}

#[test]
fn characters_and_own_types_feed_their_own(rt: HostRuntime) -> Result<(), Fail> {
    let alloc = rt.alloc();
    assert!(rt; letters_feed(alloc)? && sides_feed(alloc)? && slots_feed(alloc)?);
    Ok(())
}
