//! Members by the number of members below them.

ghost use Rattle.std.specs.Prelude.{◌≡◌, IfSome, IsTrue};
ghost use Rattle.range_set_blaze.specs.Runs.{members};

use range_set_blaze::{Integer, RangeSetBlaze, UIntPlusOne};
use rsb_user_types::Slot;
use std::alloc::{AllocError, Allocator, Global};
use std::test::*;
use test_support::{Counting, Heap, HeapSet, Table, every_fifth, set_in, set_of, slot, slots};

/// Returns the rank of the member that has `n` members below it.
fn rank_of_nth<T: Integer, A: Allocator>(
    set: &RangeSetBlaze<T, A>,
    n: T::SafeLen,
) -> Option<T::SafeLen>
    ensures { IfSome result (λ rank. T.SafeLen.number rank ≡ T.SafeLen.number n) }
{
    let member = set.nth(n)?;
    Some(set.rank(member))
}

/// Returns the greatest member, by the number of members below it.
fn last_by_rank<T: Integer, A: Allocator>(set: &RangeSetBlaze<T, A>, last: T::SafeLen) -> Option<T>
    ensures { IfSome result (λ member. IsTrue (members set.now (T.rank member))) }
{
    set.nth(last)
}

/// A set, a number, and the member with that number of members below it.
static NUMBERED: [(Table<'static>, u64, Option<i32>); 14] = [
    (&[], 0, None),
    (&[], 4_294_967_296, None),
    (&[(7, 7)], 0, Some(7)),
    (&[(7, 7)], 1, None),
    (&[(1, 3), (7, 10)], 0, Some(1)),
    (&[(1, 3), (7, 10)], 2, Some(3)),
    (&[(1, 3), (7, 10)], 3, Some(7)),
    (&[(1, 3), (7, 10)], 6, Some(10)),
    (&[(1, 3), (7, 10)], 7, None),
    (&[(i32::MIN, i32::MAX)], 0, Some(i32::MIN)),
    (&[(i32::MIN, i32::MAX)], 2_147_483_648, Some(0)),
    (&[(i32::MIN, i32::MAX)], 4_294_967_295, Some(i32::MAX)),
    (&[(i32::MIN, i32::MAX)], 4_294_967_296, None),
    (
        &[(i32::MIN, -1), (i32::MAX, i32::MAX)],
        2_147_483_648,
        Some(i32::MAX),
    ),
];

/// Whether the member of a number is this one, and its rank is the number.
fn is_nth(
    alloc: Global,
    ranges: Table<'_>,
    n: u64,
    member: Option<i32>,
) -> Result<bool, AllocError> {
    let set = set_of(alloc, ranges)?;
    let rank = if member.is_some() { Some(n) } else { None };
    Ok(set.nth(n) == member && rank_of_nth(&set, n) == rank)
}

#[test]
fn members_are_found_by_number(rt: HostRuntime) -> Result<(), Fail> {
    for (ranges, n, member) in &NUMBERED {
        assert!(rt;
            is_nth(rt.alloc(), ranges, *n, *member)?,
            "{n} of {ranges:?}"
        );
    }
    Ok(())
}

/// A value, and how many members of {..=-2147483647, 1..=3, 7..=10, 2147483647} lie below it.
static BELOW: [(i32, u64); 13] = [
    (i32::MIN, 0),
    (-2_147_483_647, 1),
    (-2_147_483_646, 2),
    (1, 2),
    (2, 3),
    (3, 4),
    (4, 5),
    (6, 5),
    (7, 5),
    (10, 8),
    (11, 9),
    (2_147_483_646, 9),
    (i32::MAX, 9),
];

#[test]
fn members_below_a_value_are_counted(rt: HostRuntime) -> Result<(), Fail> {
    let ends = (i32::MIN, -2_147_483_647);
    let set = set_of(rt.alloc(), &[ends, (1, 3), (7, 10), (i32::MAX, i32::MAX)])?;
    for (value, below) in &BELOW {
        assert!(rt; set.rank(*value) == *below, "at {value}");
    }
    assert!(rt; set_of(rt.alloc(), &[])?.rank(7) == 0);
    Ok(())
}

/// Whether the greatest value of a type has `last` members below it in the set of all values.
fn ends_at<T: Integer>(alloc: Global, last: T::SafeLen) -> Result<bool, AllocError> {
    let set = RangeSetBlaze::<T>::from(alloc, T::min_value()..=T::max_value())?;
    Ok(set.rank(T::max_value()) == last && last_by_rank(&set, last) == Some(T::max_value()))
}

#[test]
fn whole_types_end_at_their_greatest_values(rt: HostRuntime) -> Result<(), Fail> {
    assert!(rt; ends_at::<u8>(rt.alloc(), 255)? && ends_at::<Slot>(rt.alloc(), 95)?);
    assert!(rt; ends_at::<u128>(rt.alloc(), UIntPlusOne::UInt(u128::MAX))?);
    assert!(rt; ends_at::<i128>(rt.alloc(), UIntPlusOne::UInt(u128::MAX))?);
    let wide = RangeSetBlaze::<u128>::from(rt.alloc(), 0..=u128::MAX)?;
    assert!(rt; wide.nth(UIntPlusOne::MaxPlusOne) == None);
    Ok(())
}

#[test]
fn booked_slots_are_numbered(rt: HostRuntime) -> Result<(), Fail> {
    let mut booked = RangeSetBlaze::<Slot>::from(rt.alloc(), slots(32, 39))?;
    assert!(rt; booked.ranges_insert(slots(48, 51))? && booked.nth(8) == Some(slot(48)));
    assert!(rt; booked.rank(slot(50)) == 10 && booked.nth(12) == None);
    Ok(())
}

/// Whether every seven-hundredth member of seventy thousand runs has its number.
fn are_numbered(set: &RangeSetBlaze<i32>) -> bool {
    for place in 0..300i32 {
        let number = place.saturating_mul(700);
        let wanted = (number / 3).saturating_mul(5).saturating_add(number % 3);
        let n = number.unsigned_abs();
        if set.nth(u64::from(n)) != Some(wanted) || set.rank(wanted) != u64::from(n) {
            return false;
        }
    }
    true
}

#[test]
fn seventy_thousand_runs_are_numbered(rt: HostRuntime) -> Result<(), Fail> {
    let set = every_fifth(rt.alloc(), 0, 2)?;
    assert!(rt; are_numbered(&set) && set.nth(210_000) == None && set.rank(i32::MAX) == 210_000);
    Ok(())
}

/// Finds members of a set by number, and returns whether its allocator was never called.
fn is_quiet(heap: &Heap, set: &HeapSet<'_>) -> bool {
    let calls = heap.calls();
    set.nth(3) == Some(7) && set.rank(8) == 4 && heap.calls() == calls
}

#[test]
fn numbers_do_not_allocate(rt: HostRuntime) -> Result<(), Fail> {
    let heap = Counting::new(rt.alloc());
    let set = set_in(&heap, &[(1, 3), (7, 10)])?;
    assert!(rt; is_quiet(&heap, &set));
    Ok(())
}
