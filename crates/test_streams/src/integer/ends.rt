//! Every call of `Integer` at both ends of each type.

ghost use Rattle.std.specs.Prelude.{◌<◌, ◌≤◌, IsTrue};

use rsb_integer::Integer;
use rsb_length::UIntPlusOne;
use rsb_user_types::{Side, Slot};

/// Returns whether the four calls that step by one lead from one value to the other and back.
pub(crate) fn are_neighbors<T: Integer>(before: T, after: T) -> bool {
    if before.checked_add_one() != Some(after) {
        return false;
    }
    let mut stepped = after;
    stepped.assign_sub_one();
    before.add_one() == after && after.sub_one() == before && stepped == before
}

/// Returns whether two values are in order. If they are, their ranks are known to be too.
fn are_in_order<T: Integer>(first: T, last: T) -> bool
    ensures order { IsTrue result → T.rank first ≤ T.rank last }
    ensures bound { T.rank last < T.value_count }
{
    // The contracts of these calls state that the ranks are in the type.
    first.checked_add_one();
    last.checked_add_one();
    first <= last
}

/// Returns whether a range has the given length, and that length leads from each of its ends to the
/// other.
pub(crate) fn leads_across<T: Integer>(first: T, last: T, length: T::SafeLen) -> bool {
    if !are_in_order(first, last) {
        return false;
    }
    let found = T::safe_len(&(first..=last));
    found == length
        && first.inclusive_end_from_start(found) == last
        && last.start_from_inclusive_end(found) == first
}

/// Returns whether the range of one value gives it from the front, and then nothing from either
/// end.
fn comes_from_the_front<T: Integer>(value: T) -> bool {
    let mut range = value..=value;
    T::range_next(&mut range) == Some(value)
        && T::range_next(&mut range).is_none()
        && T::range_next_back(&mut range).is_none()
}

/// Returns whether the range of one value gives it from the back, and then nothing from either end.
fn comes_from_the_back<T: Integer>(value: T) -> bool {
    let mut range = value..=value;
    T::range_next_back(&mut range) == Some(value)
        && T::range_next_back(&mut range).is_none()
        && T::range_next(&mut range).is_none()
}

/// Returns whether a range gives its last value from the back and then its first from the front.
fn comes_from_both_ends<T: Integer>(first: T, last: T) -> bool {
    let mut range = first..=last;
    T::range_next_back(&mut range) == Some(last) && T::range_next(&mut range) == Some(first)
}

/// Returns whether the exhausted range goes from the greatest value to the least, and gives
/// nothing.
fn exhausted_gives_nothing<T: Integer>() -> bool {
    let mut range = T::exhausted_range();
    *range.start() == T::max_value()
        && *range.end() == T::min_value()
        && T::range_next(&mut range).is_none()
        && T::range_next_back(&mut range).is_none()
}

/// Returns whether every call gives the right result at both ends of a type. `two` is the length of
/// two values, and `whole` that of the type.
pub(crate) fn calls_end_well<T: Integer>(two: T::SafeLen, whole: T::SafeLen) -> bool {
    let least = T::min_value();
    let greatest = T::max_value();
    let second = least.add_one();
    let last_but_one = greatest.sub_one();
    greatest.checked_add_one().is_none()
        && are_neighbors(least, second)
        && are_neighbors(last_but_one, greatest)
        && leads_across(least, second, two)
        && leads_across(last_but_one, greatest, two)
        && leads_across(least, greatest, whole)
        && comes_from_the_front(least)
        && comes_from_the_front(greatest)
        && comes_from_the_back(least)
        && comes_from_the_back(greatest)
        && comes_from_both_ends(least, greatest)
        && exhausted_gives_nothing::<T>()
}

#[test]
fn calls_at_the_ends_of_each_type_end_well(rt: HostRuntime) {
    assert!(rt; calls_end_well::<Side>(2, 2));
    assert!(rt; calls_end_well::<Slot>(2, 96));
    assert!(rt; calls_end_well::<i8>(2, 256));
    assert!(rt; calls_end_well::<u8>(2, 256));
    assert!(rt; calls_end_well::<i16>(2, 65_536));
    assert!(rt; calls_end_well::<u16>(2, 65_536));
    assert!(rt; calls_end_well::<i32>(2, 4_294_967_296));
    assert!(rt; calls_end_well::<u32>(2, 4_294_967_296));
    assert!(rt; calls_end_well::<i64>(2, 18_446_744_073_709_551_616));
    assert!(rt; calls_end_well::<u64>(2, 18_446_744_073_709_551_616));
    assert!(rt; calls_end_well::<isize>(2, 18_446_744_073_709_551_616));
    assert!(rt; calls_end_well::<usize>(2, 18_446_744_073_709_551_616));
    assert!(rt; calls_end_well::<i128>(UIntPlusOne::UInt(2), UIntPlusOne::MaxPlusOne));
    assert!(rt; calls_end_well::<u128>(UIntPlusOne::UInt(2), UIntPlusOne::MaxPlusOne));
    assert!(rt; calls_end_well::<char>(2, 1_112_064));
}

#[test]
fn lengths_and_steps_cross_zero(rt: HostRuntime) {
    assert!(rt; leads_across(-128_i8, -1, 128) && leads_across(-5_i8, 10, 16));
    assert!(rt; are_neighbors(-1_i128, 0) && are_neighbors(0_u128, 1));
    assert!(rt; comes_from_the_back(0_i128));
}

#[test]
fn lengths_lead_from_each_small_value_to_both_ends(rt: HostRuntime) {
    for a in i8::MIN..=i8::MAX {
        let above = i8::safe_len(&(a..=127));
        assert!(rt; a.inclusive_end_from_start(above) == 127, "from {a}");
        let below = i8::safe_len(&(-128..=a));
        assert!(rt; a.start_from_inclusive_end(below) == -128, "to {a}");
    }
}
