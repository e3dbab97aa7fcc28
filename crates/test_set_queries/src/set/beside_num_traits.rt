//! The prelude beside `num_traits` and the traits of std that users import: no call is ambiguous.

use num_traits::{CheckedAdd, One, Zero};
use range_set_blaze::prelude::*;
use std::alloc::{AllocError, Global};
use std::cmp::Ordering::Less;
use std::fmt::Write;
use std::iter::FromIterator;
use std::ops::{BitOr, Not, RangeBounds};
use std::str::FromStr;
use std::test::*;

/// Whether the lengths 0 and 1 are those of `num_traits`.
fn has_lengths<T: Integer>() -> bool {
    let none = T::SafeLen::zero();
    none.is_zero() && none < T::SafeLen::one()
}

/// Whether 0 and 1 are the same numbers to `num_traits` and in text.
fn has_numbers<T: ParseInteger + CheckedAdd + Zero + One>() -> bool {
    let one = T::zero_value().checked_add(&T::one());
    T::zero() == T::zero_value() && one == T::zero_value().with_digit(false, 1)
}

/// Returns the set that a text spells, without the values between two bounds.
fn spelled_outside<T: ParseInteger, R: RangeBounds<T>>(
    alloc: Global,
    text: &str,
    bounds: R,
) -> Result<RangeSetBlaze<T>, ParseError> {
    let mut set = RangeSetBlaze::parse(alloc, text)?;
    set.ranges_remove(bounds)?;
    Ok(set)
}

/// Whether sets and their operators are as without these traits.
fn are_sets(alloc: Global) -> Result<bool, AllocError> {
    let Ok(set) = spelled_outside::<u8, _>(alloc, "1..=9", 4..=6) else {
        return Ok(false);
    };
    let gaps = set.not()?;
    let whole = set.bitor(&gaps)?;
    let values: RangeSetBlaze<u8> = FromIterator::from_iter(alloc, [1u8, 2, 3].iter())?;
    Ok(whole.is_universal() && gaps.len() == 250 && values.cmp(&set) == Less)
}

/// Whether the text of a set is as without these traits.
fn is_written(alloc: Global) -> Result<bool, AllocError> {
    let mut text = String::new(alloc);
    let set = RangeSetBlaze::from(alloc, 2..=3u8)?;
    Ok(write!(text, "{set}").is_ok() && text.as_str() == "2..=3")
}

#[test]
fn the_prelude_goes_with_num_traits_and_std(rt: HostRuntime) -> Result<(), Fail> {
    assert!(rt; u32::zero() == 0 && u32::one() == 1 && u8::from_str("7") == Ok(7));
    assert!(rt; has_lengths::<u32>() && has_lengths::<u128>() && has_numbers::<i64>());
    assert!(rt; are_sets(rt.alloc())? && is_written(rt.alloc())?);
    Ok(())
}
