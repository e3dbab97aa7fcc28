//! `UIntPlusOne<u8>` adds, multiplies, subtracts and compares like the numbers from 0 to 256. Two
//! such types have the right greatest lengths, clones and texts.

ghost use Rattle.std.specs.Prelude.{◌≡◌, ◌≤◌};
ghost use Rattle.rsb_length.specs.UIntPlusOne.{number_of};

use num_traits::{One, Zero};
use rsb_length::UIntPlusOne;
use std::test::Fail;
use test_support::fed_by;

/// Returns the length with the given number.
fn from_number(number: u32) -> UIntPlusOne<u8>
    requires { number ≤ 256 }
    ensures { number_of (λ a. a) 255 result ≡ number }
{
    match u8::try_from(number) {
        Ok(value) => UIntPlusOne::UInt(value),
        Err(_) => UIntPlusOne::MaxPlusOne,
    }
}

/// Returns the number of a length.
fn to_number(length: UIntPlusOne<u8>) -> u32 {
    match length {
        UIntPlusOne::UInt(value) => u32::from(value),
        UIntPlusOne::MaxPlusOne => 256,
    }
}

#[test]
fn sums_are_those_of_the_numbers(rt: HostRuntime) {
    for a in 0..=256u32 {
        for b in 0..=256 - a {
            let sum = from_number(a) + from_number(b);
            assert!(rt; to_number(sum) == a + b, "{a} + {b}");
        }
    }
}

#[test]
fn sums_in_place_are_those_of_the_numbers(rt: HostRuntime) {
    for a in 0..=256u32 {
        for b in 0..=256 - a {
            let mut sum = from_number(a);
            sum += from_number(b);
            assert!(rt; to_number(sum) == a + b, "{a} += {b}");
        }
    }
}

#[test]
fn differences_are_those_of_the_numbers(rt: HostRuntime) {
    for a in 0..=256u32 {
        for b in 0..=a {
            let mut rest = from_number(a);
            rest -= from_number(b);
            assert!(rt; to_number(rest) == a - b, "{a} -= {b}");
        }
    }
}

#[test]
fn products_are_those_of_the_numbers(rt: HostRuntime) {
    for a in 0..=256u32 {
        for b in 0..=256u32 {
            if a * b <= 256 {
                let product = from_number(a) * from_number(b);
                assert!(rt; to_number(product) == a * b, "{a} * {b}");
            }
        }
    }
}

#[test]
fn lengths_are_told_apart_and_ordered_as_the_numbers_are(rt: HostRuntime) -> Result<(), Fail> {
    for a in 0..=256u32 {
        for b in 0..=256u32 {
            let (x, y) = (from_number(a), from_number(b).clone()?);
            assert!(rt; (x == y) == (a == b), "{a} == {b}");
            assert!(rt; x.partial_cmp(&y) == a.partial_cmp(&b), "{a} and {b}");
            assert!(rt;
                (fed_by(&x) == fed_by(&y)) == (a == b),
                "bytes of {a} and {b}"
            );
        }
    }
    Ok(())
}

#[test]
fn one_past_the_greatest_is_reached_and_left(rt: HostRuntime) -> Result<(), Fail> {
    let half = UIntPlusOne::UInt(128u8);
    let sixteen = UIntPlusOne::UInt(16u8);
    let mut length = half + half;
    assert!(rt; length == UIntPlusOne::MaxPlusOne && sixteen * sixteen == length);
    let text = format!(in rt.alloc(); "{length} {}", UIntPlusOne::<u8>::zero())?;
    length -= UIntPlusOne::UInt(1);
    assert!(rt; text.as_str() == "256 0" && length == UIntPlusOne::UInt(255));
    Ok(())
}

#[test]
fn one_past_the_widest_is_reached_and_left(rt: HostRuntime) -> Result<(), Fail> {
    let half = UIntPlusOne::UInt(1u128 << 127);
    let mut length = half + half;
    let past = format!(in rt.alloc(); "{length}")?;
    assert!(rt; length.clone()? == UIntPlusOne::MaxPlusOne && past.as_str() == "(u128::MAX + 1)");
    assert!(rt; length != UIntPlusOne::UInt(u128::MAX) && !length.is_zero());
    length -= UIntPlusOne::UInt(1);
    assert!(rt; length == UIntPlusOne::UInt(u128::MAX) && length != UIntPlusOne::MaxPlusOne);
    let text = format!(in rt.alloc(); "{length}")?;
    assert!(rt; text.as_str() == "340282366920938463463374607431768211455");
    Ok(())
}

#[test]
fn zero_and_one_of_the_widest_are_told_apart(rt: HostRuntime) {
    let mut two = UIntPlusOne::<u128>::one();
    assert!(rt; UIntPlusOne::<u128>::zero().is_zero() && !two.is_zero());
    two += UIntPlusOne::UInt(1);
    assert!(rt; two == UIntPlusOne::UInt(2));
}
