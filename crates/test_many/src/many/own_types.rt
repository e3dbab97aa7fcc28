//! Operations on many streams at two user-defined element types: `Side`, with two values, and
//! `Slot`, with ninety-six.

use crate::many::thousand::singles;
use rsb_integer::Integer;
use rsb_integer::laws::{at_least_all, at_least_falls, at_least_one};
use rsb_many::MultiwaySymmetricDifference;
use rsb_many::laws::{one_list_of_events, some_list_of_events};
use rsb_streams::CheckSortedTouching;
use rsb_user_types::{Side, Slot};
use std::alloc::{AllocError, Global};
use std::test::Fail;
use test_support::{Form, form_gives, gives, list_of, slot};

/// Whether a form of two streams of one range each gives these ranges.
fn form_of_two_gives<T: Integer>(
    alloc: Global,
    form: Form,
    two: &[(T, T)],
    wanted: &[(T, T)],
) -> Result<bool, AllocError> {
    form_gives(alloc, form, singles(alloc, two)?, wanted)
}

/// Whether what lies in some, in all, in an odd number and in at least two of two streams is as
/// wanted.
fn two_make<T: Integer>(
    alloc: Global,
    two: &[(T, T)],
    some: &[(T, T)],
    both: &[(T, T)],
    odd: &[(T, T)],
) -> Result<bool, AllocError> {
    Ok(
        form_of_two_gives(alloc, Form::Some, two, some)?
            && form_of_two_gives(alloc, Form::All, two, both)?
            && form_of_two_gives(alloc, Form::Odd, two, odd)?
            && form_of_two_gives(alloc, Form::AtLeast(2), two, both)?,
    )
}

/// Whether the symmetric difference of one stream whose ranges touch gives one range.
fn touching_are_joined<T: Integer>(
    alloc: Global,
    ranges: &[(T, T)],
    wanted: &[(T, T)],
) -> Result<bool, AllocError> {
    let Ok(stream) = CheckSortedTouching::try_new(list_of(alloc, ranges)?) else {
        return Ok(false);
    };
    let odd = MultiwaySymmetricDifference::new_touching(alloc, [stream])?;
    Ok(gives(odd, wanted))
}

/// Calls each law of many sets and of the events of many inputs.
fn cite_laws<T: Integer>() {
    at_least_one::<T>();
    at_least_all::<T>();
    at_least_falls::<T>();
    one_list_of_events::<T>();
    some_list_of_events::<T>();
}

#[test]
fn many_streams_of_two_values(rt: HostRuntime) -> Result<(), Fail> {
    let (low, high) = (Side::Lo, Side::Hi);
    let two = [(low, low), (low, high)];
    let all = [(low, high)];
    assert!(rt; two_make(rt.alloc(), &two, &all, &[(low, low)], &[(high, high)])?);
    assert!(rt; touching_are_joined(rt.alloc(), &[(low, low), (high, high)], &[(low, high)])?);
    cite_laws::<Side>();
    Ok(())
}

#[test]
fn many_streams_of_ninety_six_values(rt: HostRuntime) -> Result<(), Fail> {
    let (middle, last) = (slot(40), slot(95));
    let two = [(slot(0), middle), (middle, last)];
    let others = [(slot(0), slot(39)), (slot(41), last)];
    assert!(rt;
        two_make(
            rt.alloc(),
            &two,
            &[(slot(0), last)],
            &[(middle, middle)],
            &others
        )?
    );
    let touching = [(slot(0), slot(3)), (slot(4), slot(95))];
    assert!(rt; touching_are_joined(rt.alloc(), &touching, &[(slot(0), slot(95))])?);
    cite_laws::<Slot>();
    Ok(())
}
