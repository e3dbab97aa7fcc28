//! The union, the intersection and the symmetric difference of many streams, in rows worked by
//! hand.

use std::alloc::{AllocError, Global};
use std::test::Fail;
use test_support::{Form, Ranges, form_gives, streams_of};

/// Whether a form of the streams of tables gives the ranges with these ends.
pub(crate) fn makes_one(
    alloc: Global,
    form: Form,
    tables: &[Ranges],
    wanted: Ranges,
) -> Result<bool, AllocError> {
    form_gives(alloc, form, streams_of(alloc, tables)?, wanted)
}

/// Whether the union, the intersection and the symmetric difference of streams are as wanted.
fn makes(
    alloc: Global,
    tables: &[Ranges],
    some: Ranges,
    all: Ranges,
    odd: Ranges,
) -> Result<bool, AllocError> {
    Ok(
        makes_one(alloc, Form::Some, tables, some)?
            && makes_one(alloc, Form::All, tables, all)?
            && makes_one(alloc, Form::Odd, tables, odd)?,
    )
}

#[test]
fn of_no_streams_nothing_everything_nothing(rt: HostRuntime) -> Result<(), Fail> {
    assert!(rt; makes(rt.alloc(), &[], &[], &[(0, 255)], &[])?);
    Ok(())
}

/// Three streams that have one value in common.
static DEEP: [Ranges; 3] = [&[(1, 5)], &[(3, 8)], &[(5, 6)]];

#[test]
fn what_is_three_deep_lies_in_an_odd_number(rt: HostRuntime) -> Result<(), Fail> {
    let odd = &[(1, 2), (5, 5), (7, 8)];
    assert!(rt; makes(rt.alloc(), &DEEP, &[(1, 8)], &[(5, 5)], odd)?);
    Ok(())
}

/// Three streams that end at the greatest value.
static AT_THE_END: [Ranges; 3] = [&[(250, 255)], &[(255, 255)], &[(0, 255)]];

#[test]
fn streams_may_end_at_the_greatest_value(rt: HostRuntime) -> Result<(), Fail> {
    let odd = &[(0, 249), (255, 255)];
    assert!(rt; makes(rt.alloc(), &AT_THE_END, &[(0, 255)], &[(255, 255)], odd)?);
    Ok(())
}

/// The 16 subsets of four values. Value `v` is in the subset at a place if bit `v` of the place is
/// set.
static SUBSETS: [Ranges; 16] = [
    &[],
    &[(0, 0)],
    &[(1, 1)],
    &[(0, 1)],
    &[(2, 2)],
    &[(0, 0), (2, 2)],
    &[(1, 2)],
    &[(0, 2)],
    &[(3, 3)],
    &[(0, 0), (3, 3)],
    &[(1, 1), (3, 3)],
    &[(0, 1), (3, 3)],
    &[(2, 3)],
    &[(0, 0), (2, 3)],
    &[(1, 3)],
    &[(0, 3)],
];

/// The subset of the values whose bits are set.
pub(crate) fn subset(bits: usize) -> Ranges {
    SUBSETS[bits % 16]
}

#[test]
fn three_lists_of_four_values_make_what_their_bits_make(rt: HostRuntime) -> Result<(), Fail> {
    for one in 0..16usize {
        for other in 0..16usize {
            for third in 0..16usize {
                let tables = [subset(one), subset(other), subset(third)];
                let some = subset(one | other | third);
                let all = subset(one & other & third);
                let odd = subset(one ^ other ^ third);
                assert!(rt;
                    makes(rt.alloc(), &tables, some, all, odd)?,
                    "of {one}, {other}, {third}"
                );
            }
        }
    }
    Ok(())
}
