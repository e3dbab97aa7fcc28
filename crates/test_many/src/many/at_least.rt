//! What lies in at least a given number of streams, of sets by value and of sets by reference, in
//! rows worked by hand.

use crate::many::forms::{makes_one, subset};
use crate::many::sets::both_make;
use std::alloc::{AllocError, Global};
use std::test::Fail;
use test_support::{Form, Ranges, Table, form_gives, set_of};

/// Three sets.
static THREE: [Table<'static>; 3] = [&[(1, 5)], &[(3, 8)], &[(5, 6)]];

/// What lies in at least 0, 1, 2, 3 and 4 of them.
static DEPTHS: [Table<'static>; 5] = [
    &[(i32::MIN, i32::MAX)],
    &[(1, 8)],
    &[(3, 6)],
    &[(5, 5)],
    &[],
];

/// Whether a form of the runs of three sets gives the wanted ranges.
fn runs_make(alloc: Global, form: Form, wanted: Table<'_>) -> Result<bool, AllocError> {
    let (a, b) = (set_of(alloc, THREE[0])?, set_of(alloc, THREE[1])?);
    let c = set_of(alloc, THREE[2])?;
    let streams = Vec::from_array(alloc, [a.ranges(), b.ranges(), c.ranges()])?;
    form_gives(alloc, form, streams, wanted)
}

#[test]
fn from_every_value_in_none_of_three_to_no_value_in_four(rt: HostRuntime) -> Result<(), Fail> {
    for k in 0..5usize {
        let form = Form::AtLeast(k);
        assert!(rt; runs_make(rt.alloc(), form, DEPTHS[k])?, "of runs, {k}");
        assert!(rt;
            both_make(rt.alloc(), form, &THREE, DEPTHS[k])?,
            "of sets, {k}"
        );
    }
    Ok(())
}

/// Whether what lies in at least one, in at least two and in all of three streams is as wanted.
fn depths_are(
    alloc: Global,
    tables: &[Ranges],
    some: Ranges,
    two: Ranges,
    all: Ranges,
) -> Result<bool, AllocError> {
    Ok(
        makes_one(alloc, Form::AtLeast(1), tables, some)?
            && makes_one(alloc, Form::AtLeast(2), tables, two)?
            && makes_one(alloc, Form::AtLeast(3), tables, all)?,
    )
}

#[test]
fn touching_pieces_are_one_run_and_no_streams_have_every_value(
    rt: HostRuntime,
) -> Result<(), Fail> {
    let alloc = rt.alloc();
    let touching: [Ranges; 3] = [&[(1, 4)], &[(1, 2)], &[(3, 4)]];
    assert!(rt; makes_one(alloc, Form::AtLeast(2), &touching, &[(1, 4)])?);
    assert!(rt; makes_one(alloc, Form::AtLeast(0), &[], &[(0, 255)])?);
    assert!(rt; makes_one(alloc, Form::AtLeast(1), &[], &[])?);
    for one in 0..16usize {
        for other in 0..16usize {
            for third in 0..16usize {
                let tables = [subset(one), subset(other), subset(third)];
                let some = subset(one | other | third);
                let two = subset((one & other) | (one & third) | (other & third));
                let all = subset(one & other & third);
                assert!(rt;
                    depths_are(alloc, &tables, some, two, all)?,
                    "of {one}, {other}, {third}"
                );
            }
        }
    }
    Ok(())
}
