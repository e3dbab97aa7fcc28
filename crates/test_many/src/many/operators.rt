//! The operators on results of operations on 1..=9, 3..=12 and 5..=20, and on a
//! `DynSortedDisjoint`. The right operand is 8..=25.

ghost use Rattle.std.specs.Prelude.{IfOk};

use rsb_many::{
    DynSortedDisjoint, MultiwayAtLeast, MultiwayIntersection, MultiwaySortedDisjoint,
    MultiwaySymmetricDifference, MultiwayUnion,
};
use rsb_streams::Draw;
use std::alloc::{AllocError, Global};
use std::test::Fail;
use test_support::{Listed, OPERATIONS, Operation, Ranges, gives, stream_of, streams_of};

/// The three streams.
static THREE: [Ranges; 3] = [&[(1, 9)], &[(3, 12)], &[(5, 20)]];

/// The right operand.
static OTHER: Ranges = &[(8, 25)];

/// The union of the streams, which is 1..=20.
fn union_of_three(alloc: Global) -> Result<MultiwayUnion<u8, Listed<'static>>, AllocError>
    ensures { IfOk result ⟦<MultiwayUnion<u8, Listed<'static>> as Draw<u8>>⟧.can_draw }
{
    streams_of(alloc, &THREE)?.union(alloc)
}

/// Whether an operator on that union gives the right ranges.
fn union_is_met(stream: MultiwayUnion<u8, Listed<'static>>, operation: Operation) -> bool
    requires { ⟦<MultiwayUnion<u8, Listed<'static>> as Draw<u8>>⟧.can_draw stream }
{
    let other = stream_of(OTHER);
    match operation {
        Operation::Union => gives(stream | other, &[(1, 25)]),
        Operation::Intersection => gives(stream & other, &[(8, 20)]),
        Operation::Difference => gives(stream - other, &[(1, 7)]),
        Operation::SymmetricDifference => gives(stream ^ other, &[(1, 7), (21, 25)]),
        Operation::Complement => gives(!stream, &[(0, 0), (21, 255)]),
    }
}

/// The intersection of the streams, which is 5..=9.
fn intersection_of_three(
    alloc: Global,
) -> Result<MultiwayIntersection<u8, Listed<'static>>, AllocError>
    ensures { IfOk result ⟦<MultiwayIntersection<u8, Listed<'static>> as Draw<u8>>⟧.can_draw }
{
    streams_of(alloc, &THREE)?.intersection(alloc)
}

/// Whether an operator on that intersection gives the right ranges.
fn intersection_is_met(
    stream: MultiwayIntersection<u8, Listed<'static>>,
    operation: Operation,
) -> bool
    requires { ⟦<MultiwayIntersection<u8, Listed<'static>> as Draw<u8>>⟧.can_draw stream }
{
    let other = stream_of(OTHER);
    match operation {
        Operation::Union => gives(stream | other, &[(5, 25)]),
        Operation::Intersection => gives(stream & other, &[(8, 9)]),
        Operation::Difference => gives(stream - other, &[(5, 7)]),
        Operation::SymmetricDifference => gives(stream ^ other, &[(5, 7), (10, 25)]),
        Operation::Complement => gives(!stream, &[(0, 4), (10, 255)]),
    }
}

/// What lies in an odd number of the streams, which is 1..=2, 5..=9 and 13..=20.
fn symmetric_difference_of_three(
    alloc: Global,
) -> Result<MultiwaySymmetricDifference<u8, Listed<'static>>, AllocError>
    ensures { IfOk result
        ⟦<MultiwaySymmetricDifference<u8, Listed<'static>> as Draw<u8>>⟧.can_draw }
{
    streams_of(alloc, &THREE)?.symmetric_difference(alloc)
}

/// Whether an operator on that symmetric difference gives the right ranges.
fn symmetric_difference_is_met(
    stream: MultiwaySymmetricDifference<u8, Listed<'static>>,
    operation: Operation,
) -> bool
    requires { ⟦<MultiwaySymmetricDifference<u8, Listed<'static>> as Draw<u8>>⟧.can_draw stream }
{
    let other = stream_of(OTHER);
    match operation {
        Operation::Union => gives(stream | other, &[(1, 2), (5, 25)]),
        Operation::Intersection => gives(stream & other, &[(8, 9), (13, 20)]),
        Operation::Difference => gives(stream - other, &[(1, 2), (5, 7)]),
        Operation::SymmetricDifference => gives(
            stream ^ other,
            &[(1, 2), (5, 7), (10, 12), (21, 25)],
        ),
        Operation::Complement => gives(!stream, &[(0, 0), (3, 4), (10, 12), (21, 255)]),
    }
}

/// What lies in at least two of the streams, which is 3..=12.
fn two_deep_of_three(alloc: Global) -> Result<MultiwayAtLeast<u8, Listed<'static>>, AllocError>
    ensures { IfOk result ⟦<MultiwayAtLeast<u8, Listed<'static>> as Draw<u8>>⟧.can_draw }
{
    streams_of(alloc, &THREE)?.at_least(alloc, 2)
}

/// Whether an operator on that stream gives the right ranges.
fn two_deep_is_met(stream: MultiwayAtLeast<u8, Listed<'static>>, operation: Operation) -> bool
    requires { ⟦<MultiwayAtLeast<u8, Listed<'static>> as Draw<u8>>⟧.can_draw stream }
{
    let other = stream_of(OTHER);
    match operation {
        Operation::Union => gives(stream | other, &[(3, 25)]),
        Operation::Intersection => gives(stream & other, &[(8, 12)]),
        Operation::Difference => gives(stream - other, &[(3, 7)]),
        Operation::SymmetricDifference => gives(stream ^ other, &[(3, 7), (13, 25)]),
        Operation::Complement => gives(!stream, &[(0, 2), (13, 255)]),
    }
}

/// A `DynSortedDisjoint` of the ranges 1..=9 and 12..=20.
fn any_type(alloc: Global) -> Result<DynSortedDisjoint<u8>, AllocError>
    ensures { IfOk result ⟦<DynSortedDisjoint<u8> as Draw<u8>>⟧.can_draw }
{
    DynSortedDisjoint::new(alloc, stream_of(&[(1, 9), (12, 20)]))
}

/// Whether an operator on that stream gives the right ranges.
fn any_type_is_met(stream: DynSortedDisjoint<u8>, operation: Operation) -> bool
    requires { ⟦<DynSortedDisjoint<u8> as Draw<u8>>⟧.can_draw stream }
{
    let other = stream_of(OTHER);
    match operation {
        Operation::Union => gives(stream | other, &[(1, 25)]),
        Operation::Intersection => gives(stream & other, &[(8, 9), (12, 20)]),
        Operation::Difference => gives(stream - other, &[(1, 7)]),
        Operation::SymmetricDifference => gives(stream ^ other, &[(1, 7), (10, 11), (21, 25)]),
        Operation::Complement => gives(!stream, &[(0, 0), (10, 11), (21, 255)]),
    }
}

#[test]
fn operators_of_a_stream_of_any_type(rt: HostRuntime) -> Result<(), Fail> {
    for operation in OPERATIONS {
        assert!(rt;
            any_type_is_met(any_type(rt.alloc())?, operation),
            "{operation:?}"
        );
    }
    Ok(())
}

#[test]
fn operators_of_what_many_streams_make(rt: HostRuntime) -> Result<(), Fail> {
    for operation in OPERATIONS {
        let alloc = rt.alloc();
        let is_right = union_is_met(union_of_three(alloc)?, operation)
            && intersection_is_met(intersection_of_three(alloc)?, operation)
            && symmetric_difference_is_met(symmetric_difference_of_three(alloc)?, operation)
            && two_deep_is_met(two_deep_of_three(alloc)?, operation);
        assert!(rt; is_right, "{operation:?}");
    }
    Ok(())
}
