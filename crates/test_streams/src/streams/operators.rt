//! The operators of each stream type. The left operand is 20..=29, built in every way, and the
//! right one is 25..=40.

use crate::streams::nested::known;
use rsb_streams::{Draw, RangeOnce, UnionIter};
use test_support::{OPERATIONS, Operation, gives};

/// Returns a stream of the range with these ends.
fn range(start: u8, end: u8) -> RangeOnce<u8>
    ensures { ⟦<RangeOnce<u8> as Draw<u8>>⟧.can_draw result }
{
    RangeOnce::new(start..=end)
}

/// Returns what an operator gives for 20..=29 and 25..=40.
fn wanted(operation: Operation) -> &'static [(u8, u8)] {
    match operation {
        Operation::Union => &[(20, 40)],
        Operation::Intersection => &[(25, 29)],
        Operation::Difference => &[(20, 24)],
        Operation::SymmetricDifference => &[(20, 24), (30, 40)],
        Operation::Complement => &[(0, 19), (30, 255)],
    }
}

/// Returns whether an operator on a `RangeOnce` gives what is wanted.
fn of_a_range(operation: Operation) -> bool {
    let stream = range(20, 29);
    let (other, runs) = (range(25, 40), wanted(operation));
    match operation {
        Operation::Union => gives(stream | other, runs),
        Operation::Intersection => gives(stream & other, runs),
        Operation::Difference => gives(stream - other, runs),
        Operation::SymmetricDifference => gives(stream ^ other, runs),
        Operation::Complement => gives(!stream, runs),
    }
}

/// Returns whether an operator on a joined stream gives what is wanted.
fn of_a_joined_stream(operation: Operation) -> bool {
    let stream = UnionIter::new(range(20, 29));
    let (other, runs) = (range(25, 40), wanted(operation));
    match operation {
        Operation::Union => gives(stream | other, runs),
        Operation::Intersection => gives(stream & other, runs),
        Operation::Difference => gives(stream - other, runs),
        Operation::SymmetricDifference => gives(stream ^ other, runs),
        Operation::Complement => gives(!stream, runs),
    }
}

/// Returns whether an operator on a stream that is known to be canonical gives what is wanted.
fn of_a_known_stream(operation: Operation) -> bool {
    let stream = known(range(20, 29));
    let (other, runs) = (range(25, 40), wanted(operation));
    match operation {
        Operation::Union => gives(stream | other, runs),
        Operation::Intersection => gives(stream & other, runs),
        Operation::Difference => gives(stream - other, runs),
        Operation::SymmetricDifference => gives(stream ^ other, runs),
        Operation::Complement => gives(!stream, runs),
    }
}

/// Returns whether an operator on a complement gives what is wanted.
fn of_a_complement(operation: Operation) -> bool {
    let stream = !!range(20, 29);
    let (other, runs) = (range(25, 40), wanted(operation));
    match operation {
        Operation::Union => gives(stream | other, runs),
        Operation::Intersection => gives(stream & other, runs),
        Operation::Difference => gives(stream - other, runs),
        Operation::SymmetricDifference => gives(stream ^ other, runs),
        Operation::Complement => gives(!stream, runs),
    }
}

/// Returns whether an operator on a union gives what is wanted.
fn of_a_union(operation: Operation) -> bool {
    let stream = range(20, 24) | range(23, 29);
    let (other, runs) = (range(25, 40), wanted(operation));
    match operation {
        Operation::Union => gives(stream | other, runs),
        Operation::Intersection => gives(stream & other, runs),
        Operation::Difference => gives(stream - other, runs),
        Operation::SymmetricDifference => gives(stream ^ other, runs),
        Operation::Complement => gives(!stream, runs),
    }
}

/// Returns whether an operator on an intersection gives what is wanted.
fn of_an_intersection(operation: Operation) -> bool {
    let stream = range(20, 99) & range(0, 29);
    let (other, runs) = (range(25, 40), wanted(operation));
    match operation {
        Operation::Union => gives(stream | other, runs),
        Operation::Intersection => gives(stream & other, runs),
        Operation::Difference => gives(stream - other, runs),
        Operation::SymmetricDifference => gives(stream ^ other, runs),
        Operation::Complement => gives(!stream, runs),
    }
}

/// Returns whether an operator on a difference gives what is wanted.
fn of_a_difference(operation: Operation) -> bool {
    let stream = range(20, 99) - range(30, 255);
    let (other, runs) = (range(25, 40), wanted(operation));
    match operation {
        Operation::Union => gives(stream | other, runs),
        Operation::Intersection => gives(stream & other, runs),
        Operation::Difference => gives(stream - other, runs),
        Operation::SymmetricDifference => gives(stream ^ other, runs),
        Operation::Complement => gives(!stream, runs),
    }
}

/// Returns whether an operator on a symmetric difference gives what is wanted.
fn of_a_symmetric_difference(operation: Operation) -> bool {
    let stream = range(20, 50) ^ range(30, 50);
    let (other, runs) = (range(25, 40), wanted(operation));
    match operation {
        Operation::Union => gives(stream | other, runs),
        Operation::Intersection => gives(stream & other, runs),
        Operation::Difference => gives(stream - other, runs),
        Operation::SymmetricDifference => gives(stream ^ other, runs),
        Operation::Complement => gives(!stream, runs),
    }
}

#[test]
fn operators_of_each_stream_type(rt: HostRuntime) {
    for operation in OPERATIONS {
        let is_right = of_a_range(operation)
            && of_a_joined_stream(operation)
            && of_a_known_stream(operation)
            && of_a_complement(operation)
            && of_a_union(operation)
            && of_an_intersection(operation)
            && of_a_difference(operation)
            && of_a_symmetric_difference(operation);
        assert!(rt; is_right, "{operation:?}");
    }
}
