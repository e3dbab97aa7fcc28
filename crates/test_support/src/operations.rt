//! The five operations on streams, by name.

use crate::tables::gives;
use rsb_integer::Integer;
use rsb_streams::DrawDisjoint;

/// An operation on streams.
#[derive(Clone, Copy, Debug, PartialEq)]
pub enum Operation {
    /// The values in either of two streams or in both.
    Union,
    /// The values in both streams.
    Intersection,
    /// The values in the left stream that are not in the right one.
    Difference,
    /// The values in exactly one of the streams.
    SymmetricDifference,
    /// The values that are not in the left stream.
    Complement,
}

/// All operations.
pub const OPERATIONS: [Operation; 5] = [
    Operation::Union,
    Operation::Intersection,
    Operation::Difference,
    Operation::SymmetricDifference,
    Operation::Complement,
];

/// Returns whether an operation on two ready streams gives exactly the ranges with these ends.
pub fn operation_gives<T: Integer, L: DrawDisjoint<T>, R: DrawDisjoint<T>>(
    operation: Operation,
    left: L,
    right: R,
    wanted: &[(T, T)],
) -> bool
    requires left { L.can_draw left }
    requires right { R.can_draw right }
{
    match operation {
        Operation::Union => gives(left.union(right), wanted),
        Operation::Intersection => gives(left.intersection(right), wanted),
        Operation::Difference => gives(left.difference(right), wanted),
        Operation::SymmetricDifference => gives(left.symmetric_difference(right), wanted),
        Operation::Complement => gives(left.complement(), wanted),
    }
}
