//! What each operation on two streams gives, in rows worked out by hand.

use test_support::Operation;

/// The ends of ranges.
type Ranges = &'static [(u8, u8)];

/// Two streams, and what each operation on them gives.
#[derive(Drop)]
pub(crate) struct Row {
    /// The ranges of the first stream.
    pub(crate) left: Ranges,
    /// The ranges of the second stream.
    pub(crate) right: Ranges,
    union: Ranges,
    intersection: Ranges,
    difference: Ranges,
    symmetric_difference: Ranges,
    /// The complement of the first stream.
    complement: Ranges,
}

impl Row {
    /// Returns what an operation on the two streams gives.
    pub(crate) fn wanted(&self, operation: Operation) -> Ranges {
        match operation {
            Operation::Union => self.union,
            Operation::Intersection => self.intersection,
            Operation::Difference => self.difference,
            Operation::SymmetricDifference => self.symmetric_difference,
            Operation::Complement => self.complement,
        }
    }
}

/// Single ranges that overlap, touch or leave a gap.
pub(crate) static RANGES: [Row; 14] = [
    // Ranges that touch.
    Row {
        left: &[(0, 4)],
        right: &[(5, 9)],
        union: &[(0, 9)],
        intersection: &[],
        difference: &[(0, 4)],
        symmetric_difference: &[(0, 9)],
        complement: &[(5, 255)],
    },
    // Ranges that meet in one value.
    Row {
        left: &[(0, 5)],
        right: &[(5, 9)],
        union: &[(0, 9)],
        intersection: &[(5, 5)],
        difference: &[(0, 4)],
        symmetric_difference: &[(0, 4), (6, 9)],
        complement: &[(6, 255)],
    },
    // Ranges with a gap between them.
    Row {
        left: &[(0, 9)],
        right: &[(200, 255)],
        union: &[(0, 9), (200, 255)],
        intersection: &[],
        difference: &[(0, 9)],
        symmetric_difference: &[(0, 9), (200, 255)],
        complement: &[(10, 255)],
    },
    Row {
        left: &[(5, 9)],
        right: &[(200, 255)],
        union: &[(5, 9), (200, 255)],
        intersection: &[],
        difference: &[(5, 9)],
        symmetric_difference: &[(5, 9), (200, 255)],
        complement: &[(0, 4), (10, 255)],
    },
    Row {
        left: &[(0, 4)],
        right: &[(200, 255)],
        union: &[(0, 4), (200, 255)],
        intersection: &[],
        difference: &[(0, 4)],
        symmetric_difference: &[(0, 4), (200, 255)],
        complement: &[(5, 255)],
    },
    // Ranges that overlap.
    Row {
        left: &[(1, 5)],
        right: &[(4, 9)],
        union: &[(1, 9)],
        intersection: &[(4, 5)],
        difference: &[(1, 3)],
        symmetric_difference: &[(1, 3), (6, 9)],
        complement: &[(0, 0), (6, 255)],
    },
    Row {
        left: &[(0, 9)],
        right: &[(5, 20)],
        union: &[(0, 20)],
        intersection: &[(5, 9)],
        difference: &[(0, 4)],
        symmetric_difference: &[(0, 4), (10, 20)],
        complement: &[(10, 255)],
    },
    Row {
        left: &[(10, 255)],
        right: &[(5, 20)],
        union: &[(5, 255)],
        intersection: &[(10, 20)],
        difference: &[(21, 255)],
        symmetric_difference: &[(5, 9), (21, 255)],
        complement: &[(0, 9)],
    },
    Row {
        left: &[(5, 9)],
        right: &[(0, 6)],
        union: &[(0, 9)],
        intersection: &[(5, 6)],
        difference: &[(7, 9)],
        symmetric_difference: &[(0, 4), (7, 9)],
        complement: &[(0, 4), (10, 255)],
    },
    Row {
        left: &[(5, 9)],
        right: &[(2, 6)],
        union: &[(2, 9)],
        intersection: &[(5, 6)],
        difference: &[(7, 9)],
        symmetric_difference: &[(2, 4), (7, 9)],
        complement: &[(0, 4), (10, 255)],
    },
    Row {
        left: &[(0, 4)],
        right: &[(2, 6)],
        union: &[(0, 6)],
        intersection: &[(2, 4)],
        difference: &[(0, 1)],
        symmetric_difference: &[(0, 1), (5, 6)],
        complement: &[(5, 255)],
    },
    // A range within another.
    Row {
        left: &[(1, 9)],
        right: &[(2, 3)],
        union: &[(1, 9)],
        intersection: &[(2, 3)],
        difference: &[(1, 1), (4, 9)],
        symmetric_difference: &[(1, 1), (4, 9)],
        complement: &[(0, 0), (10, 255)],
    },
    Row {
        left: &[(1, 4)],
        right: &[(2, 3)],
        union: &[(1, 4)],
        intersection: &[(2, 3)],
        difference: &[(1, 1), (4, 4)],
        symmetric_difference: &[(1, 1), (4, 4)],
        complement: &[(0, 0), (5, 255)],
    },
    Row {
        left: &[(10, 255)],
        right: &[(200, 255)],
        union: &[(10, 255)],
        intersection: &[(200, 255)],
        difference: &[(10, 199)],
        symmetric_difference: &[(10, 199)],
        complement: &[(0, 9)],
    },
];

/// Streams with gaps.
pub(crate) static GAPS: [Row; 10] = [
    // Runs on both sides of a gap.
    Row {
        left: &[(1, 2), (5, 100)],
        right: &[(2, 6)],
        union: &[(1, 100)],
        intersection: &[(2, 2), (5, 6)],
        difference: &[(1, 1), (7, 100)],
        symmetric_difference: &[(1, 1), (3, 4), (7, 100)],
        complement: &[(0, 0), (3, 4), (101, 255)],
    },
    // The same streams, exchanged.
    Row {
        left: &[(2, 6)],
        right: &[(1, 2), (5, 100)],
        union: &[(1, 100)],
        intersection: &[(2, 2), (5, 6)],
        difference: &[(3, 4)],
        symmetric_difference: &[(1, 1), (3, 4), (7, 100)],
        complement: &[(0, 1), (7, 255)],
    },
    // A range that lies within a gap, and one that fills it.
    Row {
        left: &[(1, 3), (6, 9)],
        right: &[(4, 4)],
        union: &[(1, 4), (6, 9)],
        intersection: &[],
        difference: &[(1, 3), (6, 9)],
        symmetric_difference: &[(1, 4), (6, 9)],
        complement: &[(0, 0), (4, 5), (10, 255)],
    },
    Row {
        left: &[(0, 9), (200, 255)],
        right: &[(10, 20)],
        union: &[(0, 20), (200, 255)],
        intersection: &[],
        difference: &[(0, 9), (200, 255)],
        symmetric_difference: &[(0, 20), (200, 255)],
        complement: &[(10, 199)],
    },
    Row {
        left: &[(0, 9), (20, 255)],
        right: &[(10, 19)],
        union: &[(0, 255)],
        intersection: &[],
        difference: &[(0, 9), (20, 255)],
        symmetric_difference: &[(0, 255)],
        complement: &[(10, 19)],
    },
    // A range that covers a gap.
    Row {
        left: &[(1, 2), (8, 9)],
        right: &[(2, 8)],
        union: &[(1, 9)],
        intersection: &[(2, 2), (8, 8)],
        difference: &[(1, 1), (9, 9)],
        symmetric_difference: &[(1, 1), (3, 7), (9, 9)],
        complement: &[(0, 0), (3, 7), (10, 255)],
    },
    Row {
        left: &[(1, 3), (6, 9)],
        right: &[(3, 6)],
        union: &[(1, 9)],
        intersection: &[(3, 3), (6, 6)],
        difference: &[(1, 2), (7, 9)],
        symmetric_difference: &[(1, 2), (4, 5), (7, 9)],
        complement: &[(0, 0), (4, 5), (10, 255)],
    },
    Row {
        left: &[(0, 4), (10, 20)],
        right: &[(2, 12)],
        union: &[(0, 20)],
        intersection: &[(2, 4), (10, 12)],
        difference: &[(0, 1), (13, 20)],
        symmetric_difference: &[(0, 1), (5, 9), (13, 20)],
        complement: &[(5, 9), (21, 255)],
    },
    Row {
        left: &[(0, 9), (200, 255)],
        right: &[(5, 220)],
        union: &[(0, 255)],
        intersection: &[(5, 9), (200, 220)],
        difference: &[(0, 4), (221, 255)],
        symmetric_difference: &[(0, 4), (10, 199), (221, 255)],
        complement: &[(10, 199)],
    },
    // A run that both streams have.
    Row {
        left: &[(0, 9), (200, 255)],
        right: &[(0, 9)],
        union: &[(0, 9), (200, 255)],
        intersection: &[(0, 9)],
        difference: &[(200, 255)],
        symmetric_difference: &[(200, 255)],
        complement: &[(10, 199)],
    },
];

/// Nothing, everything, and the ends of the type.
pub(crate) static ENDS: [Row; 12] = [
    // Everything, and nothing.
    Row {
        left: &[(0, 255)],
        right: &[],
        union: &[(0, 255)],
        intersection: &[],
        difference: &[(0, 255)],
        symmetric_difference: &[(0, 255)],
        complement: &[],
    },
    Row {
        left: &[],
        right: &[(0, 255)],
        union: &[(0, 255)],
        intersection: &[],
        difference: &[],
        symmetric_difference: &[(0, 255)],
        complement: &[(0, 255)],
    },
    Row {
        left: &[],
        right: &[],
        union: &[],
        intersection: &[],
        difference: &[],
        symmetric_difference: &[],
        complement: &[(0, 255)],
    },
    Row {
        left: &[(7, 255)],
        right: &[(0, 255)],
        union: &[(0, 255)],
        intersection: &[(7, 255)],
        difference: &[],
        symmetric_difference: &[(0, 6)],
        complement: &[(0, 6)],
    },
    Row {
        left: &[(7, 8)],
        right: &[(7, 8)],
        union: &[(7, 8)],
        intersection: &[(7, 8)],
        difference: &[],
        symmetric_difference: &[],
        complement: &[(0, 6), (9, 255)],
    },
    // Both ends of the type.
    Row {
        left: &[(0, 255)],
        right: &[(1, 254)],
        union: &[(0, 255)],
        intersection: &[(1, 254)],
        difference: &[(0, 0), (255, 255)],
        symmetric_difference: &[(0, 0), (255, 255)],
        complement: &[],
    },
    Row {
        left: &[(0, 1), (254, 255)],
        right: &[(0, 255)],
        union: &[(0, 255)],
        intersection: &[(0, 1), (254, 255)],
        difference: &[],
        symmetric_difference: &[(2, 253)],
        complement: &[(2, 253)],
    },
    Row {
        left: &[(0, 0), (255, 255)],
        right: &[(0, 0)],
        union: &[(0, 0), (255, 255)],
        intersection: &[(0, 0)],
        difference: &[(255, 255)],
        symmetric_difference: &[(255, 255)],
        complement: &[(1, 254)],
    },
    Row {
        left: &[(0, 254)],
        right: &[(255, 255)],
        union: &[(0, 255)],
        intersection: &[],
        difference: &[(0, 254)],
        symmetric_difference: &[(0, 255)],
        complement: &[(255, 255)],
    },
    Row {
        left: &[(1, 255)],
        right: &[(0, 0)],
        union: &[(0, 255)],
        intersection: &[],
        difference: &[(1, 255)],
        symmetric_difference: &[(0, 255)],
        complement: &[(0, 0)],
    },
    Row {
        left: &[(0, 2), (254, 255)],
        right: &[(2, 254)],
        union: &[(0, 255)],
        intersection: &[(2, 2), (254, 254)],
        difference: &[(0, 1), (255, 255)],
        symmetric_difference: &[(0, 1), (3, 253), (255, 255)],
        complement: &[(3, 253)],
    },
    Row {
        left: &[(0, 0), (2, 2), (254, 254)],
        right: &[(1, 1), (3, 3), (255, 255)],
        union: &[(0, 3), (254, 255)],
        intersection: &[],
        difference: &[(0, 0), (2, 2), (254, 254)],
        symmetric_difference: &[(0, 3), (254, 255)],
        complement: &[(1, 1), (3, 253), (255, 255)],
    },
];
