//! Questions about one or two streams: how many members they have, and whether they are empty,
//! universal, equal, subsets of one another, or disjoint.

use rsb_streams::DrawDisjoint;
use rsb_user_types::Counted;
use std::cell::Cell;
use test_support::stream_of;

/// The ends of ranges.
type Ranges = &'static [(u8, u8)];

/// A stream, its number of members, whether it is empty, and whether it is universal.
static ALONE: [(Ranges, u16, bool, bool); 7] = [
    (&[], 0, true, false),
    (&[(0, 0)], 1, false, false),
    (&[(255, 255)], 1, false, false),
    (&[(0, 254)], 255, false, false),
    (&[(1, 255)], 255, false, false),
    (&[(0, 1), (9, 9), (250, 255)], 9, false, false),
    (&[(0, 255)], 256, false, true),
];

#[test]
fn questions_of_one_stream(rt: HostRuntime) {
    for (ranges, members, is_empty, is_universal) in &ALONE {
        let is_told = stream_of(ranges).members_len() == *members
            && stream_of(ranges).is_empty() == *is_empty
            && stream_of(ranges).is_universal() == *is_universal;
        assert!(rt; is_told, "{ranges:?}");
    }
}

/// The results of the questions about two streams.
#[derive(Clone, Copy, Debug, Drop, PartialEq)]
struct Told {
    equal: bool,
    is_subset: bool,
    is_superset: bool,
    is_disjoint: bool,
}

/// Returns the results for the ranges of two tables.
fn told_of(left: Ranges, right: Ranges) -> Told {
    Told {
        equal: stream_of(left).equal(stream_of(right)),
        is_subset: stream_of(left).is_subset(stream_of(right)),
        is_superset: stream_of(left).is_superset(stream_of(right)),
        is_disjoint: stream_of(left).is_disjoint(stream_of(right)),
    }
}

/// Both streams are empty.
const BOTH_EMPTY: Told = Told {
    equal: true,
    is_subset: true,
    is_superset: true,
    is_disjoint: true,
};

/// Both streams have the same members.
const SAME: Told = Told {
    equal: true,
    is_subset: true,
    is_superset: true,
    is_disjoint: false,
};

/// Only the left stream is empty.
const NOTHING_OF: Told = Told {
    equal: false,
    is_subset: true,
    is_superset: false,
    is_disjoint: true,
};

/// Only the right stream is empty.
const OF_NOTHING: Told = Told {
    equal: false,
    is_subset: false,
    is_superset: true,
    is_disjoint: true,
};

/// The left stream is a proper part of the right one.
const PART: Told = Told {
    equal: false,
    is_subset: true,
    is_superset: false,
    is_disjoint: false,
};

/// The right stream is a proper part of the left one.
const WHOLE: Told = Told {
    equal: false,
    is_subset: false,
    is_superset: true,
    is_disjoint: false,
};

/// The streams have no member in common.
const APART: Told = Told {
    equal: false,
    is_subset: false,
    is_superset: false,
    is_disjoint: true,
};

/// The streams have some members in common.
const MEETING: Told = Told {
    equal: false,
    is_subset: false,
    is_superset: false,
    is_disjoint: false,
};

/// Pairs of streams, and the results for them.
static PAIRS: [(Ranges, Ranges, Told); 24] = [
    (&[], &[], BOTH_EMPTY),
    (&[(0, 255)], &[(0, 255)], SAME),
    (&[(250, 255)], &[(250, 255)], SAME),
    (&[(1, 2), (4, 4)], &[(1, 2), (4, 4)], SAME),
    (&[], &[(8, 8)], NOTHING_OF),
    (&[], &[(0, 255)], NOTHING_OF),
    (&[(0, 255)], &[], OF_NOTHING),
    (&[(0, 0)], &[], OF_NOTHING),
    (&[(1, 2)], &[(1, 2), (4, 4)], PART),
    (&[(1, 2), (4, 4)], &[(1, 2)], WHOLE),
    (&[(1, 2), (4, 254)], &[(1, 2), (4, 255)], PART),
    (&[(0, 255)], &[(1, 255)], WHOLE),
    (&[(1, 3)], &[(0, 5)], PART),
    (&[(0, 5)], &[(1, 3)], WHOLE),
    (&[(255, 255)], &[(0, 255)], PART),
    (&[(0, 0), (255, 255)], &[(0, 0)], WHOLE),
    (&[(1, 2)], &[(3, 4)], APART),
    (&[(3, 4)], &[(1, 2)], APART),
    (&[(0, 254)], &[(255, 255)], APART),
    (
        &[(0, 0), (2, 2), (254, 254)],
        &[(1, 1), (3, 3), (255, 255)],
        APART,
    ),
    (&[(1, 2)], &[(2, 4)], MEETING),
    (&[(0, 3), (255, 255)], &[(4, 9), (254, 255)], MEETING),
    (&[(1, 3), (255, 255)], &[(0, 254)], MEETING),
    (&[(3, 5)], &[(0, 3), (5, 9)], MEETING),
];

#[test]
fn questions_of_two_streams(rt: HostRuntime) {
    for (left, right, wanted) in &PAIRS {
        assert_eq!(rt; told_of(left, right), *wanted, "{left:?} and {right:?}");
    }
}

/// A question about one or two streams.
#[derive(Clone, Copy, Debug)]
enum Question {
    IsEmpty,
    IsUniversal,
    Equal,
    IsSubset,
    IsSuperset,
    IsDisjoint,
}

/// Returns how many ranges a question draws from the streams of two tables.
fn drawn_by(question: Question, left: Ranges, right: Ranges) -> (usize, usize) {
    let (lefts, rights) = (Cell::new(0), Cell::new(0));
    let left = Counted::new(stream_of(left), &lefts);
    let right = Counted::new(stream_of(right), &rights);
    match question {
        Question::IsEmpty => left.is_empty(),
        Question::IsUniversal => left.is_universal(),
        Question::Equal => left.equal(right),
        Question::IsSubset => left.is_subset(right),
        Question::IsSuperset => left.is_superset(right),
        Question::IsDisjoint => left.is_disjoint(right),
    };
    (lefts.get(), rights.get())
}

/// A stream of nine ranges.
const LEFT: Ranges = &[
    (0, 1),
    (10, 12),
    (20, 29),
    (40, 49),
    (60, 69),
    (80, 89),
    (100, 109),
    (120, 129),
    (140, 149),
];

/// A stream that differs from `LEFT` in the second and the third range.
const RIGHT: Ranges = &[
    (0, 1),
    (11, 12),
    (21, 29),
    (40, 49),
    (60, 69),
    (80, 89),
    (100, 109),
    (120, 129),
    (140, 149),
];

/// A question, two streams, and how many ranges are drawn from each.
static DRAWN: [(Question, Ranges, Ranges, (usize, usize)); 6] = [
    (Question::IsEmpty, LEFT, RIGHT, (1, 0)),
    (Question::IsUniversal, LEFT, RIGHT, (1, 0)),
    (Question::Equal, LEFT, RIGHT, (2, 2)),
    (Question::IsSubset, LEFT, RIGHT, (4, 3)),
    (Question::IsSuperset, LEFT, RIGHT, (9, 9)),
    (Question::IsDisjoint, LEFT, RIGHT, (3, 3)),
];

#[test]
fn questions_stop_where_they_are_answered(rt: HostRuntime) {
    for (question, left, right, wanted) in &DRAWN {
        assert_eq!(rt; drawn_by(*question, left, right), *wanted, "{question:?}");
    }
}
