//! The elements of a set, by reference and by value, from both ends.

ghost use Rattle.std.specs.Prelude.{◌≡◌};

use crate::set::steps::End::{self, Back, Front};
use crate::set::steps::is_true_of;
use range_set_blaze::RangeSetBlaze;
use std::alloc::AllocError;
use std::test::*;
use test_support::{Table, set_of};

/// The ends that elements are taken from, one after the other, and what each call then returns.
type Steps<'a> = &'a [(End, Option<i32>)];

/// Whether a set gives these elements, with hints that hold for the number left.
fn gives(set: &RangeSetBlaze<i32>, count: usize, steps: Steps<'_>) -> bool {
    let mut elements = set.iter();
    let mut left = count;
    for (end, wanted) in steps {
        let is_told = is_true_of(elements.size_hint(), left);
        let found = match end {
            Front => elements.next(),
            Back => elements.next_back(),
        };
        if !is_told || found != *wanted {
            return false;
        }
        left = left.saturating_sub(1);
    }
    is_true_of(elements.size_hint(), left)
}

/// Whether a set passed by value gives these elements, with hints that hold for the number left.
fn gives_up(set: RangeSetBlaze<i32>, count: usize, steps: Steps<'_>) -> bool {
    let mut elements = set.into_iter();
    let mut left = count;
    for (end, wanted) in steps {
        let is_told = is_true_of(elements.size_hint(), left);
        let found = match end {
            Front => elements.next(),
            Back => elements.next_back(),
        };
        if !is_told || found != *wanted {
            return false;
        }
        left = left.saturating_sub(1);
    }
    is_true_of(elements.size_hint(), left)
}

#[test]
fn each_element_comes_once_from_either_end(rt: HostRuntime) -> Result<(), Fail> {
    let set = set_of(rt.alloc(), &[(1, 3)])?;
    let steps = [
        (Front, Some(1)),
        (Back, Some(3)),
        (Front, Some(2)),
        (Back, None),
        (Front, None),
    ];
    assert!(rt; gives(&set, 3, &steps));
    Ok(())
}

#[test]
fn owned_elements_come_from_both_ends(rt: HostRuntime) -> Result<(), Fail> {
    let set = set_of(rt.alloc(), &[(1, 2), (5, 5)])?;
    let steps = [
        (Back, Some(5)),
        (Front, Some(1)),
        (Front, Some(2)),
        (Front, None),
        (Back, None),
    ];
    assert!(rt; gives_up(set, 3, &steps));
    Ok(())
}

/// A set, the number of its elements, and those that come from either end, one after the other.
static IN_TURN: [(Table<'static>, usize, Steps<'static>); 9] = [
    (&[], 0, &[(Front, None), (Back, None)]),
    (
        &[(7, 7)],
        1,
        &[(Back, Some(7)), (Back, None), (Front, None)],
    ),
    (
        &[(1, 3)],
        3,
        &[
            (Front, Some(1)),
            (Back, Some(3)),
            (Front, Some(2)),
            (Back, None),
            (Front, None),
        ],
    ),
    (
        &[(1, 3)],
        3,
        &[
            (Front, Some(1)),
            (Back, Some(3)),
            (Back, Some(2)),
            (Front, None),
        ],
    ),
    (
        &[(1, 2), (5, 5)],
        3,
        &[
            (Front, Some(1)),
            (Back, Some(5)),
            (Back, Some(2)),
            (Back, None),
        ],
    ),
    (&[(1, 3), (7, 8)], 5, &[(Front, Some(1)), (Back, Some(8))]),
    (
        &[(1, 2), (5, 5), (7, 9)],
        6,
        &[
            (Front, Some(1)),
            (Back, Some(9)),
            (Front, Some(2)),
            (Back, Some(8)),
            (Front, Some(5)),
            (Back, Some(7)),
            (Front, None),
        ],
    ),
    (
        &[(i32::MIN, i32::MIN + 1), (i32::MAX - 1, i32::MAX)],
        4,
        &[
            (Front, Some(i32::MIN)),
            (Front, Some(i32::MIN + 1)),
            (Front, Some(i32::MAX - 1)),
            (Front, Some(i32::MAX)),
            (Front, None),
        ],
    ),
    (
        &[(i32::MIN, i32::MIN + 1), (i32::MAX - 1, i32::MAX)],
        4,
        &[
            (Back, Some(i32::MAX)),
            (Back, Some(i32::MAX - 1)),
            (Back, Some(i32::MIN + 1)),
            (Back, Some(i32::MIN)),
            (Back, None),
        ],
    ),
];

#[test]
fn elements_come_in_turn_whoever_owns_them(rt: HostRuntime) -> Result<(), Fail> {
    for (ranges, count, steps) in &IN_TURN {
        let set = set_of(rt.alloc(), ranges)?;
        let is_right = gives(&set, *count, steps) && gives_up(set, *count, steps);
        assert!(rt; is_right, "{ranges:?}");
    }
    Ok(())
}

/// Whether an iterator and a copy of it give 2 next.
fn both_give_two<I: Iterator<Item = i32> + Clone>(elements: I) -> Result<bool, AllocError>
    requires ready { I.can_next elements }
    requires copies { (stream copy : I) → I.is_clone stream copy → copy ≡ stream }
{
    let mut copy = elements.clone()?;
    let mut elements = elements;
    Ok(elements.next() == Some(2) && copy.next() == Some(2))
}

#[test]
fn a_clone_gives_the_same_elements(rt: HostRuntime) -> Result<(), Fail> {
    let set = set_of(rt.alloc(), &[(1, 3)])?;
    let mut elements = set.iter();
    assert!(rt; elements.next() == Some(1));
    assert!(rt; both_give_two(elements)?);
    Ok(())
}

#[test]
fn loops_go_over_a_set_and_over_a_reference(rt: HostRuntime) -> Result<(), Fail> {
    let set = set_of(rt.alloc(), &[(-2, -1), (1, 1), (4, 5)])?;
    let mut elements = Vec::new(rt.alloc());
    for value in &set {
        elements.push(value)?;
    }
    for value in set {
        elements.push(value)?;
    }
    assert!(rt; elements[..] == [-2, -1, 1, 4, 5, -2, -1, 1, 4, 5][..]);
    Ok(())
}
