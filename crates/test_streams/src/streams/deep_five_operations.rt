//! A nest of eight operations of all five kinds, generic over ready streams of one element type.

use crate::streams::deep_nests::range;
use rsb_integer::Integer;
use rsb_streams::{
    Difference, Draw, DrawDisjoint, Intersection, NotIter, SymmetricDifference, Union,
};
use rsb_user_types::{Side, Slot};
use test_support::{gives, slot};

/// The values in neither of two streams.
type Two<T, S, I> = NotIter<T, Union<T, S, I>>;

/// Returns the result of two operations of two kinds on any streams.
fn two<T: Integer, S: DrawDisjoint<T>, I: DrawDisjoint<T>>(stream: S, other: I) -> Two<T, S, I>
    requires stream { S.can_draw stream }
    requires other { I.can_draw other }
    ensures { ⟦<Two<T, S, I> as Draw<T>>⟧.can_draw result }
{
    !stream.union(other)
}

/// The values in both of two streams but not in a third, combined with a fourth by symmetric
/// difference.
type Three<T, S, I> = SymmetricDifference<T, Difference<T, Intersection<T, S, I>, I>, I>;

/// Returns the result of three operations of the other three kinds on any streams.
fn three<T: Integer, S: DrawDisjoint<T>, I: DrawDisjoint<T>>(
    stream: S,
    others: (I, I, I),
) -> Three<T, S, I>
    requires stream { S.can_draw stream }
    requires others { (I.can_draw others.0) × (I.can_draw others.1) × (I.can_draw others.2) }
    ensures { ⟦<Three<T, S, I> as Draw<T>>⟧.can_draw result }
{
    stream.intersection(others.0) - others.1 ^ others.2
}

/// Returns the result of eight operations on any streams.
fn eight<T: Integer, S: DrawDisjoint<T>, I: DrawDisjoint<T>>(
    stream: S,
    first: I,
    some: (I, I, I),
    others: (I, I, I),
) -> Three<T, Three<T, Two<T, S, I>, I>, I>
    requires stream { S.can_draw stream }
    requires first { I.can_draw first }
    requires some { (I.can_draw some.0) × (I.can_draw some.1) × (I.can_draw some.2) }
    requires others { (I.can_draw others.0) × (I.can_draw others.1) × (I.can_draw others.2) }
    ensures { ⟦<Three<T, Three<T, Two<T, S, I>, I>, I> as Draw<T>>⟧.can_draw result }
{
    three(three(two(stream, first), some), others)
}

/// Returns whether eight operations on ranges with these ends give exactly the wanted ranges.
fn eight_gives<T: Integer>(ends: &[(T, T); 8], wanted: &[(T, T)]) -> bool {
    let [stream, first, a, b, c, d, e, f] = *ends;
    let some = (range(a), range(b), range(c));
    let others = (range(d), range(e), range(f));
    gives(eight(range(stream), range(first), some, others), wanted)
}

#[test]
fn eight_operations_of_five_kinds(rt: HostRuntime) {
    // The first two operations give 0..=19 and 81..=255, and the next three 5..=9, 13..=19, 81..=89
    // and 100..=200. The last three give the gaps of 7..=9, 13..=19, 81..=89 and 100..=119.
    let ends = [
        (20u8, 29),
        (25, 80),
        (10, 200),
        (90, 99),
        (5, 12),
        (7, 150),
        (120, 255),
        (0, 255),
    ];
    assert!(rt; eight_gives(&ends, &[(0, 6), (10, 12), (20, 80), (90, 99), (120, 255)]));
}

#[test]
fn eight_operations_on_two_values(rt: HostRuntime) {
    // The first two operations give the upper side, and the next three the lower one.
    let (all, low) = ((Side::Lo, Side::Hi), (Side::Lo, Side::Lo));
    let (none, high) = ((Side::Hi, Side::Lo), (Side::Hi, Side::Hi));
    assert!(rt; eight_gives(&[low, none, all, low, all, low, none, high], &[all]));
}

/// Returns the slots with two numbers.
fn two_slots(first: u8, last: u8) -> (Slot, Slot) {
    (slot(first), slot(last))
}

#[test]
fn eight_operations_on_slots(rt: HostRuntime) {
    // The first two operations give 0..=19 and 81..=95, and the next three 5..=9, 13..=19, 81..=84
    // and 88..=90. The last three give the gaps of 7..=9, 13..=19 and 81..=81.
    let ends = [
        two_slots(20, 29),
        two_slots(25, 80),
        two_slots(10, 90),
        two_slots(85, 87),
        two_slots(5, 12),
        two_slots(7, 88),
        two_slots(82, 95),
        two_slots(0, 95),
    ];
    let wanted = [
        two_slots(0, 6),
        two_slots(10, 12),
        two_slots(20, 80),
        two_slots(82, 95),
    ];
    assert!(rt; eight_gives(&ends, &wanted));
}
