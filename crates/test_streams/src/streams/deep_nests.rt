//! A nest of eight symmetric differences, and one of eight complements.

use rsb_integer::Integer;
use rsb_streams::{Draw, DrawDisjoint, RangeOnce, SymmetricDifference};
use test_support::gives;

/// The ends of four ranges.
type Ends = [(u8, u8); 4];

/// Returns a stream of the range with these ends.
pub(crate) fn range<T: Integer>(ends: (T, T)) -> RangeOnce<T>
    ensures { ⟦<RangeOnce<T> as Draw<T>>⟧.can_draw result }
{
    RangeOnce::new(ends.0..=ends.1)
}

/// The symmetric difference of a stream and two ranges.
type TwoSymmetricDifferences<S> = SymmetricDifference<
    u8,
    SymmetricDifference<u8, S, RangeOnce<u8>>,
    RangeOnce<u8>,
>;

/// Returns the values in an odd number of a stream and four ranges.
fn four_symmetric_differences<S: DrawDisjoint<u8>>(
    stream: S,
    ends: Ends,
) -> TwoSymmetricDifferences<TwoSymmetricDifferences<S>>
    requires { S.can_draw stream }
    ensures { ⟦<TwoSymmetricDifferences<TwoSymmetricDifferences<S>> as Draw<u8>>⟧.can_draw result }
{
    let [first, second, third, fourth] = ends;
    stream.symmetric_difference(range(first)) ^ range(second) ^ range(third) ^ range(fourth)
}

#[test]
fn eight_symmetric_differences_keep_what_an_odd_number_has(rt: HostRuntime) {
    let five = four_symmetric_differences(range((0, 255)), [(0, 0), (2, 2), (4, 4), (6, 253)]);
    let nine = four_symmetric_differences(five, [(8, 8), (10, 10), (12, 12), (255, 255)]);
    assert!(rt;
        gives(
            nine,
            &[
                (1, 1),
                (3, 3),
                (5, 5),
                (8, 8),
                (10, 10),
                (12, 12),
                (254, 254)
            ]
        )
    );
}

#[test]
fn eight_complements_give_the_range_back(rt: HostRuntime) {
    assert!(rt; gives(!!!!!!!!range((3u8, 5)), &[(3, 5)]));
}
