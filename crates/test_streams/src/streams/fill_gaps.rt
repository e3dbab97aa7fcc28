//! The runs and gaps of streams, in one iterator.

use rsb_streams::{DrawDisjoint, RangeOnce};
use test_support::{fills, stream_of};

/// The runs of a stream, and its runs and gaps.
static FILLED: [(&[(u8, u8)], &[(u8, u8, bool)]); 5] = [
    (&[], &[(0, 255, false)]),
    (&[(0, 255)], &[(0, 255, true)]),
    (
        &[(0, 0), (255, 255)],
        &[(0, 0, true), (1, 254, false), (255, 255, true)],
    ),
    (
        &[(1, 253), (255, 255)],
        &[
            (0, 0, false),
            (1, 253, true),
            (254, 254, false),
            (255, 255, true),
        ],
    ),
    (&[(0, 254)], &[(0, 254, true), (255, 255, false)]),
];

#[test]
fn runs_and_gaps_of_streams(rt: HostRuntime) {
    for (ranges, wanted) in &FILLED {
        assert!(rt; fills(stream_of(ranges), wanted), "{ranges:?}");
    }
}

#[test]
fn nothing_is_one_gap(rt: HostRuntime) {
    assert!(rt; fills(RangeOnce::new(1u8..=0), &[(0, 255, false)]));
}

#[test]
fn runs_and_gaps_reach_both_ends(rt: HostRuntime) {
    let stream = RangeOnce::new(1i8..=3).union(RangeOnce::new(7..=10));
    assert!(rt;
        fills(
            stream,
            &[
                (-128, 0, false),
                (1, 3, true),
                (4, 6, false),
                (7, 10, true),
                (11, 127, false)
            ],
        )
    );
}
