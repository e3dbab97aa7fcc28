//! What a symmetric difference holds between two calls.

use rsb_streams::{DrawDisjoint, RangeOnce, SymDiffIter};
use test_support::{gives, stream_of};

#[test]
fn it_is_made_of_a_pair_and_holds_no_end_at_first(rt: HostRuntime) {
    let alone = SymDiffIter::from((RangeOnce::new(1..=5), RangeOnce::new(4..=9)));
    assert!(rt; alone.pending_ends() == 0);
    assert!(rt; gives(alone, &[(1, 3), (6, 9)]));
}

#[test]
fn an_end_is_held_between_two_answers(rt: HostRuntime) {
    let cut = stream_of(&[(3, 4), (7, 8)]);
    let mut alone = stream_of(&[(1, 10)]).symmetric_difference(cut);
    assert!(rt; alone.next() == Some(1..=2));
    assert!(rt; alone.pending_ends() == 1);
    assert!(rt; gives(alone, &[(5, 6), (9, 10)]));
}

#[test]
fn it_ends_for_good(rt: HostRuntime) {
    let mut alone = RangeOnce::new(1..=5).symmetric_difference(RangeOnce::new(1..=3));
    assert!(rt; alone.next() == Some(4..=5));
    assert!(rt; alone.next().is_none() && alone.pending_ends() == 0);
    assert!(rt; alone.next().is_none());
}
