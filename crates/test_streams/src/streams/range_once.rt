//! One range as a stream.

use rsb_streams::RangeOnce;
use test_support::gives;

#[test]
fn single_range_comes_only_where_it_has_members(rt: HostRuntime) {
    for value in [0u8, 3, 255] {
        assert!(rt;
            gives(RangeOnce::new(value..=255), &[(value, 255)]),
            "from {value}"
        );
    }
    assert!(rt; gives(RangeOnce::new(3u8..=5), &[(3, 5)]));
    assert!(rt; gives(RangeOnce::new(3u8..=2), &[]));
    let mut emptied = 4u8..=4;
    emptied.next();
    assert!(rt; gives(RangeOnce::new(emptied), &[]));
}

#[test]
fn single_range_comes_from_both_ends(rt: HostRuntime) {
    let mut once = RangeOnce::from(3u8..=5);
    assert!(rt; once.len() == 1);
    assert!(rt; once.next_back() == Some(3..=5));
    assert!(rt; once.len() == 0);
    assert!(rt; once.next() == None);
    assert!(rt; once.next_back() == None);
}

#[test]
fn single_range_tells_how_many_are_left(rt: HostRuntime) {
    let mut once = RangeOnce::new(3u8..=5);
    assert!(rt; once.size_hint() == (1, Some(1)));
    assert!(rt; once.next() == Some(3..=5));
    assert!(rt; once.size_hint() == (0, Some(0)));
}
