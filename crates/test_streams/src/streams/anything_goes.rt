//! `AnythingGoes`, the trait of streams that may give any ranges.

use rsb_integer::Integer;
use rsb_streams::{AnythingGoes, Merge, RangeOnce};
use rsb_user_types::OrdinalWeekends;
use std::ops::RangeInclusive;

/// Returns the first range of any stream of ranges.
fn first<T: Integer, I: AnythingGoes<T>>(stream: I) -> Option<RangeInclusive<T>>
    requires { I.can_next stream }
{
    let mut stream = stream;
    stream.next()
}

#[test]
fn a_merge_and_a_stream_of_ones_own_go(rt: HostRuntime) {
    assert!(rt; first(OrdinalWeekends::new()) == Some(1..=1));
    assert!(rt; first(Merge::new(RangeOnce::new(3u8..=9), RangeOnce::new(1..=2))) == Some(1..=2));
}
