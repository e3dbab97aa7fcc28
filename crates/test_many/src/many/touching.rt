//! Many streams whose ranges may touch within each stream.

use crate::many::sweeps::{end, start};
use rsb_many::{MultiwaySweep, MultiwaySymmetricDifference};
use std::test::Fail;
use test_support::{Ranges, gives, neighbors_of};

/// Two inputs. The ranges of the first touch, and the range of the other spans the place where they
/// do.
static TWO: [Ranges; 2] = [&[(1, 2), (3, 4)], &[(2, 3)]];

#[test]
fn ranges_that_touch_are_told_apart(rt: HostRuntime) -> Result<(), Fail> {
    let inputs = [neighbors_of(TWO[0]), neighbors_of(TWO[1])];
    let events = [
        start(1, 2, 0),
        start(2, 3, 1),
        end(2, 0),
        start(3, 4, 0),
        end(3, 1),
        end(4, 0),
    ];
    assert!(rt; MultiwaySweep::new_touching(rt.alloc(), inputs)?.eq(events));
    Ok(())
}

#[test]
fn ranges_that_touch_are_joined_in_a_symmetric_difference(rt: HostRuntime) -> Result<(), Fail> {
    let both = [neighbors_of(TWO[0]), neighbors_of(TWO[1])];
    let odd = MultiwaySymmetricDifference::new_touching(rt.alloc(), both)?;
    assert!(rt; gives(odd, &[(1, 1), (4, 4)]));
    Ok(())
}

#[test]
fn ranges_of_one_stream_that_touch_are_joined(rt: HostRuntime) -> Result<(), Fail> {
    let first = [neighbors_of(TWO[0])];
    let odd = MultiwaySymmetricDifference::new_touching(rt.alloc(), first)?;
    assert!(rt; gives(odd, &[(1, 4)]));
    Ok(())
}
