//! Clones of streams that were drawn from: each gives what the original still gives.

ghost use Rattle.std.specs.Prelude.{◌≡◌};

use crate::streams::nested::{known, sorted, touching};
use rsb_streams::{Draw, DrawDisjoint, Merge, UnionIter};
use std::alloc::AllocError;
use std::test::Fail;
use test_support::{Listed, both_give, stream_of, three_tens};

/// The values from 5 to 25 in steps of five.
const FIVE: [(u8, u8); 5] = [(5, 5), (10, 10), (15, 15), (20, 20), (25, 25)];

/// The last two ranges of `three_tens`.
const TWO: [(u8, u8); 2] = [(10, 10), (20, 20)];

/// Returns a stream of the values 5, 15 and 25.
fn fives() -> Listed<'static>
    ensures { ⟦<Listed<'static> as Draw<u8>>⟧.can_draw result }
{
    stream_of(&[(5, 5), (15, 15), (25, 25)])
}

/// Returns whether a stream first gives `first`, and then both it and a clone of it give `others`.
fn goes_on<I: Draw<u8> + Clone>(
    stream: I,
    first: (u8, u8),
    others: &[(u8, u8)],
) -> Result<bool, AllocError>
    requires ready { I.can_draw stream }
    requires copies { (stream copy : I) → I.is_clone stream copy → copy ≡ stream }
{
    let mut stream = stream;
    let range = stream.draw();
    Ok(range == Some(first.0..=first.1) && both_give(stream, others)?)
}

#[test]
fn clones_of_merges_of_joined_streams_and_of_complements_go_on(
    rt: HostRuntime,
) -> Result<(), Fail> {
    assert!(rt; goes_on(Merge::new(three_tens(), fives()), (0, 0), &FIVE)?);
    assert!(rt; goes_on(UnionIter::new(three_tens()), (0, 0), &TWO)?);
    let gaps = [(11, 19), (21, 255)];
    assert!(rt; goes_on(three_tens().complement(), (1, 9), &gaps)?);
    Ok(())
}

// A union contains a merge and what joins it; an intersection contains complements.
#[test]
fn clones_of_unions_and_of_intersections_go_on(rt: HostRuntime) -> Result<(), Fail> {
    assert!(rt; goes_on(three_tens().union(fives()), (0, 0), &FIVE)?);
    assert!(rt; goes_on(three_tens().intersection(three_tens()), (0, 0), &TWO)?);
    Ok(())
}

#[test]
fn a_clone_of_a_difference_goes_on(rt: HostRuntime) -> Result<(), Fail> {
    assert!(rt; goes_on(three_tens().difference(fives()), (0, 0), &TWO)?);
    Ok(())
}

#[test]
fn clones_of_what_is_known_of_a_stream_go_on(rt: HostRuntime) -> Result<(), Fail> {
    assert!(rt; goes_on(known(three_tens()), (0, 0), &TWO)?);
    assert!(rt; goes_on(sorted(three_tens()), (0, 0), &TWO)?);
    assert!(rt; goes_on(touching(three_tens()), (0, 0), &TWO)?);
    Ok(())
}

#[test]
fn a_clone_of_a_symmetric_difference_keeps_what_is_pending(rt: HostRuntime) -> Result<(), Fail> {
    assert!(rt; goes_on(three_tens().symmetric_difference(fives()), (0, 0), &FIVE)?);
    Ok(())
}

#[test]
fn a_clone_of_filled_gaps_keeps_the_range_that_is_held(rt: HostRuntime) -> Result<(), Fail> {
    let mut filled = fives().fill_gaps();
    assert!(rt; filled.next() == Some((0..=4, false)));
    let mut copy = filled.clone()?;
    assert!(rt; filled.next() == Some((5..=5, true)));
    assert!(rt; copy.next() == Some((5..=5, true)));
    Ok(())
}
