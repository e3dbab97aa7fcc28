//! How many ranges a union of many streams has drawn from its inputs after each call.

use rsb_many::MultiwaySortedDisjoint;
use rsb_user_types::Counted;
use std::alloc::{AllocError, Global};
use std::cell::Cell;
use std::ops::RangeInclusive;
use std::test::Fail;
use test_support::stream_of;

/// How many ranges were drawn from each of three inputs.
fn drawn_of(drawn: &[Cell<usize>; 3]) -> (usize, usize, usize) {
    (drawn[0].get(), drawn[1].get(), drawn[2].get())
}

/// How many ranges of each input a union has drawn when it is built, its first range, and how many
/// it has drawn then.
type Drawn = (
    (usize, usize, usize),
    Option<RangeInclusive<u8>>,
    (usize, usize, usize),
);

/// What a union of three streams draws.
fn drawn_for_the_first(alloc: Global) -> Result<Drawn, AllocError> {
    let drawn = [Cell::new(0), Cell::new(0), Cell::new(0)];
    let inputs = [
        Counted::new(stream_of(&[(1, 2), (10, 11), (20, 21)]), &drawn[0]),
        Counted::new(stream_of(&[(1, 3), (30, 31)]), &drawn[1]),
        Counted::new(stream_of(&[(2, 4), (40, 41), (50, 51)]), &drawn[2]),
    ];
    let mut union = inputs.union(alloc)?;
    let built = drawn_of(&drawn);
    let first = union.next();
    Ok((built, first, drawn_of(&drawn)))
}

#[test]
fn union_of_many_draws_one_range_of_each_and_then_one_more_than_it_uses(
    rt: HostRuntime,
) -> Result<(), Fail> {
    let (built, first, after) = drawn_for_the_first(rt.alloc())?;
    assert!(rt; built == (1, 1, 1) && first == Some(1..=4) && after == (2, 2, 2));
    Ok(())
}
