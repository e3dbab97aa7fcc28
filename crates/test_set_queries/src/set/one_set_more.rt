//! Sets added one after the other, to count how many of them have each value.

ghost use Rattle.std.specs.Prelude.{map, IfOk, OnOk};
ghost use Rattle.rsb_integer.specs.Runs.{members};
ghost use Rattle.rsb_integer.specs.Selection.{at_least, intersection, union};
ghost use Rattle.range_set_blaze.specs.Set.{IsSetOf};

use range_set_blaze::{Integer, MultiwayRangeSetBlazeRef, RangeSetBlaze};
use std::alloc::{AllocError, Allocator, Global};
use std::test::*;
use test_support::{Table, has, set_of};

/// Adds one more set: `once` has what at least one of the sets so far has, and `twice` what at
/// least two have.
fn take_up(
    once: &mut RangeSetBlaze<i32>,
    twice: &mut RangeSetBlaze<i32>,
    set: &RangeSetBlaze<i32>,
) -> Result<(), AllocError>
    ensures once { OnOk result
        (IsSetOf once.new (union (members once.old) (members set.now))) }
    ensures twice { OnOk result (IsSetOf twice.new
        (union (members twice.old) (intersection (members once.old) (members set.now)))) }
{
    let again = once.bitand(set)?;
    twice.bitor_assign(&again)?;
    once.bitor_assign(set)?;
    Ok(())
}

/// Returns the set of the values in at least two of some sets.
fn in_two(alloc: Global, sets: &[RangeSetBlaze<i32>]) -> Result<RangeSetBlaze<i32>, AllocError>
    ensures { IfOk result (λ set. IsSetOf set (at_least 2 (map members sets.now))) }
{
    let mut once = RangeSetBlaze::new(alloc);
    let mut twice = RangeSetBlaze::new(alloc);
    for set in sets {
        take_up(&mut once, &mut twice, set)?;
    }
    Ok(twice)
}

/// Returns the set of the values in at least two of the sets of a list, all at once.
fn in_two_of_list<T: Integer, A: Allocator + Copy>(
    alloc: A,
    sets: &Vec<RangeSetBlaze<T, A>>,
) -> Result<RangeSetBlaze<T, A>, AllocError>
    ensures { IfOk result (λ set. IsSetOf set (at_least 2 (map members sets.now.items))) }
{
    sets.at_least(alloc, 2)
}

/// The runs of three sets.
static THREE: [Table<'static>; 3] = [&[(0, 9)], &[(5, 20)], &[(8, 9), (20, 30)]];

/// Returns the three sets.
fn three_sets(alloc: Global) -> Result<Vec<RangeSetBlaze<i32>>, AllocError> {
    let mut sets = Vec::new(alloc);
    for table in &THREE {
        sets.push(set_of(alloc, table)?)?;
    }
    Ok(sets)
}

/// Whether the values in at least two of the sets of a list, all at once, are these.
fn are_in_two(
    alloc: Global,
    sets: &Vec<RangeSetBlaze<i32>>,
    twice: &RangeSetBlaze<i32>,
) -> Result<bool, AllocError> {
    Ok(in_two_of_list(alloc, sets)? == *twice && sets.at_least(alloc, 2)? == *twice)
}

#[test]
fn what_two_of_three_have_is_found_set_by_set(rt: HostRuntime) -> Result<(), Fail> {
    let sets = three_sets(rt.alloc())?;
    let twice = in_two(rt.alloc(), &sets)?;
    assert!(rt; has(&twice, &[(5, 9), (20, 20)]) && are_in_two(rt.alloc(), &sets, &twice)?);
    Ok(())
}
