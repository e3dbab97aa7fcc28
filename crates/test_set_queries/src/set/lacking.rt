//! The complement of a set, proved only from public contracts.

ghost use Rattle.rsb_integer.specs.Runs.{members};
ghost use Rattle.rsb_integer.specs.Selection.{complement_in};
ghost use Rattle.range_set_blaze.specs.Set.{IsSetOf};
ghost use Rattle.std.specs.Prelude.{IfOk};

use range_set_blaze::{DrawDisjoint, Integer, RangeSetBlaze};
use std::alloc::{AllocError, Global};
use std::test::*;

/// Returns the set of the values that a set lacks.
fn lacking<T: Integer>(
    alloc: Global,
    set: &RangeSetBlaze<T>,
) -> Result<RangeSetBlaze<T>, AllocError>
    ensures { IfOk result (λ others. IsSetOf others
        (complement_in T.value_count (members set.now))) }
{
    let gaps = set.ranges().complement();
    RangeSetBlaze::from_sorted_disjoint(alloc, gaps)
}

#[test]
fn a_set_and_what_it_lacks_are_everything(rt: HostRuntime) -> Result<(), Fail> {
    let mut set = RangeSetBlaze::<u8>::new(rt.alloc());
    set.ranges_insert(3..=200)?;
    let others = lacking(rt.alloc(), &set)?;
    assert!(rt; others.len() == 58);
    assert!(rt; others.contains(2));
    assert!(rt; !others.contains(3));
    assert!(rt; others.range_at(255) == Some(201..=255));
    Ok(())
}
