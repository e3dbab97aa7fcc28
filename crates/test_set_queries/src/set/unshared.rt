//! What a caller proves about sets built from sets, only from public contracts.

ghost use Rattle.std.specs.Prelude.{◌≡◌, ℕ, IfOk};
ghost use Rattle.rsb_integer.specs.Runs.{members};

use range_set_blaze::{Integer, RangeSetBlaze};
use std::alloc::{AllocError, Allocator};
use std::test::*;

/// Returns the values in exactly one of two sets, computed twice: as the union minus the
/// intersection, and as the symmetric difference.
fn unshared_twice<T: Integer, A: Allocator + Copy>(
    left: &RangeSetBlaze<T, A>,
    right: &RangeSetBlaze<T, A>,
) -> Result<(RangeSetBlaze<T, A>, RangeSetBlaze<T, A>), AllocError>
    ensures same { IfOk result (λ pair. (rank : ℕ) → members pair.0 rank ≡ members pair.1 rank) }
{
    let either = left.bitor(right)?;
    let both = left.bitand(right)?;
    Ok((either.sub(&both)?, left.bitxor(right)?))
}

#[test]
fn the_unshared_members_come_by_either_way(rt: HostRuntime) -> Result<(), Fail> {
    let left = RangeSetBlaze::from(rt.alloc(), 1..=9_u8)?;
    let right = RangeSetBlaze::from(rt.alloc(), 5..=12_u8)?;
    let (parts, at_once) = unshared_twice(&left, &right)?;
    assert!(rt; parts.ranges().next() == Some(1..=4) && parts.ranges_len() == 2);
    assert!(rt; at_once.ranges().next_back() == Some(10..=12));
    Ok(())
}
