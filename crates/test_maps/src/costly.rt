//! A value whose clone fails leaves no trace.

ghost use Rattle.std.specs.Prelude.{◌≡◌, refl};
ghost use Rattle.std.proofs.Common.{ap};
ghost use Rattle.range_map_blaze.specs.laws.Value.{unsigned-exact};

use range_map_blaze::{MapValue, RangeMapBlaze};
use range_set_blaze::RangeSetBlaze;
use std::alloc::{AllocError, Global};
use std::test::*;

/// A value that cannot be cloned if its number is 100 or more.
#[derive(PartialEq, Eq, Drop)]
struct Costly {
    number: u8,
}

impl Clone for Costly {
    ghost is_clone = { λ source copy. copy ≡ source };

    fn clone(&self) -> Result<Self, AllocError> {
        if self.number >= 100 {
            return Err(AllocError);
        }
        Ok(Costly {
            number: self.number,
        })
    }
}

impl MapValue for Costly {
    ghost exact = { λ left right. (
      (λ is i. record {
        number = (unsigned-exact left.number right.number).0 is i;
      }),
      (λ same. (unsigned-exact left.number right.number).1 (ap (λ value. value.number) same)),
    ) };

    ghost cloned = { λ source copy same. same };

    ghost settled = { λ value. refl };
}

/// Returns the map that gives ten keys one costly value.
fn tens(alloc: Global) -> Result<RangeMapBlaze<u8, Costly>, AllocError> {
    let mut map = RangeMapBlaze::new(alloc);
    map.ranges_insert(10..=19, Costly { number: 200 })?;
    Ok(map)
}

/// Whether the map is still that map.
fn is_whole(map: &RangeMapBlaze<u8, Costly>) -> bool {
    map.ranges_len() == 1
        && map
            .range_at(15)
            .is_some_and(|pair| pair.0 == (10..=19) && pair.1.number == 200)
}

/// Whether each change that has to clone the value fails, and leaves the map.
fn changes_fail(alloc: Global) -> Result<bool, AllocError> {
    let mut map = tens(alloc)?;
    let fail = map.ranges_insert(12..=13, Costly { number: 1 }).is_err()
        && map.insert(15, Costly { number: 1 }).is_err()
        && map.remove(10).is_err()
        && map.ranges_remove(12..=13).is_err()
        && map.pop_first().is_err()
        && map.pop_last().is_err()
        && map.split_off(15).is_err();
    Ok(fail && is_whole(&map))
}

/// Whether each call that copies the map, or gives a set the value, fails and leaves the map.
fn makers_fail(alloc: Global) -> Result<bool, AllocError> {
    let mut map = tens(alloc)?;
    let set = RangeSetBlaze::from(alloc, 30..=39u8)?;
    let costly = Costly { number: 200 };
    let fail = map.clone().is_err()
        && map.complement_with(&costly).is_err()
        && RangeMapBlaze::from_set(alloc, &set, &costly).is_err()
        && map.put_set(&set, &costly).is_err();
    let mut other = tens(alloc)?;
    Ok(fail && map.append(&mut other).is_err() && is_whole(&map) && is_whole(&other))
}

/// Whether changes that need no clone succeed: those that cut no range below its end.
fn others_succeed(alloc: Global) -> Result<bool, AllocError> {
    let mut map = tens(alloc)?;
    map.ranges_remove(17..=19)?;
    map.ranges_insert(15..=25, Costly { number: 1 })?;
    map.ranges_insert(0..=255, Costly { number: 2 })?;
    Ok(map.ranges_len() == 1 && map.clone()? == map)
}

#[test]
fn a_failed_clone_leaves_the_map(rt: HostRuntime) -> Result<(), Fail> {
    assert!(rt; changes_fail(rt.alloc())?);
    assert!(rt; makers_fail(rt.alloc())?);
    assert!(rt; others_succeed(rt.alloc())?);
    Ok(())
}
