//! Each element type, at its ends.

ghost use Rattle.std.specs.Prelude.{◌≡◌, [], ◌∷◌, IfOk};
ghost use Rattle.std.proofs.Common.{lit<, lit≤, refl};
ghost use Rattle.rsb_integer.specs.Room.{have_room};
ghost use Rattle.test_bytes.specs.declared.bytes.element_types.Season.TheVariants.{
  Spring,
  Summer,
  Autumn,
  Winter,
  Rain,
};

use super::faults::is_refused;
use range_set_blaze::{Element, Enumerated, RangeSetBlaze};
use range_set_bytes::{RankedInteger, ReadError, Reason, from_bytes, to_bytes};
use std::alloc::{AllocError, Allocator, Global};
use std::test::*;

/// A season, in the order of a year.
#[derive(Clone, Copy, Debug, PartialEq, Eq, PartialOrd, Ord, Hash)]
enum Season {
    Spring,
    Summer,
    Autumn,
    Winter,
    Rain,
}

use Season::{Autumn, Rain, Spring, Summer, Winter};

impl Enumerated for Season {
    ghost least = { Spring };

    ghost others = { Summer ∷ Autumn ∷ Winter ∷ Rain ∷ [] };

    fn values<'a>() -> &'a [Season] {
        &[Spring, Summer, Autumn, Winter, Rain]
    }

    fn number(self) -> u16 {
        self as u16
    }

    ghost complete = { elim [ Spring ↦ refl | _ ↦ refl ] };

    ghost ascending = { refl };

    ghost some_values = { lit≤ tt };

    ghost few_values = { lit≤ tt };

    ghost two_ends_fit = { λ end. have_room _ (lit< tt) };
}

/// Returns the set that is read from the bytes of a set.
fn reread<T: RankedInteger, A: Allocator + Copy>(
    alloc: A,
    set: &RangeSetBlaze<T, A>,
) -> Result<RangeSetBlaze<T, A>, ReadError>
    ensures { IfOk result (λ read. read ≡ set.now) }
{
    // This call is only here for its clauses.
    set.ranges();
    let bytes = to_bytes(alloc, set)?;
    let read = from_bytes(alloc, &bytes)?;
    Ok(read)
}

/// Whether sets of the type are read back: none, both ends, and all of the type. The sixth byte is
/// the number of bits. No other number is read.
fn is_reread<T: RankedInteger>(alloc: Global, bits: u8) -> Result<bool, ReadError> {
    let (least, greatest) = (T::min_value(), T::max_value());
    let none = RangeSetBlaze::<T>::new(alloc);
    let mut ends = RangeSetBlaze::<T>::new(alloc);
    ends.insert(least)?;
    ends.insert(greatest)?;
    let mut all = RangeSetBlaze::<T>::new(alloc);
    all.ranges_insert(least..=greatest)?;
    let bytes = to_bytes(alloc, &ends)?;
    let other = [0xF5, 0x52, 0x53, 0x42, 1, bits.wrapping_add(1), 0];
    Ok(
        bytes.get(5) == Some(&bits)
            && is_refused::<T>(alloc, &other, 5, Reason::OtherWidth)
            && reread(alloc, &none)? == none
            && reread(alloc, &ends)? == ends
            && reread(alloc, &all)? == all,
    )
}

#[test]
fn unsigned_types_are_read_back(rt: HostRuntime) -> Result<(), Fail> {
    assert!(rt; is_reread::<u8>(rt.alloc(), 8)?);
    assert!(rt; is_reread::<u16>(rt.alloc(), 16)?);
    assert!(rt; is_reread::<u32>(rt.alloc(), 32)?);
    assert!(rt; is_reread::<u64>(rt.alloc(), 64)?);
    assert!(rt; is_reread::<usize>(rt.alloc(), 64)?);
    assert!(rt; is_reread::<u128>(rt.alloc(), 128)?);
    Ok(())
}

#[test]
fn signed_types_are_read_back(rt: HostRuntime) -> Result<(), Fail> {
    assert!(rt; is_reread::<i8>(rt.alloc(), 8)?);
    assert!(rt; is_reread::<i16>(rt.alloc(), 16)?);
    assert!(rt; is_reread::<i32>(rt.alloc(), 32)?);
    assert!(rt; is_reread::<i64>(rt.alloc(), 64)?);
    assert!(rt; is_reread::<isize>(rt.alloc(), 64)?);
    assert!(rt; is_reread::<i128>(rt.alloc(), 128)?);
    Ok(())
}

#[test]
fn other_types_are_read_back(rt: HostRuntime) -> Result<(), Fail> {
    assert!(rt; is_reread::<char>(rt.alloc(), 21)?);
    assert!(rt; is_reread::<Element<Season>>(rt.alloc(), 3)?);
    Ok(())
}
