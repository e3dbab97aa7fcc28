// Written by tools/c/narrow from src/u64_sets/combinations.rt.
//! Sets built from one set or two.
//!
//! A call leaves its operands unchanged. It replaces the set of `out` and returns `CHANGED`. If an
//! allocation fails, it returns `NO_MEMORY`, and `out` is unchanged too.

ghost use Rattle.std.specs.Prelude.{◌≡◌, ◌⊎◌, ◌^◌};
ghost use Rattle.rsb_integer.specs.Runs.{members};
ghost use Rattle.rsb_integer.specs.Selection.{
  difference,
  intersection,
  symmetric_difference,
  union,
  complement_in,
};
ghost use Rattle.range_set_blaze.specs.Set.{IsSetOf};
ghost use Rattle.range_set_c.specs.Answer.{IsChanged, IsRefused};

use super::handle::Handle;
use range_set_blaze::RangeSetBlaze;
use std::alloc::Global;

/// Sets `out` to a copy of a set.
#[unsafe(no_mangle)]
pub extern "C" fn rsb_u32_clone(alloc: Global, out: &mut Handle, set: &mut Handle) -> u32
    ensures answer { IsChanged result ⊎ IsRefused result }
    ensures members { IsChanged result → out.new.kept.set ≡ set.old.kept.set }
    ensures refused { IsRefused result → out.new.kept.set ≡ out.old.kept.set }
    ensures set { set.new.kept.set ≡ set.old.kept.set }
{
    let empty = RangeSetBlaze::new(alloc);
    let made = set.set_or(&empty).clone();
    out.set_to(alloc, made)
}

/// Sets `out` to the values that a set lacks.
#[unsafe(no_mangle)]
pub extern "C" fn rsb_u32_complement(alloc: Global, out: &mut Handle, set: &mut Handle) -> u32
    ensures answer { IsChanged result ⊎ IsRefused result }
    ensures members { IsChanged result
        → IsSetOf out.new.kept.set (complement_in (2 ^ 32) (members set.old.kept.set)) }
    ensures refused { IsRefused result → out.new.kept.set ≡ out.old.kept.set }
    ensures set { set.new.kept.set ≡ set.old.kept.set }
{
    let empty = RangeSetBlaze::new(alloc);
    let made = set.set_or(&empty).not();
    out.set_to(alloc, made)
}

/// Sets `out` to the union of two sets.
#[unsafe(no_mangle)]
pub extern "C" fn rsb_u32_union(
    alloc: Global,
    out: &mut Handle,
    left: &mut Handle,
    right: &mut Handle,
) -> u32
    ensures answer { IsChanged result ⊎ IsRefused result }
    ensures members { IsChanged result → IsSetOf out.new.kept.set
        (union (members left.old.kept.set) (members right.old.kept.set)) }
    ensures refused { IsRefused result → out.new.kept.set ≡ out.old.kept.set }
    ensures left { left.new.kept.set ≡ left.old.kept.set }
    ensures right { right.new.kept.set ≡ right.old.kept.set }
{
    let none = RangeSetBlaze::new(alloc);
    let nothing = RangeSetBlaze::new(alloc);
    let made = left.set_or(&none).bitor(right.set_or(&nothing));
    out.set_to(alloc, made)
}

/// Sets `out` to the intersection of two sets.
#[unsafe(no_mangle)]
pub extern "C" fn rsb_u32_intersection(
    alloc: Global,
    out: &mut Handle,
    left: &mut Handle,
    right: &mut Handle,
) -> u32
    ensures answer { IsChanged result ⊎ IsRefused result }
    ensures members { IsChanged result → IsSetOf out.new.kept.set
        (intersection (members left.old.kept.set) (members right.old.kept.set)) }
    ensures refused { IsRefused result → out.new.kept.set ≡ out.old.kept.set }
    ensures left { left.new.kept.set ≡ left.old.kept.set }
    ensures right { right.new.kept.set ≡ right.old.kept.set }
{
    let none = RangeSetBlaze::new(alloc);
    let nothing = RangeSetBlaze::new(alloc);
    let made = left.set_or(&none).bitand(right.set_or(&nothing));
    out.set_to(alloc, made)
}

/// Sets `out` to the values in the left set that are not in the right one.
#[unsafe(no_mangle)]
pub extern "C" fn rsb_u32_difference(
    alloc: Global,
    out: &mut Handle,
    left: &mut Handle,
    right: &mut Handle,
) -> u32
    ensures answer { IsChanged result ⊎ IsRefused result }
    ensures members { IsChanged result → IsSetOf out.new.kept.set
        (difference (members left.old.kept.set) (members right.old.kept.set)) }
    ensures refused { IsRefused result → out.new.kept.set ≡ out.old.kept.set }
    ensures left { left.new.kept.set ≡ left.old.kept.set }
    ensures right { right.new.kept.set ≡ right.old.kept.set }
{
    let none = RangeSetBlaze::new(alloc);
    let nothing = RangeSetBlaze::new(alloc);
    let made = left.set_or(&none).sub(right.set_or(&nothing));
    out.set_to(alloc, made)
}

/// Sets `out` to the values in exactly one of two sets.
#[unsafe(no_mangle)]
pub extern "C" fn rsb_u32_symmetric_difference(
    alloc: Global,
    out: &mut Handle,
    left: &mut Handle,
    right: &mut Handle,
) -> u32
    ensures answer { IsChanged result ⊎ IsRefused result }
    ensures members { IsChanged result → IsSetOf out.new.kept.set
        (symmetric_difference (members left.old.kept.set) (members right.old.kept.set)) }
    ensures refused { IsRefused result → out.new.kept.set ≡ out.old.kept.set }
    ensures left { left.new.kept.set ≡ left.old.kept.set }
    ensures right { right.new.kept.set ≡ right.old.kept.set }
{
    let none = RangeSetBlaze::new(alloc);
    let nothing = RangeSetBlaze::new(alloc);
    let made = left.set_or(&none).bitxor(right.set_or(&nothing));
    out.set_to(alloc, made)
}
