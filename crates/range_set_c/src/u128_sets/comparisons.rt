// Written by tools/c/narrow from src/u64_sets/comparisons.rt.
//! Comparisons of two sets. They leave both sets unchanged and do not allocate.

ghost use Rattle.std.specs.Prelude.{◌≡◌, ◌↔◌, ◌^◌, IsTrue};
ghost use Rattle.rsb_integer.specs.Runs.{members};
ghost use Rattle.rsb_integer.specs.Selection.{Agree, AreDisjoint, IsSubset};
ghost use Rattle.range_set_blaze.specs.Order.{HasOrder};
ghost use Rattle.range_set_c.specs.Answer.{order_of_number, IsOrderNumber};

use super::handle::Handle;
use range_set_blaze::RangeSetBlaze;
use range_set_blaze::prelude::{cmp_counted, order_by_least_difference};
use std::alloc::Global;
use std::cmp::Ordering;

/// Returns whether two sets have the same members.
#[unsafe(no_mangle)]
pub extern "C" fn rsb_u128_equal(alloc: Global, left: &mut Handle, right: &mut Handle) -> bool
    ensures found { IsTrue result ↔
        Agree (2 ^ 128) (members left.old.kept.set) (members right.old.kept.set) }
    ensures left { left.new.kept.set ≡ left.old.kept.set }
    ensures right { right.new.kept.set ≡ right.old.kept.set }
{
    let none = RangeSetBlaze::new(alloc);
    let nothing = RangeSetBlaze::new(alloc);
    order_by_least_difference::<u128, Global>();
    left.set_or(&none) == right.set_or(&nothing)
}

/// Returns the order of two sets: -1, 0 or 1 if the left one is less, equal or greater. Sets
/// compare as the ascending lists of their members do.
#[unsafe(no_mangle)]
pub extern "C" fn rsb_u128_order(alloc: Global, left: &mut Handle, right: &mut Handle) -> i32
    ensures order { HasOrder (2 ^ 128) (members left.old.kept.set) (members right.old.kept.set)
        (order_of_number result) }
    ensures answer { IsOrderNumber result }
    ensures left { left.new.kept.set ≡ left.old.kept.set }
    ensures right { right.new.kept.set ≡ right.old.kept.set }
{
    let none = RangeSetBlaze::new(alloc);
    let nothing = RangeSetBlaze::new(alloc);
    let (order, _) = cmp_counted(left.set_or(&none), right.set_or(&nothing));
    match order {
        Ordering::Less => -1,
        Ordering::Equal => 0,
        Ordering::Greater => 1,
    }
}

/// Returns whether each member of the left set is a member of the right set.
#[unsafe(no_mangle)]
pub extern "C" fn rsb_u128_is_subset(alloc: Global, left: &mut Handle, right: &mut Handle) -> bool
    ensures found { IsTrue result ↔
        IsSubset (2 ^ 128) (members left.old.kept.set) (members right.old.kept.set) }
    ensures left { left.new.kept.set ≡ left.old.kept.set }
    ensures right { right.new.kept.set ≡ right.old.kept.set }
{
    let none = RangeSetBlaze::new(alloc);
    let nothing = RangeSetBlaze::new(alloc);
    left.set_or(&none).is_subset(right.set_or(&nothing))
}

/// Returns whether no member of the left set is a member of the right set.
#[unsafe(no_mangle)]
pub extern "C" fn rsb_u128_is_disjoint(alloc: Global, left: &mut Handle, right: &mut Handle) -> bool
    ensures found { IsTrue result ↔
        AreDisjoint (2 ^ 128) (members left.old.kept.set) (members right.old.kept.set) }
    ensures left { left.new.kept.set ≡ left.old.kept.set }
    ensures right { right.new.kept.set ≡ right.old.kept.set }
{
    let none = RangeSetBlaze::new(alloc);
    let nothing = RangeSetBlaze::new(alloc);
    left.set_or(&none).is_disjoint(right.set_or(&nothing))
}
