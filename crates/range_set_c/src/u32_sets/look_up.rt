// Written by tools/c/narrow from src/u64_sets/look_up.rt.
//! Queries on one set. They leave it unchanged and do not allocate.

ghost use Rattle.std.specs.Prelude.{◌≡◌, ◌↔◌, ◌≤◌, ◌^◌, [], length, IsFalse, IsTrue};
ghost use Rattle.rsb_integer.specs.Runs.{covers, from_to, members};
ghost use Rattle.rsb_integer.specs.Selection.{count, intersection, IsEmpty};
ghost use Rattle.range_set_blaze.specs.Joining.{HasAll};
ghost use Rattle.range_set_blaze.specs.Set.{IsGreatest, IsLeast};

use super::handle::Handle;
use range_set_blaze::RangeSetBlaze;
use std::alloc::Global;

/// Returns whether a value is a member.
#[unsafe(no_mangle)]
pub extern "C" fn rsb_u32_contains(alloc: Global, set: &mut Handle, value: u32) -> bool
    ensures found { result ≡ members set.old.kept.set value }
    ensures same { set.new.kept.set ≡ set.old.kept.set }
{
    let empty = RangeSetBlaze::new(alloc);
    set.set_or(&empty).contains(value)
}

/// Returns whether each value from `first` to `last` is a member. If `last` is below `first`, there
/// is no such value, and it returns true.
#[unsafe(no_mangle)]
pub extern "C" fn rsb_u32_contains_range(
    alloc: Global,
    set: &mut Handle,
    first: u32,
    last: u32,
) -> bool
    ensures found { IsTrue result ↔ HasAll set.old.kept.set (covers (from_to first last)) }
    ensures same { set.new.kept.set ≡ set.old.kept.set }
{
    let empty = RangeSetBlaze::new(alloc);
    set.set_or(&empty).contains_range(first..=last)
}

/// Returns whether no value from `first` to `last` is a member. If `last` is below `first`, there
/// is no such value, and it returns true.
#[unsafe(no_mangle)]
pub extern "C" fn rsb_u32_is_disjoint_range(
    alloc: Global,
    set: &mut Handle,
    first: u32,
    last: u32,
) -> bool
    ensures found { IsTrue result ↔ IsEmpty
        (intersection (members set.old.kept.set) (covers (from_to first last))) }
    ensures same { set.new.kept.set ≡ set.old.kept.set }
{
    let empty = RangeSetBlaze::new(alloc);
    set.set_or(&empty).is_disjoint_range(first..=last)
}

/// Returns the number of members.
#[unsafe(no_mangle)]
pub extern "C" fn rsb_u32_len(alloc: Global, set: &mut Handle) -> u64
    ensures count { result ≡ count (2 ^ 32) (members set.old.kept.set) }
    ensures same { set.new.kept.set ≡ set.old.kept.set }
{
    let empty = RangeSetBlaze::new(alloc);
    set.set_or(&empty).len()
}

/// Returns the number of members from `first` to `last`: 0 if `last` is below `first`.
#[unsafe(no_mangle)]
pub extern "C" fn rsb_u32_len_in(alloc: Global, set: &mut Handle, first: u32, last: u32) -> u64
    ensures count { result ≡ count (2 ^ 32)
        (intersection (members set.old.kept.set) (covers (from_to first last))) }
    ensures same { set.new.kept.set ≡ set.old.kept.set }
{
    let empty = RangeSetBlaze::new(alloc);
    set.set_or(&empty).len_in(first..=last)
}

/// Returns the number of members below a value, which need not be a member.
#[unsafe(no_mangle)]
pub extern "C" fn rsb_u32_rank(alloc: Global, set: &mut Handle, value: u32) -> u64
    ensures count { result ≡ count value (members set.old.kept.set) }
    ensures same { set.new.kept.set ≡ set.old.kept.set }
{
    let empty = RangeSetBlaze::new(alloc);
    set.set_or(&empty).rank(value)
}

/// Stores the member that has exactly `n` members below it in `value` and returns true. If there
/// are at most `n` members, it returns false, and `value` is unchanged.
#[unsafe(no_mangle)]
pub extern "C" fn rsb_u32_nth(alloc: Global, set: &mut Handle, n: u64, value: &mut u32) -> bool
    ensures none { IsFalse result → count (2 ^ 32) (members set.old.kept.set) ≤ n }
    ensures found { IsTrue result → IsTrue (members set.old.kept.set value.new) }
    ensures below { IsTrue result → count value.new (members set.old.kept.set) ≡ n }
    ensures left { IsFalse result → value.new ≡ value.old }
    ensures same { set.new.kept.set ≡ set.old.kept.set }
{
    let empty = RangeSetBlaze::new(alloc);
    let member = set.set_or(&empty).nth(n);
    let Some(member) = member else {
        return false;
    };
    *value = member;
    true
}

/// Returns the number of runs.
#[unsafe(no_mangle)]
pub extern "C" fn rsb_u32_run_count(alloc: Global, set: &mut Handle) -> usize
    ensures runs { result ≡ length set.old.kept.set }
    ensures same { set.new.kept.set ≡ set.old.kept.set }
{
    let empty = RangeSetBlaze::new(alloc);
    set.set_or(&empty).ranges_len()
}

/// Stores the least member in `value` and returns true. If the set is empty, it returns false, and
/// `value` is unchanged.
#[unsafe(no_mangle)]
pub extern "C" fn rsb_u32_first(alloc: Global, set: &mut Handle, value: &mut u32) -> bool
    ensures none { IsFalse result → set.old.kept.set ≡ [] }
    ensures found { IsTrue result → IsLeast (2 ^ 32) (members set.old.kept.set) value.new }
    ensures left { IsFalse result → value.new ≡ value.old }
    ensures same { set.new.kept.set ≡ set.old.kept.set }
{
    let empty = RangeSetBlaze::new(alloc);
    let first = set.set_or(&empty).first();
    let Some(first) = first else {
        return false;
    };
    *value = first;
    true
}

/// Stores the greatest member in `value` and returns true. If the set is empty, it returns false,
/// and `value` is unchanged.
#[unsafe(no_mangle)]
pub extern "C" fn rsb_u32_last(alloc: Global, set: &mut Handle, value: &mut u32) -> bool
    ensures none { IsFalse result → set.old.kept.set ≡ [] }
    ensures found { IsTrue result → IsGreatest (2 ^ 32) (members set.old.kept.set) value.new }
    ensures left { IsFalse result → value.new ≡ value.old }
    ensures same { set.new.kept.set ≡ set.old.kept.set }
{
    let empty = RangeSetBlaze::new(alloc);
    let last = set.set_or(&empty).last();
    let Some(last) = last else {
        return false;
    };
    *value = last;
    true
}
