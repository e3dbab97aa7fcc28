// Written by tools/c/narrow from src/u64_sets/look_up.rt.
//! Queries on one set. They leave it unchanged and do not allocate.

ghost use Rattle.std.specs.Prelude.{◌≡◌, ◌↔◌, ◌≤◌, ◌^◌, [], length, IsFalse, IsTrue};
ghost use Rattle.rsb_integer.specs.Runs.{covers, from_to, members};
ghost use Rattle.rsb_integer.specs.Selection.{count, intersection, IsEmpty};
ghost use Rattle.range_set_blaze.specs.Joining.{HasAll};
ghost use Rattle.range_set_blaze.specs.Set.{IsGreatest, IsLeast};
ghost use Rattle.range_set_c.specs.U128Values.{number, total};

use super::handle::Handle;
use crate::u128_values::{Count, Value};
use range_set_blaze::RangeSetBlaze;
use std::alloc::Global;

/// Returns whether a value is a member.
#[unsafe(no_mangle)]
pub extern "C" fn rsb_u128_contains(alloc: Global, set: &mut Handle, value: Value) -> bool
    ensures found { result ≡ members set.old.kept.set (number value) }
    ensures same { set.new.kept.set ≡ set.old.kept.set }
{
    let value = value.number();
    let empty = RangeSetBlaze::new(alloc);
    set.set_or(&empty).contains(value)
}

/// Returns whether each value from `first` to `last` is a member. If `last` is below `first`, there
/// is no such value, and it returns true.
#[unsafe(no_mangle)]
pub extern "C" fn rsb_u128_contains_range(
    alloc: Global,
    set: &mut Handle,
    first: Value,
    last: Value,
) -> bool
    ensures found { IsTrue result ↔ HasAll set.old.kept.set
        (covers (from_to (number first) (number last))) }
    ensures same { set.new.kept.set ≡ set.old.kept.set }
{
    let first = first.number();
    let last = last.number();
    let empty = RangeSetBlaze::new(alloc);
    set.set_or(&empty).contains_range(first..=last)
}

/// Returns whether no value from `first` to `last` is a member. If `last` is below `first`, there
/// is no such value, and it returns true.
#[unsafe(no_mangle)]
pub extern "C" fn rsb_u128_is_disjoint_range(
    alloc: Global,
    set: &mut Handle,
    first: Value,
    last: Value,
) -> bool
    ensures found { IsTrue result ↔ IsEmpty
        (intersection (members set.old.kept.set) (covers (from_to (number first) (number last)))) }
    ensures same { set.new.kept.set ≡ set.old.kept.set }
{
    let first = first.number();
    let last = last.number();
    let empty = RangeSetBlaze::new(alloc);
    set.set_or(&empty).is_disjoint_range(first..=last)
}

/// Returns the number of members.
#[unsafe(no_mangle)]
pub extern "C" fn rsb_u128_len(alloc: Global, set: &mut Handle) -> Count
    ensures count { total result ≡ count (2 ^ 128) (members set.old.kept.set) }
    ensures same { set.new.kept.set ≡ set.old.kept.set }
{
    let empty = RangeSetBlaze::new(alloc);
    Count::of(set.set_or(&empty).len())
}

/// Returns the number of members from `first` to `last`: 0 if `last` is below `first`.
#[unsafe(no_mangle)]
pub extern "C" fn rsb_u128_len_in(
    alloc: Global,
    set: &mut Handle,
    first: Value,
    last: Value,
) -> Count
    ensures count { total result ≡ count (2 ^ 128)
        (intersection (members set.old.kept.set) (covers (from_to (number first) (number last)))) }
    ensures same { set.new.kept.set ≡ set.old.kept.set }
{
    let first = first.number();
    let last = last.number();
    let empty = RangeSetBlaze::new(alloc);
    Count::of(set.set_or(&empty).len_in(first..=last))
}

/// Returns the number of members below a value, which need not be a member.
#[unsafe(no_mangle)]
pub extern "C" fn rsb_u128_rank(alloc: Global, set: &mut Handle, value: Value) -> Count
    ensures count { total result ≡ count (number value) (members set.old.kept.set) }
    ensures same { set.new.kept.set ≡ set.old.kept.set }
{
    let value = value.number();
    let empty = RangeSetBlaze::new(alloc);
    Count::of(set.set_or(&empty).rank(value))
}

/// Stores the member that has exactly `n` members below it in `value` and returns true. If there
/// are at most `n` members, it returns false, and `value` is unchanged.
#[unsafe(no_mangle)]
pub extern "C" fn rsb_u128_nth(alloc: Global, set: &mut Handle, n: Value, value: &mut Value) -> bool
    ensures none { IsFalse result → count (2 ^ 128) (members set.old.kept.set) ≤ number n }
    ensures found { IsTrue result → IsTrue (members set.old.kept.set (number value.new)) }
    ensures below { IsTrue result → count (number value.new) (members set.old.kept.set) ≡ number n }
    ensures left { IsFalse result → value.new ≡ value.old }
    ensures same { set.new.kept.set ≡ set.old.kept.set }
{
    let n = n.length();
    let empty = RangeSetBlaze::new(alloc);
    let member = set.set_or(&empty).nth(n);
    let Some(member) = member else {
        return false;
    };
    *value = Value::of(member);
    true
}

/// Returns the number of runs.
#[unsafe(no_mangle)]
pub extern "C" fn rsb_u128_run_count(alloc: Global, set: &mut Handle) -> usize
    ensures runs { result ≡ length set.old.kept.set }
    ensures same { set.new.kept.set ≡ set.old.kept.set }
{
    let empty = RangeSetBlaze::new(alloc);
    set.set_or(&empty).ranges_len()
}

/// Stores the least member in `value` and returns true. If the set is empty, it returns false, and
/// `value` is unchanged.
#[unsafe(no_mangle)]
pub extern "C" fn rsb_u128_first(alloc: Global, set: &mut Handle, value: &mut Value) -> bool
    ensures none { IsFalse result → set.old.kept.set ≡ [] }
    ensures found { IsTrue result → IsLeast (2 ^ 128) (members set.old.kept.set)
        (number value.new) }
    ensures left { IsFalse result → value.new ≡ value.old }
    ensures same { set.new.kept.set ≡ set.old.kept.set }
{
    let empty = RangeSetBlaze::new(alloc);
    let first = set.set_or(&empty).first();
    let Some(first) = first else {
        return false;
    };
    *value = Value::of(first);
    true
}

/// Stores the greatest member in `value` and returns true. If the set is empty, it returns false,
/// and `value` is unchanged.
#[unsafe(no_mangle)]
pub extern "C" fn rsb_u128_last(alloc: Global, set: &mut Handle, value: &mut Value) -> bool
    ensures none { IsFalse result → set.old.kept.set ≡ [] }
    ensures found { IsTrue result → IsGreatest (2 ^ 128) (members set.old.kept.set)
        (number value.new) }
    ensures left { IsFalse result → value.new ≡ value.old }
    ensures same { set.new.kept.set ≡ set.old.kept.set }
{
    let empty = RangeSetBlaze::new(alloc);
    let last = set.set_or(&empty).last();
    let Some(last) = last else {
        return false;
    };
    *value = Value::of(last);
    true
}
