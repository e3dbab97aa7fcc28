//! The arguments of the macros. Each is evaluated once, in order, and is dropped. This is so even
//! if an allocation for an earlier argument failed.

ghost use Rattle.std.specs.Prelude.{◌≡◌, IfOk};

use rsb_many::{DynSortedDisjoint, intersection_dyn, symmetric_difference_dyn, union_dyn};
use rsb_streams::{Draw, DrawDisjoint, RangeOnce};
use std::alloc::{AllocError, Global};
use std::cell::Cell;
use std::test::Fail;
use test_support::{Counting, Form};

/// An allocator that counts its calls.
type Heap = Counting<Global>;

/// Returns the value, and appends its digit to those seen before.
fn seen<X>(digits: &Cell<u32>, digit: u32, value: X) -> X
    ensures { result ≡ value }
{
    digits.set(digits.get().saturating_mul(10).saturating_add(digit));
    value
}

/// Whether a macro returns a stream. The digit of the allocator is 9, and those of the streams are
/// 1, 2 and 3.
fn is_made<I: DrawDisjoint<i32>>(
    heap: &Heap,
    digits: &Cell<u32>,
    form: Form,
    one: I,
    other: I,
    third: I,
) -> bool
    requires { (I.can_draw one) × (I.can_draw other) × (I.can_draw third) }
{
    match form {
        Form::All => intersection_dyn!(
            seen(digits, 9, heap),
            seen(digits, 1, one),
            seen(digits, 2, other),
            seen(digits, 3, third)
        )
        .is_ok(),
        Form::Odd => symmetric_difference_dyn!(
            seen(digits, 9, heap),
            seen(digits, 1, one),
            seen(digits, 2, other),
            seen(digits, 3, third)
        )
        .is_ok(),
        _ => union_dyn!(
            seen(digits, 9, heap),
            seen(digits, 1, one),
            seen(digits, 2, other),
            seen(digits, 3, third)
        )
        .is_ok(),
    }
}

/// A stream that owns memory.
fn owning<'a>(heap: &'a Heap, at: i32) -> Result<DynSortedDisjoint<i32, &'a Heap>, AllocError>
    ensures { IfOk result ⟦<DynSortedDisjoint<i32, &'a Heap> as Draw<i32>>⟧.can_draw }
{
    DynSortedDisjoint::new(heap, RangeOnce::new(at..=at))
}

/// Whether a macro returns a stream if only the given number of allocations succeed, and whether it
/// then evaluates and drops its arguments.
fn after_passing(alloc: Global, form: Form, passed: usize) -> Result<(bool, bool), AllocError> {
    let heap = Counting::new(alloc);
    let digits = Cell::new(0);
    let (one, other, third) = (owning(&heap, 1)?, owning(&heap, 2)?, owning(&heap, 3)?);
    heap.fail_after(passed);
    let is_made = is_made(&heap, &digits, form, one, other, third);
    Ok((is_made, digits.get() == 9123 && heap.bytes() == 0))
}

/// Returns how many allocations a macro makes, if it evaluates and drops its arguments whichever of
/// these fails.
fn allocations_of(alloc: Global, form: Form) -> Result<Option<usize>, AllocError> {
    for passed in 0..20usize {
        let (is_made, is_right) = after_passing(alloc, form, passed)?;
        if !is_right {
            return Ok(None);
        }
        if is_made {
            return Ok(Some(passed));
        }
    }
    Ok(None)
}

#[test]
fn each_argument_is_evaluated_and_dropped_whichever_allocation_fails(
    rt: HostRuntime,
) -> Result<(), Fail> {
    for form in [Form::Some, Form::All, Form::Odd] {
        let allocations = allocations_of(rt.alloc(), form)?.unwrap_or(0);
        assert!(rt; allocations > 3, "{allocations} allocations");
    }
    Ok(())
}
