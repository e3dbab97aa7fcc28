//! Callers of the macros for streams of any type, which use the result in the function that calls
//! the macro. They need no proof file. One caller writes out the calls that a macro makes, and
//! states what the result gives.

ghost use Rattle.std.specs.Prelude.{[], ◌∷◌, List, IfOk};
ghost use Rattle.rsb_integer.specs.Runs.{members, AreRuns, Interval};
ghost use Rattle.rsb_integer.specs.Selection.{any_of};
ghost use Rattle.rsb_streams.specs.Stream.{◌⊆◌, just};

use range_set_blaze::{IntoRangeSetBlaze, RangeSetBlaze};
use rsb_integer::Integer;
use rsb_many::taken::{union_of_taken, with_one_more};
use rsb_many::{
    DynSortedDisjoint, MultiwayUnion, intersection_dyn, symmetric_difference_dyn, union_dyn,
};
use rsb_streams::{Draw, DrawDisjoint, RangeOnce};
use std::alloc::{AllocError, Global};
use std::test::Fail;
use test_support::{Table, gives, set_of, stream_of};

/// Returns the intersection of two streams as a set.
fn shared<T: Integer, L: DrawDisjoint<T>, R: DrawDisjoint<T>>(
    alloc: Global,
    left: L,
    right: R,
) -> Result<RangeSetBlaze<T>, AllocError>
    requires left { L.can_draw left }
    requires right { R.can_draw right }
{
    intersection_dyn!(alloc, left, right)?.into_range_set_blaze(alloc)
}

/// Returns the set of what at least one of two streams has and a third lacks.
fn some_without<T: Integer, L: DrawDisjoint<T>, R: DrawDisjoint<T>, W: DrawDisjoint<T>>(
    alloc: Global,
    left: L,
    right: R,
    without: W,
) -> Result<RangeSetBlaze<T>, AllocError>
    requires left { L.can_draw left }
    requires right { R.can_draw right }
    requires without { W.can_draw without }
{
    let rest = union_dyn!(alloc, left, right)? - without;
    rest.into_range_set_blaze(alloc)
}

/// Returns how many values the ranges of a stream have, or `u64::MAX` if there are more.
fn value_count<I: DrawDisjoint<i32>>(stream: I) -> u64
    requires { I.can_draw stream }
{
    stream.members_len()
}

/// Returns how many values lie in exactly one of two sets. A generic function takes the stream.
fn odd_values(
    alloc: Global,
    one: &RangeSetBlaze<i32>,
    other: &RangeSetBlaze<i32>,
) -> Result<u64, AllocError> {
    Ok(value_count(symmetric_difference_dyn!(alloc, one.ranges(), other.ranges())?))
}

/// Returns the union of two streams, by the calls that `union_dyn!` makes.
fn union_of_two<T: Integer, L: DrawDisjoint<T>, R: DrawDisjoint<T>>(
    alloc: Global,
    left: L,
    right: R,
) -> Result<MultiwayUnion<T, DynSortedDisjoint<T>>, AllocError>
    requires left { L.can_draw left }
    requires right { R.can_draw right }
    ensures ready { IfOk result ⟦<MultiwayUnion<T, DynSortedDisjoint<T>> as Draw<T>>⟧.can_draw }
    ensures gives { (these those : List Interval)
        → L.may_give left ⊆ just these → R.may_give right ⊆ just those
        → IfOk result (λ union.
        ⟦<MultiwayUnion<T, DynSortedDisjoint<T>> as Draw<T>>⟧.may_give union
        ⊆ AreRuns T.value_count (any_of (members these ∷ members those ∷ []))) }
{
    let none = Ok(Vec::new(alloc));
    let first = with_one_more(alloc, none, left);
    let both = with_one_more(alloc, first, right);
    union_of_taken(alloc, both)
}

/// The runs of two sets.
static ONE: Table<'static> = &[(1, 6), (8, 9), (11, 15)];

static OTHER: Table<'static> = &[(5, 13), (18, 29)];

#[test]
fn callers_over_any_streams_use_what_the_macros_return(rt: HostRuntime) -> Result<(), Fail> {
    let alloc = rt.alloc();
    let (one, other) = (set_of(alloc, ONE)?, set_of(alloc, OTHER)?);
    let both = shared(alloc, one.ranges(), other.ranges())?;
    assert!(rt; gives(both.ranges(), &[(5, 6), (8, 9), (11, 13)]));
    let rest = some_without(alloc, one.ranges(), other.ranges(), RangeOnce::new(3..=20))?;
    assert!(rt; gives(rest.ranges(), &[(1, 2), (21, 29)]));
    assert!(rt; odd_values(alloc, &one, &other)? == 20);
    Ok(())
}

#[test]
fn the_calls_of_the_macro_make_what_it_makes(rt: HostRuntime) -> Result<(), Fail> {
    let union = union_of_two(
        rt.alloc(),
        stream_of(&[(1, 6), (8, 9)]),
        RangeOnce::new(7..=7),
    )?;
    assert!(rt; gives(union, &[(1, 9)]));
    Ok(())
}
