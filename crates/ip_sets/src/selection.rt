//! What operations select from lists, as streams of ranges. No list of the result is made.

ghost use Rattle.std.specs.Prelude.{◌≡◌, All, IfOk, List, map};
ghost use Rattle.range_set_blaze.specs.Runs.{Interval};
ghost use Rattle.ip_sets.specs.declared.operations.Operation.TheVariants.{
  AtLeast,
  Common,
  Complement,
  Except,
  Odd,
  Union,
};
ghost use Rattle.ip_sets.specs.Selection.{GiveEach, Selects};

use crate::list::AddressList;
use crate::set::AddressRanges;
use range_set_blaze::{
    Difference, Draw, DrawDisjoint, Integer, MultiwayAtLeast, MultiwayIntersection,
    MultiwaySortedDisjoint, MultiwaySymmetricDifference, MultiwayUnion, NotIter,
};
use std::alloc::{AllocError, Allocator};

/// Returns the ranges of IPv4 addresses of each list, as ready streams.
pub fn v4_ranges<'a, A: Allocator>(
    alloc: A,
    lists: &'a [AddressList<A>],
) -> Result<Vec<AddressRanges<'a, u32>, A>, AllocError>
    ensures ready { IfOk result (λ streams.
        All ⟦<AddressRanges<'a, u32> as Draw<u32>>⟧.can_draw streams.items) }
    ensures given { IfOk result (λ streams.
        GiveEach ⟦<AddressRanges<'a, u32> as Draw<u32>>⟧.may_give streams.items
        (map (λ list. list.v4) lists.now)) }
{
    let mut streams = Vec::new(alloc);
    for list in lists {
        streams.push(list.v4.ranges())?;
    }
    Ok(streams)
}

/// Returns the ranges of IPv6 addresses of each list, as ready streams.
pub fn v6_ranges<'a, A: Allocator>(
    alloc: A,
    lists: &'a [AddressList<A>],
) -> Result<Vec<AddressRanges<'a, u128>, A>, AllocError>
    ensures ready { IfOk result (λ streams.
        All ⟦<AddressRanges<'a, u128> as Draw<u128>>⟧.can_draw streams.items) }
    ensures given { IfOk result (λ streams.
        GiveEach ⟦<AddressRanges<'a, u128> as Draw<u128>>⟧.may_give streams.items
        (map (λ list. list.v6) lists.now)) }
{
    let mut streams = Vec::new(alloc);
    for list in lists {
        streams.push(list.v6.ranges())?;
    }
    Ok(streams)
}

/// Returns the values in at least one of the streams.
pub fn union<T: Integer, I: DrawDisjoint<T>, A: Allocator + Copy>(
    alloc: A,
    streams: Vec<I, A>,
) -> Result<MultiwayUnion<T, I, A>, AllocError>
    requires { All I.can_draw streams.items }
    ensures ready { IfOk result ⟦<MultiwayUnion<T, I, A> as Draw<T>>⟧.can_draw }
    ensures selects { (sets : List (List Interval)) → GiveEach I.may_give streams.items sets
        → IfOk result (λ union. Selects Union T.value_count sets
        (⟦<MultiwayUnion<T, I, A> as Draw<T>>⟧.may_give union)) }
{
    streams.union(alloc)
}

/// Returns the values in all of the streams.
pub fn common<T: Integer, I: DrawDisjoint<T>, A: Allocator + Copy>(
    alloc: A,
    streams: Vec<I, A>,
) -> Result<MultiwayIntersection<T, I, A>, AllocError>
    requires { All I.can_draw streams.items }
    ensures ready { IfOk result ⟦<MultiwayIntersection<T, I, A> as Draw<T>>⟧.can_draw }
    ensures selects { (sets : List (List Interval)) → GiveEach I.may_give streams.items sets
        → IfOk result (λ common. Selects Common T.value_count sets
        (⟦<MultiwayIntersection<T, I, A> as Draw<T>>⟧.may_give common)) }
{
    streams.intersection(alloc)
}

/// Returns the values in an odd number of the streams.
pub fn odd<T: Integer, I: DrawDisjoint<T>, A: Allocator + Copy>(
    alloc: A,
    streams: Vec<I, A>,
) -> Result<MultiwaySymmetricDifference<T, I, A>, AllocError>
    requires { All I.can_draw streams.items }
    ensures ready { IfOk result ⟦<MultiwaySymmetricDifference<T, I, A> as Draw<T>>⟧.can_draw }
    ensures selects { (sets : List (List Interval)) → GiveEach I.may_give streams.items sets
        → IfOk result (λ odd. Selects Odd T.value_count sets
        (⟦<MultiwaySymmetricDifference<T, I, A> as Draw<T>>⟧.may_give odd)) }
{
    streams.symmetric_difference(alloc)
}

/// Returns the values in at least `k` of the streams.
pub fn at_least<T: Integer, I: DrawDisjoint<T>, A: Allocator + Copy>(
    alloc: A,
    streams: Vec<I, A>,
    k: usize,
) -> Result<MultiwayAtLeast<T, I, A>, AllocError>
    requires { All I.can_draw streams.items }
    ensures ready { IfOk result ⟦<MultiwayAtLeast<T, I, A> as Draw<T>>⟧.can_draw }
    ensures selects { (sets : List (List Interval)) → GiveEach I.may_give streams.items sets
        → IfOk result (λ deep. Selects (AtLeast k) T.value_count sets
        (⟦<MultiwayAtLeast<T, I, A> as Draw<T>>⟧.may_give deep)) }
{
    streams.at_least(alloc, k)
}

/// The stream of the values in none of some streams.
pub type Outside<T, I, A> = NotIter<T, MultiwayUnion<T, I, A>>;

/// Returns the values in none of the streams.
pub fn complement<T: Integer, I: DrawDisjoint<T>, A: Allocator + Copy>(
    alloc: A,
    streams: Vec<I, A>,
) -> Result<Outside<T, I, A>, AllocError>
    requires { All I.can_draw streams.items }
    ensures ready { IfOk result ⟦<Outside<T, I, A> as Draw<T>>⟧.can_draw }
    ensures selects { (sets : List (List Interval)) → GiveEach I.may_give streams.items sets
        → IfOk result (λ outside. Selects Complement T.value_count sets
        (⟦<Outside<T, I, A> as Draw<T>>⟧.may_give outside)) }
{
    Ok(union(alloc, streams)?.complement())
}

/// The stream of the values in the first of some streams and in no other.
pub type FirstOnly<T, I, A> = Difference<T, MultiwayUnion<T, I, A>, MultiwayUnion<T, I, A>>;

/// Returns the values in the first of the streams, if there is one, and in none of the others.
pub fn except<T: Integer, I: DrawDisjoint<T>, A: Allocator + Copy>(
    alloc: A,
    streams: Vec<I, A>,
) -> Result<FirstOnly<T, I, A>, AllocError>
    requires { All I.can_draw streams.items }
    ensures ready { IfOk result ⟦<FirstOnly<T, I, A> as Draw<T>>⟧.can_draw }
    ensures selects { (sets : List (List Interval)) → GiveEach I.may_give streams.items sets
        → IfOk result (λ rest. Selects Except T.value_count sets
        (⟦<FirstOnly<T, I, A> as Draw<T>>⟧.may_give rest)) }
{
    let mut first = streams;
    let others = first.split_off(first.len().min(1))?;
    Ok(union(alloc, first)?.difference(union(alloc, others)?))
}
