//! The complement of a result of an operation on many streams, at every element type.

ghost use Rattle.std.specs.Prelude.{length, All, IfOk};
ghost use Rattle.rsb_integer.specs.Selection.{any_of, complement};
ghost use Rattle.rsb_many.specs.Many.{may_give_at, runs_by_all};
ghost use Rattle.rsb_streams.specs.Stream.{◌⊆◌, runs_by};

use rsb_integer::Integer;
use rsb_many::{MultiwaySortedDisjoint, MultiwayUnion};
use rsb_streams::{Draw, DrawDisjoint, NotIter};
use std::alloc::{AllocError, Allocator};
use std::test::Fail;
use test_support::{Ranges, gives, streams_of};

/// Returns what lies in none of the streams of a list.
fn none_of<T: Integer, I: DrawDisjoint<T>, A: Allocator + Copy>(
    alloc: A,
    streams: Vec<I, A>,
) -> Result<NotIter<T, MultiwayUnion<T, I, A>>, AllocError>
    requires { All I.can_draw streams.items }
    ensures ready { IfOk result ⟦<NotIter<T, MultiwayUnion<T, I, A>> as Draw<T>>⟧.can_draw }
    ensures gives { IfOk result (λ none.
        ⟦<NotIter<T, MultiwayUnion<T, I, A>> as Draw<T>>⟧.may_give none
        ⊆ runs_by T.value_count complement (runs_by_all T.value_count any_of (length streams.items)
        (may_give_at I.may_give streams.items))) }
{
    let union = streams.union(alloc)?;
    Ok(union.complement())
}

/// Three streams whose union has gaps.
static APART: [Ranges; 3] = [&[(1, 2)], &[(5, 6)], &[(2, 3), (200, 255)]];

#[test]
fn many_streams_in_an_operation_on_one(rt: HostRuntime) -> Result<(), Fail> {
    let none = none_of(rt.alloc(), streams_of(rt.alloc(), &APART)?)?;
    assert!(rt; gives(none, &[(0, 0), (4, 4), (7, 199)]));
    Ok(())
}
