//! The operations on any number of streams or sets. They give the values in at least one, in all,
//! in an odd number, or in at least a given number of them.

ghost use Rattle.std.specs.Prelude.{All, IfOk};

use crate::listed::{Listed, stream_of};
use crate::tables::gives;
use range_set_blaze::{MultiwayRangeSetBlaze, MultiwayRangeSetBlazeRef, RangeSetBlaze};
use rsb_integer::Integer;
use rsb_many::MultiwaySortedDisjoint;
use rsb_streams::{Draw, DrawDisjoint};
use std::alloc::{AllocError, Allocator, Global};

/// The ends of ranges.
pub type Ranges = &'static [(u8, u8)];

/// Returns the streams of the given tables.
pub fn streams_of(alloc: Global, tables: &[Ranges]) -> Result<Vec<Listed<'static>>, AllocError>
    ensures { IfOk result (λ streams. All ⟦<Listed<'static> as Draw<u8>>⟧.can_draw streams.items) }
{
    let mut streams = Vec::new(alloc);
    for table in tables {
        streams.push(stream_of(table))?;
    }
    Ok(streams)
}

/// An operation on any number of streams or sets.
#[derive(Clone, Copy)]
pub enum Form {
    /// The values in at least one of them.
    Some,
    /// The values in all of them.
    All,
    /// The values in an odd number of them.
    Odd,
    /// The values in at least the given number of them.
    AtLeast(usize),
}

/// Returns whether an operation on ready streams gives exactly the ranges with these ends.
pub fn form_gives<T: Integer, I: DrawDisjoint<T>, A: Allocator + Copy>(
    alloc: A,
    form: Form,
    streams: Vec<I>,
    wanted: &[(T, T)],
) -> Result<bool, AllocError>
    requires { All I.can_draw streams.items }
{
    match form {
        Form::Some => Ok(gives(streams.union(alloc)?, wanted)),
        Form::All => Ok(gives(streams.intersection(alloc)?, wanted)),
        Form::Odd => Ok(gives(streams.symmetric_difference(alloc)?, wanted)),
        Form::AtLeast(k) => Ok(gives(streams.at_least(alloc, k)?, wanted)),
    }
}

/// A set whose allocations all succeed.
type Set = RangeSetBlaze<i32>;

/// Returns the result of an operation on sets that are passed by value.
pub fn of_sets<A: Allocator + Copy>(
    alloc: A,
    form: Form,
    sets: Vec<Set>,
) -> Result<RangeSetBlaze<i32, A>, AllocError> {
    match form {
        Form::Some => MultiwayRangeSetBlaze::union(sets, alloc),
        Form::All => MultiwayRangeSetBlaze::intersection(sets, alloc),
        Form::Odd => MultiwayRangeSetBlaze::symmetric_difference(sets, alloc),
        Form::AtLeast(k) => MultiwayRangeSetBlaze::at_least(sets, alloc, k),
    }
}

/// Returns the result of an operation on sets that are passed by reference.
pub fn of_lent<A: Allocator + Copy>(
    alloc: A,
    form: Form,
    sets: Vec<&Set>,
) -> Result<RangeSetBlaze<i32, A>, AllocError> {
    match form {
        Form::Some => MultiwayRangeSetBlazeRef::union(sets, alloc),
        Form::All => MultiwayRangeSetBlazeRef::intersection(sets, alloc),
        Form::Odd => MultiwayRangeSetBlazeRef::symmetric_difference(sets, alloc),
        Form::AtLeast(k) => MultiwayRangeSetBlazeRef::at_least(sets, alloc, k),
    }
}
