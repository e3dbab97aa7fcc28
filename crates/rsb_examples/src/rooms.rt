//! Bookings of several rooms, each a set of quarter hours: when one is taken, and when all are.

ghost use Rattle.std.specs.Prelude.{◌≡◌, ℕ, ◌<◌, map, IfOk};
ghost use Rattle.range_set_blaze.specs.Runs.{members};
ghost use Rattle.range_set_blaze.specs.Selection.{all_of, any_of};
ghost use Rattle.range_set_blaze.specs.Set.{IsSetOf};

use crate::calendar::slot_at;
use range_set_blaze::{MultiwayRangeSetBlazeRef, RangeSetBlaze};
use rsb_user_types::Slot;
use std::alloc::{AllocError, Global};
use std::io;

/// The quarter hours of a day at which a room is taken.
type Bookings = RangeSetBlaze<Slot>;

/// Returns when at least one room is taken. If allocation fails, no set is made.
pub fn some_taken(alloc: Global, rooms: &[Bookings]) -> Result<Bookings, AllocError>
    ensures { IfOk result (λ taken. IsSetOf taken (any_of (map members rooms.now))) }
{
    rooms.union(alloc)
}

/// Returns when all rooms are taken. If allocation fails, no set is made.
pub fn all_taken(alloc: Global, rooms: &[Bookings]) -> Result<Bookings, AllocError>
    ensures { IfOk result (λ taken. (quarter : ℕ) → quarter < 96
        → members taken quarter ≡ all_of (map members rooms.now) quarter) }
{
    rooms.intersection(alloc)
}

/// Prints when the rooms of a house are taken, by the numbers of the quarter hours.
pub fn show(alloc: Global, rt: &impl Print) -> io::Result<()> {
    let rooms = [
        RangeSetBlaze::from(alloc, slot_at(9, 0)..=slot_at(11, 3))?,
        RangeSetBlaze::from(alloc, slot_at(11, 0)..=slot_at(12, 1))?,
    ];
    println!(rt; "a room is taken: {}", some_taken(alloc, &rooms)?)?;
    println!(rt; "all are taken: {}", all_taken(alloc, &rooms)?)
}
