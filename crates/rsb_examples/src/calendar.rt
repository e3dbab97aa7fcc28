//! A booking calendar of one day, by quarter hours: nothing is booked twice.

ghost use Rattle.std.specs.Prelude.{
  ◌≡◌,
  ◌↔◌,
  ℕ,
  ◌+◌,
  ◌*◌,
  ◌<◌,
  ◌≤◌,
  ◌&&◌,
  nat_le,
  IfOk,
  IsFalse,
  IsTrue,
  OnErr,
};
ghost use Rattle.range_set_blaze.specs.Runs.{members};
ghost use Rattle.range_set_blaze.specs.Set.{Adds};

use range_set_blaze::{DrawDisjoint, RangeSetBlaze};
use rsb_user_types::Slot;
use std::alloc::{AllocError, Global};
use std::fmt::{self, Display, Formatter, Write};
use std::io;

/// Returns the slot of an hour and a quarter of it.
pub fn slot_at(hour: u8, quarter: u8) -> Slot
    requires hour { hour < 24 }
    requires quarter { quarter < 4 }
    ensures { result ≡ 4 * hour + quarter }
{
    Slot::new(4 * hour + quarter).unwrap()
}

/// The time at which a slot starts, such as `09:15`.
#[derive(Clone, Copy)]
struct Time(Slot);

impl Display for Time {
    fn fmt<W: Write>(&self, f: &mut Formatter<W>) -> fmt::Result {
        let quarters = self.0.get();
        let (hour, minute) = (quarters / 4, quarters % 4 * 15);
        write!(f, "{hour:02}:{minute:02}")
    }
}

/// Tries three bookings, and prints the day with its gaps.
pub fn show(alloc: Global, rt: &impl Print) -> io::Result<()> {
    let mut booked = RangeSetBlaze::new(alloc);
    let morning = book(&mut booked, slot_at(9, 0), slot_at(10, 1))?;
    let noon = book(&mut booked, slot_at(10, 1), slot_at(12, 3))?;
    let afternoon = book(&mut booked, slot_at(13, 2), slot_at(14, 3))?;
    println!(rt; "morning: {morning}, noon: {noon}, afternoon: {afternoon}")?;
    println!(rt; "{} slots are booked", booked.len())?;
    show_day(&booked, rt)
}

// Prints the booked slots and the gaps between them, from the first slot of the day to the last.
fn show_day(booked: &RangeSetBlaze<Slot>, rt: &impl Print) -> io::Result<()> {
    for (slots, is_booked) in booked.ranges().fill_gaps() {
        let (first, last) = slots.into_inner();
        let what = if is_booked { "booked" } else { "free" };
        println!(rt; "{}..={} {what}", Time(first), Time(last))?;
    }
    Ok(())
}

/// Books the slots from the first to the last if all are free, and returns whether it did. If
/// allocation fails, the calendar is unchanged.
pub fn book(booked: &mut RangeSetBlaze<Slot>, first: Slot, last: Slot) -> Result<bool, AllocError>
    ensures free { IfOk result (λ done. IsTrue done ↔ ((quarter : ℕ) → first ≤ quarter
        → quarter ≤ last → IsFalse (members booked.old quarter))) }
    ensures members { IfOk result (λ done. IsTrue done → Adds booked.old booked.new
        (λ quarter. nat_le first quarter && nat_le quarter last)) }
    ensures refused { IfOk result (λ done. IsFalse done → booked.new ≡ booked.old) }
    ensures err { OnErr result (booked.new ≡ booked.old) }
{
    if !are_free(&*booked, first, last) {
        return Ok(false);
    }
    booked.ranges_insert(first..=last)?;
    Ok(true)
}

// Returns whether no slot from the first to the last is booked.
fn are_free(booked: &RangeSetBlaze<Slot>, first: Slot, last: Slot) -> bool
    ensures { IsTrue result ↔ ((quarter : ℕ) → first ≤ quarter → quarter ≤ last
        → IsFalse (members booked.now quarter)) }
{
    if last < first {
        return true;
    }
    let (block, is_booked) = booked.range_or_gap_at(first);
    !is_booked && last <= *block.end()
}
