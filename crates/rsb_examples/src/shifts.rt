//! Who is on duty: two rotas of shifts with names. One shift may start where another ends.

ghost use Rattle.std.specs.Prelude.{length, map, All, IfOk};
ghost use Rattle.range_set_blaze.specs.Many.{may_give_at, SomeOfEach};
ghost use Rattle.range_set_blaze.specs.MultiwaySweep.{sweep_may_give};
ghost use Rattle.range_set_blaze.specs.Sweep.{event_of, AreEvents};

use range_set_blaze::{
    CheckSortedTouching, Draw, Integer, MultiwaySweep, SortedTouching, SweepEvent,
};
use std::alloc::{AllocError, Global};
use std::io;
use std::ops::RangeInclusive;

/// Some hours, and who is on duty then.
#[derive(Clone, Copy)]
struct Shift {
    first: u8,
    last: u8,
    name: &'static str,
}

/// The shifts at a desk. The second starts where the first ends.
static DESK: [Shift; 2] = [
    Shift {
        first: 8,
        last: 11,
        name: "Ada",
    },
    Shift {
        first: 12,
        last: 15,
        name: "Ben",
    },
];

/// The shift at a door.
static DOOR: [Shift; 1] = [Shift {
    first: 10,
    last: 13,
    name: "Cleo",
}];

/// Prints who comes and who goes, hour by hour, and the hours when the desk is taken.
pub fn show(alloc: Global, rt: &impl Print) -> io::Result<()> {
    let desk = CheckSortedTouching::try_new(hours(alloc, &DESK)?);
    let door = CheckSortedTouching::try_new(hours(alloc, &DOOR)?);
    let (Ok(desk), Ok(door)) = (desk, door) else {
        return println!(rt; "two shifts overlap");
    };
    for event in &timeline(alloc, vec![in alloc; desk, door]?)? {
        show_event(event, rt)?;
    }
    if let Ok(desk) = CheckSortedTouching::try_new(hours(alloc, &DESK)?) {
        for run in desk.joined() {
            println!(rt; "the desk is taken from {} to {}", run.start(), run.end())?;
        }
    }
    Ok(())
}

// Returns the hours of shifts.
fn hours(alloc: Global, shifts: &[Shift]) -> Result<Vec<RangeInclusive<u8>>, AllocError> {
    let mut hours = Vec::new(alloc);
    for shift in shifts {
        hours.push(shift.first..=shift.last)?;
    }
    Ok(hours)
}

// Prints who comes, or who goes.
fn show_event(event: &SweepEvent<u8>, rt: &impl Print) -> io::Result<()> {
    match event {
        SweepEvent::Start { range, input } => {
            let (first, last) = (*range.start(), *range.end());
            println!(rt; "{first}: {} comes, until {last}", name_at(*input, first))
        }
        SweepEvent::End { at, input } => println!(rt; "{at}: {} goes", name_at(*input, *at)),
    }
}

// Returns who is on duty at an hour, in the rota of this number.
fn name_at(rota: usize, hour: u8) -> &'static str {
    let shifts: &[Shift] = if rota == 0 { &DESK } else { &DOOR };
    for shift in shifts {
        if shift.first <= hour && hour <= shift.last {
            return shift.name;
        }
    }
    "nobody"
}

/// Returns where the ranges of some streams start and end: each range of each stream once, in
/// order. Ranges that touch stay separate. If allocation fails, no event is returned.
pub fn timeline<T: Integer, I: SortedTouching<T>>(
    alloc: Global,
    inputs: Vec<I>,
) -> Result<Vec<SweepEvent<T>>, AllocError>
    requires { All I.can_draw inputs.items }
    ensures { IfOk result (λ told.
        SomeOfEach (length inputs.items) (may_give_at I.may_give inputs.items)
        (λ lists. AreEvents lists (map (event_of T.rank) told.items))) }
{
    all_of(alloc, MultiwaySweep::new_touching(alloc, inputs)?)
}

// Returns all events of a sweep.
fn all_of<T: Integer, I: Draw<T>>(
    alloc: Global,
    sweep: MultiwaySweep<T, I>,
) -> Result<Vec<SweepEvent<T>>, AllocError>
    requires { ⟦<MultiwaySweep<T, I> as Iterator>⟧.can_next sweep }
    ensures { IfOk result (λ told. sweep_may_give T.Integer.own I.Draw sweep
        (map (event_of T.rank) told.items)) }
{
    let mut sweep = sweep;
    let mut told = Vec::new(alloc);
    while let Some(event) = sweep.next() {
        told.push(event)?;
    }
    Ok(told)
}
