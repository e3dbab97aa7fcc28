//! The opening days of a shop: sets of an enum.

ghost use Rattle.std.specs.Prelude.{◌≡◌, [], ◌∷◌, IfOk};
ghost use Rattle.std.proofs.Common.{lit<, lit≤, refl};
ghost use Rattle.range_set_blaze.specs.Room.{have_room};
ghost use Rattle.range_set_blaze.specs.Runs.{members};
ghost use Rattle.range_set_blaze.specs.Selection.{complement_in};
ghost use Rattle.range_set_blaze.specs.Set.{IsSetOf};
ghost use Rattle.rsb_examples.specs.declared.weekdays.Weekday.TheVariants.{
  Monday,
  Tuesday,
  Wednesday,
  Thursday,
  Friday,
  Saturday,
  Sunday,
};

use range_set_blaze::{Element, Enumerated, Integer, RangeSetBlaze};
use std::alloc::{AllocError, Global};
use std::io;

/// A day of the week.
#[derive(Clone, Copy, Debug, PartialEq, Eq, PartialOrd, Ord, Hash)]
pub enum Weekday {
    Monday,
    Tuesday,
    Wednesday,
    Thursday,
    Friday,
    Saturday,
    Sunday,
}

impl Enumerated for Weekday {
    ghost least = { Monday };

    ghost others = { Tuesday ∷ Wednesday ∷ Thursday ∷ Friday ∷ Saturday ∷ Sunday ∷ [] };

    fn values<'a>() -> &'a [Weekday] {
        use Weekday::{Friday, Monday, Saturday, Sunday, Thursday, Tuesday, Wednesday};
        &[
            Monday, Tuesday, Wednesday, Thursday, Friday, Saturday, Sunday,
        ]
    }

    fn number(self) -> u16 {
        self as u16
    }

    ghost complete = { elim [ Monday ↦ refl | _ ↦ refl ] };

    ghost ascending = { refl };

    ghost some_values = { lit≤ tt };

    ghost few_values = { lit≤ tt };

    ghost two_ends_fit = { λ end. have_room _ (lit< tt) };
}

/// A set of days.
type Days = RangeSetBlaze<Element<Weekday>>;

/// The days on which a shop is open and closed.
pub fn show(alloc: Global, rt: &impl Print) -> io::Result<()> {
    let week = Element(Weekday::Monday)..=Element(Weekday::Friday);
    let mut days: Days = RangeSetBlaze::from(alloc, week)?;
    println!(rt; "open: {days}; closed: {}", days_off(&days)?)?;
    days.insert(Element(Weekday::Saturday))?;
    days.remove(Element(Weekday::Wednesday))?;
    println!(rt;
        "open: {days}, {} days; closed: {}",
        days.len(),
        days_off(&days)?
    )?;
    for day in [Weekday::Wednesday, Weekday::Saturday] {
        println!(rt; "open on {day:?}: {}", is_open(&days, day))?;
    }
    Ok(())
}

/// Returns the days of the week that a set lacks.
pub fn days_off(days: &Days) -> Result<Days, AllocError>
    ensures { IfOk result (λ others. IsSetOf others (complement_in 7 (members days.now))) }
{
    days.not()
}

/// Returns whether a day is in a set.
pub fn is_open(days: &Days, day: Weekday) -> bool
    ensures { result ≡ members days.now (⟦<Element<Weekday> as Integer>⟧.rank day) }
{
    days.contains(Element(day))
}
