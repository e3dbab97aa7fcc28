//! The calls of `Integer`, and operations on streams, at an enum whose values are listed.

ghost use Rattle.std.specs.Prelude.{[], ◌∷◌};
ghost use Rattle.std.proofs.Common.{lit<, lit≤, refl};
ghost use Rattle.rsb_integer.specs.Room.{have_room};
ghost use Rattle.test_streams.specs.declared.integer.weekdays.Weekday.TheVariants.{
  Monday,
  Tuesday,
  Wednesday,
  Thursday,
  Friday,
  Saturday,
  Sunday,
};

use crate::integer::ends::{are_neighbors, calls_end_well, leads_across};
use rsb_integer::{Element, Enumerated};
use rsb_streams::RangeOnce;
use test_support::{Operation, operation_gives};

/// A day of the week.
#[derive(Clone, Copy, Debug, PartialEq, Eq, PartialOrd, Ord, Hash)]
enum Weekday {
    Monday,
    Tuesday,
    Wednesday,
    Thursday,
    Friday,
    Saturday,
    Sunday,
}

use Weekday::{Friday, Monday, Saturday, Sunday, Thursday, Tuesday, Wednesday};

impl Enumerated for Weekday {
    ghost least = { Monday };

    ghost others = { Tuesday ∷ Wednesday ∷ Thursday ∷ Friday ∷ Saturday ∷ Sunday ∷ [] };

    fn values<'a>() -> &'a [Weekday] {
        &[
            Monday, Tuesday, Wednesday, Thursday, Friday, Saturday, Sunday,
        ]
    }

    fn number(self) -> u16 {
        self as u16
    }

    ghost complete = { elim [ Monday ↦ refl | _ ↦ refl ] };

    ghost ascending = { refl };

    ghost some_values = { lit≤ tt };

    ghost few_values = { lit≤ tt };

    ghost two_ends_fit = { λ end. have_room _ (lit< tt) };
}

#[test]
fn days_are_counted_and_stepped_at_both_ends(rt: HostRuntime) {
    assert!(rt; calls_end_well::<Element<Weekday>>(2, 7));
    assert!(rt; are_neighbors(Element(Wednesday), Element(Thursday)));
    assert!(rt; leads_across(Element(Tuesday), Element(Friday), 4));
}

/// The ends of a range of days.
type Ends = (Element<Weekday>, Element<Weekday>);

/// The days from one to another, by these.
const fn days(first: Weekday, last: Weekday) -> Ends {
    (Element(first), Element(last))
}

/// Whether an operation on two ranges of days gives these.
fn makes(operation: Operation, left: Ends, right: Ends, wanted: &[Ends]) -> bool {
    let (left_days, right_days) = (left.0..=left.1, right.0..=right.1);
    operation_gives(
        operation,
        RangeOnce::new(left_days),
        RangeOnce::new(right_days),
        wanted,
    )
}

/// Whether an operation on the working days and on those from Thursday on gives these.
fn of_working_days(operation: Operation, wanted: &[Ends]) -> bool {
    makes(
        operation,
        days(Monday, Friday),
        days(Thursday, Sunday),
        wanted,
    )
}

#[test]
fn days_that_overlap_are_operated_on(rt: HostRuntime) {
    assert!(rt; of_working_days(Operation::Union, &[days(Monday, Sunday)]));
    assert!(rt; of_working_days(Operation::Intersection, &[days(Thursday, Friday)]));
    assert!(rt; of_working_days(Operation::Difference, &[days(Monday, Wednesday)]));
    assert!(rt; of_working_days(Operation::Complement, &[days(Saturday, Sunday)]));
    let apart = [days(Monday, Wednesday), days(Saturday, Sunday)];
    assert!(rt; of_working_days(Operation::SymmetricDifference, &apart));
}

/// Whether the union of two ranges of days gives these.
fn union_is(left: Ends, right: Ends, wanted: &[Ends]) -> bool {
    makes(Operation::Union, left, right, wanted)
}

#[test]
fn days_that_touch_are_joined(rt: HostRuntime) {
    let all = [days(Monday, Sunday)];
    assert!(rt; union_is(days(Monday, Friday), days(Saturday, Sunday), &all));
    let apart = [days(Monday, Tuesday), days(Thursday, Friday)];
    assert!(rt; union_is(days(Monday, Tuesday), days(Thursday, Friday), &apart));
}
