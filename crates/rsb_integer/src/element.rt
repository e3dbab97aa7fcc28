//! The values of an `Enumerated` type, as elements of sets and streams
//! (docs/DECISIONS.md, elements-of-enums).

ghost use Rattle.std.specs.Prelude.{◌≡◌, ◌<◌, ◌∷◌, length, slice_index_or};
ghost use Rattle.std.proofs.Common.{le_trans, lit≤};
ghost use Rattle.rsb_integer.specs.Enumerated.{place_in};
ghost use Rattle.rsb_integer.specs.laws.Enumerated.{listed-exact, listed-in_order, listed-ranks};

use crate::enumerated::Enumerated;
use crate::integer::Integer;
use std::fmt::{self, Debug, Formatter, Write};
use std::marker::Model;
use std::ops::RangeInclusive;

/// A value of an `Enumerated` type, as an element of sets and streams. Contracts see it as that
/// value. Not in range-set-blaze.
#[derive(Clone, Copy, PartialEq, Eq, PartialOrd, Ord, Hash)]
pub struct Element<E>(pub E);

impl<E> Model for Element<E> {
    ghost Value = { E };

    ghost view = { λ element. element.0 };

    ghost inverse = { λ value. record { 0 = value } };
}

/// Writes the `Debug` text of the value.
impl<E: Debug> Debug for Element<E> {
    ghost debug_output = { E.debug_output };

    fn fmt<W: Write>(&self, f: &mut Formatter<W>) -> fmt::Result {
        Debug::fmt(&self.0, f)
    }
}

// Returns the number of values of the type.
fn count<E: Enumerated>() -> u16
    ensures { result ≡ length (E.least ∷ E.others) }
{
    E::values().len() as u16
}

// Returns the place of a value in the list, which is below the number of values.
fn place<E: Enumerated>(element: Element<E>) -> u16
    ensures place { result ≡ place_in E.eq (E.least ∷ E.others) element }
    ensures below { result < length (E.least ∷ E.others) }
    ensures few { result < 65_535 }
{
    element.0.number()
}

// Returns the value at a place of the list.
fn element_at<E: Enumerated>(place: u16) -> Element<E>
    requires { place < length (E.least ∷ E.others) }
    ensures { place_in E.eq (E.least ∷ E.others) result ≡ place }
{
    Element(E::values()[place as usize])
}

impl<E: Enumerated> Integer for Element<E> {
    type SafeLen = u16;

    ghost rank = { place_in E.eq (E.least ∷ E.others) };

    ghost value_count = { length (E.least ∷ E.others) };

    ghost value_at = { λ place. slice_index_or (E.least ∷ E.others) place E.least };

    fn checked_add_one(self) -> Option<Element<E>> {
        let next = place(self) + 1;
        if next < count::<E>() {
            Some(element_at(next))
        } else {
            None
        }
    }

    fn add_one(self) -> Element<E> {
        element_at(place(self) + 1)
    }

    fn sub_one(self) -> Element<E> {
        element_at(place(self) - 1)
    }

    fn min_value() -> Element<E> {
        element_at(0)
    }

    fn max_value() -> Element<E> {
        element_at(count::<E>() - 1)
    }

    fn safe_len(range: &RangeInclusive<Element<E>>) -> u16 {
        place(*range.end()) - place(*range.start()) + 1
    }

    fn inclusive_end_from_start(self, b: u16) -> Element<E> {
        element_at(place(self) + (b - 1))
    }

    fn start_from_inclusive_end(self, b: u16) -> Element<E> {
        element_at(place(self) - (b - 1))
    }

    ghost ranks = { λ place below.
        listed-ranks E.eq E.cmp E.total (E.least ∷ E.others) E.ascending E.complete E.least place
        below };

    ghost exact = { listed-exact E.eq E.cmp E.total (E.least ∷ E.others) E.ascending E.complete };

    ghost in_order = { λ x y left right.
        listed-in_order E.eq E.cmp E.total (E.least ∷ E.others) E.ascending E.complete x y };

    ghost some_values = { E.some_values };

    ghost countable = { le_trans E.few_values (lit≤ tt) };

    ghost lengths_suffice = { E.few_values };

    ghost two_ends_fit = { E.two_ends_fit };
}
