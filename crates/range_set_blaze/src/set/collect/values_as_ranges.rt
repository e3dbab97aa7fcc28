//! The values of an iterator as ranges.

ghost use Rattle.std.specs.Prelude.{◌≡◌};
ghost use Rattle.range_set_blaze.specs.Singles.{singles_steps};

use std::ops::RangeInclusive;

/// The values of an iterator, each as a range of one value.
#[derive(Drop)]
pub(crate) struct Singles<I> {
    values: I,
}

impl<I> Singles<I> {
    /// Returns the values of an iterator as ranges. Draws nothing yet.
    pub(crate) fn new(values: I) -> Self
        ensures { result.values ≡ values }
    {
        Singles { values }
    }
}

impl<T: Copy, I: Iterator<Item = T>> Iterator for Singles<I> {
    type Item = RangeInclusive<T>;

    ghost can_next = { λ s. I.can_next s.values };

    ghost next_gives = { singles_steps I.next_gives };

    ghost remaining = { λ s. I.remaining s.values };

    fn next(&mut self) -> Option<RangeInclusive<T>> {
        let value = self.values.next()?;
        Some(value..=value)
    }
}
