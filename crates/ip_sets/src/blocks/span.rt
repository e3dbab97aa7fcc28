//! What is left of a range of addresses.

ghost use Rattle.std.specs.Prelude.{◌<◌, ◌≤◌};
ghost use Rattle.ip_sets.specs.BlocksLeft.{IsSplit};

use crate::blocks::address::Address;
use crate::blocks::block::Block;
use crate::blocks::numbers::{biggest_at, ones};

/// The addresses from one to another, both included.
#[derive(Clone, Debug, Drop)]
pub(crate) struct Span<T> {
    pub(crate) first: T,
    pub(crate) last: T,
}

impl<T: Address> Span<T> {
    /// Splits off the biggest block at the start, and returns it with what is left.
    pub(crate) fn split(self) -> (Block<T>, Option<Span<T>>)
        requires in_order { T.rank self.first ≤ T.rank self.last }
        requires in_type { T.rank self.last < T.value_count }
        ensures { IsSplit T.rank T.width self result.0 result.1 }
    {
        let first = self.first.number();
        let last = self.last.number();
        let free = biggest_at(first, last);
        let block = Block {
            first: self.first,
            length: T::bits() - free,
        };
        let end = first + ones(free);
        if end == last {
            return (block, None);
        }
        let rest = Span {
            first: T::from_number(end + 1),
            last: self.last,
        };
        (block, Some(rest))
    }
}
