//! Sets of addresses of one family, kept as lists.

ghost use Rattle.std.specs.Prelude.{◌≡◌, IfOk, length};
ghost use Rattle.range_set_blaze.specs.Rank.{intervals_of};
ghost use Rattle.range_set_blaze.specs.Runs.{AreRuns, IsCanonicalIn, members};
ghost use Rattle.range_set_blaze.specs.Selection.{count};
ghost use Rattle.range_set_blaze.specs.Set.{IsSetOf};
ghost use Rattle.ip_sets.specs.Pairs.{MayJoin, spans_of};

mod joining;
mod ranges;
mod searching;

use crate::blocks::Address;
use crate::set::joining::{in_order, joins};
use crate::set::searching::any_has;
use range_set_blaze::DrawDisjoint;
pub use ranges::AddressRanges;
use std::alloc::{AllocError, Allocator, Global};
use std::marker::Model;

/// A set of addresses of one family. Contracts see it as the list of its runs, each as the interval
/// of the numbers of its addresses.
#[derive(Debug, Drop)]
pub struct AddressSet<T: Address, A: Allocator = Global> {
    // The first and the last address of each run, in ascending order.
    runs: Vec<(T, T), A>,
}

impl<T: Address, A: Allocator> Model for AddressSet<T, A> {
    ghost use Rattle.std.specs.Prelude.{List};
    ghost use Rattle.range_set_blaze.specs.Runs.{Interval, IsCanonicalIn};
    ghost use Rattle.ip_sets.specs.Pairs.{spans_of};

    ghost Value = { List Interval };

    ghost view = { λ s. spans_of T.rank s.runs.items };

    ghost invariant = { λ s. IsCanonicalIn T.value_count (spans_of T.rank s.runs.items) };
}

impl<T: Address, A: Allocator> AddressSet<T, A> {
    /// Returns the set of the addresses of a ready stream. If allocation fails, the stream is
    /// dropped.
    pub fn from_ranges<I: DrawDisjoint<T>>(alloc: A, ranges: I) -> Result<Self, AllocError>
        requires { I.can_draw ranges }
        ensures { IfOk result (λ set. I.may_give ranges set) }
    {
        let mut ranges = ranges;
        let mut runs = Vec::new(alloc);
        while let Some(range) = ranges.draw() {
            runs.push(range.into_inner())?;
        }
        Ok(AddressSet { runs })
    }

    /// Returns the set of the addresses from the first to the second of each pair. The pairs may
    /// come in any order. They are sorted and joined in place, and nothing is allocated.
    pub(crate) fn of_pairs(pairs: Vec<(T, T), A>) -> Self
        ensures { IsSetOf result (members (spans_of T.rank pairs.items)) }
    {
        let joins = |next: &mut (T, T), last: &mut (T, T)| -> bool
            ensures { (next.exit.now ≡ next.entry.now)
                × MayJoin T.rank next.entry.now last.entry.now result last.exit.now }
        { joins(next, last) };
        let mut runs = pairs;
        runs.retain(|pair| in_order(pair));
        runs.sort_unstable_by_key(|pair| pair.0);
        runs.dedup_by(joins);
        AddressSet { runs }
    }

    /// Returns the runs in ascending order, as a ready stream. Does not allocate.
    pub fn ranges(&self) -> AddressRanges<'_, T>
        ensures ranges { intervals_of T.rank result ≡ self.now }
        ensures ready { IsCanonicalIn T.value_count (intervals_of T.rank result) }
        ensures runs { AreRuns T.value_count (members self.now) self.now }
    {
        AddressRanges {
            runs: self.runs.iter(),
        }
    }

    /// Returns the number of runs.
    pub fn ranges_len(&self) -> usize
        ensures length { result ≡ length self.now }
        ensures runs { AreRuns T.value_count (members self.now) self.now }
    {
        self.runs.len()
    }

    /// Returns the number of addresses. It counts run by run.
    pub fn len(&self) -> T::SafeLen
        ensures { T.SafeLen.number result ≡ count T.value_count (members self.now) }
    {
        self.ranges().members_len()
    }

    /// Returns whether the set has an address.
    pub fn contains(&self, address: T) -> bool
        ensures { result ≡ members self.now (T.rank address) }
    {
        any_has(&self.runs, address)
    }
}
