//! The set type: its runs in ascending order, and the number of their members.
//!
//! Contracts see only the list of its runs (docs/DECISIONS.md, set-as-runs).

ghost use Rattle.std.specs.Prelude.{◌≡◌, ◌↔◌, ◌<◌, [], length, IfSome, IsNone, IsTrue};
ghost use Rattle.rsb_integer.specs.Rank.{intervals_of};
ghost use Rattle.rsb_integer.specs.Runs.{members, AreRuns, IsCanonicalIn};
ghost use Rattle.rsb_integer.specs.Selection.{count, IsEmpty};
ghost use Rattle.rsb_storage.specs.Set.{IsGreatest, IsLeast};

mod algebra;
mod assign;
pub(crate) mod collect;
mod disjoint_union;
pub(crate) mod elements;
mod extend;
mod first_fit;
mod from_stream;
pub(crate) mod hash;
mod insert;
mod look_up;
mod operators;
pub(crate) mod order;
pub mod parse;
mod pieces;
mod ranked;
mod remove;
mod remove_ranges;
mod retain;
mod split;
mod std_defaults;
mod subsets;
mod swallow;
mod text;
pub(crate) mod windows;

use num_traits::Zero;
use rsb_integer::Integer;
use rsb_storage::ranges_iter::RangesIter;
use rsb_storage::runs::Runs;
use std::alloc::{Allocator, Global};
use std::marker::Model;

/// A set of integers. Contracts see it as the list of its runs, each as the interval of its ranks.
/// (`RangeSetBlaze` in range-set-blaze.)
#[derive(Drop)]
pub struct RangeSetBlaze<T: Integer, A: Allocator = Global> {
    runs: Runs<T, A>,
    length: T::SafeLen,
    // The allocator of the runs, which calls on this set use to make other sets
    // (docs/DECISIONS.md, allocator-parameter).
    alloc: A,
}

impl<T: Integer, A: Allocator> Model for RangeSetBlaze<T, A> {
    ghost use Rattle.std.specs.Prelude.{List};
    ghost use Rattle.rsb_integer.specs.Runs.{Interval};
    ghost use Rattle.rsb_storage.specs.Storage.{IsKept};

    ghost Value = { List Interval };

    ghost view = { λ s. s.runs };

    ghost invariant = { λ s. IsKept T.value_count s.runs (T.SafeLen.number s.length) };
}

impl<T: Integer, A: Allocator + Copy> RangeSetBlaze<T, A> {
    /// Returns the empty set. Does not allocate. (`RangeSetBlaze::new`.)
    pub fn new(alloc: A) -> Self
        ensures { result ≡ [] }
    {
        RangeSetBlaze {
            runs: Runs::new(alloc),
            length: T::SafeLen::zero(),
            alloc,
        }
    }

    /// Returns the empty set. Does not allocate. (`Default` of `RangeSetBlaze`, whose `default`
    /// takes no allocator.)
    pub fn default(alloc: A) -> Self
        ensures { result ≡ [] }
    {
        Self::new(alloc)
    }
}

impl<T: Integer, A: Allocator> RangeSetBlaze<T, A> {
    /// Returns the number of members. (`RangeSetBlaze::len`.)
    pub fn len(&self) -> T::SafeLen
        ensures { T.SafeLen.number result ≡ count T.value_count (members self.now) }
    {
        self.length
    }

    /// Returns the number of runs. (`RangeSetBlaze::ranges_len`.)
    pub fn ranges_len(&self) -> usize
        ensures length { result ≡ length self.now }
        ensures runs { AreRuns T.value_count (members self.now) self.now }
    {
        self.runs.len()
    }

    /// Returns whether the set has no members. (`RangeSetBlaze::is_empty`.)
    pub fn is_empty(&self) -> bool
        ensures { IsTrue result ↔ IsEmpty (members self.now) }
    {
        self.runs.is_empty()
    }

    /// Returns the least member, or `None` if the set is empty. (`RangeSetBlaze::first`.)
    pub fn first(&self) -> Option<T>
        ensures none { IsNone result ↔ (self.now ≡ []) }
        ensures found { IfSome result (λ first.
            IsLeast T.value_count (members self.now) (T.rank first)) }
    {
        let run = self.runs.first()?;
        Some(run.start)
    }

    /// Returns the greatest member, or `None` if the set is empty. (`RangeSetBlaze::last`.)
    pub fn last(&self) -> Option<T>
        ensures none { IsNone result ↔ (self.now ≡ []) }
        ensures found { IfSome result (λ last.
            IsGreatest T.value_count (members self.now) (T.rank last)) }
    {
        let run = self.runs.last()?;
        Some(run.end)
    }

    /// Returns the runs in ascending order, as a double-ended iterator. (`RangeSetBlaze::ranges`.)
    pub fn ranges(&self) -> RangesIter<'_, T>
        ensures ranges { intervals_of T.rank result ≡ self.now }
        ensures ready { IsCanonicalIn T.value_count (intervals_of T.rank result) }
        ensures runs { AreRuns T.value_count (members self.now) self.now }
    {
        self.runs.ranges()
    }

    /// Removes all members. Does not allocate. (`RangeSetBlaze::clear`.)
    pub fn clear(&mut self)
        ensures { self.new ≡ [] }
    {
        self.runs.clear();
        self.length = T::SafeLen::zero();
    }
}
