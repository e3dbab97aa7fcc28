//! Comparisons of two sets: subset, superset and disjoint.

ghost use Rattle.std.specs.Prelude.{◌↔◌, IsTrue};
ghost use Rattle.rsb_integer.specs.Runs.{members};
ghost use Rattle.rsb_integer.specs.Selection.{AreDisjoint, IsSubset};

use crate::set::RangeSetBlaze;
use rsb_integer::Integer;
use rsb_streams::DrawDisjoint;
use std::alloc::Allocator;

impl<T: Integer, A: Allocator> RangeSetBlaze<T, A> {
    /// Returns whether each member is a member of the other set. Walks each list of runs at most
    /// once, and stops at the second run of members that the other set lacks. Does not allocate.
    /// (`RangeSetBlaze::is_subset`.)
    pub fn is_subset<B: Allocator>(&self, other: &RangeSetBlaze<T, B>) -> bool
        ensures { IsTrue result ↔ IsSubset T.value_count (members self.now) (members other.now) }
    {
        self.ranges().is_subset(other.ranges())
    }

    /// Returns whether each member of the other set is a member of this one. Walks each list of
    /// runs at most once, and stops at the second run of members that this set lacks. Does not
    /// allocate. (`RangeSetBlaze::is_superset`.)
    pub fn is_superset<B: Allocator>(&self, other: &RangeSetBlaze<T, B>) -> bool
        ensures { IsTrue result ↔ IsSubset T.value_count (members other.now) (members self.now) }
    {
        other.is_subset(self)
    }

    /// Returns whether the two sets have no member in common. Walks each list of runs at most once,
    /// and stops at the second run of common members. Does not allocate.
    /// (`RangeSetBlaze::is_disjoint`.)
    pub fn is_disjoint<B: Allocator>(&self, other: &RangeSetBlaze<T, B>) -> bool
        ensures { IsTrue result ↔ AreDisjoint T.value_count (members self.now) (members other.now) }
    {
        self.ranges().is_disjoint(other.ranges())
    }
}
