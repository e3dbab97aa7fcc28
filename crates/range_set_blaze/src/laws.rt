//! Laws that callers rely on. Each function does nothing, and its clauses state the law.
//! `cmp_counted` is here too: it returns the order of two sets and the number of iterations that
//! the comparison takes.

ghost use Rattle.std.specs.Prelude.{List};
ghost use Rattle.rsb_integer.specs.Runs.{members, AreRuns, Interval};

use crate::set::RangeSetBlaze;
pub use crate::set::elements::elements_stand_for_sets;
pub use crate::set::hash::run_bounds_are_ends;
pub use crate::set::order::{cmp_counted, order_by_least_difference};
use rsb_integer::Integer;
pub use rsb_integer::laws::{
    at_least_all, at_least_falls, at_least_one, canonical_lists_are_runs, complement_twice,
    de_morgan, difference_by_complement, equal_members_equal_lists, offsets_undo_length,
    symmetric_by_union,
};
pub use rsb_many::laws::{one_list_of_events, some_list_of_events};
use rsb_streams::DrawDisjoint;
pub use rsb_streams::laws::one_filled_list;
use std::alloc::Allocator;

/// The list of ranges of every set is the ascending list of all maximal runs of its members. It
/// holds after any sequence of calls, for every element type. Not in range-set-blaze.
pub fn ranges_are_maximal_runs<T: Integer, A: Allocator>(set: &RangeSetBlaze<T, A>)
    ensures { AreRuns T.value_count (members set.now) set.now }
{
    // Called only for its clause.
    set.ranges_len();
}

/// Whatever list of ranges a ready stream may give is the ascending list of all maximal runs of its
/// members. It holds for every stream built by set operations, at any depth, and for every other
/// `DrawDisjoint`. Not in range-set-blaze.
pub fn stream_ranges_are_maximal_runs<T: Integer, I: DrawDisjoint<T>>()
    ensures { (stream : I) (runs : List Interval) → I.can_draw stream → I.may_give stream runs
        → AreRuns T.value_count (members runs) runs }
{}
