//! What a set feeds to a hasher.

ghost use Rattle.std.specs.Prelude.{◌≡◌, ◌++◌, List, flat_map, fold};
ghost use Rattle.rsb_integer.specs.Runs.{Interval, members, IsCanonicalIn};
ghost use Rattle.range_set_blaze.specs.Hash.{ends_of_runs, hashed_runs, run_bounds};
ghost use Rattle.range_set_blaze.specs.laws.Hash.{hashed_runs-same};

use crate::set::RangeSetBlaze;
use rsb_integer::Integer;
use rsb_storage::entries::next_run;
use std::alloc::Allocator;
use std::collections::btree_map::Iter;
use std::hash::{Hash, Hasher};

/// A set feeds the hasher its length, and then the start and the end of each run in ascending
/// order. It feeds neither its representation nor the number of its runs, so equal sets feed the
/// hasher the same input.
impl<T: Integer + Hash, A: Allocator> Hash for RangeSetBlaze<T, A> {
    ghost hash_input = { hashed_runs (λ n. T.SafeLen.hash_input (T.SafeLen.length_at n))
        (λ rank. T.hash_input (T.value_at rank)) T.value_count };

    ghost respects_eq = { hashed_runs-same (λ n. T.SafeLen.hash_input (T.SafeLen.length_at n))
        (λ rank. T.hash_input (T.value_at rank)) T.value_count };

    fn hash<H: Hasher>(&self, state: &mut H) {
        self.length.hash(state);
        feed_runs(&mut self.runs.iter(), state);
    }
}

/// States that `run_bounds` lists the start and the end of each run, one run after the other. A set
/// feeds these to a hasher after its length. The list of runs must be canonical, as that of every
/// set is. Not in range-set-blaze.
pub fn run_bounds_are_ends<T: Integer>()
    ensures { (runs : List Interval) → IsCanonicalIn T.value_count runs
        → run_bounds T.value_count (members runs) ≡ ends_of_runs runs }
{}

// Feeds the start and the end of each run.
fn feed_runs<T: Copy + Hash, H: Hasher>(entries: &mut Iter<'_, T, T>, state: &mut H)
    ensures { state.new ≡ fold H.write state.old
        (flat_map (λ run. T.hash_input run.0 ++ T.hash_input run.1) entries.old) }
{
    while let Some(run) = next_run(entries) {
        run.start.hash(state);
        run.end.hash(state);
    }
}
