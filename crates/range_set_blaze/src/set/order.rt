//! Equality and order of sets.

ghost use Rattle.std.specs.Prelude.{
  ◌≡◌,
  ◌↔◌,
  ℕ,
  ◌+◌,
  ◌≤◌,
  List,
  [],
  length,
  min,
  refl,
  IsTrue,
  Some,
  cond,
  nat_lt,
};
ghost use Rattle.std.specs.declared.cmp.Ordering.TheVariants.{Greater, Less};
ghost use Rattle.rsb_integer.specs.Runs.{Interval, members, IsCanonicalIn};
ghost use Rattle.rsb_integer.specs.Selection.{Agree};
ghost use Rattle.range_set_blaze.specs.Order.{AreTurns, HasOrder};
ghost use Rattle.range_set_blaze.specs.laws.Order.{
  set_cmp,
  set_eq,
  sets_equivalence,
  sets_partial_equivalence,
  sets_partial_order,
  sets_ties,
  sets_total,
};

use crate::set::RangeSetBlaze;
use rsb_integer::Integer;
use rsb_storage::entries::next_run;
use rsb_storage::runs::Runs;
use std::alloc::Allocator;
use std::cmp::Ordering;
use std::collections::btree_map::Iter;

/// Two sets are equal if they have the same members.
impl<T: Integer, A: Allocator> PartialEq for RangeSetBlaze<T, A> {
    ghost eq = { set_eq T.value_count };

    ghost laws = { sets_partial_equivalence T.value_count };

    fn eq(&self, other: &Self) -> bool {
        self.cmp(other).is_eq()
    }
}

impl<T: Integer, A: Allocator> Eq for RangeSetBlaze<T, A> {
    ghost laws = { sets_equivalence T.value_count };
}

impl<T: Integer, A: Allocator> PartialOrd for RangeSetBlaze<T, A> {
    ghost partial_cmp = { λ left right. Some (set_cmp T.value_count left right) };

    ghost laws = { sets_partial_order T.value_count };

    fn partial_cmp(&self, other: &Self) -> Option<Ordering> {
        Some(self.cmp(other))
    }
}

/// Sets compare as the ascending lists of their members do.
impl<T: Integer, A: Allocator> Ord for RangeSetBlaze<T, A> {
    ghost cmp = { set_cmp T.value_count };

    ghost total = { sets_total T.value_count };

    ghost matches_partial_cmp = { λ left right. refl };

    ghost matches_eq = { sets_ties T.value_count };

    fn cmp(&self, other: &Self) -> Ordering {
        cmp_counted(self, other).0
    }
}

/// Returns the order of two sets, as `cmp` does, and the number of iterations that the comparison
/// needs. An iteration takes at most one run from each set. Not in range-set-blaze.
pub fn cmp_counted<T: Integer, A: Allocator, B: Allocator>(
    a: &RangeSetBlaze<T, A>,
    b: &RangeSetBlaze<T, B>,
) -> (Ordering, u128)
    ensures order { HasOrder T.value_count (members a.now) (members b.now) result.0 }
    ensures turns { AreTurns a.now b.now result.1 }
    ensures bound { result.1 ≤ min (length a.now) (length b.now) + 1 }
{
    compare_runs(&a.runs, &b.runs)
}

/// States what `==`, `cmp` and `partial_cmp` of sets return, for every allocator, without listing
/// members. Two sets are equal exactly when they agree at every rank. Otherwise there is a least
/// rank at which they differ, and one of them has it. That set is less if the other has a greater
/// member, and greater if not. Not in range-set-blaze.
pub fn order_by_least_difference<T: Integer, A: Allocator>()
    ensures equal { (left right : List Interval)
        → IsTrue (⟦<RangeSetBlaze<T, A> as PartialEq>⟧.eq left right)
        ↔ Agree T.value_count (members left) (members right) }
    ensures order { (left right : List Interval)
        → HasOrder T.value_count (members left) (members right)
        (⟦<RangeSetBlaze<T, A> as Ord>⟧.cmp left right) }
    ensures partial { (left right : List Interval)
        → ⟦<RangeSetBlaze<T, A> as PartialOrd>⟧.partial_cmp left right
        ≡ Some (⟦<RangeSetBlaze<T, A> as Ord>⟧.cmp left right) }
{}

// Returns the order of two sets, given by their runs, and the number of iterations.
fn compare_runs<T: Integer, A: Allocator, B: Allocator>(
    left: &Runs<T, A>,
    right: &Runs<T, B>,
) -> (Ordering, u128)
    requires left { IsCanonicalIn T.value_count left.now }
    requires right { IsCanonicalIn T.value_count right.now }
    ensures order { result.0 ≡ set_cmp T.value_count left.now right.now }
    ensures turns { AreTurns left.now right.now result.1 }
{
    let mut left = left.iter();
    let mut right = right.iter();
    let mut turns = 0;
    // How the two runs taken last compare by their ends. All runs before them are in both sets.
    let mut ends = Ordering::Equal;
    loop {
        turns += 1;
        match ends {
            Ordering::Less => return (order_by_rest(&mut left), turns),
            Ordering::Equal => {}
            Ordering::Greater => return (order_by_rest(&mut right).reverse(), turns),
        }
        let Some(run) = next_run(&mut left) else {
            let Some(_) = next_run(&mut right) else {
                return (Ordering::Equal, turns);
            };
            return (Ordering::Less, turns);
        };
        let Some(other) = next_run(&mut right) else {
            return (Ordering::Greater, turns);
        };
        let starts = run.start.cmp(&other.start);
        if starts.is_ne() {
            return (starts, turns);
        }
        ends = run.end.cmp(&other.end);
    }
}

// Returns the order of two sets if the runs taken last start alike and the run of this set ends
// first. `rest` holds the later runs of this set. If there is one, its first member is greater than
// the other set's next member, so this set is greater. Otherwise its members are a prefix of the
// other's, so it is less.
fn order_by_rest<T>(rest: &mut Iter<'_, T, T>) -> Ordering
    ensures { result ≡ cond (nat_lt 0 (length rest.old)) Greater Less }
{
    match rest.next() {
        Some(_) => Ordering::Greater,
        None => Ordering::Less,
    }
}
