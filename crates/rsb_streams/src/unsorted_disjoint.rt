//! Ranges in any order, each joined with the one before if the two overlap or touch.

ghost use Rattle.std.specs.Prelude.{◌≡◌, false};
ghost use Rattle.std.specs.Iterator.{IsFinite};
ghost use Rattle.std.specs.Ordering.{ord_max, ord_min};
ghost use Rattle.std.specs.Range.{
  range_inclusive_end,
  range_inclusive_exhausted,
  range_inclusive_start,
};
ghost use Rattle.rsb_streams.specs.UnsortedDisjoint.{starts_past, unsorted_disjoint, GivesSpans};

use rsb_integer::Integer;
use std::iter::{Fuse, FusedIterator};
use std::ops::RangeInclusive;

/// The ranges of an iterator, in its order, with neighbors joined. A range that overlaps or touches
/// the one gathered so far is joined to it. Otherwise the gathered range is returned, and the new
/// one takes its place. As a result, few ranges are left if they come nearly in order or in
/// clusters. Empty ranges are skipped. It holds at most one range. (`UnsortedDisjoint` in
/// range-set-blaze, where it is private.)
#[derive(Drop)]
pub struct UnsortedDisjoint<T, I> {
    iter: Fuse<I>,
    // The range gathered so far.
    gathered: Option<RangeInclusive<T>>,
}

impl<T: Integer, I: Iterator<Item = RangeInclusive<T>>> UnsortedDisjoint<T, I> {
    /// Returns the joined ranges of an iterator that ends and whose `next` can be called. Does not
    /// allocate, and draws nothing yet. (`UnsortedDisjoint::new`.)
    pub fn new(iter: I) -> Self
        requires callable { I.can_next iter }
        requires finite { IsFinite (I.remaining iter) }
        ensures ready { ⟦<UnsortedDisjoint<T, I> as Iterator>⟧.can_next result }
        ensures gives { GivesSpans T.rank I.next_gives iter
            ⟦<UnsortedDisjoint<T, I> as Iterator>⟧.next_gives result }
    {
        UnsortedDisjoint {
            iter: iter.fuse(),
            gathered: None,
        }
    }
}

impl<T: Integer, I: Iterator<Item = RangeInclusive<T>>> Iterator for UnsortedDisjoint<T, I> {
    type Item = RangeInclusive<T>;

    ghost can_next = { (unsorted_disjoint T.Integer.own I.Iterator).can_next };

    ghost next_gives = { (unsorted_disjoint T.Integer.own I.Iterator).next_gives };

    ghost remaining = { (unsorted_disjoint T.Integer.own I.Iterator).remaining };

    fn next(&mut self) -> Option<RangeInclusive<T>> {
        while let Some(range) = self.iter.next() {
            // After these calls, both ends are known to be values.
            range.start().checked_add_one();
            let after = range.end().checked_add_one();
            if range.is_empty() {
                continue;
            }
            let Some(gathered) = self.gathered.take() else {
                self.gathered = Some(range);
                continue;
            };
            let past = is_past(gathered.end().checked_add_one(), range.start());
            let before = is_past(after, gathered.start());
            if past || before {
                self.gathered = Some(range);
                return Some(gathered);
            }
            self.gathered = Some(joined(&gathered, &range));
        }
        self.gathered.take()
    }
}

impl<T: Integer, I: Iterator<Item = RangeInclusive<T>> + FusedIterator> FusedIterator
    for UnsortedDisjoint<T, I> {}

// Returns whether a start is past the value after the end of another range, if there is such a
// value.
fn is_past<T: PartialOrd + Copy>(after: Option<T>, start: &T) -> bool
    ensures { result ≡ starts_past T.partial_cmp after start.now }
{
    match after {
        Some(next) => next < *start,
        None => false,
    }
}

// Returns the range from the lesser of two starts to the greater of two ends.
fn joined<T: Ord + Copy>(one: &RangeInclusive<T>, other: &RangeInclusive<T>) -> RangeInclusive<T>
    ensures start { range_inclusive_start result
        ≡ ord_min T.cmp (range_inclusive_start one.now) (range_inclusive_start other.now) }
    ensures end { range_inclusive_end result
        ≡ ord_max T.cmp (range_inclusive_end one.now) (range_inclusive_end other.now) }
    ensures exhausted { range_inclusive_exhausted result ≡ false }
{
    let start = (*one.start()).min(*other.start());
    let end = (*one.end()).max(*other.end());
    start..=end
}
