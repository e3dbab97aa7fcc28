//! The traits of streams, and the operations on them.

ghost use Rattle.std.specs.Prelude.{◌≡◌, ◌↔◌, List, IsTrue};
ghost use Rattle.rsb_integer.specs.Runs.{members, Interval, IsCanonicalIn};
ghost use Rattle.rsb_integer.specs.Selection.{
  Agree,
  AreDisjoint,
  IsUniversal,
  IsEmpty,
  IsSubset,
  count,
  difference,
  symmetric_difference,
  union,
};
ghost use Rattle.rsb_streams.specs.FillGapsIter.{fill_may_give, GivesFilled};
ghost use Rattle.rsb_streams.specs.NotIter.{ComplementsUndrawn};
ghost use Rattle.rsb_streams.specs.Results.{
  MakesComplement,
  MakesDifference,
  MakesIntersection,
  MakesSymmetricDifference,
  MakesUnion,
};
ghost use Rattle.rsb_streams.specs.RunCount.{
  GivesFewerRunsThanBoth,
  GivesOneRunMoreAtMost,
  GivesRunsOfBothAtMost,
};
ghost use Rattle.rsb_streams.specs.Stream.{◌⊆◌, IsDrawn, SomeOutcome, SomeOutcomes};
ghost use Rattle.rsb_streams.specs.Union.{UnitesUndrawn};

use crate::draw::Draw;
use crate::fill_gaps_iter::FillGapsIter;
use crate::not_iter::NotIter;
use crate::operation_results::{Difference, Intersection, SymmetricDifference, Union};
use num_traits::Zero;
use rsb_integer::Integer;
use std::iter::FusedIterator;
use std::ops::RangeInclusive;

/// A stream of non-empty ranges, sorted by start. (`SortedStarts` in range-set-blaze.)
///
/// For a stream of your own, `Draw` states what it may give. Its `draw` must do what its `next`
/// does; then `drawn-itself` proves the law below. After `None`, the streams of this crate return
/// `None` again. No law says so for other streams, so the streams of this crate never call another
/// stream again after its end.
pub trait SortedStarts<T: Integer>: Iterator<Item = RangeInclusive<T>> + FusedIterator + Draw<T> {
    /// Does nothing. In an implementation for a type that contains a closure, the bound on the
    /// closure is known only if the implementation defines a function of its own. It can override
    /// this one for that purpose. Not in range-set-blaze.
    fn mark_sorted(&self) {}

    // `next` does what `draw` does.
    ghost drawn: { IsDrawn Self.can_draw Self.draw_gives Self.draws_left
        Self.can_next Self.next_gives Self.remaining };
}

/// A source of ranges in ascending order that neither overlap nor touch, with the operations on it.
/// Not in range-set-blaze; every `SortedDisjoint` is one. `Draw` is its only supertrait, because a
/// call to an operation passes a dictionary for each of its bounds and for each of their
/// supertraits.
pub trait DrawDisjoint<T: Integer>: Draw<T> {
    /// Returns the gaps of a ready stream, from the least value of the type to the greatest. The
    /// result has at most one more run than the stream. Does not allocate, and draws nothing yet.
    /// (`SortedDisjoint::complement`.)
    final fn complement(self) -> NotIter<T, Self>
    where
        Self: Sized,
        requires { Self.can_draw self }
        ensures made { MakesComplement T.Integer.own Self.Draw
            ⟦<NotIter<T, Self> as Draw<T>>⟧ self result }
        ensures undrawn { ComplementsUndrawn self result }
        ensures run_count { GivesOneRunMoreAtMost T.Integer.own Self.Draw
            ⟦<NotIter<T, Self> as Draw<T>>⟧ self result }
    {
        NotIter::new(self)
    }

    /// Returns the union of two ready streams. It has at most as many runs as both together, and
    /// looks ahead by at most one range in each. Does not allocate, and draws nothing yet.
    /// (`SortedDisjoint::union`.)
    final fn union<R: DrawDisjoint<T>>(self, other: R) -> Union<T, Self, R>
    where
        Self: Sized,
        requires left { Self.can_draw self }
        requires right { R.can_draw other }
        ensures made { MakesUnion T.Integer.own Self.Draw R.Draw ⟦<Union<T, Self, R> as Draw<T>>⟧
            self other result }
        ensures undrawn { UnitesUndrawn T.Integer.own Self.Draw R.Draw self other result.iter }
        ensures run_count { GivesRunsOfBothAtMost union T.Integer.own Self.Draw R.Draw
            ⟦<Union<T, Self, R> as Draw<T>>⟧ self other result }
    {
        Union::from((self, other))
    }

    /// Returns the intersection of two ready streams. If either has no runs, the result has none;
    /// otherwise it has fewer runs than both together. Does not allocate, and draws nothing yet.
    /// (`SortedDisjoint::intersection`.)
    final fn intersection<R: DrawDisjoint<T>>(self, other: R) -> Intersection<T, Self, R>
    where
        Self: Sized,
        requires left { Self.can_draw self }
        requires right { R.can_draw other }
        ensures made { MakesIntersection T.Integer.own Self.Draw R.Draw
            ⟦<Intersection<T, Self, R> as Draw<T>>⟧ self other result }
        ensures run_count { GivesFewerRunsThanBoth T.Integer.own Self.Draw R.Draw
            ⟦<Intersection<T, Self, R> as Draw<T>>⟧ self other result }
    {
        Intersection::from((self, other))
    }

    /// Returns the difference of two ready streams: the values in `self` that are not in `other`.
    /// It has at most as many runs as both together. Does not allocate, and draws nothing yet.
    /// (`SortedDisjoint::difference`.)
    final fn difference<R: DrawDisjoint<T>>(self, other: R) -> Difference<T, Self, R>
    where
        Self: Sized,
        requires left { Self.can_draw self }
        requires right { R.can_draw other }
        ensures made { MakesDifference T.Integer.own Self.Draw R.Draw
            ⟦<Difference<T, Self, R> as Draw<T>>⟧ self other result }
        ensures run_count { GivesRunsOfBothAtMost difference T.Integer.own Self.Draw R.Draw
            ⟦<Difference<T, Self, R> as Draw<T>>⟧ self other result }
    {
        Difference::from((self, other))
    }

    /// Returns the symmetric difference of two ready streams: the values in exactly one of them. It
    /// has at most as many runs as both together. Does not allocate, and draws nothing yet.
    /// (`SortedDisjoint::symmetric_difference`.)
    final fn symmetric_difference<R: DrawDisjoint<T>>(
        self,
        other: R,
    ) -> SymmetricDifference<T, Self, R>
    where
        Self: Sized,
        requires left { Self.can_draw self }
        requires right { R.can_draw other }
        ensures made { MakesSymmetricDifference T.Integer.own Self.Draw R.Draw
            ⟦<SymmetricDifference<T, Self, R> as Draw<T>>⟧ self other result }
        ensures run_count { GivesRunsOfBothAtMost symmetric_difference T.Integer.own Self.Draw
            R.Draw ⟦<SymmetricDifference<T, Self, R> as Draw<T>>⟧ self other result }
    {
        SymmetricDifference::from((self, other))
    }

    /// Returns all runs of a ready stream with `true` and all its gaps with `false`, from the least
    /// value to the greatest. Does not allocate, and draws nothing yet.
    /// (`SortedDisjoint::fill_gaps`.)
    final fn fill_gaps(self) -> FillGapsIter<T, Self>
    where
        Self: Sized,
        requires { Self.can_draw self }
        ensures ready { ⟦<FillGapsIter<T, Self> as Iterator>⟧.can_next result }
        ensures gives { GivesFilled T.value_count (Self.may_give self)
            (fill_may_give T.Integer.own Self.Draw result) }
    {
        FillGapsIter::over(self, T::min_value())
    }

    /// Returns the number of members of a ready stream. If the stream may give any of several
    /// lists, it is the number of members of one of them. Draws to the end, and does not allocate.
    /// Not in range-set-blaze. It is not called `len` or `count`, since iterators already have
    /// those.
    final fn members_len(self) -> T::SafeLen
    where
        Self: Sized,
        requires { Self.can_draw self }
        ensures { (runs : List Interval) × Self.may_give self runs
            × (T.SafeLen.number result ≡ count T.value_count (members runs)) }
    {
        let mut stream = self;
        let mut length = T::SafeLen::zero();
        while let Some(range) = stream.draw() {
            length += T::safe_len(&range);
        }
        length
    }

    /// Returns whether a ready stream has no members. Draws at most one range, and does not
    /// allocate. (`SortedDisjoint::is_empty`.)
    final fn is_empty(self) -> bool
    where
        Self: Sized,
        requires { Self.can_draw self }
        ensures { SomeOutcome (Self.may_give self)
            (λ runs. IsTrue result ↔ IsEmpty (members runs)) }
    {
        let mut stream = self;
        stream.draw().is_none()
    }

    /// Returns whether every value is a member of a ready stream. Draws at most one range, and does
    /// not allocate. (`SortedDisjoint::is_universal`.)
    final fn is_universal(self) -> bool
    where
        Self: Sized,
        requires { Self.can_draw self }
        ensures { SomeOutcome (Self.may_give self) (λ runs.
            IsTrue result ↔ IsUniversal T.value_count (members runs)) }
    {
        let mut stream = self;
        let Some(range) = stream.draw() else {
            return false;
        };
        let (start, end) = range.into_inner();
        if T::min_value() < start {
            return false;
        }
        T::max_value() <= end
    }

    /// Returns whether two ready streams have the same members. Draws from both alternately, until
    /// two ranges differ or a stream ends. Does not allocate. (`SortedDisjoint::equal`.)
    final fn equal<R: DrawDisjoint<T>>(self, other: R) -> bool
    where
        Self: Sized,
        requires left { Self.can_draw self }
        requires right { R.can_draw other }
        ensures { SomeOutcomes (Self.may_give self) (R.may_give other) (λ left right.
            IsTrue result ↔ Agree T.value_count (members left) (members right)) }
    {
        let mut left = self;
        let mut right = other;
        while let Some(range) = left.draw() {
            let Some(counterpart) = right.draw() else {
                return false;
            };
            if range != counterpart {
                return false;
            }
        }
        right.draw().is_none()
    }

    /// Returns whether each member of `self` is a member of `other`. Both must be ready. If the
    /// members that `other` lacks form two or more runs, it draws from each stream at most one
    /// range past the second such run. Otherwise it draws both to their ends. Does not allocate.
    /// (`SortedDisjoint::is_subset`.)
    final fn is_subset<R: DrawDisjoint<T>>(self, other: R) -> bool
    where
        Self: Sized,
        requires left { Self.can_draw self }
        requires right { R.can_draw other }
        ensures { SomeOutcomes (Self.may_give self) (R.may_give other) (λ left right.
            IsTrue result ↔ IsSubset T.value_count (members left) (members right)) }
    {
        self.difference(other).is_empty()
    }

    /// Returns whether each member of `other` is a member of `self`. Both must be ready. Draws as
    /// much as `other.is_subset(self)` does. (`SortedDisjoint::is_superset`.)
    final fn is_superset<R: DrawDisjoint<T>>(self, other: R) -> bool
    where
        Self: Sized,
        requires left { Self.can_draw self }
        requires right { R.can_draw other }
        ensures { SomeOutcomes (Self.may_give self) (R.may_give other) (λ left right.
            IsTrue result ↔ IsSubset T.value_count (members right) (members left)) }
    {
        other.is_subset(self)
    }

    /// Returns whether two ready streams have no member in common. If they have two or more runs of
    /// common members, it draws from each stream at most one range past the second. Otherwise it
    /// draws both to their ends. Does not allocate. (`SortedDisjoint::is_disjoint`.)
    final fn is_disjoint<R: DrawDisjoint<T>>(self, other: R) -> bool
    where
        Self: Sized,
        requires left { Self.can_draw self }
        requires right { R.can_draw other }
        ensures { SomeOutcomes (Self.may_give self) (R.may_give other) (λ left right.
            IsTrue result ↔ AreDisjoint T.value_count (members left) (members right)) }
    {
        self.intersection(other).is_empty()
    }

    /// Does nothing. In an implementation for a type that contains a closure, the bound on the
    /// closure is known only if the implementation defines a function of its own. It can override
    /// this one for that purpose. Not in range-set-blaze.
    fn mark_disjoint(&self) {}

    // Whatever a ready stream may give is canonical.
    ghost canonical: { (s : Self) → Self.can_draw s
        → Self.may_give s ⊆ IsCanonicalIn T.value_count };
}

/// A stream of ranges in ascending order that neither overlap nor touch. (`SortedDisjoint` in
/// range-set-blaze, whose operations are in `DrawDisjoint` here.)
pub trait SortedDisjoint<T: Integer>: SortedStarts<T> + DrawDisjoint<T> {}

/// A stream of any ranges in any order. (`AnythingGoes` in range-set-blaze.)
pub trait AnythingGoes<T: Integer>: Iterator<Item = RangeInclusive<T>> + FusedIterator {}

impl<T: Integer, I: Iterator<Item = RangeInclusive<T>> + FusedIterator> AnythingGoes<T> for I {}
