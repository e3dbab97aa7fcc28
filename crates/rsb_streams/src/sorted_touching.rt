//! Streams of ranges that ascend and may touch (docs/DECISIONS.md, touching-apart).

ghost use Rattle.rsb_streams.specs.PutBack.{IsFresh};
ghost use Rattle.rsb_streams.specs.Stream.{◌⊆◌, joined_runs};
ghost use Rattle.rsb_streams.specs.Touching.{IsTouchingIn};

use crate::draw::Draw;
use crate::sorted_disjoint::SortedStarts;
use crate::union_iter::UnionIter;
use rsb_integer::Integer;

/// A stream of ranges in ascending order that do not overlap, but may touch. Not in
/// range-set-blaze.
///
/// An implementation for your own stream proves in `touching` that each range that the stream may
/// give starts past the end of the one before.
pub trait SortedTouching<T: Integer>: SortedStarts<T> {
    /// Returns the ranges of a ready stream, joined if they touch. Does not allocate, and draws
    /// nothing yet. Not in range-set-blaze.
    final fn joined(self) -> UnionIter<T, Self>
    where
        Self: Sized,
        requires { Self.can_draw self }
        ensures ready { ⟦<UnionIter<T, Self> as Draw<T>>⟧.can_draw result }
        ensures gives { ⟦<UnionIter<T, Self> as Draw<T>>⟧.may_give result
            ⊆ joined_runs T.value_count (Self.may_give self) }
        ensures undrawn { IsFresh self result.iter }
    {
        UnionIter::new(self)
    }

    /// Does nothing. In an implementation for a type that contains a closure, the bound on the
    /// closure is known only if the implementation defines a function of its own. It can override
    /// this one for that purpose. Not in range-set-blaze.
    fn mark_touching(&self) {}

    // Whatever a ready stream may give ascends, and no two ranges of it overlap.
    ghost touching: { (s : Self) → Self.can_draw s → Self.may_give s ⊆ IsTouchingIn T.value_count };
}
