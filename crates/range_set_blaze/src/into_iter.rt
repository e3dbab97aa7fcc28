//! The elements of a set passed by value, one after the other.

ghost use Rattle.std.specs.Iterator.{at_most};
ghost use Rattle.rsb_integer.specs.Runs.{members};
ghost use Rattle.rsb_integer.specs.Selection.{count};
ghost use Rattle.range_set_blaze.specs.BothEnds.{TakesGreatest, TakesLeast};

use crate::iter::Iter;
use rsb_integer::Integer;
use rsb_storage::into_ranges_iter::IntoRangesIter;
use std::alloc::{Allocator, Global};
use std::iter::FusedIterator;
use std::marker::Model;

/// An owning, double-ended iterator over the elements of a set, in ascending order. Contracts see
/// it as the list of the runs formed by the elements still to come. (`IntoIter` in
/// range-set-blaze.)
#[derive(Drop)]
#[derive_where(Debug)]
pub struct IntoIter<T: Integer, A: Allocator = Global> {
    pub(crate) elements: Iter<T, IntoRangesIter<T, A>>,
}

impl<T: Integer, A: Allocator> Model for IntoIter<T, A> {
    ghost use Rattle.std.specs.Prelude.{List};
    ghost use Rattle.rsb_integer.specs.Runs.{Interval};
    ghost use Rattle.range_set_blaze.specs.BothEnds.{runs_left, ListedReady};

    ghost Value = { List Interval };

    ghost view = { λ s. runs_left T.rank s.elements };

    ghost invariant = { λ s. ListedReady T.rank T.value_count s.elements };
}

impl<T: Integer, A: Allocator> Iterator for IntoIter<T, A> {
    type Item = T;

    ghost next_gives = { λ s item t.
        TakesLeast T.rank T.value_count (members s) item (members t) };

    ghost remaining = { λ s. at_most (count T.value_count (members s)) };

    fn next(&mut self) -> Option<T> {
        self.elements.next()
    }

    fn size_hint(&self) -> (usize, Option<usize>) {
        (self.elements.size_hint().0, None)
    }
}

impl<T: Integer, A: Allocator> FusedIterator for IntoIter<T, A> {}

impl<T: Integer, A: Allocator> DoubleEndedIterator for IntoIter<T, A> {
    ghost next_back_gives = { λ s item t.
        TakesGreatest T.rank T.value_count (members s) item (members t) };

    fn next_back(&mut self) -> Option<T> {
        self.elements.next_back()
    }
}
