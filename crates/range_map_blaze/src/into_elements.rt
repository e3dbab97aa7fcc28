//! The keys of a map passed by value, and their values, one after the other.

ghost use Rattle.std.specs.Iterator.{at_most};
ghost use Rattle.std.specs.Option.{option_map};
ghost use Rattle.rsb_integer.specs.Selection.{count};
ghost use Rattle.rsb_storage.specs.Set.{IsGreatest, IsLeast};
ghost use Rattle.range_set_blaze.specs.BothEnds.{TakesGreatest, TakesLeast};
ghost use Rattle.range_map_blaze.specs.Elements.{TakesPair, TakesValue};
ghost use Rattle.range_map_blaze.specs.Map.{keys};

use crate::map_value::MapValue;
use crate::owned::{OwnedPiece, first_owned, last_owned, without_first_owned, without_last_owned};
use rsb_integer::Integer;
use std::alloc::{Allocator, Global};
use std::collections::btree_map::IntoIter as Entries;
use std::iter::FusedIterator;
use std::marker::Model;

/// An owning, double-ended iterator over the keys of a map, in ascending order, each with its
/// value. Contracts see it as the list of the pieces of the keys still to come. (`IntoIterMap` in
/// range-set-blaze.)
#[derive(Drop)]
pub struct IntoIter<T: Integer, V: MapValue + Copy, A: Allocator = Global> {
    // What is left of the pieces last taken from the front and from the back.
    pub(crate) front: Option<OwnedPiece<T, V>>,
    pub(crate) entries: Entries<T, (T, V), A>,
    pub(crate) back: Option<OwnedPiece<T, V>>,
}

impl<T: Integer, V: MapValue + Copy, A: Allocator> Model for IntoIter<T, V, A> {
    ghost use Rattle.std.specs.Prelude.{List};
    ghost use Rattle.rsb_integer.specs.Runs.{Interval};
    ghost use Rattle.range_map_blaze.specs.Elements.{owned_left};
    ghost use Rattle.range_map_blaze.specs.Map.{IsMapIn};

    ghost Value = { List (Interval × V) };

    ghost view = { λ s. owned_left T.rank V.seen s.front s.entries s.back };

    ghost invariant = { λ s.
        IsMapIn T.value_count (owned_left T.rank V.seen s.front s.entries s.back) };
}

impl<T: Integer, V: MapValue + Copy, A: Allocator> Iterator for IntoIter<T, V, A> {
    type Item = (T, V);

    ghost next_gives = { λ s item t. TakesPair T.rank (IsLeast T.value_count) s
        (option_map (λ pair. (pair.0, V.seen pair.1)) item) t };

    ghost remaining = { λ s. at_most (count T.value_count (keys s)) };

    fn next(&mut self) -> Option<(T, V)> {
        let piece = first_owned(&mut self.front, &mut self.entries, &mut self.back)?;
        let run = piece.run;
        let value = piece.value;
        self.front = without_first_owned(run, value);
        Some((run.start, value))
    }
}

impl<T: Integer, V: MapValue + Copy, A: Allocator> FusedIterator for IntoIter<T, V, A> {}

impl<T: Integer, V: MapValue + Copy, A: Allocator> DoubleEndedIterator for IntoIter<T, V, A> {
    ghost next_back_gives = { λ s item t. TakesPair T.rank (IsGreatest T.value_count) s
        (option_map (λ pair. (pair.0, V.seen pair.1)) item) t };

    fn next_back(&mut self) -> Option<(T, V)> {
        let piece = last_owned(&mut self.front, &mut self.entries, &mut self.back)?;
        let run = piece.run;
        let value = piece.value;
        self.back = without_last_owned(run, value);
        Some((run.end, value))
    }
}

/// An owning, double-ended iterator over the keys of a map, in ascending order. Contracts see it as
/// the list of the pieces of the keys still to come. (`IntoKeysMap` in range-set-blaze.)
#[derive(Drop)]
pub struct IntoKeys<T: Integer, V: MapValue, A: Allocator = Global> {
    // What is left of the pieces last taken from the front and from the back.
    pub(crate) front: Option<OwnedPiece<T, V>>,
    pub(crate) entries: Entries<T, (T, V), A>,
    pub(crate) back: Option<OwnedPiece<T, V>>,
}

impl<T: Integer, V: MapValue, A: Allocator> Model for IntoKeys<T, V, A> {
    ghost use Rattle.std.specs.Prelude.{List};
    ghost use Rattle.rsb_integer.specs.Runs.{Interval};
    ghost use Rattle.range_map_blaze.specs.Elements.{owned_left};
    ghost use Rattle.range_map_blaze.specs.Map.{IsMapIn};

    ghost Value = { List (Interval × V) };

    ghost view = { λ s. owned_left T.rank V.seen s.front s.entries s.back };

    ghost invariant = { λ s.
        IsMapIn T.value_count (owned_left T.rank V.seen s.front s.entries s.back) };
}

impl<T: Integer, V: MapValue, A: Allocator> Iterator for IntoKeys<T, V, A> {
    type Item = T;

    ghost next_gives = { λ s item t. TakesLeast T.rank T.value_count (keys s) item (keys t) };

    ghost remaining = { λ s. at_most (count T.value_count (keys s)) };

    // A value moves along with what is left of its piece.
    fn next(&mut self) -> Option<T> {
        let piece = first_owned(&mut self.front, &mut self.entries, &mut self.back)?;
        let run = piece.run;
        self.front = without_first_owned(run, piece.value);
        Some(run.start)
    }
}

impl<T: Integer, V: MapValue, A: Allocator> FusedIterator for IntoKeys<T, V, A> {}

impl<T: Integer, V: MapValue, A: Allocator> DoubleEndedIterator for IntoKeys<T, V, A> {
    ghost next_back_gives = { λ s item t.
        TakesGreatest T.rank T.value_count (keys s) item (keys t) };

    fn next_back(&mut self) -> Option<T> {
        let piece = last_owned(&mut self.front, &mut self.entries, &mut self.back)?;
        let run = piece.run;
        self.back = without_last_owned(run, piece.value);
        Some(run.end)
    }
}

/// An owning, double-ended iterator over the values of the keys of a map, in ascending order of
/// the keys. Contracts see it as the list of the pieces of the keys still to come. (`IntoValuesMap` in
/// range-set-blaze.)
#[derive(Drop)]
pub struct IntoValues<T: Integer, V: MapValue + Copy, A: Allocator = Global> {
    pub(crate) pairs: IntoIter<T, V, A>,
}

impl<T: Integer, V: MapValue + Copy, A: Allocator> Model for IntoValues<T, V, A> {
    ghost use Rattle.std.specs.Prelude.{List};
    ghost use Rattle.rsb_integer.specs.Runs.{Interval};

    ghost Value = { List (Interval × V) };

    ghost view = { λ s. s.pairs };
}

impl<T: Integer, V: MapValue + Copy, A: Allocator> Iterator for IntoValues<T, V, A> {
    type Item = V;

    ghost next_gives = { λ s item t. TakesValue T.rank (IsLeast T.value_count) s
        (option_map (λ value. V.seen value) item) t };

    ghost remaining = { λ s. at_most (count T.value_count (keys s)) };

    fn next(&mut self) -> Option<V> {
        let (_, value) = self.pairs.next()?;
        Some(value)
    }

    fn size_hint(&self) -> (usize, Option<usize>) {
        (0, None)
    }
}

impl<T: Integer, V: MapValue + Copy, A: Allocator> FusedIterator for IntoValues<T, V, A> {}

impl<T: Integer, V: MapValue + Copy, A: Allocator> DoubleEndedIterator for IntoValues<T, V, A> {
    ghost next_back_gives = { λ s item t. TakesValue T.rank (IsGreatest T.value_count) s
        (option_map (λ value. V.seen value) item) t };

    fn next_back(&mut self) -> Option<V> {
        let (_, value) = self.pairs.next_back()?;
        Some(value)
    }
}
