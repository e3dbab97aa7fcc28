//! The keys of a map and their values, one after the other.

ghost use Rattle.std.specs.Iterator.{at_most};
ghost use Rattle.std.specs.Option.{option_map};
ghost use Rattle.rsb_integer.specs.Selection.{count};
ghost use Rattle.rsb_storage.specs.Set.{IsGreatest, IsLeast};
ghost use Rattle.range_set_blaze.specs.BothEnds.{TakesGreatest, TakesLeast};
ghost use Rattle.range_map_blaze.specs.Elements.{TakesPair, TakesValue};
ghost use Rattle.range_map_blaze.specs.Map.{keys};

use crate::held::{first_left, last_left, without_first, without_last};
use crate::map_value::MapValue;
use crate::pieces::Piece;
use rsb_integer::Integer;
use std::collections::btree_map::Range;
use std::iter::FusedIterator;
use std::marker::Model;

/// A double-ended iterator over the keys of a map, in ascending order, each with a reference to its
/// value. Contracts see it as the list of the pieces of the keys still to come. (`IterMap` in
/// range-set-blaze.)
#[derive(Drop)]
pub struct Iter<'a, T: Integer, V: MapValue> {
    // What is left of the pieces last taken from the front and from the back.
    pub(crate) front: Option<Piece<'a, T, V>>,
    pub(crate) entries: Range<'a, T, (T, V)>,
    pub(crate) back: Option<Piece<'a, T, V>>,
}

impl<'a, T: Integer, V: MapValue> Model for Iter<'a, T, V> {
    ghost use Rattle.std.specs.Prelude.{List};
    ghost use Rattle.rsb_integer.specs.Runs.{Interval};
    ghost use Rattle.range_map_blaze.specs.Elements.{pieces_left};
    ghost use Rattle.range_map_blaze.specs.Map.{IsMapIn};

    ghost Value = { List (Interval × V) };

    ghost view = { λ s. pieces_left T.rank V.seen s.front s.entries s.back };

    ghost invariant = { λ s.
        IsMapIn T.value_count (pieces_left T.rank V.seen s.front s.entries s.back) };
}

impl<'a, T: Integer, V: MapValue> Iterator for Iter<'a, T, V> {
    type Item = (T, &'a V);

    ghost next_gives = { λ s item t. TakesPair T.rank (IsLeast T.value_count) s
        (option_map (λ pair. (pair.0, V.seen pair.1.now)) item) t };

    ghost remaining = { λ s. at_most (count T.value_count (keys s)) };

    fn next(&mut self) -> Option<(T, &'a V)> {
        let piece = first_left(&mut self.front, &mut self.entries, &mut self.back)?;
        let run = piece.run;
        let value = piece.value;
        self.front = without_first(run, value);
        Some((run.start, value))
    }
}

impl<'a, T: Integer, V: MapValue> FusedIterator for Iter<'a, T, V> {}

impl<'a, T: Integer, V: MapValue> DoubleEndedIterator for Iter<'a, T, V> {
    ghost next_back_gives = { λ s item t. TakesPair T.rank (IsGreatest T.value_count) s
        (option_map (λ pair. (pair.0, V.seen pair.1.now)) item) t };

    fn next_back(&mut self) -> Option<(T, &'a V)> {
        let piece = last_left(&mut self.front, &mut self.entries, &mut self.back)?;
        let run = piece.run;
        let value = piece.value;
        self.back = without_last(run, value);
        Some((run.end, value))
    }
}

/// A double-ended iterator over the keys of a map, in ascending order. Contracts see it as the list of
/// the pieces of the keys still to come. (`KeysMap` in range-set-blaze.)
#[derive(Drop)]
pub struct Keys<'a, T: Integer, V: MapValue> {
    pub(crate) pairs: Iter<'a, T, V>,
}

impl<'a, T: Integer, V: MapValue> Model for Keys<'a, T, V> {
    ghost use Rattle.std.specs.Prelude.{List};
    ghost use Rattle.rsb_integer.specs.Runs.{Interval};

    ghost Value = { List (Interval × V) };

    ghost view = { λ s. s.pairs };
}

impl<'a, T: Integer, V: MapValue> Iterator for Keys<'a, T, V> {
    type Item = T;

    ghost next_gives = { λ s item t. TakesLeast T.rank T.value_count (keys s) item (keys t) };

    ghost remaining = { λ s. at_most (count T.value_count (keys s)) };

    fn next(&mut self) -> Option<T> {
        let (key, _) = self.pairs.next()?;
        Some(key)
    }
}

impl<'a, T: Integer, V: MapValue> FusedIterator for Keys<'a, T, V> {}

impl<'a, T: Integer, V: MapValue> DoubleEndedIterator for Keys<'a, T, V> {
    ghost next_back_gives = { λ s item t.
        TakesGreatest T.rank T.value_count (keys s) item (keys t) };

    fn next_back(&mut self) -> Option<T> {
        let (key, _) = self.pairs.next_back()?;
        Some(key)
    }
}

/// A double-ended iterator over references to the values of the keys of a map, in ascending order of
/// the keys. Contracts see it as the list of the pieces of the keys still to come. (`ValuesMap` in
/// range-set-blaze.)
#[derive(Drop)]
pub struct Values<'a, T: Integer, V: MapValue> {
    pub(crate) pairs: Iter<'a, T, V>,
}

impl<'a, T: Integer, V: MapValue> Model for Values<'a, T, V> {
    ghost use Rattle.std.specs.Prelude.{List};
    ghost use Rattle.rsb_integer.specs.Runs.{Interval};

    ghost Value = { List (Interval × V) };

    ghost view = { λ s. s.pairs };
}

impl<'a, T: Integer, V: MapValue> Iterator for Values<'a, T, V> {
    type Item = &'a V;

    ghost next_gives = { λ s item t. TakesValue T.rank (IsLeast T.value_count) s
        (option_map (λ value. V.seen value.now) item) t };

    ghost remaining = { λ s. at_most (count T.value_count (keys s)) };

    fn next(&mut self) -> Option<&'a V> {
        let (_, value) = self.pairs.next()?;
        Some(value)
    }

    fn size_hint(&self) -> (usize, Option<usize>) {
        (0, None)
    }
}

impl<'a, T: Integer, V: MapValue> FusedIterator for Values<'a, T, V> {}

impl<'a, T: Integer, V: MapValue> DoubleEndedIterator for Values<'a, T, V> {
    ghost next_back_gives = { λ s item t. TakesValue T.rank (IsGreatest T.value_count) s
        (option_map (λ value. V.seen value.now) item) t };

    fn next_back(&mut self) -> Option<&'a V> {
        let (_, value) = self.pairs.next_back()?;
        Some(value)
    }
}
