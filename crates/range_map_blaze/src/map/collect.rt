//! `FromIterator` and `Extend` for maps. Each calls the inherent method of the map.

ghost use Rattle.std.specs.Iterator.{ExtendsWithItems};
ghost use Rattle.std.specs.Prelude.{OnOk};
ghost use Rattle.rsb_streams.specs.Items.{GaveRun, IsEnding};
ghost use Rattle.range_map_blaze.specs.Map.{IsMapOf, PutsAll};
ghost use Rattle.range_map_blaze.specs.Storage.{keyed, pieces_in};

use crate::map::RangeMapBlaze;
use crate::map_value::MapValue;
use rsb_integer::Integer;
use std::alloc::{AllocError, Allocator};
use std::ops::RangeInclusive;

/// `pairs.collect(alloc)?`: returns the map of ranges and values. A later pair wins where ranges
/// overlap. If allocation fails, or cloning a value does, no map is made.
impl<T: Integer, V: MapValue, A: Allocator + Copy> FromIterator<(RangeInclusive<T>, V)>
    for RangeMapBlaze<T, V, A> {
    type Alloc = A;

    ghost from_iter_gives = { λ items map. IsMapOf (pieces_in T.rank V.seen items) map };

    fn from_iter<J: IntoIterator<Item = (RangeInclusive<T>, V)>>(
        alloc: A,
        pairs: J,
    ) -> Result<Self, AllocError> {
        RangeMapBlaze::from_iter(alloc, pairs)
    }
}

/// `pairs.collect(alloc)?`: returns the map of keys and values. A later pair wins. If allocation
/// fails, or cloning a value does, no map is made.
impl<T: Integer, V: MapValue, A: Allocator + Copy> FromIterator<(T, V)> for RangeMapBlaze<T, V, A> {
    type Alloc = A;

    ghost from_iter_gives = { λ items map. IsMapOf (keyed T.rank V.seen items) map };

    fn from_iter<J: IntoIterator<Item = (T, V)>>(alloc: A, pairs: J) -> Result<Self, AllocError> {
        RangeMapBlaze::from_iter_keys(alloc, pairs)
    }
}

/// `Extend::extend(&mut map, pairs)?`: inserts ranges and values. A later pair wins. If
/// allocation fails, or cloning a value does, a prefix of the pairs has been inserted.
impl<T: Integer, V: MapValue, A: Allocator + Clone> Extend<(RangeInclusive<T>, V)>
    for RangeMapBlaze<T, V, A> {
    ghost extend_gives = { λ old items new. PutsAll old (pieces_in T.rank V.seen items) new };

    fn extend<J: IntoIterator<Item = (RangeInclusive<T>, V)>>(
        &mut self,
        pairs: J,
    ) -> Result<(), AllocError>
        requires { IsEnding J.into_iter_gives J.IntoIter.can_next J.IntoIter.remaining pairs }
        ensures ran { ExtendsWithItems J.into_iter_gives J.IntoIter.next_gives
            (λ old items new. PutsAll old (pieces_in T.rank V.seen items) new) pairs self.old self.new
            result }
        ensures runs { OnOk result (GaveRun J.into_iter_gives J.IntoIter.next_gives pairs
            (λ items. PutsAll self.old (pieces_in T.rank V.seen items) self.new)) }
    {
        RangeMapBlaze::extend(self, pairs)
    }
}

/// `Extend::extend(&mut map, pairs)?`: inserts keys and values. A later pair wins. If
/// allocation fails, or cloning a value does, a prefix of the pairs has been inserted.
impl<T: Integer, V: MapValue, A: Allocator + Clone> Extend<(T, V)> for RangeMapBlaze<T, V, A> {
    ghost extend_gives = { λ old items new. PutsAll old (keyed T.rank V.seen items) new };

    fn extend<J: IntoIterator<Item = (T, V)>>(&mut self, pairs: J) -> Result<(), AllocError>
        requires { IsEnding J.into_iter_gives J.IntoIter.can_next J.IntoIter.remaining pairs }
        ensures ran { ExtendsWithItems J.into_iter_gives J.IntoIter.next_gives
            (λ old items new. PutsAll old (keyed T.rank V.seen items) new) pairs self.old self.new
            result }
        ensures runs { OnOk result (GaveRun J.into_iter_gives J.IntoIter.next_gives pairs
            (λ items. PutsAll self.old (keyed T.rank V.seen items) self.new)) }
    {
        self.extend_keys(pairs)
    }
}
