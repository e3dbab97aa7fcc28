//! Set algebra over any number of sets.

ghost use Rattle.std.proofs.Common.{refl};
ghost use Rattle.std.specs.Prelude.{◌≡◌, ◌<◌, List, [], ◌∷◌, ◌++◌, length, map, All, IfOk};
ghost use Rattle.rsb_integer.specs.Rank.{intervals_of};
ghost use Rattle.rsb_integer.specs.Runs.{members, Interval, IsCanonicalIn};
ghost use Rattle.rsb_integer.specs.Selection.{all_of, any_of, at_least, odd_of};
ghost use Rattle.rsb_streams.specs.Items.{GaveRun, IsEnding};
ghost use Rattle.rsb_streams.specs.Stream.{◌⊆◌, just};
ghost use Rattle.range_set_blaze.specs.Multiway.{GivesSets, HasRunsOfAllAtMost, IsMadeOf};
ghost use Rattle.rsb_storage.specs.Set.{IsSetOf};

use crate::set::RangeSetBlaze;
use rsb_integer::Integer;
use rsb_many::MultiwaySortedDisjoint;
use rsb_storage::into_ranges_iter::IntoRangesIter;
use rsb_storage::ranges_iter::RangesIter;
use rsb_streams::{Draw, DrawDisjoint};
use std::alloc::{AllocError, Allocator};

/// Set algebra over any number of sets, passed by value. If allocation fails, no set is made, and
/// the sets are dropped. (`MultiwayRangeSetBlaze` in range-set-blaze.)
pub trait MultiwayRangeSetBlaze<T: Integer, S: Allocator>: IntoIterator<
    Item = RangeSetBlaze<T, S>,
> {
    /// Returns the union: the values in at least one of the sets. If there are no sets, the result
    /// is empty. (`MultiwayRangeSetBlaze::union`.)
    final fn union<A: Allocator + Copy>(self, alloc: A) -> Result<RangeSetBlaze<T, A>, AllocError>
    where
        Self: Sized,
        requires { IsEnding Self.into_iter_gives Self.IntoIter.can_next Self.IntoIter.remaining
            self }
        ensures members { IfOk result (λ set.
            GaveRun Self.into_iter_gives Self.IntoIter.next_gives self
            (λ sets. IsMadeOf T.value_count any_of sets set)) }
        ensures given { (sets : List (List Interval))
            → GivesSets Self.into_iter_gives Self.IntoIter.next_gives (λ items. items) self sets
            → IfOk result (λ set. IsSetOf set (any_of (map members sets))) }
    {
        union_of(alloc, self)
    }

    /// Returns the intersection: the values in all of the sets. If there are no sets, the result
    /// has every value. (`MultiwayRangeSetBlaze::intersection`.)
    final fn intersection<A: Allocator + Copy>(
        self,
        alloc: A,
    ) -> Result<RangeSetBlaze<T, A>, AllocError>
    where
        Self: Sized,
        requires { IsEnding Self.into_iter_gives Self.IntoIter.can_next Self.IntoIter.remaining
            self }
        ensures members { IfOk result (λ set.
            GaveRun Self.into_iter_gives Self.IntoIter.next_gives self
            (λ sets. IsMadeOf T.value_count all_of sets set)) }
        ensures given { (sets : List (List Interval))
            → GivesSets Self.into_iter_gives Self.IntoIter.next_gives (λ items. items) self sets
            → IfOk result (λ set. IsMadeOf T.value_count all_of sets set) }
        // If there are no sets, the ranks past the end of the type are selected too. Otherwise this
        // holds at every rank.
        ensures exactly { (sets : List (List Interval))
            → GivesSets Self.into_iter_gives Self.IntoIter.next_gives (λ items. items) self sets
            → 0 < length sets → IfOk result (λ set. IsSetOf set (all_of (map members sets))) }
    {
        intersection_of(alloc, self)
    }

    /// Returns the values in an odd number of the sets. If there are no sets, the result is empty.
    /// (`MultiwayRangeSetBlaze::symmetric_difference`.)
    final fn symmetric_difference<A: Allocator + Copy>(
        self,
        alloc: A,
    ) -> Result<RangeSetBlaze<T, A>, AllocError>
    where
        Self: Sized,
        requires { IsEnding Self.into_iter_gives Self.IntoIter.can_next Self.IntoIter.remaining
            self }
        ensures members { IfOk result (λ set.
            GaveRun Self.into_iter_gives Self.IntoIter.next_gives self
            (λ sets. IsMadeOf T.value_count odd_of sets set)) }
        ensures given { (sets : List (List Interval))
            → GivesSets Self.into_iter_gives Self.IntoIter.next_gives (λ items. items) self sets
            → IfOk result (λ set. IsSetOf set (odd_of (map members sets))) }
    {
        symmetric_difference_of(alloc, self)
    }

    /// Returns the values in at least `k` of the sets: every value if `k` is 0, and none if there
    /// are fewer than `k` sets. A set passed twice counts twice. If `k` is at least 1, the result
    /// has at most as many runs as all the sets together. Not in range-set-blaze.
    final fn at_least<A: Allocator + Copy>(
        self,
        alloc: A,
        k: usize,
    ) -> Result<RangeSetBlaze<T, A>, AllocError>
    where
        Self: Sized,
        requires { IsEnding Self.into_iter_gives Self.IntoIter.can_next Self.IntoIter.remaining
            self }
        ensures members { IfOk result (λ set.
            GaveRun Self.into_iter_gives Self.IntoIter.next_gives self
            (λ sets. IsMadeOf T.value_count (at_least k) sets set)) }
        // If `k` is 0, the ranks past the end of the type are selected too. Otherwise this holds at
        // every rank.
        ensures exactly { 0 < k → IfOk result (λ set.
            GaveRun Self.into_iter_gives Self.IntoIter.next_gives self
            (λ sets. IsSetOf set (at_least k (map members sets)))) }
        ensures run_count { 0 < k → IfOk result (λ set.
            GaveRun Self.into_iter_gives Self.IntoIter.next_gives self
            (λ sets. HasRunsOfAllAtMost sets set)) }
        ensures given { (sets : List (List Interval))
            → GivesSets Self.into_iter_gives Self.IntoIter.next_gives (λ items. items) self sets
            → 0 < k → IfOk result (λ set. IsSetOf set (at_least k (map members sets))) }
    {
        at_least_of(alloc, self, k)
    }
}

impl<T: Integer, S: Allocator, K: IntoIterator<Item = RangeSetBlaze<T, S>>> MultiwayRangeSetBlaze<
    T,
    S,
> for K {}

/// Set algebra over any number of sets, passed by reference. If allocation fails, no set is made.
/// (`MultiwayRangeSetBlazeRef` in range-set-blaze.)
pub trait MultiwayRangeSetBlazeRef<'a, T: Integer + 'a, S: Allocator + 'a>: IntoIterator<
    Item = &'a RangeSetBlaze<T, S>,
> {
    /// Returns the union: the values in at least one of the sets. If there are no sets, the result
    /// is empty. (`MultiwayRangeSetBlazeRef::union`.)
    final fn union<A: Allocator + Copy>(self, alloc: A) -> Result<RangeSetBlaze<T, A>, AllocError>
    where
        Self: Sized,
        requires { IsEnding Self.into_iter_gives Self.IntoIter.can_next Self.IntoIter.remaining
            self }
        ensures members { IfOk result (λ set.
            GaveRun Self.into_iter_gives Self.IntoIter.next_gives self
            (λ sets. IsMadeOf T.value_count any_of (map (λ lent. lent.now) sets) set)) }
        ensures given { (sets : List (List Interval))
            → GivesSets Self.into_iter_gives Self.IntoIter.next_gives (map (λ lent. lent.now)) self sets
            → IfOk result (λ set. IsSetOf set (any_of (map members sets))) }
    {
        union_of(alloc, self)
    }

    /// Returns the intersection: the values in all of the sets. If there are no sets, the result
    /// has every value. (`MultiwayRangeSetBlazeRef::intersection`.)
    final fn intersection<A: Allocator + Copy>(
        self,
        alloc: A,
    ) -> Result<RangeSetBlaze<T, A>, AllocError>
    where
        Self: Sized,
        requires { IsEnding Self.into_iter_gives Self.IntoIter.can_next Self.IntoIter.remaining
            self }
        ensures members { IfOk result (λ set.
            GaveRun Self.into_iter_gives Self.IntoIter.next_gives self
            (λ sets. IsMadeOf T.value_count all_of (map (λ lent. lent.now) sets) set)) }
        ensures given { (sets : List (List Interval))
            → GivesSets Self.into_iter_gives Self.IntoIter.next_gives (map (λ lent. lent.now)) self sets
            → IfOk result (λ set. IsMadeOf T.value_count all_of sets set) }
        // If there are no sets, the ranks past the end of the type are selected too. Otherwise this
        // holds at every rank.
        ensures exactly { (sets : List (List Interval))
            → GivesSets Self.into_iter_gives Self.IntoIter.next_gives (map (λ lent. lent.now)) self sets
            → 0 < length sets → IfOk result (λ set. IsSetOf set (all_of (map members sets))) }
    {
        intersection_of(alloc, self)
    }

    /// Returns the values in an odd number of the sets. If there are no sets, the result is empty.
    /// (`MultiwayRangeSetBlazeRef::symmetric_difference`.)
    final fn symmetric_difference<A: Allocator + Copy>(
        self,
        alloc: A,
    ) -> Result<RangeSetBlaze<T, A>, AllocError>
    where
        Self: Sized,
        requires { IsEnding Self.into_iter_gives Self.IntoIter.can_next Self.IntoIter.remaining
            self }
        ensures members { IfOk result (λ set.
            GaveRun Self.into_iter_gives Self.IntoIter.next_gives self
            (λ sets. IsMadeOf T.value_count odd_of (map (λ lent. lent.now) sets) set)) }
        ensures given { (sets : List (List Interval))
            → GivesSets Self.into_iter_gives Self.IntoIter.next_gives (map (λ lent. lent.now)) self sets
            → IfOk result (λ set. IsSetOf set (odd_of (map members sets))) }
    {
        symmetric_difference_of(alloc, self)
    }

    /// Returns the values in at least `k` of the sets: every value if `k` is 0, and none if there
    /// are fewer than `k` sets. A set passed twice counts twice. If `k` is at least 1, the result
    /// has at most as many runs as all the sets together. Not in range-set-blaze.
    final fn at_least<A: Allocator + Copy>(
        self,
        alloc: A,
        k: usize,
    ) -> Result<RangeSetBlaze<T, A>, AllocError>
    where
        Self: Sized,
        requires { IsEnding Self.into_iter_gives Self.IntoIter.can_next Self.IntoIter.remaining
            self }
        ensures members { IfOk result (λ set.
            GaveRun Self.into_iter_gives Self.IntoIter.next_gives self
            (λ sets. IsMadeOf T.value_count (at_least k) (map (λ lent. lent.now) sets) set)) }
        // If `k` is 0, the ranks past the end of the type are selected too. Otherwise this holds at
        // every rank.
        ensures exactly { 0 < k → IfOk result (λ set.
            GaveRun Self.into_iter_gives Self.IntoIter.next_gives self
            (λ sets. IsSetOf set (at_least k (map members (map (λ lent. lent.now) sets))))) }
        ensures run_count { 0 < k → IfOk result (λ set.
            GaveRun Self.into_iter_gives Self.IntoIter.next_gives self
            (λ sets. HasRunsOfAllAtMost (map (λ lent. lent.now) sets) set)) }
        ensures given { (sets : List (List Interval))
            → GivesSets Self.into_iter_gives Self.IntoIter.next_gives (map (λ lent. lent.now)) self sets
            → 0 < k → IfOk result (λ set. IsSetOf set (at_least k (map members sets))) }
    {
        at_least_of(alloc, self, k)
    }
}

impl<
    'a,
    T: Integer + 'a,
    S: Allocator + 'a,
    K: IntoIterator<Item = &'a RangeSetBlaze<T, S>>,
> MultiwayRangeSetBlazeRef<'a, T, S> for K {}

// A set, by value or by reference, that gives its runs as a stream.
trait GivesRuns<T: Integer>: Sized {
    type Stream: DrawDisjoint<T>;

    // The runs that such a stream gives.
    ghost given: { Self.Stream → List Interval };

    // The runs of each set of a list.
    ghost shown: { List Self → List (List Interval) };

    // Returns the runs of the set as a ready stream.
    fn stream(self) -> Self::Stream
        ensures ready { Self.Stream.can_draw result }
        ensures one_more { (sets : List Self)
            → shown (sets ++ self ∷ []) ≡ shown sets ++ given result ∷ [] };

    // The empty list of sets has no lists of runs.
    ghost none: { shown [] ≡ [] };

    // The stream gives its runs and nothing else.
    ghost known: { (s : Self.Stream) → Self.Stream.may_give s ⊆ just (given s) };

    // The runs of a ready stream are canonical.
    ghost canonical: { (s : Self.Stream) → Self.Stream.can_draw s
        → IsCanonicalIn T.value_count (given s) };
}

impl<T: Integer, S: Allocator> GivesRuns<T> for RangeSetBlaze<T, S> {
    type Stream = IntoRangesIter<T, S>;

    ghost given = { intervals_of T.rank };

    ghost shown = { λ sets. sets };

    fn stream(self) -> IntoRangesIter<T, S> {
        self.into_ranges()
    }

    ghost none = { refl };

    ghost known = { λ s runs is. is };

    ghost canonical = { λ s canonical. canonical };
}

impl<'a, T: Integer + 'a, S: Allocator + 'a> GivesRuns<T> for &'a RangeSetBlaze<T, S> {
    type Stream = RangesIter<'a, T>;

    ghost given = { intervals_of T.rank };

    ghost shown = { map (λ lent. lent.now) };

    fn stream(self) -> RangesIter<'a, T> {
        self.ranges()
    }

    ghost none = { refl };

    ghost known = { λ s runs is. is };

    ghost canonical = { λ s canonical. canonical };
}

// Returns the runs of each set as a ready stream.
fn streams_of<T: Integer, S: GivesRuns<T>, A: Allocator, K: IntoIterator<Item = S>>(
    alloc: A,
    sets: K,
) -> Result<Vec<S::Stream, A>, AllocError>
    requires { IsEnding K.into_iter_gives K.IntoIter.can_next K.IntoIter.remaining sets }
    ensures ready { IfOk result (λ streams. All S.Stream.can_draw streams.items) }
    ensures given { IfOk result (λ streams.
        GaveRun K.into_iter_gives K.IntoIter.next_gives sets
        (λ items. map S.given streams.items ≡ S.shown items)) }
{
    let mut streams = Vec::new(alloc);
    for set in sets {
        streams.push(set.stream())?;
    }
    Ok(streams)
}

// Returns the set of the values in at least one of the sets.
fn union_of<T: Integer, S: GivesRuns<T>, A: Allocator + Copy, K: IntoIterator<Item = S>>(
    alloc: A,
    sets: K,
) -> Result<RangeSetBlaze<T, A>, AllocError>
    requires { IsEnding K.into_iter_gives K.IntoIter.can_next K.IntoIter.remaining sets }
    ensures members { IfOk result (λ set. GaveRun K.into_iter_gives K.IntoIter.next_gives sets
        (λ items. IsMadeOf T.value_count any_of (S.shown items) set)) }
    ensures given { (known : List (List Interval))
        → GivesSets K.into_iter_gives K.IntoIter.next_gives S.shown sets known
        → IfOk result (λ set. IsSetOf set (any_of (map members known))) }
{
    let streams = streams_of(alloc, sets)?;
    let union = streams.union(alloc)?;
    RangeSetBlaze::from_sorted_disjoint(alloc, union)
}

// Returns the set of the values in all of the sets.
fn intersection_of<T: Integer, S: GivesRuns<T>, A: Allocator + Copy, K: IntoIterator<Item = S>>(
    alloc: A,
    sets: K,
) -> Result<RangeSetBlaze<T, A>, AllocError>
    requires { IsEnding K.into_iter_gives K.IntoIter.can_next K.IntoIter.remaining sets }
    ensures members { IfOk result (λ set. GaveRun K.into_iter_gives K.IntoIter.next_gives sets
        (λ items. IsMadeOf T.value_count all_of (S.shown items) set)) }
    ensures given { (known : List (List Interval))
        → GivesSets K.into_iter_gives K.IntoIter.next_gives S.shown sets known
        → IfOk result (λ set. IsMadeOf T.value_count all_of known set) }
    ensures exactly { (known : List (List Interval))
        → GivesSets K.into_iter_gives K.IntoIter.next_gives S.shown sets known
        → 0 < length known → IfOk result (λ set. IsSetOf set (all_of (map members known))) }
{
    let streams = streams_of(alloc, sets)?;
    let intersection = streams.intersection(alloc)?;
    RangeSetBlaze::from_sorted_disjoint(alloc, intersection)
}

// Returns the set of the values in an odd number of the sets.
fn symmetric_difference_of<
    T: Integer,
    S: GivesRuns<T>,
    A: Allocator + Copy,
    K: IntoIterator<Item = S>,
>(alloc: A, sets: K) -> Result<RangeSetBlaze<T, A>, AllocError>
    requires { IsEnding K.into_iter_gives K.IntoIter.can_next K.IntoIter.remaining sets }
    ensures members { IfOk result (λ set. GaveRun K.into_iter_gives K.IntoIter.next_gives sets
        (λ items. IsMadeOf T.value_count odd_of (S.shown items) set)) }
    ensures given { (known : List (List Interval))
        → GivesSets K.into_iter_gives K.IntoIter.next_gives S.shown sets known
        → IfOk result (λ set. IsSetOf set (odd_of (map members known))) }
{
    let streams = streams_of(alloc, sets)?;
    let difference = streams.symmetric_difference(alloc)?;
    RangeSetBlaze::from_sorted_disjoint(alloc, difference)
}

// Returns the set of the values in at least `k` of the sets.
fn at_least_of<T: Integer, S: GivesRuns<T>, A: Allocator + Copy, K: IntoIterator<Item = S>>(
    alloc: A,
    sets: K,
    k: usize,
) -> Result<RangeSetBlaze<T, A>, AllocError>
    requires { IsEnding K.into_iter_gives K.IntoIter.can_next K.IntoIter.remaining sets }
    ensures members { IfOk result (λ set. GaveRun K.into_iter_gives K.IntoIter.next_gives sets
        (λ items. IsMadeOf T.value_count (at_least k) (S.shown items) set)) }
    ensures exactly { 0 < k → IfOk result (λ set.
        GaveRun K.into_iter_gives K.IntoIter.next_gives sets
        (λ items. IsSetOf set (at_least k (map members (S.shown items))))) }
    ensures run_count { 0 < k → IfOk result (λ set.
        GaveRun K.into_iter_gives K.IntoIter.next_gives sets
        (λ items. HasRunsOfAllAtMost (S.shown items) set)) }
    ensures given { (known : List (List Interval))
        → GivesSets K.into_iter_gives K.IntoIter.next_gives S.shown sets known
        → 0 < k → IfOk result (λ set. IsSetOf set (at_least k (map members known))) }
{
    let streams = streams_of(alloc, sets)?;
    let deep = streams.at_least(alloc, k)?;
    RangeSetBlaze::from_sorted_disjoint(alloc, deep)
}
