//! The first gap and the first run of a given length, and tables that take blocks from the first
//! gap with room for them.

ghost use Rattle.std.specs.Prelude.{
  ◌≡◌,
  ℕ,
  ◌&&◌,
  ◌+◌,
  ◌<◌,
  nat_le,
  nat_lt,
  List,
  IfOk,
  IfSome,
  IsNone,
  OnErr,
};
ghost use Rattle.range_set_blaze.specs.FirstFit.{IsFree};
ghost use Rattle.range_set_blaze.specs.Runs.{Interval};
ghost use Rattle.range_set_blaze.specs.Set.{Adds};

use range_set_blaze::{Integer, RangeSetBlaze, UIntPlusOne};
use rsb_user_types::{Side, Slot};
use std::alloc::{AllocError, Allocator, Global};
use std::marker::Model;
use std::ops::RangeInclusive;
use std::test::*;
use test_support::{Counting, Heap, HeapSet, Table, every_fifth, set_in, set_of, slot, slots};

/// A table whose values are taken block by block.
#[derive(Drop)]
struct Blocks<T: Integer, A: Allocator> {
    taken: RangeSetBlaze<T, A>,
}

impl<T: Integer, A: Allocator> Model for Blocks<T, A> {
    ghost Value = { List Interval };

    ghost view = { λ blocks. blocks.taken };
}

impl<T: Integer, A: Allocator + Clone> Blocks<T, A> {
    /// Takes the first free block of `len` values, and returns where it starts, or `None` if no
    /// such block is free. If allocation fails, nothing is taken.
    fn take(&mut self, len: T::SafeLen) -> Result<Option<T>, AllocError>
        requires { 0 < T.SafeLen.number len }
        ensures free { IfOk result (λ found. IfSome found (λ start.
            IsFree T.value_count self.old (T.rank start) (T.SafeLen.number len))) }
        ensures taken { IfOk result (λ found. IfSome found (λ start. Adds self.old self.new
            (λ rank. nat_le (T.rank start) rank
            && nat_lt rank (T.rank start + T.SafeLen.number len)))) }
        ensures lowest { IfOk result (λ found. IfSome found (λ start. (lower : ℕ)
            → lower < T.rank start
            → ¬ (IsFree T.value_count self.old lower (T.SafeLen.number len)))) }
        ensures full { IfOk result (λ found. IsNone found → (start : ℕ)
            → ¬ (IsFree T.value_count self.old start (T.SafeLen.number len))) }
        ensures none { IfOk result (λ found. IsNone found → self.new ≡ self.old) }
        ensures err { OnErr result (self.new ≡ self.old) }
    {
        let Some(gap) = self.taken.first_gap(len) else {
            return Ok(None);
        };
        let start = *gap.start();
        self.taken
            .ranges_insert(start..=start.inclusive_end_from_start(len))?;
        Ok(Some(start))
    }
}

#[test]
fn blocks_are_taken_where_they_fit_first(rt: HostRuntime) -> Result<(), Fail> {
    let mut blocks = Blocks {
        taken: RangeSetBlaze::from(rt.alloc(), slots(4, 7))?,
    };
    assert!(rt; blocks.take(5)? == Some(slot(8)) && blocks.take(4)? == Some(slot(0)));
    assert!(rt; blocks.take(83)? == Some(slot(13)) && blocks.take(1)? == None);
    Ok(())
}

/// The ends of a range, if there is one.
type Ends = Option<(i32, i32)>;

/// A set, a length, and the first gap and the first run of at least that length.
static FITTING: [(Table<'static>, u64, Ends, Ends); 21] = [
    (&[], 0, Some((i32::MIN, i32::MAX)), None),
    (&[], 4_294_967_296, Some((i32::MIN, i32::MAX)), None),
    (&[], 4_294_967_297, None, None),
    (&[(i32::MIN, i32::MAX)], 0, None, Some((i32::MIN, i32::MAX))),
    (
        &[(i32::MIN, i32::MAX)],
        4_294_967_296,
        None,
        Some((i32::MIN, i32::MAX)),
    ),
    (&[(i32::MIN, i32::MAX)], 4_294_967_297, None, None),
    // Here the runs reach both ends of the type.
    (
        &[(i32::MIN, 3), (7, 10), (20, i32::MAX)],
        0,
        Some((4, 6)),
        Some((i32::MIN, 3)),
    ),
    (
        &[(i32::MIN, 3), (7, 10), (20, i32::MAX)],
        3,
        Some((4, 6)),
        Some((i32::MIN, 3)),
    ),
    (
        &[(i32::MIN, 3), (7, 10), (20, i32::MAX)],
        4,
        Some((11, 19)),
        Some((i32::MIN, 3)),
    ),
    (
        &[(i32::MIN, 3), (7, 10), (20, i32::MAX)],
        9,
        Some((11, 19)),
        Some((i32::MIN, 3)),
    ),
    (
        &[(i32::MIN, 3), (7, 10), (20, i32::MAX)],
        10,
        None,
        Some((i32::MIN, 3)),
    ),
    // Here the gaps have two, five and one values, and some are at the ends of the type.
    (
        &[(-2_147_483_646, 9), (15, 2_147_483_646)],
        2,
        Some((i32::MIN, -2_147_483_647)),
        Some((-2_147_483_646, 9)),
    ),
    (
        &[(-2_147_483_646, 9), (15, 2_147_483_646)],
        3,
        Some((10, 14)),
        Some((-2_147_483_646, 9)),
    ),
    (
        &[(-2_147_483_646, 9), (15, 2_147_483_646)],
        6,
        None,
        Some((-2_147_483_646, 9)),
    ),
    (
        &[(i32::MIN, 2_147_483_646)],
        1,
        Some((i32::MAX, i32::MAX)),
        Some((i32::MIN, 2_147_483_646)),
    ),
    (
        &[(-2_147_483_647, i32::MAX)],
        1,
        Some((i32::MIN, i32::MIN)),
        Some((-2_147_483_647, i32::MAX)),
    ),
    // Here the runs have three, four and nine values.
    (
        &[(1, 3), (7, 10), (12, 20)],
        0,
        Some((i32::MIN, 0)),
        Some((1, 3)),
    ),
    (
        &[(1, 3), (7, 10), (12, 20)],
        4,
        Some((i32::MIN, 0)),
        Some((7, 10)),
    ),
    (
        &[(1, 3), (7, 10), (12, 20)],
        9,
        Some((i32::MIN, 0)),
        Some((12, 20)),
    ),
    (&[(1, 3), (7, 10), (12, 20)], 10, Some((i32::MIN, 0)), None),
    (&[(0, 9)], 2_147_483_649, None, None),
];

/// Whether a result is the range with these ends.
fn is_range(answer: Option<RangeInclusive<i32>>, wanted: Ends) -> bool {
    match (answer, wanted) {
        (Some(range), Some((start, end))) => range == (start..=end),
        (None, None) => true,
        _ => false,
    }
}

/// Whether the first gap and the first run of a set have these ends.
fn fit(
    alloc: Global,
    ranges: Table<'_>,
    len: u64,
    gap: Ends,
    run: Ends,
) -> Result<bool, AllocError> {
    let set = set_of(alloc, ranges)?;
    Ok(is_range(set.first_gap(len), gap) && is_range(set.first_run(len), run))
}

#[test]
fn the_first_gap_and_run_that_fit_are_found(rt: HostRuntime) -> Result<(), Fail> {
    for (ranges, len, gap, run) in &FITTING {
        assert!(rt;
            fit(rt.alloc(), ranges, *len, *gap, *run)?,
            "{len} in {ranges:?}"
        );
    }
    Ok(())
}

/// A value, a length, and the first such gap of {..=3, 7..=10, 20..} at or after the value.
static FROM: [(i32, u64, Ends); 16] = [
    (i32::MIN, 1, Some((4, 6))),
    (3, 1, Some((4, 6))),
    (4, 3, Some((4, 6))),
    (5, 0, Some((5, 6))),
    (5, 2, Some((5, 6))),
    (5, 3, Some((11, 19))),
    (6, 1, Some((6, 6))),
    (7, 1, Some((11, 19))),
    (10, 9, Some((11, 19))),
    (11, 9, Some((11, 19))),
    (12, 9, None),
    (15, 5, Some((15, 19))),
    (15, 6, None),
    (19, 1, Some((19, 19))),
    (20, 0, None),
    (i32::MAX, 0, None),
];

#[test]
fn gaps_are_cut_to_the_values_from_one_on(rt: HostRuntime) -> Result<(), Fail> {
    let set = set_of(rt.alloc(), &[(i32::MIN, 3), (7, 10), (20, i32::MAX)])?;
    for (value, len, gap) in &FROM {
        let found = set.first_gap_from(*value, *len);
        assert!(rt; is_range(found, *gap), "{len} from {value}");
    }
    Ok(())
}

#[test]
fn the_last_gap_is_cut_too(rt: HostRuntime) -> Result<(), Fail> {
    let set = set_of(rt.alloc(), &[(-5, -1)])?;
    assert!(rt; is_range(set.first_gap_from(i32::MAX, 1), Some((i32::MAX, i32::MAX))));
    assert!(rt; is_range(set.first_gap_from(i32::MAX, 2), None));
    assert!(rt; is_range(set.first_gap_from(-3, 2_147_483_648), Some((0, i32::MAX))));
    assert!(rt; is_range(set.first_gap_from(0, 2_147_483_649), None));
    Ok(())
}

/// All values of a type.
fn all<T: Integer>() -> RangeInclusive<T> {
    T::min_value()..=T::max_value()
}

/// Whether a whole type is one gap, and then one run.
fn whole_type_fits<T: Integer>(alloc: Global, whole: T::SafeLen) -> Result<bool, AllocError> {
    let mut set = RangeSetBlaze::<T>::new(alloc);
    let is_free = set.first_gap(whole) == Some(all()) && set.first_run(whole).is_none();
    set.ranges_insert(all::<T>())?;
    Ok(is_free && set.first_gap(whole).is_none() && set.first_run(whole) == Some(all()))
}

#[test]
fn whole_types_are_gaps_and_runs(rt: HostRuntime) -> Result<(), Fail> {
    assert!(rt; whole_type_fits::<Side>(rt.alloc(), 2)?);
    assert!(rt; whole_type_fits::<Slot>(rt.alloc(), 96)?);
    assert!(rt; whole_type_fits::<u128>(rt.alloc(), UIntPlusOne::MaxPlusOne)?);
    assert!(rt; whole_type_fits::<i128>(rt.alloc(), UIntPlusOne::MaxPlusOne)?);
    Ok(())
}

/// Whether gaps and runs of a set of seventy thousand runs are found.
fn are_found(set: &RangeSetBlaze<i32>) -> bool {
    is_range(set.first_gap_from(0, 3), Some((349_998, 399_999)))
        && is_range(set.first_gap_from(0, 50_003), Some((400_010, i32::MAX)))
        && is_range(set.first_gap_from(174_998, 2), Some((174_998, 174_999)))
        && is_range(set.first_gap_from(174_999, 2), Some((175_003, 175_004)))
        && is_range(set.first_run(4), Some((400_000, 400_009)))
}

#[test]
fn seventy_thousand_runs_are_searched(rt: HostRuntime) -> Result<(), Fail> {
    let mut set = every_fifth(rt.alloc(), 0, 2)?;
    set.ranges_insert(400_000..=400_009)?;
    assert!(rt; is_range(set.first_gap(3), Some((i32::MIN, -1))));
    assert!(rt; are_found(&set));
    Ok(())
}

/// Searches a set, and returns whether its allocator was never called.
fn is_quiet(heap: &Heap, set: &HeapSet<'_>) -> bool {
    let calls = heap.calls();
    let found = set.first_gap(3).is_some()
        && set.first_gap_from(8, 3).is_some()
        && set.first_run(3).is_some();
    found && heap.calls() == calls
}

#[test]
fn searches_do_not_allocate(rt: HostRuntime) -> Result<(), Fail> {
    let heap = Counting::new(rt.alloc());
    let set = set_in(&heap, &[(1, 3), (7, 10)])?;
    assert!(rt; is_quiet(&heap, &set));
    Ok(())
}
