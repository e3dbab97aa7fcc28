//! Insertion of values and of ranges.

ghost use Rattle.std.specs.Prelude.{
  ◌≡◌,
  ◌↔◌,
  ℕ,
  ◌+◌,
  ◌<◌,
  ◌≤◌,
  max,
  Some,
  IfOk,
  IfSome,
  IsFalse,
  IsNone,
  IsOk,
  IsSome,
  IsTrue,
  MatchOption,
  OnErr,
  OnOk,
};
ghost use Rattle.rsb_integer.specs.Runs.{covers, length_of, members, IsCanonicalIn, HasRanks};
ghost use Rattle.rsb_integer.specs.Selection.{IsEmpty, LacksSome};
ghost use Rattle.range_set_blaze.specs.Joining.{
  HasAll,
  IsHull,
  IsInserted,
  IsJoining,
  IsReaching,
  IsUnreached,
};
ghost use Rattle.rsb_storage.specs.Storage.{run_of, IsKept};
ghost use Rattle.rsb_streams.specs.RunCount.{HasOneRunMoreAtMost};
ghost use Rattle.rsb_storage.specs.Starts.{IsLastBelow, IsLastTwo, NoneBelow};
ghost use Rattle.rsb_storage.specs.Set.{first_rank, only, ranks_in, Adds, IsReached};

use crate::set::RangeSetBlaze;
use crate::set::swallow::remove_swallowed;
use rsb_integer::Integer;
use rsb_storage::bounds::run_between;
use rsb_storage::lengths::{add_length, subtract_length};
use rsb_storage::run::{Run, greater, is_below, next_or_greatest, reaches};
use rsb_storage::runs::Runs;
use std::alloc::{AllocError, Allocator};
use std::ops::RangeBounds;

/// A new run joined with all runs that it touches, and up to three of those runs. `first` starts
/// where `joined` does. `last` and `before` are two runs that start inside `joined`, past its
/// start, and `before` starts below `last`.
#[derive(Clone, Copy)]
struct Joining<T> {
    joined: Run<T>,
    first: Option<Run<T>>,
    last: Option<Run<T>>,
    before: Option<Run<T>>,
}

impl<T: Integer, A: Allocator + Clone> RangeSetBlaze<T, A> {
    /// Inserts the values between two bounds and returns whether any of them was new. If the
    /// bounds are empty or reversed, nothing is inserted. The set gains at most one run. If
    /// allocation fails, the set is unchanged. (`RangeSetBlaze::ranges_insert`.)
    ///
    /// What is inserted is unspecified for a `RangeBounds` type whose own contract does not specify
    /// its bounds, and for a `RangeInclusive` that was iterated to its end.
    pub fn ranges_insert<R: RangeBounds<T>>(&mut self, range: R) -> Result<bool, AllocError>
        ensures members { R.has_bounds range → OnOk result (Adds self.old self.new
            (ranks_in T.rank T.value_count R.start_bound R.end_bound range)) }
        ensures added { R.has_bounds range → IfOk result (λ added. IsTrue added ↔
            LacksSome (members self.old)
            (ranks_in T.rank T.value_count R.start_bound R.end_bound range)) }
        ensures unchanged { IfOk result (λ added. IsFalse added → self.new ≡ self.old) }
        ensures run_count { HasOneRunMoreAtMost self.old self.new }
        ensures err { OnErr result (self.new ≡ self.old) }

        // Does not allocate if there is nothing to insert, or if the first value or the one before
        // it is a member.
        ensures nothing { R.has_bounds range
            → IsEmpty (ranks_in T.rank T.value_count R.start_bound R.end_bound range)
            → IsOk result }
        ensures succeeds { R.has_bounds range
            → IsReached self.old (first_rank T.rank (R.start_bound range)) → IsOk result }
    {
        let Some(run) = run_between(&range) else {
            return Ok(false);
        };
        self.insert_run(run)
    }

    /// Inserts a value and returns whether it was new. The set gains at most one run. If allocation
    /// fails, the set is unchanged. (`RangeSetBlaze::insert`.)
    pub fn insert(&mut self, value: T) -> Result<bool, AllocError>
        ensures members { OnOk result (Adds self.old self.new (only (T.rank value))) }
        ensures added { IfOk result (λ added.
            IsTrue added ↔ IsFalse (members self.old (T.rank value))) }
        ensures unchanged { IfOk result (λ added. IsFalse added → self.new ≡ self.old) }
        ensures run_count { HasOneRunMoreAtMost self.old self.new }
        ensures err { OnErr result (self.new ≡ self.old) }

        // Does not allocate if the value or the one before it is a member.
        ensures succeeds { IsReached self.old (T.rank value) → IsOk result }
    {
        self.ranges_insert(value..=value)
    }

    /// Inserts a value, and returns it if it was already a member. Otherwise returns `None`. The
    /// set gains at most one run. If allocation fails, the set is unchanged.
    /// (`RangeSetBlaze::replace`.)
    pub fn replace(&mut self, value: T) -> Result<Option<T>, AllocError>
        ensures members { OnOk result (Adds self.old self.new (only (T.rank value))) }
        ensures found { IfOk result (λ found.
            IsSome found ↔ IsTrue (members self.old (T.rank value))) }
        ensures value { IfOk result (λ found. IfSome found (λ member. member ≡ value)) }
        ensures unchanged { IfOk result (λ found. IsSome found → self.new ≡ self.old) }
        ensures run_count { HasOneRunMoreAtMost self.old self.new }
        ensures err { OnErr result (self.new ≡ self.old) }

        // Does not allocate if the value or the one before it is a member.
        ensures succeeds { IsReached self.old (T.rank value) → IsOk result }
    {
        if self.insert(value)? {
            Ok(None)
        } else {
            Ok(Some(value))
        }
    }

    /// Inserts the values of a run and returns whether any of them was new. If allocation fails,
    /// the set is unchanged.
    pub(crate) fn insert_run(&mut self, run: Run<T>) -> Result<bool, AllocError>
        requires order { T.rank run.start ≤ T.rank run.end }
        requires value { T.rank run.end < T.value_count }
        ensures members { OnOk result
            (Adds self.old self.new (covers (run_of T.rank run))) }
        ensures added { IfOk result (λ added. IsTrue added ↔
            LacksSome (members self.old) (covers (run_of T.rank run))) }
        ensures unchanged { IfOk result (λ added. IsFalse added → self.new ≡ self.old) }
        ensures run_count { HasOneRunMoreAtMost self.old self.new }
        ensures err { OnErr result (self.new ≡ self.old) }
        ensures succeeds { IsReached self.old (T.rank run.start) → IsOk result }
    {
        let length = self.length;
        let Some(length) = add_run(&mut self.runs, run, length)? else {
            return Ok(false);
        };
        self.length = length;
        Ok(true)
    }
}

// Inserts the values of a run and returns the new number of members, or `None` if none of the
// values was new. If allocation fails, the runs are unchanged.
fn add_run<T: Integer, A: Allocator + Clone>(
    runs: &mut Runs<T, A>,
    run: Run<T>,
    total: T::SafeLen,
) -> Result<Option<T::SafeLen>, AllocError>
    requires kept { IsKept T.value_count runs.old (T.SafeLen.number total) }
    requires order { T.rank run.start ≤ T.rank run.end }
    requires value { T.rank run.end < T.value_count }
    ensures unchanged { IfOk result (λ found. IsNone found → runs.new ≡ runs.old) }
    ensures within { IfOk result (λ found. IsNone found
        → HasAll runs.old (covers (run_of T.rank run))) }
    ensures inserted { IfOk result (λ found. IfSome found
        (λ length. IsInserted T.value_count runs.old runs.new (run_of T.rank run)
        (T.SafeLen.number length))) }
    ensures err { OnErr result (runs.new ≡ runs.old) }
    ensures succeeds { IsReached runs.old (T.rank run.start) → IsOk result }
{
    let Some(joining) = touched(runs, run) else {
        return Ok(None);
    };
    Ok(Some(put(runs, joining, total)?))
}

// Returns a run joined with the runs that it touches, or `None` if some run already has all its
// values.
fn touched<T: Integer, A: Allocator>(runs: &Runs<T, A>, run: Run<T>) -> Option<Joining<T>>
    requires canonical { IsCanonicalIn T.value_count runs.now }
    requires order { T.rank run.start ≤ T.rank run.end }
    requires value { T.rank run.end < T.value_count }
    ensures within { IsNone result → HasAll runs.now (covers (run_of T.rank run)) }
    ensures hull { IfSome result (λ joining. IsHull runs.now (run_of T.rank run)
        (run_of T.rank joining.joined)) }
    ensures lacks { IfSome result (λ joining. LacksSome (members runs.now)
        (covers (run_of T.rank run))) }
    ensures joining { IfSome result (IsJoining T.rank T.value_count runs.now) }
    ensures first { IfSome result (λ joining. IsReached runs.now (T.rank run.start)
        → IsSome joining.first) }
{
    let (last, before) = runs.last_two(next_or_greatest(run.end));
    let first = reached_at(runs, run.start, last, before);
    if ends_in(first, run.end) {
        return None;
    }
    let start = start_of(first, run.start);
    let end = end_of(last, run.end);
    Some(Joining {
        joined: Run { start, end },
        first,
        last: past_start(last, start),
        before: past_start(before, start),
    })
}

// Returns the run that starts at or before `start` and contains or touches it, or `None` if there
// is none. `last` and `before` are the last two runs that start at or before some value that is at
// least `start`.
fn reached_at<T: Integer, A: Allocator>(
    runs: &Runs<T, A>,
    start: T,
    last: Option<Run<T>>,
    before: Option<Run<T>>,
) -> Option<Run<T>>
    requires canonical { IsCanonicalIn T.value_count runs.now }
    requires value { T.rank start < T.value_count }
    requires two { (bound : ℕ) × (T.rank start < bound)
        × IsLastTwo T.rank runs.now bound last before }
    ensures { MatchOption result (IsUnreached runs.now (T.rank start))
        (λ run. IsReaching runs.now (T.rank start) (run_of T.rank run)) }
{
    let first = last_up_to(runs, start, last, before)?;
    if reaches(first.end, start) {
        Some(first)
    } else {
        None
    }
}

// Returns the last run that starts at or before `start`, or `None` if there is none. It looks first
// at `last` and `before`, the last two runs that start at or before some value that is at least
// `start`.
fn last_up_to<T: Integer, A: Allocator>(
    runs: &Runs<T, A>,
    start: T,
    last: Option<Run<T>>,
    before: Option<Run<T>>,
) -> Option<Run<T>>
    requires canonical { IsCanonicalIn T.value_count runs.now }
    requires value { T.rank start < T.value_count }
    requires two { (bound : ℕ) × (T.rank start < bound)
        × IsLastTwo T.rank runs.now bound last before }
    ensures { MatchOption result (NoneBelow runs.now (T.rank start + 1))
        (λ run. IsLastBelow runs.now (T.rank start + 1) (run_of T.rank run)) }
{
    let last = last?;
    if !is_below(start, last.start) {
        return Some(last);
    }
    let before = before?;
    if !is_below(start, before.start) {
        return Some(before);
    }
    runs.up_to(start)
}

// Returns whether there is a run and it ends at or past `end`.
fn ends_in<T: Integer>(first: Option<Run<T>>, end: T) -> bool
    requires value { T.rank end < T.value_count }
    requires first { IfSome first (λ first. T.rank first.end < T.value_count) }
    ensures { MatchOption first (IsFalse result)
        (λ first. IsTrue result ↔ (T.rank end ≤ T.rank first.end)) }
{
    match first {
        Some(first) => !first.ends_before(end),
        None => false,
    }
}

// Returns the start of the run if there is one, and otherwise `start`.
fn start_of<T: Integer>(first: Option<Run<T>>, start: T) -> T
    ensures { MatchOption first (result ≡ start) (λ first. result ≡ first.start) }
{
    match first {
        Some(first) => first.start,
        None => start,
    }
}

// Returns the greater of `end` and the end of the run, if there is one.
fn end_of<T: Integer>(last: Option<Run<T>>, end: T) -> T
    requires value { T.rank end < T.value_count }
    requires last { IfSome last (λ last. T.rank last.end < T.value_count) }
    ensures { MatchOption last (result ≡ end)
        (λ last. T.rank result ≡ max (T.rank end) (T.rank last.end)) }
{
    match last {
        Some(last) => greater(end, last.end),
        None => end,
    }
}

// Returns the run if it starts past `start`, and otherwise `None`.
fn past_start<T: Integer>(run: Option<Run<T>>, start: T) -> Option<Run<T>>
    requires value { T.rank start < T.value_count }
    requires run { IfSome run (λ run. T.rank run.start < T.value_count) }
    ensures { MatchOption result (IfSome run (λ run. T.rank run.start ≤ T.rank start))
        (λ later. (run ≡ Some later) × (T.rank start < T.rank later.start)) }
{
    match run {
        Some(run) if is_below(start, run.start) => Some(run),
        _ => None,
    }
}

// Puts the joined run in place of those that it covers, and returns the new number of members. If
// allocation fails, the runs are unchanged.
fn put<T: Integer, A: Allocator + Clone>(
    runs: &mut Runs<T, A>,
    joining: Joining<T>,
    total: T::SafeLen,
) -> Result<T::SafeLen, AllocError>
    requires kept { IsKept T.value_count runs.old (T.SafeLen.number total) }
    requires joining { IsJoining T.rank T.value_count runs.old joining }
    ensures kept { IfOk result (λ length. IsKept T.value_count runs.new (T.SafeLen.number length)) }
    ensures adds { OnOk result (Adds runs.old runs.new (covers (run_of T.rank joining.joined))) }
    ensures err { OnErr result (runs.new ≡ runs.old) }
    ensures succeeds { IsSome joining.first → IsOk result }
{
    let run = joining.joined;
    // The new entry is inserted before any other is removed, since the insertion may fail to
    // allocate (docs/DECISIONS.md, put-then-take).
    runs.put(run)?;
    let others = without(joining.first, total);
    let mut length = remove_swallowed(runs, run, joining.last, joining.before, others);
    add_length(&mut length, run);
    Ok(length)
}

// Returns `total` minus the number of values of `first`, or `total` if there is no such run.
fn without<T: Integer>(first: Option<Run<T>>, total: T::SafeLen) -> T::SafeLen
    requires some { IfSome first (λ first. HasRanks (run_of T.rank first)) }
    requires fits { T.SafeLen.number total ≤ T.value_count }
    requires counted { IfSome first (λ first.
        length_of (run_of T.rank first) ≤ T.SafeLen.number total) }
    ensures { MatchOption first (T.SafeLen.number result ≡ T.SafeLen.number total)
        (λ first. T.SafeLen.number result + length_of (run_of T.rank first)
        ≡ T.SafeLen.number total) }
{
    let mut others = total;
    if let Some(first) = first {
        subtract_length(&mut others, first);
    }
    others
}
