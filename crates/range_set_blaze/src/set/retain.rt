//! Removal of the members and of the runs for which a closure returns false.

ghost use Rattle.std.specs.Prelude.{
  ◌≡◌,
  Bool,
  [],
  IsOk,
  OnErr,
  OnOk,
  ◌+◌,
  ◌<◌,
  ◌≤◌,
  ℕ,
  ◌∷◌,
  None,
  Some,
  IfOk,
  IfSome,
  IsTrue,
};
ghost use Rattle.std.specs.List.{filter};
ghost use Rattle.rsb_integer.specs.Runs.{Interval, members, IsCanonicalIn};
ghost use Rattle.rsb_integer.specs.Selection.{intersection, IsSubset, Selection, union};
ghost use Rattle.rsb_streams.specs.Sublists.{IsSublist};
ghost use Rattle.rsb_storage.specs.Storage.{IsKept, run_of, runs_of};
ghost use Rattle.range_set_blaze.specs.Retain.{
  AnswersByRank,
  AnswersByRun,
  AsksAll,
  AsksFront,
  AsksRuns,
  CallableOnMembers,
  CallableOnRuns,
  left_runs,
  past_piece,
  with_piece,
  IsCanonicalBelow,
  IsPastFirst,
};
ghost use Rattle.rsb_storage.specs.Set.{IsSetOf, only};

use crate::set::RangeSetBlaze;
use rsb_integer::Integer;
use rsb_storage::entries::next_run;
use rsb_storage::lengths::subtract_length;
use rsb_storage::run::{Run, reaches};
use rsb_storage::runs::Runs;
use std::alloc::{AllocError, Allocator};
use std::collections::btree_map::Iter;
use std::ops::RangeInclusive;

impl<T: Integer, A: Allocator + Copy> RangeSetBlaze<T, A> {
    /// Calls `f` on each member in ascending order, and keeps the members for which it returns
    /// true. `f` must be callable on each member, one after the other. If allocation fails, the set
    /// is unchanged, and `f` was called on a prefix of the members. (`RangeSetBlaze::retain`.)
    pub fn retain<F: FnMut(&T) -> bool>(&mut self, f: F) -> Result<(), AllocError>
        requires { CallableOnMembers T.rank T.value_count F.FnMut f self.old }
        ensures within { OnOk result
            (IsSubset T.value_count (members self.new) (members self.old)) }

        // If the result of `f` depends only on the value, the members kept are those for which it
        // is true.
        ensures exact { (keeps : Selection)
            → AnswersByRank T.rank T.value_count F.FnMut keeps f
            → OnOk result (IsSetOf self.new (intersection (members self.old) keeps)) }
        ensures asked { OnOk result (AsksAll T.rank F.FnMut f self.old) }
        ensures err { OnErr result (self.new ≡ self.old) }
        ensures asked_some { OnErr result (AsksFront T.rank F.FnMut f self.old) }

        // Does not allocate if the set is empty.
        ensures empty { self.old ≡ [] → IsOk result }
    {
        let kept = kept_values(&self.runs, self.alloc, f)?;
        *self = kept;
        Ok(())
    }
}

impl<T: Integer, A: Allocator> RangeSetBlaze<T, A> {
    /// Calls `f` on each run in ascending order, and keeps the runs for which it returns true. `f`
    /// must be callable on each run, one after the other. Does not allocate.
    /// (`RangeSetBlaze::ranges_retain`.)
    pub fn ranges_retain<F: FnMut(&RangeInclusive<T>) -> bool>(&mut self, f: F)
        requires { CallableOnRuns T.rank T.value_count F.FnMut f self.old }
        ensures runs { IsSublist self.new self.old }

        // If the result of `f` depends only on the range, the runs kept are those for which it is
        // true.
        ensures exact { (keeps : Interval → Bool)
            → AnswersByRun T.rank T.value_count F.FnMut keeps f
            → self.new ≡ filter keeps self.old }
        ensures asked { AsksRuns T.rank F.FnMut f self.old }
    {
        let length = self.length;
        self.length = retain_runs(&mut self.runs, f, length);
    }
}

// Keeps the runs for which `f` returns true, and returns the number of their members. `total` is
// the number of members of all runs.
fn retain_runs<T: Integer, A: Allocator, F: FnMut(&RangeInclusive<T>) -> bool>(
    runs: &mut Runs<T, A>,
    f: F,
    total: T::SafeLen,
) -> T::SafeLen
    requires kept { IsKept T.value_count runs.old (T.SafeLen.number total) }
    requires callable { CallableOnRuns T.rank T.value_count F.FnMut f runs.old }
    ensures kept { IsKept T.value_count runs.new (T.SafeLen.number result) }
    ensures runs { IsSublist runs.new runs.old }
    ensures exact { (keeps : Interval → Bool) → AnswersByRun T.rank T.value_count F.FnMut keeps f
        → runs.new ≡ filter keeps runs.old }
    ensures asked { AsksRuns T.rank F.FnMut f runs.old }
{
    let mut f = f;
    let mut length = total;
    let mut next = runs.first();
    while let Some(run) = next {
        if !f(&(run.start..=run.end)) {
            subtract_length(&mut length, run);
            runs.remove(run.start);
        }
        // The contract of a map's own `retain` does not say how a closure leaves the variables
        // that it captures and changes.
        next = runs.after(run.end);
    }
    length
}

// Returns the set of those values of the given runs for which `f` returns true. Calls `f` on each
// value once, in ascending order.
fn kept_values<T: Integer, A: Allocator + Copy, F: FnMut(&T) -> bool>(
    runs: &Runs<T, A>,
    alloc: A,
    f: F,
) -> Result<RangeSetBlaze<T, A>, AllocError>
    requires canonical { IsCanonicalIn T.value_count runs.now }
    requires callable { CallableOnMembers T.rank T.value_count F.FnMut f runs.now }
    ensures within { IfOk result (λ kept. (rank : ℕ) → IsTrue (members kept rank)
        → IsTrue (members runs.now rank)) }
    ensures exact { (keeps : Selection) → AnswersByRank T.rank T.value_count F.FnMut keeps f
        → IfOk result (λ kept. IsSetOf kept (intersection (members runs.now) keeps)) }
    ensures asked { OnOk result (AsksAll T.rank F.FnMut f runs.now) }
    ensures err { OnErr result (AsksFront T.rank F.FnMut f runs.now) }
    ensures empty { runs.now ≡ [] → IsOk result }
{
    let mut f = f;
    let mut kept = RangeSetBlaze::new(alloc);
    let mut piece = None;
    let mut entries = runs.iter();
    let mut left = next_run(&mut entries);
    while let Some(run) = left {
        let value = run.start;
        if f(&value) {
            let grown = grow(&mut kept, piece, value)?;
            piece = Some(grown);
        }
        left = next_left(&mut entries, run);
    }
    put_last(&mut kept, piece)?;
    Ok(kept)
}

// Returns a run without its first value. If it has no other, returns the next run, or `None` at the
// end.
fn next_left<T: Integer>(entries: &mut Iter<'_, T, T>, run: Run<T>) -> Option<Run<T>>
    requires order { T.rank run.start ≤ T.rank run.end }
    requires value { T.rank run.end < T.value_count }
    requires later { IsCanonicalBelow T.value_count (T.rank run.end + 2)
        (runs_of T.rank entries.old) }
    ensures { IsPastFirst T.value_count (run_of T.rank run ∷ runs_of T.rank entries.old)
        (left_runs T.rank result entries.new) (T.rank run.start) }
{
    if run.starts_before(run.end) {
        return Some(Run {
            start: run.start.add_one(),
            end: run.end,
        });
    }
    next_run(entries)
}

// Adds a value to a piece that ends below it, and returns the piece. If the value does not touch
// the piece, inserts the piece into the set and returns the value as a new piece.
fn grow<T: Integer, A: Allocator + Clone>(
    kept: &mut RangeSetBlaze<T, A>,
    piece: Option<Run<T>>,
    value: T,
) -> Result<Run<T>, AllocError>
    requires order { IfSome piece (λ run. T.rank run.start ≤ T.rank run.end) }
    requires later { past_piece T.rank piece ≤ T.rank value }
    requires value { T.rank value < T.value_count }
    ensures order { IfOk result (λ run. T.rank run.start ≤ T.rank run.end) }
    ensures last { IfOk result (λ run. T.rank run.end ≡ T.rank value) }
    ensures added { IfOk result (λ run. (rank : ℕ) → with_piece T.rank kept.new (Some run) rank
        ≡ union (with_piece T.rank kept.old piece) (only (T.rank value)) rank) }
{
    let Some(run) = piece else {
        return Ok(Run::only(value));
    };
    if reaches(run.end, value) {
        return Ok(Run {
            start: run.start,
            end: value,
        });
    }
    kept.insert_run(run)?;
    Ok(Run::only(value))
}

// Inserts the last piece into the set, if there is one.
fn put_last<T: Integer, A: Allocator + Clone>(
    kept: &mut RangeSetBlaze<T, A>,
    piece: Option<Run<T>>,
) -> Result<(), AllocError>
    requires order { IfSome piece (λ run. T.rank run.start ≤ T.rank run.end) }
    requires value { past_piece T.rank piece ≤ T.value_count }
    ensures added { OnOk result (IsSetOf kept.new (with_piece T.rank kept.old piece)) }
    ensures none { piece ≡ None → IsOk result }
{
    if let Some(run) = piece {
        kept.insert_run(run)?;
    }
    Ok(())
}
