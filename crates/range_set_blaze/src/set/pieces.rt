//! The set of those values that are in both of two sets, or in exactly one of them. One pass over
//! the two sets takes them apart into pieces: ranges that lie wholly in each set, or wholly outside
//! it (docs/DECISIONS.md, pieces-of-two).

ghost use Rattle.std.specs.Prelude.{
  ◌≡◌,
  ◌+◌,
  ◌-◌,
  ◌<◌,
  ◌≤◌,
  ◌||◌,
  ◌&&◌,
  ℕ,
  [],
  ◌∷◌,
  ◌++◌,
  min,
  true,
  IfOk,
  MatchOption,
  OnOk,
};
ghost use Rattle.rsb_integer.specs.Runs.{covers, from_to, length_of, members, HasRanks};
ghost use Rattle.rsb_storage.specs.Storage.{run_of, runs_of, IsKept};
ghost use Rattle.range_set_blaze.specs.Pieces.{
  gathered_runs,
  is_kept,
  IsGathered,
  IsKeptOf,
  IsPassed,
  IsPiece,
};
ghost use Rattle.range_set_blaze.specs.Retain.{left_runs, past_piece, IsCanonicalBelow};

use crate::set::RangeSetBlaze;
use num_traits::Zero;
use rsb_integer::Integer;
use rsb_storage::entries::next_run;
use rsb_storage::lengths::add_length;
use rsb_storage::run::{Run, is_below, reaches};
use rsb_storage::runs::Runs;
use std::alloc::{AllocError, Allocator};
use std::collections::btree_map::Iter;

/// Returns the set of the values that are in both sets, if `common`, or otherwise of those that are
/// in exactly one of them. If allocation fails, no set is made.
pub(super) fn kept_of<T: Integer, A: Allocator + Copy, L: Allocator, R: Allocator>(
    alloc: A,
    left: &RangeSetBlaze<T, L>,
    right: &RangeSetBlaze<T, R>,
    common: bool,
) -> Result<RangeSetBlaze<T, A>, AllocError>
    ensures { IfOk result (IsKeptOf T.value_count common left.now right.now) }
{
    let mut lefts = Cursor::over(&left.runs);
    let mut rights = Cursor::over(&right.runs);
    let mut gathered = Gathered::none(alloc);
    while let Some(piece) = next_piece(&mut lefts, &mut rights) {
        let kept = keeps(common, piece.in_left, piece.in_right);
        gathered.put_if(kept, piece.run)?;
    }
    gathered.finish(alloc)
}

// A range that lies wholly in each of two sets, or wholly outside it.
#[derive(Clone, Copy)]
struct Piece<T> {
    run: Run<T>,
    in_left: bool,
    in_right: bool,
}

// Returns whether an operation keeps the values of a piece.
fn keeps(common: bool, in_left: bool, in_right: bool) -> bool
    ensures { result ≡ is_kept common in_left in_right }
{
    if common {
        in_left && in_right
    } else {
        in_left != in_right
    }
}

// The runs of a set from some value on.
#[derive(Drop)]
struct Cursor<'a, T> {
    // The first run. It may lack values at its start that the run of the set has.
    head: Option<Run<T>>,
    rest: Iter<'a, T, T>,
}

impl<'a, T: Integer> Cursor<'a, T> {
    // Returns all runs of a set.
    fn over<A: Allocator>(runs: &'a Runs<T, A>) -> Self
        ensures { left_runs T.rank result.head result.rest ≡ runs.now }
    {
        let mut rest = runs.iter();
        let head = next_run(&mut rest);
        Cursor { head, rest }
    }

    // Passes the values of the first run up to one of them. The first run is `head`.
    fn pass(&mut self, head: Run<T>, end: T)
        requires canonical { IsCanonicalBelow T.value_count (T.rank head.start)
            (run_of T.rank head ∷ runs_of T.rank self.old.rest) }
        requires start { T.rank head.start ≤ T.rank end }
        requires end { T.rank end ≤ T.rank head.end }
        ensures { IsPassed T.value_count (run_of T.rank head ∷ runs_of T.rank self.old.rest)
            (from_to (T.rank head.start) (T.rank end)) true
            (left_runs T.rank self.new.head self.new.rest) }
    {
        if is_below(end, head.end) {
            self.head = Some(Run {
                start: end.add_one(),
                end: head.end,
            });
            return;
        }
        self.head = next_run(&mut self.rest);
    }
}

// Passes and returns the next piece of two sets, or returns `None` if no value is left.
fn next_piece<T: Integer>(lefts: &mut Cursor<'_, T>, rights: &mut Cursor<'_, T>) -> Option<Piece<T>>
    requires left { IsCanonicalBelow T.value_count 0
        (left_runs T.rank lefts.old.head lefts.old.rest) }
    requires right { IsCanonicalBelow T.value_count 0
        (left_runs T.rank rights.old.head rights.old.rest) }
    ensures { MatchOption result
        ((left_runs T.rank lefts.old.head lefts.old.rest ≡ [])
        × (left_runs T.rank rights.old.head rights.old.rest ≡ []))
        (λ piece. IsPiece T.value_count (left_runs T.rank lefts.old.head lefts.old.rest)
        (left_runs T.rank rights.old.head rights.old.rest) (run_of T.rank piece.run)
        piece.in_left piece.in_right (left_runs T.rank lefts.new.head lefts.new.rest)
        (left_runs T.rank rights.new.head rights.new.rest)) }
{
    let Some(run) = lefts.head else {
        let other = rights.head?;
        rights.pass(other, other.end);
        return Some(Piece {
            run: other,
            in_left: false,
            in_right: true,
        });
    };
    let Some(other) = rights.head else {
        lefts.pass(run, run.end);
        return Some(Piece {
            run,
            in_left: true,
            in_right: false,
        });
    };
    if is_below(run.start, other.start) {
        let end = end_before(run.end, other.start);
        lefts.pass(run, end);
        return Some(Piece {
            run: Run {
                start: run.start,
                end,
            },
            in_left: true,
            in_right: false,
        });
    }
    if is_below(other.start, run.start) {
        let end = end_before(other.end, run.start);
        rights.pass(other, end);
        return Some(Piece {
            run: Run {
                start: other.start,
                end,
            },
            in_left: false,
            in_right: true,
        });
    }
    let end = lesser(run.end, other.end);
    lefts.pass(run, end);
    rights.pass(other, end);
    Some(Piece {
        run: Run {
            start: run.start,
            end,
        },
        in_left: true,
        in_right: true,
    })
}

// Returns the lesser of two values.
fn lesser<T: Integer>(left: T, right: T) -> T
    requires left { T.rank left < T.value_count }
    requires right { T.rank right < T.value_count }
    ensures { T.rank result ≡ min (T.rank left) (T.rank right) }
{
    if is_below(left, right) { left } else { right }
}

// Returns an end, or the value before a start, whichever is less.
fn end_before<T: Integer>(end: T, start: T) -> T
    requires end { T.rank end < T.value_count }
    requires start { T.rank start < T.value_count }
    requires some { 0 < T.rank start }
    ensures { T.rank result ≡ min (T.rank end) (T.rank start - 1) }
{
    if is_below(end, start) {
        end
    } else {
        start.sub_one()
    }
}

// Runs in ascending order, as entries, and the number of their values. The last run is held back,
// since the next range may touch it.
#[derive(Drop)]
struct Gathered<T: Integer, A: Allocator> {
    entries: Vec<(T, T), A>,
    length: T::SafeLen,
    held: Option<Run<T>>,
}

impl<T: Integer, A: Allocator + Copy> Gathered<T, A> {
    // Returns no runs. Does not allocate.
    fn none(alloc: A) -> Self
        ensures kept { IsGathered T.rank T.value_count result.entries.items
            (T.SafeLen.number result.length) result.held }
        ensures none { gathered_runs T.rank result.entries.items result.held ≡ [] }
        ensures past { past_piece T.rank result.held ≡ 0 }
    {
        Gathered {
            entries: Vec::new(alloc),
            length: T::SafeLen::zero(),
            held: None,
        }
    }

    // Adds a range past all runs, if it is kept.
    fn put_if(&mut self, kept: bool, run: Run<T>) -> Result<(), AllocError>
        requires kept { IsGathered T.rank T.value_count self.old.entries.items
            (T.SafeLen.number self.old.length) self.old.held }
        requires order { T.rank run.start ≤ T.rank run.end }
        requires value { T.rank run.end < T.value_count }
        requires later { past_piece T.rank self.old.held ≤ T.rank run.start }
        ensures kept { OnOk result (IsGathered T.rank T.value_count self.new.entries.items
            (T.SafeLen.number self.new.length) self.new.held) }
        ensures last { OnOk result (past_piece T.rank self.new.held ≤ T.rank run.end + 1) }
        ensures added { OnOk result ((rank : ℕ)
            → members (gathered_runs T.rank self.new.entries.items self.new.held) rank
            ≡ (members (gathered_runs T.rank self.old.entries.items self.old.held) rank
            || (kept && covers (run_of T.rank run) rank))) }
    {
        if !kept {
            return Ok(());
        }
        self.put(run)
    }

    // Adds a range past all runs.
    fn put(&mut self, run: Run<T>) -> Result<(), AllocError>
        requires kept { IsGathered T.rank T.value_count self.old.entries.items
            (T.SafeLen.number self.old.length) self.old.held }
        requires order { T.rank run.start ≤ T.rank run.end }
        requires value { T.rank run.end < T.value_count }
        requires later { past_piece T.rank self.old.held ≤ T.rank run.start }
        ensures kept { OnOk result (IsGathered T.rank T.value_count self.new.entries.items
            (T.SafeLen.number self.new.length) self.new.held) }
        ensures last { OnOk result (past_piece T.rank self.new.held ≡ T.rank run.end + 1) }
        ensures added { OnOk result ((rank : ℕ)
            → members (gathered_runs T.rank self.new.entries.items self.new.held) rank
            ≡ (members (gathered_runs T.rank self.old.entries.items self.old.held) rank
            || covers (run_of T.rank run) rank)) }
    {
        let Some(held) = self.held else {
            self.held = Some(run);
            return Ok(());
        };
        if reaches(held.end, run.start) {
            self.held = Some(Run {
                start: held.start,
                end: run.end,
            });
            return Ok(());
        }
        self.push(held)?;
        self.held = Some(run);
        Ok(())
    }

    // Adds a run to the entries.
    fn push(&mut self, run: Run<T>) -> Result<(), AllocError>
        requires some { HasRanks (run_of T.rank run) }
        requires fits { T.SafeLen.number self.old.length + length_of (run_of T.rank run)
            ≤ T.value_count }
        ensures entries { OnOk result (self.new.entries.items
            ≡ self.old.entries.items ++ (run.start, run.end) ∷ []) }
        ensures length { OnOk result (T.SafeLen.number self.new.length
            ≡ T.SafeLen.number self.old.length + length_of (run_of T.rank run)) }
        ensures held { OnOk result (self.new.held ≡ self.old.held) }
    {
        add_length(&mut self.length, run);
        self.entries.push((run.start, run.end))?;
        Ok(())
    }

    // Returns the set of the runs. If allocation fails, no set is made.
    fn finish(self, alloc: A) -> Result<RangeSetBlaze<T, A>, AllocError>
        requires { IsGathered T.rank T.value_count self.entries.items (T.SafeLen.number self.length)
            self.held }
        ensures { IfOk result (λ set. set ≡ gathered_runs T.rank self.entries.items self.held) }
    {
        let Gathered {
            entries,
            length,
            held,
        } = self;
        let (entries, length) = with_last(entries, length, held)?;
        let runs = Runs::from_entries(alloc, entries)?;
        Ok(RangeSetBlaze {
            runs,
            length,
            alloc,
        })
    }
}

// Adds the run that is held, if there is one, to the entries and to the number of their values.
fn with_last<T: Integer, A: Allocator>(
    entries: Vec<(T, T), A>,
    length: T::SafeLen,
    held: Option<Run<T>>,
) -> Result<(Vec<(T, T), A>, T::SafeLen), AllocError>
    requires { IsGathered T.rank T.value_count entries.items (T.SafeLen.number length) held }
    ensures runs { IfOk result (λ all. runs_of T.rank all.0.items
        ≡ gathered_runs T.rank entries.items held) }
    ensures kept { IfOk result (λ all. IsKept T.value_count (runs_of T.rank all.0.items)
        (T.SafeLen.number all.1)) }
{
    let Some(run) = held else {
        return Ok((entries, length));
    };
    let mut entries = entries;
    let mut length = length;
    add_length(&mut length, run);
    entries.push((run.start, run.end))?;
    Ok((entries, length))
}
