//! Runs commands on ten sets and returns their replies.

ghost use Rattle.std.specs.Prelude.{
  ◌≡◌,
  ◌<◌,
  ◌⊎◌,
  [],
  IfErr,
  IfOk,
  IfSome,
  List,
  OnErr,
  OnOk,
  length,
  slice_get,
  slice_index_or,
  take,
  vec_len,
};
ghost use Rattle.rsb_integer.specs.Rank.{intervals_of};
ghost use Rattle.rsb_integer.specs.Runs.{AreRuns, members};
ghost use Rattle.rsb_integer.specs.Selection.{Selection};
ghost use Rattle.range_set_blaze.specs.Set.{IsSetOf};
ghost use Rattle.rsb_commands.specs.Interpreter.{
  AreReplies,
  Content,
  IsPieceReply,
  IsReply,
  IsRunsReply,
  MayTakeMemory,
  content_of,
  contents_of,
  most_of,
  no_members,
  put,
  sets_after,
  sets_of,
};

use range_set_blaze::{MultiwayRangeSetBlazeRef, RangeSetBlaze};
use rsb_command_parser::{Command, SetNo};
use rsb_integer::Integer;
use std::alloc::{AllocError, Allocator, Global};
use std::cmp::Ordering;
use std::ops::RangeInclusive;

/// The reply to a command.
#[derive(Drop)]
#[derive_where(Debug, PartialEq; T, T::SafeLen)]
pub enum Reply<T: Integer, A: Allocator = Global> {
    /// Whether a value was new, was removed, or is a member.
    Flag(bool),
    /// The first and last value of a run (`present` is true) or of a gap (`present` is false).
    Piece { first: T, last: T, present: bool },
    /// The number of values in the set.
    Count(T::SafeLen),
    /// The runs of the set, ascending.
    Ranges(Vec<RangeInclusive<T>, A>),
    /// The number of runs of the set that was made.
    Runs(usize),
    /// The order of two sets.
    Order(Ordering),
}

/// What is left when an allocation fails while commands run.
#[derive(Drop)]
#[derive_where(Debug, PartialEq; T, T::SafeLen)]
pub struct Stopped<T: Integer, A: Allocator = Global> {
    /// The replies to the commands before the one that failed.
    pub replies: Vec<Reply<T, A>, A>,
    /// The place of that command, from 0. It is also 0 if an allocation failed before the first
    /// command.
    pub at: usize,
}

/// Runs the commands in order on ten sets, which are empty at first, and returns the replies. It
/// first allocates room for all replies, and does not allocate if there are no commands. If an
/// allocation fails, `Stopped` keeps the replies to the commands before the one that failed.
pub fn run_commands<T: Integer, A: Allocator + Copy>(
    alloc: A,
    commands: &[Command<T>],
) -> Result<Vec<Reply<T, A>, A>, Stopped<T, A>>
    ensures replies { IfOk result (λ replies. AreReplies T.rank T.value_count
        commands.now (contents_of T.SafeLen.number replies.items)) }
    ensures only { IfOk result (λ replies. (others : List (Content T))
        → AreReplies T.rank T.value_count commands.now others
        → others ≡ contents_of T.SafeLen.number replies.items) }

    // An allocation failed in the command `at`, or, if `at` is 0, perhaps before it.
    ensures stopped { IfErr result (λ stopped. AreReplies T.rank T.value_count
        (take stopped.at commands.now) (contents_of T.SafeLen.number stopped.replies.items)) }
    ensures at { IfErr result (λ stopped. stopped.at < length commands.now) }
    ensures took_memory { IfErr result (λ stopped. (stopped.at ≡ 0)
        ⊎ IfSome (slice_get commands.now stopped.at) MayTakeMemory) }
{
    if commands.is_empty() {
        return Ok(Vec::new(alloc));
    }
    let Ok(mut replies) = Vec::with_capacity(alloc, commands.len()) else {
        return Err(Stopped {
            replies: Vec::new(alloc),
            at: 0,
        });
    };
    let Ok(mut sets) = empty_sets(alloc) else {
        return Err(Stopped { replies, at: 0 });
    };
    for (at, command) in commands.iter().enumerate() {
        let Ok(reply) = run_command(alloc, &mut sets, command) else {
            return Err(Stopped { replies, at });
        };
        replies.push(reply).unwrap();
    }
    Ok(replies)
}

/// Returns ten empty sets.
pub(crate) fn empty_sets<T: Integer, A: Allocator + Copy>(
    alloc: A,
) -> Result<Vec<RangeSetBlaze<T, A>, A>, AllocError>
    ensures ten { IfOk result (λ sets. vec_len sets ≡ 10) }
    ensures empty { IfOk result (λ sets. sets_of sets.items ≡ no_members) }
{
    let mut sets = Vec::with_capacity(alloc, 10)?;
    for _ in 0..10u8 {
        sets.push(RangeSetBlaze::new(alloc))?;
    }
    Ok(sets)
}

/// Runs one command on the ten sets and returns its reply.
pub(crate) fn run_command<T: Integer, A: Allocator + Copy>(
    alloc: A,
    sets: &mut Vec<RangeSetBlaze<T, A>, A>,
    command: &Command<T>,
) -> Result<Reply<T, A>, AllocError>
    requires { vec_len sets.old ≡ 10 }
    ensures ten { OnOk result (vec_len sets.new ≡ 10) }
    ensures after { OnOk result (sets_of sets.new.items
        ≡ sets_after T.rank T.value_count (sets_of sets.old.items) command.now) }
    ensures reply { IfOk result (λ reply. IsReply T.rank T.value_count
        (sets_of sets.old.items) command.now (content_of T.SafeLen.number reply)) }
    ensures took_memory { OnErr result (MayTakeMemory command.now) }
{
    match command {
        Command::Add { slot, first, last } => {
            let set = &mut sets[slot.index()];
            Ok(Reply::Flag(set.ranges_insert(*first..=*last)?))
        }
        Command::Del { slot, value } => {
            let set = &mut sets[slot.index()];
            Ok(Reply::Flag(set.remove(*value)?))
        }
        Command::Has { slot, value } => Ok(Reply::Flag(set_at(sets, *slot).contains(*value))),
        Command::Gap { slot, value } => Ok(piece_at(set_at(sets, *slot), *value)),
        Command::Count { slot } => Ok(Reply::Count(set_at(sets, *slot).len())),
        Command::Show { slot } => Ok(Reply::Ranges(ranges_of(alloc, set_at(sets, *slot))?)),
        Command::Union {
            target,
            left,
            right,
        } => {
            let set = set_at(sets, *left).bitor(set_at(sets, *right))?;
            Ok(put_set(sets, *target, set))
        }
        Command::Intersection {
            target,
            left,
            right,
        } => {
            let set = set_at(sets, *left).bitand(set_at(sets, *right))?;
            Ok(put_set(sets, *target, set))
        }
        Command::Difference {
            target,
            left,
            right,
        } => {
            let set = set_at(sets, *left).sub(set_at(sets, *right))?;
            Ok(put_set(sets, *target, set))
        }
        Command::SymmetricDifference {
            target,
            left,
            right,
        } => {
            let set = set_at(sets, *left).bitxor(set_at(sets, *right))?;
            Ok(put_set(sets, *target, set))
        }
        Command::Complement { target, source } => {
            let set = set_at(sets, *source).not()?;
            Ok(put_set(sets, *target, set))
        }
        Command::Most { target, a, b, c } => {
            let set = most_of(alloc, sets, *a, *b, *c)?;
            Ok(put_set(sets, *target, set))
        }
        Command::Compare { left, right } => {
            let order = set_at(sets, *left).cmp(set_at(sets, *right));
            Ok(Reply::Order(order))
        }
    }
}

// Returns the set in a slot.
fn set_at<T: Integer, A: Allocator>(
    sets: &Vec<RangeSetBlaze<T, A>, A>,
    slot: SetNo,
) -> &RangeSetBlaze<T, A>
    requires { vec_len sets.now ≡ 10 }
    ensures { result.now ≡ slice_index_or sets.now.items slot [] }
{
    &sets[slot.index()]
}

// Returns the values in at least two of the sets in three slots. A set that is named twice counts
// twice.
fn most_of<T: Integer, A: Allocator + Copy>(
    alloc: A,
    sets: &Vec<RangeSetBlaze<T, A>, A>,
    a: SetNo,
    b: SetNo,
    c: SetNo,
) -> Result<RangeSetBlaze<T, A>, AllocError>
    requires { vec_len sets.now ≡ 10 }
    ensures { IfOk result (λ set. IsSetOf set (most_of (sets_of sets.now.items a)
        (sets_of sets.now.items b) (sets_of sets.now.items c))) }
{
    let three = [set_at(sets, a), set_at(sets, b), set_at(sets, c)];
    MultiwayRangeSetBlazeRef::at_least(three, alloc, 2)
}

// Puts a set in a slot, and returns the reply with the number of its runs.
fn put_set<T: Integer, A: Allocator>(
    sets: &mut Vec<RangeSetBlaze<T, A>, A>,
    slot: SetNo,
    set: RangeSetBlaze<T, A>,
) -> Reply<T, A>
    requires { vec_len sets.old ≡ 10 }
    ensures ten { vec_len sets.new ≡ 10 }
    ensures put { (selected : Selection) → IsSetOf set selected
        → sets_of sets.new.items ≡ put (sets_of sets.old.items) slot selected }
    ensures runs { (selected : Selection) → IsSetOf set selected
        → IsRunsReply T.rank T.value_count selected (content_of T.SafeLen.number result) }
{
    let runs = set.ranges_len();
    sets[slot.index()] = set;
    Reply::Runs(runs)
}

// Returns the reply with the run or the gap that a value lies in.
fn piece_at<T: Integer, A: Allocator>(set: &RangeSetBlaze<T, A>, value: T) -> Reply<T, A>
    ensures { IsPieceReply T.rank T.value_count (members set.now) (T.rank value)
        (content_of T.SafeLen.number result) }
{
    let (range, present) = set.range_or_gap_at(value);
    let (first, last) = range.into_inner();
    Reply::Piece {
        first,
        last,
        present,
    }
}

// Returns the runs of a set in a list.
fn ranges_of<T: Integer, A: Allocator>(
    alloc: A,
    set: &RangeSetBlaze<T, A>,
) -> Result<Vec<RangeInclusive<T>, A>, AllocError>
    ensures { IfOk result (λ ranges. AreRuns T.value_count (members set.now)
        (intervals_of T.rank ranges.items)) }
{
    set.ranges().collect(alloc)
}
