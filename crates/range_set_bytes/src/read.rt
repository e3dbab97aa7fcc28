//! Reads a set from bytes.

ghost use Rattle.std.specs.declared.alloc.AllocError.{AllocError as Refused};
ghost use Rattle.std.specs.Prelude.{
  ◌≡◌,
  ◌≢◌,
  ℕ,
  ◌+◌,
  ◌++◌,
  ◌<◌,
  ◌≤◌,
  ◌^◌,
  List,
  [],
  ◌∷◌,
  IfErr,
  IfOk,
  IsOk,
  Some,
  None,
  length,
};
ghost use Rattle.rsb_integer.specs.Rank.{intervals_of};
ghost use Rattle.rsb_integer.specs.Runs.{from_to, Interval, IsCanonicalIn};
ghost use Rattle.range_set_bytes.specs.Fault.{HasReason, IsFault};
ghost use Rattle.range_set_bytes.specs.Format.{bytes_of, header, IsWritable};
ghost use Rattle.range_set_bytes.specs.Leb128.{leb128};
ghost use Rattle.range_set_bytes.specs.declared.fault.Fault.{Fault as TheFault};
ghost use Rattle.range_set_bytes.specs.declared.fault.ReadError.TheVariants.{Invalid, NoMemory};
ghost use Rattle.range_set_bytes.specs.Reading.{
  BeginsWithRun,
  ExpectsNumber,
  ExpectsRuns,
  HasRun,
  IsExpected,
  least_gap as least_gap_of,
  reason_of,
};

use crate::fault::{Fault, ReadError, Reason};
use crate::numbers::{BadNumber, Wrong, read_number};
use crate::ranked_integer::RankedInteger;
use crate::write::{header_of, rank_after};
use range_set_blaze::{CheckSortedDisjoint, RangeSetBlaze};
use rsb_integer::Integer;
use std::alloc::{AllocError, Allocator};
use std::ops::RangeInclusive;

/// Returns the set whose bytes these are (`docs/FORMAT.md`). `to_bytes` writes them.
///
/// Returns `Invalid` with the position of the first wrong byte, and the reason, if they are not the
/// bytes of a set of this type. Returns `NoMemory` if an allocation fails. Memory is allocated only
/// for runs that were read, so bytes with no whole run need none, whatever count they announce.
pub fn from_bytes<T: RankedInteger, A: Allocator + Copy>(
    alloc: A,
    bytes: &[u8],
) -> Result<RangeSetBlaze<T, A>, ReadError>
    ensures read { IfOk result (λ set. bytes.now ≡ bytes_of T.value_count set) }
    ensures only { (runs : List Interval) → IsWritable T.value_count runs
        → bytes.now ≡ bytes_of T.value_count runs → IfOk result (λ set. set ≡ runs) }
    ensures fault { (fault : TheFault) → result ≡ Err (Invalid fault)
        → IsFault T.value_count bytes.now fault }
    ensures taken { (runs : List Interval) (fault : TheFault) → IsWritable T.value_count runs
        → bytes.now ≡ bytes_of T.value_count runs → result ≢ Err (Invalid fault) }

    // No memory is allocated before a run was read.
    ensures spared { (error : Refused) → result ≡ Err (NoMemory error)
        → HasRun T.value_count bytes.now }
{
    let read = read_set(alloc, bytes);
    read
}

// Reads the header, the count and the runs, and makes the set.
fn read_set<T: RankedInteger, A: Allocator + Copy>(
    alloc: A,
    bytes: &[u8],
) -> Result<RangeSetBlaze<T, A>, ReadError>
    ensures read { IfOk result (λ set. bytes.now ≡ bytes_of T.value_count set) }
    ensures writable { IfOk result (λ set. IsWritable T.value_count set) }
    ensures fault { (fault : TheFault) → result ≡ Err (Invalid fault)
        → IsFault T.value_count bytes.now fault }
    ensures spared { (error : Refused) → result ≡ Err (NoMemory error)
        → HasRun T.value_count bytes.now }
{
    let greatest = T::max_value().to_rank();
    let rest = after_header::<T>(bytes)?;
    let most = (greatest / 2 + 1).min(u128::from(u64::MAX));
    let (count, left) = next_number::<T>(bytes, rest, 0, most)?;
    let ranges = read_runs(alloc, bytes, left, count as u64, greatest)?;
    let set = set_of(alloc, ranges)?;
    Ok(set)
}

// Returns the ranges of the runs that are to come, which are all that is left.
fn read_runs<T: RankedInteger, A: Allocator>(
    alloc: A,
    bytes: &[u8],
    rest: &[u8],
    count: u64,
    greatest: u128,
) -> Result<Vec<RangeInclusive<T>, A>, ReadError>
    requires greatest { greatest + 1 ≡ T.value_count }
    requires expected { ExpectsRuns T.value_count bytes.now rest.now [] None count }
    ensures read { IfOk result (λ ranges.
        bytes.now ≡ bytes_of T.value_count (intervals_of T.rank ranges.items)) }
    ensures writable { IfOk result (λ ranges.
        IsWritable T.value_count (intervals_of T.rank ranges.items)) }
    ensures fault { (fault : TheFault) → result ≡ Err (Invalid fault)
        → IsFault T.value_count bytes.now fault }
    ensures spared { (error : Refused) → result ≡ Err (NoMemory error) → BeginsWithRun rest.now }
    ensures some { IfOk result (λ ranges. ranges.items ≢ [] → BeginsWithRun rest.now) }
{
    let mut ranges = Vec::new(alloc);
    let mut left = rest;
    let mut previous = None;
    for index in 0..count {
        let run = next_run::<T>(bytes, left, previous, count - 1 - index, greatest)?;
        ranges.push(T::from_rank(run.first)..=T::from_rank(run.last))?;
        left = run.rest;
        previous = Some(run.last);
    }
    if !left.is_empty() {
        return Err(ReadError::Invalid(Fault {
            place: bytes.len() - left.len(),
            reason: Reason::TooLong,
        }));
    }
    Ok(ranges)
}

// A run, and the bytes after it.
#[derive(Clone, Copy)]
struct ReadRun<'a> {
    first: u128,
    last: u128,
    rest: &'a [u8],
}

// Returns the next run, before `after` others, and the bytes after it. The run before it ends at
// `previous`.
fn next_run<'a, T: RankedInteger>(
    bytes: &'a [u8],
    rest: &'a [u8],
    previous: Option<u128>,
    after: u64,
    greatest: u128,
) -> Result<ReadRun<'a>, Fault>
    requires greatest { greatest + 1 ≡ T.value_count }
    requires expected { IsExpected T.value_count bytes.now rest.now previous (after + 1) }
    ensures ordered { IfOk result (λ run. (run.first ≤ run.last) × (run.last ≤ greatest)) }
    ensures others { IfOk result (λ run. (runs : List Interval)
        → ExpectsRuns T.value_count bytes.now rest.now runs previous (after + 1)
        → ExpectsRuns T.value_count bytes.now run.rest.now
        (runs ++ (from_to run.first run.last ∷ [])) (Some run.last) after) }
    ensures begins { IfOk result (λ run. BeginsWithRun rest.now) }
    ensures fault { IfErr result (IsFault T.value_count bytes.now) }
{
    let reach = greatest - 2 * u128::from(after);
    let from = rank_after(previous);
    let (gap, middle) = next_number::<T>(bytes, rest, least_gap(previous), reach - from)?;
    let first = from + gap;
    let (more, rest) = next_number::<T>(bytes, middle, 0, reach - first)?;
    Ok(ReadRun {
        first,
        last: first + more,
        rest,
    })
}

/// Returns the least gap of a run, from the last rank of the run before it.
pub fn least_gap(previous: Option<u128>) -> u128
    ensures { result ≡ least_gap_of previous }
{
    if previous.is_some() { 1 } else { 0 }
}

// Returns the set of these runs. Does not allocate if there are none.
fn set_of<T: Integer, A: Allocator + Copy>(
    alloc: A,
    ranges: Vec<RangeInclusive<T>, A>,
) -> Result<RangeSetBlaze<T, A>, AllocError>
    requires { IsCanonicalIn T.value_count (intervals_of T.rank ranges.items) }
    ensures set { IfOk result (λ set. set ≡ intervals_of T.rank ranges.items) }
    ensures spared { ranges.items ≡ [] → IsOk result }
{
    if ranges.is_empty() {
        return Ok(RangeSetBlaze::new(alloc));
    }
    let Ok(stream) = CheckSortedDisjoint::try_new(ranges) else {
        unreachable!()
    };
    let set = RangeSetBlaze::from_sorted_disjoint(alloc, stream)?;
    Ok(set)
}

// Returns the bytes after the header, or the first byte that differs from it.
fn after_header<T: RankedInteger>(bytes: &[u8]) -> Result<&[u8], Fault>
    ensures read { IfOk result (λ rest. bytes.now ≡ header T.value_count ++ rest.now) }
    ensures fault { IfErr result (IsFault T.value_count bytes.now) }
{
    let header = header_of::<T>();
    for (place, expected) in header.iter().enumerate() {
        let Some(byte) = bytes.get(place) else {
            return Err(Fault {
                place,
                reason: Reason::CutShort,
            });
        };
        if *byte != *expected {
            return Err(Fault {
                place,
                reason: header_reason(place),
            });
        }
    }
    Ok(&bytes[header.len()..])
}

/// Returns the reason if the byte at this place of the header is wrong.
pub fn header_reason(place: usize) -> Reason
    requires { place < 6 }
    ensures { (n : ℕ) (bytes : List ℕ) → place < length bytes → HasReason n bytes result place }
{
    match place {
        4 => Reason::OtherVersion,
        5 => Reason::OtherWidth,
        _ => Reason::NotMagic,
    }
}

// Returns the number that comes next, from `least` to `most`, and the bytes after it.
fn next_number<'a, T: RankedInteger>(
    bytes: &'a [u8],
    rest: &'a [u8],
    least: u128,
    most: u128,
) -> Result<(u128, &'a [u8]), Fault>
    requires low { least ≤ 1 }
    requires some { least ≤ most }
    requires expected { ExpectsNumber T.value_count bytes.now rest.now least most }
    ensures value { IfOk result (λ read. (least ≤ read.0) × (read.0 ≤ most)) }
    ensures read { IfOk result (λ read. rest.now ≡ leb128 read.0 ++ read.1.now) }
    ensures fault { IfErr result (IsFault T.value_count bytes.now) }
{
    match read_number(rest, least, most) {
        Ok(read) => Ok(read),
        Err(bad) => Err(fault_at(bytes.len() - rest.len(), bad)),
    }
}

/// Returns what is wrong with a number that starts at a place.
pub fn fault_at(start: usize, bad: BadNumber) -> Fault
    requires { start + bad.taken < 2 ^ 64 }
    ensures place { result.place ≡ start + bad.taken }
    ensures reason { result.reason ≡ reason_of bad.wrong bad.taken }
{
    Fault {
        place: start + bad.taken,
        reason: match bad.wrong {
            Wrong::Ended => Reason::CutShort,
            Wrong::Large => Reason::PastGreatest,
            Wrong::Zero => if bad.taken == 0 {
                Reason::Touching
            } else {
                Reason::NotShortest
            },
        },
    }
}
