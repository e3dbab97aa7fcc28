//! Reads a set from a stream.

ghost use Rattle.std.specs.declared.alloc.AllocError.{AllocError as Refused};
ghost use Rattle.std.specs.Io.KnownBytes.{Consumes};
ghost use Rattle.std.specs.Prelude.{
  ◌≡◌,
  ◌≢◌,
  ℕ,
  ◌+◌,
  ◌*◌,
  ◌++◌,
  ◌<◌,
  ◌≤◌,
  List,
  [],
  ◌∷◌,
  Err,
  IfOk,
  None,
  OnErr,
  OnOk,
  Some,
  length,
};
ghost use Rattle.rsb_integer.specs.Runs.{from_to, Interval, IsCanonicalIn};
ghost use Rattle.range_set_bytes.specs.Format.{bytes_of, header, IsWritable};
ghost use Rattle.range_set_bytes.specs.Leb128.{leb128};
ghost use Rattle.range_set_bytes.specs.Reading.{
  BeginsWithRun,
  HasRun,
  from_of,
  least_gap as least_gap_of,
};
ghost use Rattle.range_set_bytes.specs.declared.fault.Fault.{Fault as TheFault};
ghost use Rattle.range_set_byte_streams.specs.Source.{
  HasCount,
  HasNumber,
  IsPast,
  ReadsNumber,
  ReadsRuns,
  StopsAt,
};
ghost use Rattle.range_set_byte_streams.specs.declared.stream_error.StreamError.TheVariants.{
  Invalid,
  NoMemory,
};

use crate::numbers::read_number;
use crate::source::peek;
use crate::stream_error::StreamError;
use range_set_blaze::RangeSetBlaze;
use range_set_bytes::read::{header_reason, least_gap};
use range_set_bytes::write::{header_of, rank_after};
use range_set_bytes::{Fault, RankedInteger, Reason};
use std::alloc::{AllocError, Allocator};
use std::io::BufRead;

/// Reads the bytes of a set (`docs/FORMAT.md`) and returns the set. `write_to` writes these bytes.
/// It consumes exactly these, so another set may follow. Each run is inserted when it was read, so
/// memory holds only the set and the buffer of the reader.
///
/// Returns `Invalid` with the position of the first wrong byte, and the reason, if the bytes are
/// not those of a set of this type. Then the reader is at that byte. Returns `NoMemory` if an
/// allocation fails, and `Io` if a read does. Then the reader is past the bytes that were read,
/// and these are lost. A read that was interrupted is made again. Memory is allocated only for runs
/// that were read, whatever count is announced.
pub fn read_from<T: RankedInteger, A: Allocator + Copy, R: BufRead>(
    alloc: A,
    input: &mut R,
) -> Result<RangeSetBlaze<T, A>, StreamError>
    ensures read { IfOk result (λ set. Consumes (R.remaining input.old) (R.remaining input.new)
        (bytes_of T.value_count set)) }
    ensures only { (runs : List Interval) (more : List ℕ) → IsWritable T.value_count runs
        → R.remaining input.old ≡ Some (bytes_of T.value_count runs ++ more)
        → IfOk result (λ set. set ≡ runs) }
    ensures fault { (bytes : List ℕ) (fault : TheFault) → R.remaining input.old ≡ Some bytes
        → result ≡ Err (Invalid fault)
        → StopsAt bytes (R.remaining input.new) T.value_count fault }
    ensures taken { (runs : List Interval) (more : List ℕ) (fault : TheFault)
        → IsWritable T.value_count runs
        → R.remaining input.old ≡ Some (bytes_of T.value_count runs ++ more)
        → result ≢ Err (Invalid fault) }

    // No memory is allocated before a run was read.
    ensures spared { (bytes : List ℕ) (error : Refused) → R.remaining input.old ≡ Some bytes
        → result ≡ Err (NoMemory error) → HasRun T.value_count bytes }

    // After any error, the reader is past the first of the bytes.
    ensures past { (bytes : List ℕ) → R.remaining input.old ≡ Some bytes
        → OnErr result (IsPast bytes (R.remaining input.new)) }
{
    let read = read_set(alloc, input);
    read
}

// Reads the header, the count and the runs.
fn read_set<T: RankedInteger, A: Allocator + Copy, R: BufRead>(
    alloc: A,
    input: &mut R,
) -> Result<RangeSetBlaze<T, A>, StreamError>
    ensures read { (bytes : List ℕ) → R.remaining input.old ≡ Some bytes → IfOk result (λ set.
        Consumes (Some bytes) (R.remaining input.new) (bytes_of T.value_count set)) }
    ensures writable { (bytes : List ℕ) → R.remaining input.old ≡ Some bytes
        → IfOk result (IsWritable T.value_count) }
    ensures fault { (bytes : List ℕ) (fault : TheFault) → R.remaining input.old ≡ Some bytes
        → result ≡ Err (Invalid fault)
        → StopsAt bytes (R.remaining input.new) T.value_count fault }
    ensures spared { (bytes : List ℕ) (error : Refused) → R.remaining input.old ≡ Some bytes
        → result ≡ Err (NoMemory error) → HasRun T.value_count bytes }
    ensures past { (bytes : List ℕ) → R.remaining input.old ≡ Some bytes
        → OnErr result (IsPast bytes (R.remaining input.new)) }
{
    let greatest = T::max_value().to_rank();
    let (count, place) = read_count::<T, R>(input, greatest)?;
    let set = read_runs(alloc, input, place, count, greatest)?;
    Ok(set)
}

// Reads the header and the count of runs, and returns the count and the position after it.
fn read_count<T: RankedInteger, R: BufRead>(
    input: &mut R,
    greatest: u128,
) -> Result<(u64, usize), StreamError>
    requires greatest { greatest + 1 ≡ T.value_count }
    ensures room { IfOk result (λ read. 0 < read.0 → 2 * read.0 ≤ greatest + 2) }
    ensures read { (bytes : List ℕ) → R.remaining input.old ≡ Some bytes → IfOk result (λ read.
        HasCount bytes (R.remaining input.new) T.value_count read.1 read.0) }
    ensures fault { (bytes : List ℕ) (fault : TheFault) → R.remaining input.old ≡ Some bytes
        → result ≡ Err (Invalid fault)
        → StopsAt bytes (R.remaining input.new) T.value_count fault }
    ensures past { (bytes : List ℕ) → R.remaining input.old ≡ Some bytes
        → OnErr result (IsPast bytes (R.remaining input.new)) }
    ensures no_memory { (error : Refused) → result ≢ Err (NoMemory error) }
{
    read_header::<T, R>(input)?;
    let most = (greatest / 2 + 1).min(u128::from(u64::MAX));
    let (count, place) = next_number::<T, R>(input, 6, 0, most)?;
    Ok((count as u64, place))
}

// Reads what the bytes of each set of a type begin with.
fn read_header<T: RankedInteger, R: BufRead>(input: &mut R) -> Result<(), StreamError>
    ensures read { OnOk result (Consumes (R.remaining input.old) (R.remaining input.new)
        (header T.value_count)) }
    ensures fault { (bytes : List ℕ) (fault : TheFault) → R.remaining input.old ≡ Some bytes
        → result ≡ Err (Invalid fault)
        → StopsAt bytes (R.remaining input.new) T.value_count fault }
    ensures past { (bytes : List ℕ) → R.remaining input.old ≡ Some bytes
        → OnErr result (IsPast bytes (R.remaining input.new)) }
    ensures no_memory { (error : Refused) → result ≢ Err (NoMemory error) }
{
    let header = header_of::<T>();
    for (place, expected) in header.iter().enumerate() {
        let Some(byte) = peek(input)? else {
            return Err(StreamError::Invalid(Fault {
                place,
                reason: Reason::CutShort,
            }));
        };
        if byte != *expected {
            return Err(StreamError::Invalid(Fault {
                place,
                reason: header_reason(place),
            }));
        }
        input.consume(1);
    }
    Ok(())
}

// Reads the runs that are to come.
fn read_runs<T: RankedInteger, A: Allocator + Copy, R: BufRead>(
    alloc: A,
    input: &mut R,
    start: usize,
    count: u64,
    greatest: u128,
) -> Result<RangeSetBlaze<T, A>, StreamError>
    requires greatest { greatest + 1 ≡ T.value_count }
    requires room { 0 < count → 2 * count ≤ greatest + 2 }
    ensures read { (bytes : List ℕ)
        → ReadsRuns bytes (R.remaining input.old) T.value_count start [] None count
        → IfOk result (λ set. IsWritable T.value_count set
        × Consumes (Some bytes) (R.remaining input.new) (bytes_of T.value_count set)) }
    ensures fault { (bytes : List ℕ) (fault : TheFault)
        → ReadsRuns bytes (R.remaining input.old) T.value_count start [] None count
        → result ≡ Err (Invalid fault)
        → StopsAt bytes (R.remaining input.new) T.value_count fault }
    ensures spared { (bytes : List ℕ)
        (reads : ReadsRuns bytes (R.remaining input.old) T.value_count start [] None count)
        (error : Refused) → result ≡ Err (NoMemory error) → BeginsWithRun reads.rest }
    ensures past { (bytes : List ℕ)
        → ReadsRuns bytes (R.remaining input.old) T.value_count start [] None count
        → OnErr result (IsPast bytes (R.remaining input.new)) }
{
    let mut set = RangeSetBlaze::new(alloc);
    let mut place = start;
    let mut previous = None;
    for index in 0..count {
        let run = next_run::<T, R>(input, place, previous, count - 1 - index, greatest)?;
        push_run(&mut set, run.first, run.last)?;
        place = run.end;
        previous = Some(run.last);
    }
    Ok(set)
}

// A run, and the position after it.
#[derive(Clone, Copy)]
struct ReadRun {
    first: u128,
    last: u128,
    end: usize,
}

// Reads the next run, before `after` others. The run before it ends at `previous`.
fn next_run<T: RankedInteger, R: BufRead>(
    input: &mut R,
    place: usize,
    previous: Option<u128>,
    after: u64,
    greatest: u128,
) -> Result<ReadRun, StreamError>
    requires greatest { greatest + 1 ≡ T.value_count }
    requires room { from_of previous + least_gap_of previous + 2 * (after + 1) ≤ greatest + 2 }
    ensures ordered { IfOk result (λ run. (run.first ≤ run.last) × (run.last ≤ greatest)) }
    ensures room { IfOk result (λ run. run.last + 2 * after ≤ greatest) }
    ensures others { (bytes : List ℕ) (runs : List Interval)
        → ReadsRuns bytes (R.remaining input.old) T.value_count place runs previous (after + 1)
        → IfOk result (λ run. ReadsRuns bytes (R.remaining input.new) T.value_count run.end
        (runs ++ (from_to run.first run.last ∷ [])) (Some run.last) after) }
    ensures begins { (rest : List ℕ) → R.remaining input.old ≡ Some rest
        → OnOk result (BeginsWithRun rest) }
    ensures fault { (bytes : List ℕ) (runs : List Interval) (fault : TheFault)
        → ReadsRuns bytes (R.remaining input.old) T.value_count place runs previous (after + 1)
        → result ≡ Err (Invalid fault)
        → StopsAt bytes (R.remaining input.new) T.value_count fault }
    ensures past { (bytes : List ℕ) (runs : List Interval)
        → ReadsRuns bytes (R.remaining input.old) T.value_count place runs previous (after + 1)
        → OnErr result (IsPast bytes (R.remaining input.new)) }
    ensures no_memory { (error : Refused) → result ≢ Err (NoMemory error) }
{
    let reach = greatest - 2 * u128::from(after);
    let from = rank_after(previous);
    let (gap, middle) = next_number::<T, R>(input, place, least_gap(previous), reach - from)?;
    let first = from + gap;
    let (more, end) = next_number::<T, R>(input, middle, 0, reach - first)?;
    Ok(ReadRun {
        first,
        last: first + more,
        end,
    })
}

// Inserts a run. Its contract is about one that lies past all others, and touches none.
fn push_run<T: RankedInteger, A: Allocator + Clone>(
    set: &mut RangeSetBlaze<T, A>,
    first: u128,
    last: u128,
) -> Result<(), AllocError>
    requires ordered { first ≤ last }
    requires within { last < T.value_count }
    ensures pushed { IsCanonicalIn T.value_count (set.old ++ (from_to first last ∷ []))
        → OnOk result (set.new ≡ set.old ++ (from_to first last ∷ [])) }
{
    set.ranges_insert(T::from_rank(first)..=T::from_rank(last))?;
    // After this call, the set is known to be the list of its runs.
    set.ranges_len();
    Ok(())
}

// Reads the number that comes next, from `least` to `most`, and returns the position after it.
fn next_number<T: RankedInteger, R: BufRead>(
    input: &mut R,
    place: usize,
    least: u128,
    most: u128,
) -> Result<(u128, usize), StreamError>
    requires low { least ≤ 1 }
    requires some { least ≤ most }
    ensures value { IfOk result (λ read. (least ≤ read.0) × (read.0 ≤ most)) }
    ensures end { IfOk result (λ read. read.1 ≡ place + length (leb128 read.0)) }
    ensures read { (rest : List ℕ) → R.remaining input.old ≡ Some rest
        → IfOk result (λ read. HasNumber rest (R.remaining input.new) read.0) }
    ensures fault { (bytes : List ℕ) (fault : TheFault)
        → ReadsNumber bytes (R.remaining input.old) T.value_count place least most
        → result ≡ Err (Invalid fault)
        → StopsAt bytes (R.remaining input.new) T.value_count fault }
    ensures past { (rest : List ℕ) → R.remaining input.old ≡ Some rest
        → OnErr result (IsPast rest (R.remaining input.new)) }
    ensures no_memory { (error : Refused) → result ≢ Err (NoMemory error) }
{
    let read = read_number(input, place, place, least, most);
    read
}
