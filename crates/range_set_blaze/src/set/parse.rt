//! Reads a set from text (docs/DECISIONS.md, no-from-str).

ghost use Rattle.std.specs.Prelude.{◌≡◌, ◌≢◌, ℕ, List, IfOk, Some};
ghost use Rattle.std.specs.declared.ops.RangeInclusive.{RangeInclusive as Range};
ghost use Rattle.rsb_integer.specs.Rank.{intervals_of};
ghost use Rattle.rsb_integer.specs.Runs.{members, AreRuns, Interval, IsCanonicalIn};
ghost use Rattle.rsb_storage.specs.Set.{IsSetOf};
ghost use Rattle.range_set_blaze.specs.Written.{runs_text};
ghost use Rattle.rsb_range_text.specs.Text.{IsFirstUnexpected, Spells};

use crate::set::RangeSetBlaze;
use rsb_integer::Integer;
use rsb_range_text::{ParseError, ParseInteger, spelled_ranges};
use std::alloc::{AllocError, Allocator};
use std::ops::RangeInclusive;

impl<T: ParseInteger, A: Allocator + Copy> RangeSetBlaze<T, A> {
    /// Returns the set of the values of the ranges that `text` lists, such as `1..=3, 7..=8`.
    /// `Display` writes a set in this form.
    ///
    /// The ranges may come in any order and may overlap. A single value such as `5` means `5..=5`.
    /// A range whose start is past its end has no members. Blanks are allowed around each number:
    /// spaces, tabs, line feeds and carriage returns. A number may have a sign. Text that is
    /// empty, or has only blanks, gives the empty set.
    ///
    /// Returns `Unexpected` with the position of the first unexpected byte if the text does not
    /// list ranges, and `NoMemory` if allocation fails. Not in range-set-blaze.
    pub fn parse(alloc: A, text: &str) -> Result<Self, ParseError>
        ensures spelled { IfOk result (λ set. (ranges : List (Range T))
            × Spells T.number T.fits text.now ranges
            × IsSetOf set (members (intervals_of T.rank ranges))) }
        ensures only { IfOk result (λ set. (ranges : List (Range T))
            → Spells T.number T.fits text.now ranges
            → IsSetOf set (members (intervals_of T.rank ranges))) }
        ensures unexpected { (place : ℕ) → result ≡ Err (ParseError.Unexpected place)
            → IsFirstUnexpected T.number T.fits text.now place }
        ensures refused { (ranges : List (Range T)) (place : ℕ)
            → Spells T.number T.fits text.now ranges
            → result ≢ Err (ParseError.Unexpected place) }

        // If the text is what `Display` writes for a set, the result is that set.
        ensures written { (runs : List Interval) → IsCanonicalIn T.value_count runs
            → runs_text (λ rank. T.debug_output (T.value_at rank)) runs ≡ Some text.now
            → IfOk result (λ set. set ≡ runs) }
        ensures taken { (runs : List Interval) (place : ℕ) → IsCanonicalIn T.value_count runs
            → runs_text (λ rank. T.debug_output (T.value_at rank)) runs ≡ Some text.now
            → result ≢ Err (ParseError.Unexpected place) }
    {
        let ranges = spelled_ranges(alloc, text.as_bytes())?;
        let set = set_of(alloc, ranges)?;
        Ok(set)
    }
}

// Returns the set of the values of ranges, which may be in any order.
fn set_of<T: Integer, A: Allocator + Copy>(
    alloc: A,
    ranges: Vec<RangeInclusive<T>, A>,
) -> Result<RangeSetBlaze<T, A>, AllocError>
    ensures members { IfOk result (λ set.
        IsSetOf set (members (intervals_of T.rank ranges.items))) }
    ensures runs { IfOk result (λ set. AreRuns T.value_count (members set) set) }
{
    let set = RangeSetBlaze::from_iter(alloc, ranges)?;
    // Called only for its clause.
    set.ranges_len();
    Ok(set)
}
