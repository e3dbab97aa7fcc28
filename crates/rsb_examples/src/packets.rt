//! Acknowledged packets: they come in any order, and what is missing is asked for again.

ghost use Rattle.std.specs.Prelude.{◌↔◌, ℕ, ◌^◌, ◌<◌, List, IfOk, IfSome, IsFalse, IsNone, IsTrue};
ghost use Rattle.std.specs.declared.ops.RangeInclusive.{RangeInclusive as Range};
ghost use Rattle.range_set_blaze.specs.Rank.{intervals_of};
ghost use Rattle.range_set_blaze.specs.Runs.{members};
ghost use Rattle.range_set_blaze.specs.Selection.{difference, IsUniversal};
ghost use Rattle.range_set_blaze.specs.Set.{IsSetOf};
ghost use Rattle.range_set_blaze.specs.Text.{Spells};

use range_set_blaze::{
    Draw, DrawDisjoint, GapsIn, IntoRangeSetBlaze, ParseError, ParseInteger, RangeSetBlaze,
};
use std::alloc::{AllocError, Global};
use std::io;

/// Eight packets come out of order, one of them twice.
pub fn show(alloc: Global, rt: &impl Print) -> io::Result<()> {
    let mut acked = RangeSetBlaze::<u32>::new(alloc);
    for number in [0, 1, 5, 2, 9, 5, 6, 8] {
        if !acked.insert(number)? {
            println!(rt; "{number} came twice")?;
        }
    }
    show_missing(alloc, &acked, rt)?;
    show_gaps(&acked, rt)?;
    show_reread(alloc, &acked, rt)
}

// Writes which packets have come, which one is wanted next, and which of ten are missing.
fn show_missing(alloc: Global, acked: &RangeSetBlaze<u32>, rt: &impl Print) -> io::Result<()> {
    println!(rt; "acknowledged: {acked}")?;
    if let Some(next) = next_wanted(acked) {
        println!(rt; "next wanted: {next}")?;
    }
    let sent = RangeSetBlaze::from(alloc, 0..=9)?;
    println!(rt; "missing of {sent}: {}", missing(alloc, &sent, acked)?)
}

// Writes which packets are asked for again.
fn show_gaps(acked: &RangeSetBlaze<u32>, rt: &impl Print) -> io::Result<()> {
    for gap in missing_below(acked, 10) {
        println!(rt; "ask again for {} to {}", gap.start(), gap.end())?;
    }
    Ok(())
}

// Writes whether the text of a set is read as that set.
fn show_reread(alloc: Global, acked: &RangeSetBlaze<u32>, rt: &impl Print) -> io::Result<()> {
    let text = format!(in alloc; "{acked}")?;
    match listed(alloc, text.as_str()) {
        Ok(again) => println!(rt;
            "the text \"{text}\" is read as it was: {}",
            again == *acked
        ),
        Err(error) => println!(rt; "{error}"),
    }
}

/// Returns the set of the ranges that the text lists.
pub fn listed<T: ParseInteger>(alloc: Global, text: &str) -> Result<RangeSetBlaze<T>, ParseError>
    ensures { IfOk result (λ listed. (ranges : List (Range T))
        → Spells T.number T.fits text.now ranges
        → IsSetOf listed (members (intervals_of T.rank ranges))) }
{
    let listed = RangeSetBlaze::parse(alloc, text)?;
    Ok(listed)
}

/// Returns the first number that is missing, or `None` if all have come.
pub fn next_wanted(acked: &RangeSetBlaze<u32>) -> Option<u32>
    ensures none { IsNone result ↔ IsUniversal (2 ^ 32) (members acked.now) }
    ensures missing { IfSome result (λ next. IsFalse (members acked.now next)) }
    ensures before { IfSome result (λ next. (number : ℕ) → number < next
        → IsTrue (members acked.now number)) }
{
    let (run, is_acked) = acked.range_or_gap_at(0);
    if is_acked {
        run.end().checked_add(1)
    } else {
        Some(0)
    }
}

/// Returns the numbers that were sent and have not come. If allocation fails, no set is made.
pub fn missing(
    alloc: Global,
    sent: &RangeSetBlaze<u32>,
    acked: &RangeSetBlaze<u32>,
) -> Result<RangeSetBlaze<u32>, AllocError>
    ensures { IfOk result (λ missing.
        IsSetOf missing (difference (members sent.now) (members acked.now))) }
{
    let unanswered = sent.ranges().difference(acked.ranges());
    unanswered.into_range_set_blaze(alloc)
}

/// Returns the numbers below `end` that have not come, as a stream that does not allocate.
pub fn missing_below<'a>(acked: &'a RangeSetBlaze<u32>, end: u32) -> GapsIn<'a, u32>
    ensures { ⟦<GapsIn<'a, u32> as Draw<u32>>⟧.can_draw result }
{
    acked.gaps_in(..end)
}
