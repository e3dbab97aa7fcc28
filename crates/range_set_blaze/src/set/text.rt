//! The text of a set, for `Display` and `Debug`.

ghost use Rattle.std.specs.Prelude.{[]};
ghost use Rattle.std.specs.Fmt.{DisplaysOnOk, debug_items};
ghost use Rattle.range_set_blaze.specs.Written.{ends_text, runs_text};

use crate::set::RangeSetBlaze;
use rsb_integer::Integer;
use rsb_storage::entries::next_run;
use std::alloc::Allocator;
use std::collections::btree_map::Iter;
use std::fmt::{self, Debug, Display, Formatter, Write};

/// Writes each run as `start..=end`, with a comma and a space between runs. A width and other
/// format flags have no effect, as in range-set-blaze.
impl<T: Integer, A: Allocator> Display for RangeSetBlaze<T, A> {
    ghost output = { runs_text (λ rank. T.debug_output (T.value_at rank)) };

    fn fmt<W: Write>(&self, f: &mut Formatter<W>) -> fmt::Result {
        write_runs(&mut self.runs.iter(), f)
    }
}

/// Writes the same as `Display`.
impl<T: Integer, A: Allocator> Debug for RangeSetBlaze<T, A> {
    ghost debug_output = { runs_text (λ rank. T.debug_output (T.value_at rank)) };

    fn fmt<W: Write>(&self, f: &mut Formatter<W>) -> fmt::Result {
        Display::fmt(self, f)
    }
}

// Writes the runs of entries, with a comma and a space between two runs.
fn write_runs<T: Copy + Debug, W: Write>(
    entries: &mut Iter<'_, T, T>,
    f: &mut Formatter<W>,
) -> fmt::Result
    ensures { DisplaysOnOk W.write_str_gives f.old result
        (debug_items (λ run. ends_text (T.debug_output run.0) (T.debug_output run.1)) [] entries.old)
        f.new }
{
    let mut separator = "";
    while let Some(run) = next_run(entries) {
        let (start, end) = (run.start, run.end);
        write!(f, "{separator}{start:?}..={end:?}")?;
        separator = ", ";
    }
    Ok(())
}
