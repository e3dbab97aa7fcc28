//! The text of a map, for `Display` and `Debug`.

ghost use Rattle.std.specs.Prelude.{[]};
ghost use Rattle.std.specs.Fmt.{DisplaysOnOk, debug_items};
ghost use Rattle.range_map_blaze.specs.Written.{item_text, map_text};

use crate::map::RangeMapBlaze;
use crate::map_value::ShownValue;
use crate::range_values::RangeValues;
use rsb_integer::Integer;
use std::alloc::Allocator;
use std::fmt::{self, Debug, Display, Formatter, Write};

/// Writes each range and its value as `(start..=end, value)`, with a comma and a space between them.
/// A width and other format flags have no effect, as in range-set-blaze.
impl<T: Integer, V: ShownValue, A: Allocator> Display for RangeMapBlaze<T, V, A> {
    ghost output = { map_text (λ rank. T.debug_output (T.value_at rank)) V.debug_output };

    fn fmt<W: Write>(&self, f: &mut Formatter<W>) -> fmt::Result {
        // Called only for its clauses.
        self.ranges_len();
        write_items(&mut self.range_values(), f)
    }
}

/// Writes the same as `Display`.
impl<T: Integer, V: ShownValue, A: Allocator> Debug for RangeMapBlaze<T, V, A> {
    ghost debug_output = { map_text (λ rank. T.debug_output (T.value_at rank)) V.debug_output };

    fn fmt<W: Write>(&self, f: &mut Formatter<W>) -> fmt::Result {
        Display::fmt(self, f)
    }
}

// Writes ranges and their values, with a comma and a space between two of them.
fn write_items<T: Integer, V: Debug, W: Write>(
    items: &mut RangeValues<'_, T, V>,
    f: &mut Formatter<W>,
) -> fmt::Result
    ensures { DisplaysOnOk W.write_str_gives f.old result
        (debug_items (item_text T.debug_output V.debug_output) [] items.old) f.new }
{
    let mut separator = "";
    while let Some((range, value)) = items.next() {
        let (start, end) = (*range.start(), *range.end());
        write!(f, "{separator}({start:?}..={end:?}, {value:?})")?;
        separator = ", ";
    }
    Ok(())
}
