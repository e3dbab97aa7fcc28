//! Replies and faults as lines of text. Writing them does not allocate.

ghost use Rattle.std.specs.Prelude.{◌≡◌, ◌+◌, ◌≤◌, ◌++◌, IfSome, codes, decimal, flat_map, length};
ghost use Rattle.std.specs.Fmt.{signed_decimal};
ghost use Rattle.rsb_command_parser.specs.Fault.{fault_line};
ghost use Rattle.rsb_commands.specs.Interpreter.{
  content_of,
  flag as flag_content,
  number as number_content,
  order as order_content,
  piece as piece_content,
  ranges as ranges_content,
  runs as runs_content,
};
ghost use Rattle.rsb_commands.specs.Page.{Lays, Waits, waiting_text};
ghost use Rattle.rsb_commands.specs.Text.{
  ends_text,
  line_text,
  next_range_text,
  range_text,
  ranges_text,
};
ghost use Rattle.rsb_commands.specs.Transfer.{Writes};

use crate::interpreter::Reply;
use crate::page::{PAGE, Page};
use crate::transfer::write_all;
use arrayvec::ArrayString;
use itoa::Buffer;
use rsb_command_parser::Fault;
use std::alloc::Allocator;
use std::cmp::Ordering;
use std::fmt::Write as _;
use std::io::Write;
use std::ops::RangeInclusive;

/// Writes a reply and a line feed to the page.
#[inline(always)]
pub(crate) fn write_line<A: Allocator, W: Write>(
    page: &mut Page<'_, W>,
    reply: &Reply<i32, A>,
) -> Result<(), Fault>
    ensures { Lays W.contents page.old page.new result
        (line_text (content_of (λ length. length) reply.now)) }
{
    match reply {
        Reply::Flag(flag) => write_flag(page, *flag),
        Reply::Piece {
            first,
            last,
            present,
        } => write_piece(page, first, last, *present),
        Reply::Count(length) => write_count(page, *length),
        Reply::Ranges(ranges) => write_ranges(page, ranges),
        Reply::Runs(runs) => write_runs(page, *runs),
        Reply::Order(order) => write_order(page, *order),
    }
}

// Writes `true` or `false`, and a line feed.
#[inline(always)]
fn write_flag<W: Write>(page: &mut Page<'_, W>, flag: bool) -> Result<(), Fault>
    ensures { Lays W.contents page.old page.new result (line_text (flag_content flag)) }
{
    page.make_room()?;
    lay_flag(page, flag);
    Ok(())
}

// Adds `true` or `false` and a line feed, for which there must be room. Each text has a known
// length, so it is copied without a call.
#[inline(always)]
fn lay_flag<W: Write>(page: &mut Page<'_, W>, flag: bool)
    requires { length (waiting_text page.old) + 6 ≤ PAGE }
    ensures { Waits page.old page.new (line_text (flag_content flag)) }
{
    if flag {
        page.lay(b"true\n");
    } else {
        page.lay(b"false\n");
    }
}

// Writes a number and a line feed.
fn write_count<W: Write>(page: &mut Page<'_, W>, count: u64) -> Result<(), Fault>
    ensures { Lays W.contents page.old page.new result (line_text (number_content count)) }
{
    page.make_room()?;
    page.lay(Buffer::new().format(count).as_bytes());
    page.lay(b"\n");
    Ok(())
}

// Writes the ends of a run or a gap, which of the two it is, and a line feed.
fn write_piece<W: Write>(
    page: &mut Page<'_, W>,
    first: &i32,
    last: &i32,
    present: bool,
) -> Result<(), Fault>
    ensures { Lays W.contents page.old page.new result
        (line_text (piece_content first.now last.now present)) }
{
    write_ends(page, first, last)?;
    write_presence(page, present)
}

// Writes a space, `true` or `false`, and a line feed.
fn write_presence<W: Write>(page: &mut Page<'_, W>, present: bool) -> Result<(), Fault>
    ensures { Lays W.contents page.old page.new result
        (codes " " ++ line_text (flag_content present)) }
{
    page.make_room()?;
    page.lay(b" ");
    lay_flag(page, present);
    Ok(())
}

// Writes a number of runs and a line feed.
fn write_runs<W: Write>(page: &mut Page<'_, W>, runs: usize) -> Result<(), Fault>
    ensures { Lays W.contents page.old page.new result (line_text (runs_content runs)) }
{
    page.make_room()?;
    page.lay(Buffer::new().format(runs).as_bytes());
    page.lay(b"\n");
    Ok(())
}

// Writes the order of two sets and a line feed.
fn write_order<W: Write>(page: &mut Page<'_, W>, order: Ordering) -> Result<(), Fault>
    ensures { Lays W.contents page.old page.new result (line_text (order_content order)) }
{
    page.make_room()?;
    page.lay(order_line(order));
    Ok(())
}

// Returns the line for an order.
fn order_line(order: Ordering) -> &'static [u8]
    ensures line { result.now ≡ line_text (order_content order) }
    ensures bound { length result.now ≤ 8 }
{
    match order {
        Ordering::Less => b"less\n",
        Ordering::Equal => b"equal\n",
        Ordering::Greater => b"greater\n",
    }
}

// Writes ranges with a comma and a space between them, and a line feed.
fn write_ranges<W: Write>(
    page: &mut Page<'_, W>,
    ranges: &[RangeInclusive<i32>],
) -> Result<(), Fault>
    ensures { Lays W.contents page.old page.new result (line_text (ranges_content ranges.now)) }
{
    write_list(page, ranges)?;
    write_line_feed(page)
}

// Writes a line feed.
fn write_line_feed<W: Write>(page: &mut Page<'_, W>) -> Result<(), Fault>
    ensures { Lays W.contents page.old page.new result (codes "\n") }
{
    page.make_room()?;
    page.lay(b"\n");
    Ok(())
}

// Writes ranges with a comma and a space between them.
fn write_list<W: Write>(page: &mut Page<'_, W>, ranges: &[RangeInclusive<i32>]) -> Result<(), Fault>
    ensures { Lays W.contents page.old page.new result (ranges_text ranges.now) }
{
    let Some((first, others)) = ranges.split_first() else {
        return Ok(());
    };
    write_range(page, first)?;
    write_others(page, others)
}

// Writes ranges, each after a comma and a space.
fn write_others<W: Write>(
    page: &mut Page<'_, W>,
    ranges: &[RangeInclusive<i32>],
) -> Result<(), Fault>
    ensures { Lays W.contents page.old page.new result (flat_map next_range_text ranges.now) }
{
    for range in ranges {
        write_next_range(page, range)?;
    }
    Ok(())
}

// Writes a comma, a space and a range.
fn write_next_range<W: Write>(
    page: &mut Page<'_, W>,
    range: &RangeInclusive<i32>,
) -> Result<(), Fault>
    ensures { Lays W.contents page.old page.new result (next_range_text range.now) }
{
    page.make_room()?;
    page.lay(b", ");
    lay_range(page, range);
    Ok(())
}

// Writes a range.
fn write_range<W: Write>(page: &mut Page<'_, W>, range: &RangeInclusive<i32>) -> Result<(), Fault>
    ensures { Lays W.contents page.old page.new result (range_text range.now) }
{
    write_ends(page, range.start(), range.end())
}

// Writes two numbers with `..=` between them.
fn write_ends<W: Write>(page: &mut Page<'_, W>, start: &i32, end: &i32) -> Result<(), Fault>
    ensures { Lays W.contents page.old page.new result (ends_text start.now end.now) }
{
    page.make_room()?;
    lay_ends(page, start, end);
    Ok(())
}

// Adds a range, for which there must be room.
fn lay_range<W: Write>(page: &mut Page<'_, W>, range: &RangeInclusive<i32>)
    requires { length (waiting_text page.old) + 25 ≤ PAGE }
    ensures { Waits page.old page.new (range_text range.now) }
{
    lay_ends(page, range.start(), range.end());
}

// Adds two numbers with `..=` between them. There must be room for them.
fn lay_ends<W: Write>(page: &mut Page<'_, W>, start: &i32, end: &i32)
    requires { length (waiting_text page.old) + 25 ≤ PAGE }
    ensures { Waits page.old page.new (ends_text start.now end.now) }
{
    lay_number(page, start);
    page.lay(b"..=");
    lay_number(page, end);
}

// Adds a number, for which there must be room.
fn lay_number<W: Write>(page: &mut Page<'_, W>, number: &i32)
    requires { length (waiting_text page.old) + 11 ≤ PAGE }
    ensures laid { Waits page.old page.new (signed_decimal number.now) }
    ensures within { length (waiting_text page.new) ≤ length (waiting_text page.old) + 11 }
{
    page.lay(Buffer::new().format(*number).as_bytes());
}

/// The length in bytes of the longest line of a fault: `bad line `, 20 digits and a line feed.
const FAULT_LINE: usize = 30;

/// Writes the line of a fault. Returns `Io` if a write fails.
pub(crate) fn write_fault<W: Write>(output: &mut W, fault: Fault) -> Result<(), Fault>
    ensures { Writes (W.contents output.old) (W.contents output.new) result
        (fault_line fault ++ codes "\n") }
{
    let Some(line) = fault_text(fault) else {
        return Err(Fault::Io);
    };
    write_all(output, line.as_bytes(), u64::MAX)?;
    Ok(())
}

// Returns the text of a fault and a line feed. It is `None` if `Display` fails, which no clause of
// `fmt` excludes.
fn fault_text(fault: Fault) -> Option<ArrayString<FAULT_LINE>>
    ensures { IfSome result (λ text. text.bytes ≡ fault_line fault ++ codes "\n") }
{
    let mut text = ArrayString::new();
    writeln!(text, "{fault}").ok()?;
    Some(text)
}
