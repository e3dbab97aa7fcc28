//! Lists of addresses as text.

ghost use Rattle.std.specs.Prelude.{◌≡◌, ℕ, ◌+◌, ◌^◌, ◌≤◌, ◌++◌, [], ◌∷◌, IfOk, List, OnOk, length};
ghost use Rattle.std.specs.Io.KnownBytes.{Appends};
ghost use Rattle.std.specs.Range.{range_inclusive_start, range_inclusive_end};
ghost use Rattle.range_set_blaze.specs.Runs.{AreRuns, Interval};
ghost use Rattle.range_set_blaze.specs.Selection.{Selection};
ghost use Rattle.rsb_streams.specs.Stream.{◌⊆◌};
ghost use Rattle.ip_sets.specs.Address.{v4_text, v6_text};
ghost use Rattle.ip_sets.specs.List.{has_bytes};
ghost use Rattle.ip_commands.specs.Page.{Lays, LeavesSome};
ghost use Rattle.ip_commands.specs.Selection.{WritesSelected};
ghost use Rattle.ip_commands.specs.Text.{IsSignedSet, block_line, range_line};

use crate::page::{PAGE, Page, ROOM, lay, make_room, send};
use crate::request::{Families, Form};
use crate::text::{LONGEST, lay_length, lay_v4, lay_v6};
use ip_sets::{Address, Block, IntoBlocks};
use range_set_blaze::{Draw, DrawDisjoint};
use std::io::{self, Write};
use std::ops::RangeInclusive;

/// Addresses that are written as text.
pub(crate) trait AddressText: Address {
    // The text of the address with a rank.
    ghost text: { ℕ → List ℕ };

    /// Adds the text of the address to a page, and a byte after it. There must be room for both.
    fn lay(self, page: &mut Page, end: u8)
        requires { length page.old.items + LONGEST ≤ PAGE }
        ensures laid { page.new.items
            ≡ page.old.items ++ (text (Self.rank self) ++ end ∷ []) }
        ensures within { length page.new.items ≤ length page.old.items + LONGEST };
}

impl AddressText for u32 {
    ghost text = { v4_text };

    #[inline]
    fn lay(self, page: &mut Page, end: u8) {
        lay_v4(page, self, end);
    }
}

impl AddressText for u128 {
    ghost text = { v6_text };

    #[inline]
    fn lay(self, page: &mut Page, end: u8) {
        lay_v6(page, self, end);
    }
}

/// How the lines of addresses are written: a sign before each, in which form, and of which families.
#[derive(Clone, Copy)]
pub(crate) struct Style<'a> {
    /// One byte at most.
    pub(crate) sign: &'a [u8],
    pub(crate) form: Form,
    pub(crate) families: Families,
}

/// Writes the addresses of two ready streams in a style: IPv4 and then IPv6, ascending, with a block
/// or a range on each line. Returns whether there is a line. It does not allocate, unless the writer
/// or a stream does. If a write fails, part of the text may have been written.
pub(crate) fn write_streams<'a, W: Write, F: DrawDisjoint<u32>, S: DrawDisjoint<u128>>(
    output: &mut W,
    v4: F,
    v6: S,
    style: Style<'a>,
) -> io::Result<bool>
    requires v4 { F.can_draw v4 }
    requires v6 { S.can_draw v6 }
    requires sign { length style.sign.now ≤ 1 }
    ensures { (these those : Selection) → F.may_give v4 ⊆ AreRuns (2 ^ 32) these
        → S.may_give v6 ⊆ AreRuns (2 ^ 128) those
        → IfOk result (λ some. WritesSelected some style.entry.sign.now style.entry.form
        style.entry.families these those (W.contents output.old) (W.contents output.new)) }
{
    let sign = style.sign;
    let form = style.form;
    match style.families {
        Families::Both => {
            let has_v4 = write_ranges(output, v4, sign, form)?;
            let has_v6 = write_ranges(output, v6, sign, form)?;
            Ok(has_v4 || has_v6)
        }
        Families::V4 => write_ranges(output, v4, sign, form),
        Families::V6 => write_ranges(output, v6, sign, form),
    }
}

// Writes the addresses of a ready stream in a form. Returns whether there is a line.
fn write_ranges<T: AddressText, W: Write, I: DrawDisjoint<T>>(
    output: &mut W,
    ranges: I,
    sign: &[u8],
    form: Form,
) -> io::Result<bool>
    requires ready { I.can_draw ranges }
    requires sign { length sign.now ≤ 1 }
    ensures { IfOk result (λ some. (runs : List Interval) × I.may_give ranges runs
        × ((text : List ℕ)
        × IsSignedSet sign.now T.text T.rank T.width T.value_count form runs text
        × Appends (W.contents output.old) (W.contents output.new) text
        × (some ≡ has_bytes text))) }
{
    let mut page = Page::new();
    lay_stream(output, &mut page, ranges, sign, form)?;
    let some = !page.is_empty();
    send(output, &mut page)?;
    Ok(some)
}

// Adds the lines of a ready stream in a form to a page, which is written whenever it is full.
fn lay_stream<T: AddressText, W: Write, I: DrawDisjoint<T>>(
    output: &mut W,
    page: &mut Page,
    ranges: I,
    sign: &[u8],
    form: Form,
) -> io::Result<()>
    requires ready { I.can_draw ranges }
    requires sign { length sign.now ≤ 1 }
    ensures { OnOk result ((runs : List Interval) × I.may_give ranges runs × ((text : List ℕ)
        × IsSignedSet sign.now T.text T.rank T.width T.value_count form runs text
        × Lays (W.contents output.old) (W.contents output.new)
        page.old.items page.new.items text × LeavesSome page.new.items text)) }
{
    match form {
        Form::Blocks => lay_blocks(output, page, ranges, sign),
        Form::Ranges => lay_ranges(output, page, ranges, sign),
    }
}

// Adds the blocks of a ready stream to a page, each as a line.
fn lay_blocks<T: AddressText, W: Write, I: DrawDisjoint<T>>(
    output: &mut W,
    page: &mut Page,
    ranges: I,
    sign: &[u8],
) -> io::Result<()>
    requires ready { I.can_draw ranges }
    requires sign { length sign.now ≤ 1 }
    ensures { OnOk result ((runs : List Interval) × I.may_give ranges runs × ((text : List ℕ)
        × IsSignedSet sign.now T.text T.rank T.width T.value_count Form.Blocks runs text
        × Lays (W.contents output.old) (W.contents output.new)
        page.old.items page.new.items text × LeavesSome page.new.items text)) }
{
    for block in ranges.blocks() {
        make_room(output, page)?;
        lay_block(page, sign, block);
    }
    Ok(())
}

// Adds a sign and a block to a page as a line, for which there must be room. A block of one address is written
// as that address.
#[inline]
fn lay_block<T: AddressText>(page: &mut Page, sign: &[u8], block: Block<T>)
    requires room { length page.old.items + ROOM ≤ PAGE }
    requires sign { length sign.now ≤ 1 }
    ensures { page.new.items
        ≡ page.old.items ++ (sign.now ++ block_line T.text T.rank T.width block) }
{
    lay(page, sign);
    let length = block.length;
    if length == T::bits() {
        block.first.lay(page, b'\n');
        return;
    }
    block.first.lay(page, b'/');
    lay_length(page, length, b'\n');
}

// Adds the ranges of a ready stream to a page, each as a line.
fn lay_ranges<T: AddressText, W: Write, I: DrawDisjoint<T>>(
    output: &mut W,
    page: &mut Page,
    ranges: I,
    sign: &[u8],
) -> io::Result<()>
    requires ready { I.can_draw ranges }
    requires sign { length sign.now ≤ 1 }
    ensures { OnOk result ((runs : List Interval) × I.may_give ranges runs × ((text : List ℕ)
        × IsSignedSet sign.now T.text T.rank T.width T.value_count Form.Ranges runs text
        × Lays (W.contents output.old) (W.contents output.new)
        page.old.items page.new.items text × LeavesSome page.new.items text)) }
{
    let mut ranges = ranges;
    while let Some(range) = ranges.draw() {
        make_room(output, page)?;
        lay_range(page, sign, range);
    }
    Ok(())
}

// Adds a sign and a range to a page as a line, for which there must be room: its first and its last
// address, with a dash between them.
#[inline]
fn lay_range<T: AddressText>(page: &mut Page, sign: &[u8], range: RangeInclusive<T>)
    requires room { length page.old.items + ROOM ≤ PAGE }
    requires sign { length sign.now ≤ 1 }
    ensures { page.new.items ≡ page.old.items ++ (sign.now ++ range_line T.text
        (T.rank (range_inclusive_start range)) (T.rank (range_inclusive_end range))) }
{
    lay(page, sign);
    let (first, last) = range.into_inner();
    first.lay(page, b'-');
    last.lay(page, b'\n');
}
