//! Bytes that wait to be written, in a buffer of fixed size (docs/DECISIONS.md, byte-streams).

ghost use Rattle.std.specs.Prelude.{◌≡◌, ◌+◌, ◌<◌, ◌≤◌, ◌++◌, [], ◌∷◌, OnOk, length};
ghost use Rattle.range_set_bytes.specs.Leb128.{leb128};
ghost use Rattle.range_set_byte_streams.specs.Transfer.{Sends, Writes};

use arrayvec::ArrayVec;
use std::io::{self, ErrorKind, Write};

/// The number of bytes that a page holds.
pub(crate) const PAGE: usize = 8192;

/// Bytes that wait to be written.
pub(crate) type Page = ArrayVec<u8, PAGE>;

/// Adds a number to a page, which is written whenever it is full.
pub(crate) fn lay_number<W: Write>(output: &mut W, page: &mut Page, number: u128) -> io::Result<()>
    ensures { Sends (W.contents output.old) (W.contents output.new)
        (page.old.items ++ leb128 number) page.new.items result }
{
    let mut rest = number;
    while rest >= 128 {
        lay_byte(output, page, (128 + rest % 128) as u8)?;
        rest /= 128;
    }
    lay_byte(output, page, rest as u8)
}

// Adds a byte to a page. A full page is written first.
#[inline(always)]
fn lay_byte<W: Write>(output: &mut W, page: &mut Page, byte: u8) -> io::Result<()>
    ensures { Sends (W.contents output.old) (W.contents output.new)
        (page.old.items ++ byte ∷ []) page.new.items result }
{
    make_room(output, page)?;
    page.push(byte);
    Ok(())
}

// Makes room for a byte: a full page is written.
#[inline(always)]
fn make_room<W: Write>(output: &mut W, page: &mut Page) -> io::Result<()>
    ensures laid { Sends (W.contents output.old) (W.contents output.new)
        page.old.items page.new.items result }
    ensures room { OnOk result (length page.new.items < PAGE) }
{
    if page.is_full() {
        return send(output, page);
    }
    Ok(())
}

/// Writes the bytes that wait on a page.
pub(crate) fn send<W: Write>(output: &mut W, page: &mut Page) -> io::Result<()>
    ensures written { Writes (W.contents output.old) (W.contents output.new) result page.old.items }
    ensures empty { OnOk result (page.new.items ≡ []) }
{
    write_all(output, page.as_slice())?;
    page.clear();
    Ok(())
}

// Writes all of the bytes. A call that was interrupted is made again.
fn write_all<W: Write>(output: &mut W, bytes: &[u8]) -> io::Result<()>
    ensures { Writes (W.contents output.old) (W.contents output.new) result bytes.now }
{
    let mut rest = bytes;
    let mut patience = u64::MAX;
    while !rest.is_empty() {
        match output.write(rest) {
            Ok(0) => return Err(io::Error::from(ErrorKind::WriteZero)),
            Ok(count) => rest = &rest[count..],
            Err(error) => {
                if error.kind() != ErrorKind::Interrupted || patience == 0 {
                    return Err(error);
                }
                patience -= 1;
            }
        }
    }
    Ok(())
}
