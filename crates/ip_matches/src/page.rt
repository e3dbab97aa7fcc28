//! Lines that are gathered on a page before they are written (docs/DECISIONS.md, page).

ghost use Rattle.std.specs.Prelude.{◌≡◌, ◌++◌, [], ◌∷◌, IfErr, OnOk};
ghost use Rattle.ip_matches.specs.MatchFault.{IsWriteFault};
ghost use Rattle.ip_matches.specs.Transfer.{Sends, Writes};

use crate::fault::MatchFault;
use arrayvec::ArrayVec;
use std::io::{self, ErrorKind, Write};

/// The number of bytes that a page holds.
pub(crate) const PAGE: usize = 65_536;

/// Bytes that wait to be written.
pub(crate) type Page = ArrayVec<u8, PAGE>;

/// Adds a line and a line feed to a page.
pub(crate) fn lay_line<W: Write>(
    output: &mut W,
    page: &mut Page,
    line: &[u8],
) -> Result<(), MatchFault>
    ensures laid { Sends (W.contents output.old) (W.contents output.new)
        (page.old.items ++ (line.now ++ 10 ∷ [])) page.new.items result }
    ensures fault { IfErr result IsWriteFault }
{
    lay(output, page, line)?;
    lay(output, page, b"\n")
}

// Adds bytes to a page. If there is no room for them, what waits is written first. Bytes that are
// too many for a page are written at once.
#[inline]
fn lay<W: Write>(output: &mut W, page: &mut Page, bytes: &[u8]) -> Result<(), MatchFault>
    ensures laid { Sends (W.contents output.old) (W.contents output.new)
        (page.old.items ++ bytes.now) page.new.items result }
    ensures fault { IfErr result IsWriteFault }
{
    if page.remaining_capacity() < bytes.len() {
        send(output, page)?;
        if bytes.len() > PAGE {
            return write_all(output, bytes);
        }
    }
    page.try_extend_from_slice(bytes).unwrap();
    Ok(())
}

/// Writes the bytes that wait on a page.
pub(crate) fn send<W: Write>(output: &mut W, page: &mut Page) -> Result<(), MatchFault>
    ensures written { Writes (W.contents output.old) (W.contents output.new) result page.old.items }
    ensures empty { OnOk result (page.new.items ≡ []) }
    ensures fault { IfErr result IsWriteFault }
{
    write_all(output, page.as_slice())?;
    page.clear();
    Ok(())
}

// Writes all of the bytes. A call that was interrupted is made again.
fn write_all<W: Write>(output: &mut W, bytes: &[u8]) -> Result<(), MatchFault>
    ensures written { Writes (W.contents output.old) (W.contents output.new) result bytes.now }
    ensures fault { IfErr result IsWriteFault }
{
    let mut rest = bytes;
    let mut patience = u64::MAX;
    while !rest.is_empty() {
        match output.write(rest) {
            Ok(0) => return Err(MatchFault::NotWritten(io::Error::from(ErrorKind::WriteZero))),
            Ok(count) => rest = &rest[count..],
            Err(error) => {
                if error.kind() != ErrorKind::Interrupted || patience == 0 {
                    return Err(MatchFault::NotWritten(error));
                }
                patience -= 1;
            }
        }
    }
    Ok(())
}
