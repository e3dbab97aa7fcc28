//! The lines that were kept so far.

ghost use Rattle.std.specs.Prelude.{◌≡◌, ◌+◌, ◌++◌, ℕ, [], ◌∷◌, IfErr, IfOk, List, OnOk, Option};
ghost use Rattle.ip_matches.specs.MatchFault.{IsReadFault, IsWriteFault};
ghost use Rattle.ip_matches.specs.Progress.{HasKept, StopsAtLine};
ghost use Rattle.ip_matches.specs.Transfer.{Writes};

use crate::fault::MatchFault;
use crate::filter::LineFilter;
use crate::page::{Page, lay_line, send};
use std::alloc::Allocator;
use std::io::{self, ErrorKind, Write};

/// What waits to be written of the lines that were kept so far, and how many they are.
#[derive(Drop)]
pub(crate) struct Progress {
    page: Page,
    count: u64,
}

impl Progress {
    /// Returns the state before the first line.
    pub(crate) fn new() -> Progress
        ensures page { result.page.items ≡ [] }
        ensures count { result.count ≡ 0 }
    {
        Progress {
            page: Page::new(),
            count: 0,
        }
    }

    /// Goes on to the next line, and keeps it or not. The line has no line feed.
    pub(crate) fn add_line<A: Allocator, W: Write>(
        &mut self,
        filter: &LineFilter<'_, A>,
        line: &[u8],
        output: &mut W,
    ) -> Result<(), MatchFault>
        ensures kept { (before : List (List ℕ)) (start : Option (List ℕ))
            → HasKept filter.now before start (W.contents output.old) self.old
            → OnOk result (HasKept filter.now (before ++ line.now ∷ []) start
            (W.contents output.new) self.new) }
        ensures fault { (before : List (List ℕ)) (start : Option (List ℕ))
            → HasKept filter.now before start (W.contents output.old) self.old
            → IfErr result (StopsAtLine filter.now before line.now start
            (W.contents output.new) self.new) }
    {
        if !filter.keeps(line) {
            return Ok(());
        }
        let count = next_count(self.count)?;
        lay_line(output, &mut self.page, line)?;
        self.count = count;
        Ok(())
    }

    /// Writes what waits. Returns how many lines were kept.
    pub(crate) fn finish<W: Write>(&mut self, output: &mut W) -> Result<u64, MatchFault>
        ensures written { Writes (W.contents output.old) (W.contents output.new) result
            self.old.page.items }
        ensures count { IfOk result (λ count. count ≡ self.old.count) }
        ensures fault { IfErr result IsWriteFault }
    {
        send(output, &mut self.page)?;
        Ok(self.count)
    }
}

// Returns the number of kept lines after one more, or a fault if there can be none.
fn next_count(count: u64) -> Result<u64, MatchFault>
    ensures next { IfOk result (λ next. next ≡ count + 1) }
    ensures fault { IfErr result IsReadFault }
{
    match count.checked_add(1) {
        Some(next) => Ok(next),
        None => Err(too_many_lines()),
    }
}

/// Returns the fault of a text with too many lines.
pub(crate) fn too_many_lines() -> MatchFault
    ensures { IsReadFault result }
{
    MatchFault::NotRead(io::Error::from(ErrorKind::FileTooLarge))
}
