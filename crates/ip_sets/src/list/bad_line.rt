//! Lines without a meaning.

ghost use Rattle.std.specs.Prelude.{◌≡◌, Some};
ghost use Rattle.ip_sets.specs.Excerpt.{excerpt, excerpt_of};
ghost use Rattle.ip_sets.specs.Line.{content};
ghost use Rattle.ip_sets.specs.List.{bad_line_text};
ghost use Rattle.ip_sets.specs.Reason.{IsReason};

use crate::line::content;
use crate::line::reasons::{Reason, reason_of};
use crate::list::excerpt::Excerpt;
use std::fmt;

/// A line that is neither blank nor an address, a block or a range. As text it is its number, the
/// reason and its content, with colons between them.
#[derive(Debug, Drop)]
pub struct BadLine {
    /// The number of the line, counted from 1.
    pub number: u64,
    /// A reason why it is bad: `Other` only if no other holds.
    pub reason: Reason,
    /// The start of what the line has before its comment.
    pub text: Excerpt,
}

impl BadLine {
    /// Returns the report of a line.
    pub(crate) fn new(number: u64, line: &[u8]) -> BadLine
        ensures number { result.number ≡ number }
        ensures reason { IsReason result.reason (content line.now) }
        ensures text { excerpt_of result.text ≡ excerpt (content line.now) }
    {
        let text = content(line);
        BadLine {
            number,
            reason: reason_of(text),
            text: Excerpt::of(text),
        }
    }
}

impl fmt::Display for BadLine {
    ghost output = { λ bad. Some (bad_line_text bad) };

    fn fmt<W: fmt::Write>(&self, f: &mut fmt::Formatter<W>) -> fmt::Result {
        write!(f, "{}: {}: {}", self.number, self.reason, self.text)
    }
}
