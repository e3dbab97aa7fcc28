//! The start of a text, in printing ASCII.

ghost use Rattle.std.specs.Prelude.{◌≡◌, ◌+◌, ◌*◌, ◌<◌, ◌≤◌, ◌++◌, Some, length};
ghost use Rattle.std.specs.Char.{digit_char};
ghost use Rattle.arrayvec.specs.ArrayString.{array_string_len};
ghost use Rattle.ip_sets.specs.Excerpt.{excerpt, excerpt_of, shown, shown_byte};

use arrayvec::ArrayString;
use std::fmt;

/// The number of bytes that an excerpt shows.
const SHOWN: usize = 60;

/// The number of bytes that an excerpt keeps: one more, which says whether there are more.
const KEPT: usize = 61;

/// The number of bytes that an excerpt has as text, at most: four for each byte that it shows, and
/// three dots.
const LONGEST: usize = 4 * 60 + 3;

/// The text of an excerpt.
type Text = ArrayString<LONGEST>;

/// The start of a text: as text it is the first sixty bytes, and three dots if there are more. A byte
/// that is not printing ASCII, and a backslash, are written as `\x` and two hexadecimal digits.
#[derive(Clone, Copy, Debug)]
pub struct Excerpt {
    start: [u8; KEPT],
    len: usize,
}

impl Excerpt {
    /// Returns the start of a text.
    pub(crate) fn of(text: &[u8]) -> Excerpt
        ensures { excerpt_of result ≡ excerpt text.now }
    {
        let len = text.len().min(KEPT);
        let mut start = [0; KEPT];
        start[..len].copy_from_slice(&text[..len]);
        Excerpt { start, len }
    }
}

impl fmt::Display for Excerpt {
    ghost output = { λ it. Some (excerpt_of it) };

    fn fmt<W: fmt::Write>(&self, f: &mut fmt::Formatter<W>) -> fmt::Result {
        let text = shown_start(&self.start[..self.len.min(KEPT)]);
        write!(f, "{text}")
    }
}

// Returns the start of a text, as it is shown.
fn shown_start(text: &[u8]) -> Text
    ensures { result.bytes ≡ excerpt text.now }
{
    if text.len() <= SHOWN {
        return all_shown(text);
    }
    let mut start = all_shown(&text[..SHOWN]);
    start.push_str("...");
    start
}

// Returns all bytes of a short text.
fn all_shown(text: &[u8]) -> Text
    requires { length text.now ≤ SHOWN }
    ensures bytes { result.bytes ≡ shown text.now }
    ensures within { length result.bytes ≤ 4 * length text.now }
{
    let mut all = Text::new();
    for byte in text {
        show(&mut all, *byte);
    }
    all
}

// Adds a byte. There must be room for it.
fn show(all: &mut Text, byte: u8)
    requires { array_string_len all.old + 4 ≤ LONGEST }
    ensures bytes { all.new.bytes ≡ all.old.bytes ++ shown_byte byte }
    ensures within { array_string_len all.new ≤ array_string_len all.old + 4 }
{
    if (b' '..=b'~').contains(&byte) && byte != b'\\' {
        all.push(char::from(byte));
        return;
    }
    all.push_str("\\x");
    all.push(hex_digit(byte / 16));
    all.push(hex_digit(byte % 16));
}

// Returns a hexadecimal digit.
fn hex_digit(digit: u8) -> char
    requires { digit < 16 }
    ensures digit { result ≡ digit_char digit }
    ensures ascii { result < 128 }
{
    char::from(DIGITS[digit as usize])
}

// The hexadecimal digits.
const DIGITS: [u8; 16] = *b"0123456789abcdef";
