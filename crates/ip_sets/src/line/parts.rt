//! The parts of a text, read in place.

ghost use Rattle.std.specs.Prelude.{◌≡◌, ◌<◌, ◌==◌, IfSome, length};
ghost use Rattle.std.specs.List.{position};
ghost use Rattle.ip_sets.specs.LineParts.{AreParts, trimmed};

/// The parts of a text between separators.
#[derive(Clone, Copy)]
pub(crate) enum Parts<'a> {
    /// The text has no separator.
    One,
    /// The text has one separator, between these parts.
    Two(&'a [u8], &'a [u8]),
    /// The text has more than one separator.
    More,
}

/// Returns the parts of a text between separators.
pub(crate) fn parts_of(text: &[u8], separator: u8) -> Parts<'_>
    ensures { AreParts result separator text.now }
{
    match place(text, separator) {
        None => Parts::One,
        Some(i) => {
            let first = &text[..i];
            let second = &text[i + 1..];
            match place(second, separator) {
                None => Parts::Two(first, second),
                Some(_) => Parts::More,
            }
        }
    }
}

// Returns the place of the first separator.
fn place(text: &[u8], separator: u8) -> Option<usize>
    ensures place { result ≡ position (λ byte. byte == separator) text.now }
    ensures within { IfSome result (λ i. i < length text.now) }
{
    text.iter().position(|byte| *byte == separator)
}

/// Returns the bytes without the white space at both ends.
pub(crate) fn trimmed(bytes: &[u8]) -> &[u8]
    ensures { result.now ≡ trimmed bytes.now }
{
    bytes.trim_ascii()
}
