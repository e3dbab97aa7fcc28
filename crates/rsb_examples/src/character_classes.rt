//! The character classes of a lexer. Every character is in exactly one of two classes.

ghost use Rattle.std.specs.Prelude.{◌≡◌, ℕ, not, ◌<◌, IfOk};
ghost use Rattle.range_set_blaze.specs.Runs.{members};

use range_set_blaze::RangeSetBlaze;
use std::alloc::{AllocError, Global};
use std::io;

/// Prints the two classes, and the class of each character of a line.
pub fn show(alloc: Global, rt: &impl Print) -> io::Result<()> {
    let (word, rest) = classes(alloc)?;
    println!(rt; "word: {word}")?;
    println!(rt; "rest: {rest}")?;
    show_line(&word, rt)
}

// Prints a line, and below each character whether it is one of words.
fn show_line(word: &RangeSetBlaze<char>, rt: &impl Print) -> io::Result<()> {
    let line = "let größe_2 = 7;";
    println!(rt; "{line}")?;
    for c in line.chars() {
        rt.print(if word.contains(c) { 'w' } else { '.' })?;
    }
    println!(rt; "")
}

/// Returns the characters of words, and all others. If allocation fails, no set is made.
pub fn classes(alloc: Global) -> Result<(RangeSetBlaze<char>, RangeSetBlaze<char>), AllocError>
    ensures { IfOk result (λ both. (rank : ℕ) → rank < 1112064
        → members both.1 rank ≡ not (members both.0 rank)) }
{
    let letters = letters(alloc)?;
    let mut digits = RangeSetBlaze::from(alloc, '0'..='9')?;
    digits.insert('_')?;
    let word = letters.bitor(&digits)?;
    let rest = word.not()?;
    Ok((word, rest))
}

// Returns the letters of English and German words.
fn letters(alloc: Global) -> Result<RangeSetBlaze<char>, AllocError> {
    let mut letters = RangeSetBlaze::from(alloc, 'a'..='z')?;
    letters.ranges_insert('A'..='Z')?;
    letters.extend_values(['ä', 'ö', 'ü', 'ß', 'Ä', 'Ö', 'Ü'])?;
    Ok(letters)
}
