//! Lines, words and commands in bytes. Lines are read in place, without a copy.

ghost use Rattle.std.specs.Prelude.{
  ◌≡◌,
  ◌≢◌,
  ◌↔◌,
  ℕ,
  ℤ,
  ◌^◌,
  ◌<◌,
  ◌≤◌,
  ◌==◌,
  [],
  ◌∷◌,
  Err,
  IfOk,
  IfSome,
  IsTrue,
  List,
  MatchOption,
  Some,
  SomeIff,
  codes,
  length,
  position,
};
ghost use Rattle.std.specs.Char.{digit_value};
ghost use Rattle.std.specs.List.{AllZip};
ghost use Rattle.std.specs.Str.Lines.{lines, strip_carriage_return};
ghost use Rattle.std.specs.Str.Parse.{IsNumeral, digits_value};
ghost use Rattle.rsb_command_parser.specs.declared.command.Command.{Command};
ghost use Rattle.rsb_command_parser.specs.Spelling.{
  AreCommands,
  IsArgument,
  IsFirstBadLine,
  IsNoneOf,
  IsNumber,
  IsSlot,
  Reads,
  ReadsFirst,
  Spells,
  StartsWithCommand,
  is_blank,
  number,
  slot,
  words,
};

use crate::command::Command;
use crate::fault::Fault;
use crate::set_no::SetNo;
use memchr::memchr_iter;
use std::alloc::Allocator;

/// Returns the commands that the lines spell, or `BadLine` with the number of the first line that
/// has words but spells no command. It allocates only for the list of commands, and returns
/// `NoMemory` if that fails. So `NoMemory` is possible only if the first line with words spells a
/// command.
pub fn parse_commands<A: Allocator + Copy>(
    alloc: A,
    input: &[u8],
) -> Result<Vec<Command<i32>, A>, Fault>
    ensures commands { IfOk result (λ commands. AreCommands input.now commands.items) }
    ensures only { IfOk result (λ commands.
        (others : List (Command ℤ)) → AreCommands input.now others → others ≡ commands.items) }
    ensures bad_line { (number : ℕ) → result ≡ Err (Fault.BadLine number)
        → IsFirstBadLine input.now number }
    ensures no_io { result ≢ Err Fault.Io }
    ensures took_memory { result ≡ Err Fault.NoMemory → StartsWithCommand input.now }
{
    let (commands, _) = parse_lines(alloc, input)?;
    Ok(commands)
}

/// Does the same as `parse_commands`, and also returns the number of lines.
pub(crate) fn parse_lines<A: Allocator + Copy>(
    alloc: A,
    input: &[u8],
) -> Result<(Vec<Command<i32>, A>, u64), Fault>
    ensures commands { IfOk result (λ read. AreCommands input.now read.0.items) }
    ensures counted { IfOk result (λ read. read.1 ≡ length (lines input.now)) }
    ensures bad_line { (number : ℕ) → result ≡ Err (Fault.BadLine number)
        → IsFirstBadLine input.now number }
    ensures no_io { result ≢ Err Fault.Io }
    ensures took_memory { result ≡ Err Fault.NoMemory → StartsWithCommand input.now }
{
    let mut commands = Vec::new(alloc);
    let mut rest = input;
    let mut number = 0u64;
    while !rest.is_empty() {
        let (line, later) = first_line(rest);
        number += 1;
        if let Some((keyword, arguments)) = first_word(line) {
            let Some(command) = command_of(keyword, arguments) else {
                return Err(Fault::BadLine(number));
            };
            commands.push(command)?;
        }
        rest = later;
    }
    Ok((commands, number))
}

// Returns the first line without its ending, and the bytes after it. There must be a byte.
fn first_line(bytes: &[u8]) -> (&[u8], &[u8])
    requires { 0 < length bytes.now }
    ensures lines { lines bytes.now ≡ result.0.now ∷ lines result.1.now }
    ensures shorter { length result.1.now < length bytes.now }
{
    match line_feed(bytes) {
        None => (bytes, &[]),
        Some(i) => {
            let line = &bytes[..i];
            (without_return(line), &bytes[i + 1..])
        }
    }
}

// Returns the place of the first line feed. Lines are short, and the iterator is fast at places
// nearby.
fn line_feed(bytes: &[u8]) -> Option<usize>
    ensures place { result ≡ position (λ byte. byte == 10) bytes.now }
    ensures within { IfSome result (λ i. i < length bytes.now) }
{
    memchr_iter(b'\n', bytes).next()
}

// Returns the line without the carriage return at its end, if it has one.
fn without_return(line: &[u8]) -> &[u8]
    ensures { result.now ≡ strip_carriage_return line.now }
{
    match line {
        [front @ .., b'\r'] => front,
        _ => line,
    }
}

// Returns the first word of a line and what comes after it, or `None` if there is no word.
#[inline(always)]
fn first_word(line: &[u8]) -> Option<(&[u8], &[u8])>
    ensures { MatchOption result (words line.now ≡ [])
        (λ cut. words line.now ≡ cut.0.now ∷ words cut.1.now) }
{
    let rest = without_blanks(line);
    if rest.is_empty() {
        return None;
    }
    match blank(rest) {
        None => Some((rest, &[])),
        Some(i) => Some((&rest[..i], &rest[i + 1..])),
    }
}

// Returns the line from its first byte that is not a space or a tab.
#[inline(always)]
fn without_blanks(line: &[u8]) -> &[u8]
    ensures words { words result.now ≡ words line.now }
    ensures first { position is_blank result.now ≢ Some 0 }
{
    for (i, byte) in line.iter().enumerate() {
        if *byte != b' ' && *byte != b'\t' {
            return &line[i..];
        }
    }
    &[]
}

// Returns the place of the first space or tab.
#[inline(always)]
fn blank(line: &[u8]) -> Option<usize>
    ensures place { result ≡ position is_blank line.now }
    ensures within { IfSome result (λ i. i < length line.now) }
{
    line.iter().position(|byte| *byte == b' ' || *byte == b'\t')
}

// Returns whether the line has no word.
fn is_blank_line(line: &[u8]) -> bool
    ensures { IsTrue result ↔ (words line.now ≡ []) }
{
    first_word(line).is_none()
}

// Returns the command that a keyword and the words of its arguments spell.
fn command_of(keyword: &[u8], arguments: &[u8]) -> Option<Command<i32>>
    ensures { Reads result (Spells (keyword.now ∷ words arguments.now)) }
{
    match keyword {
        b"add" => {
            let (slot, first, last) = slot_and_range(arguments)?;
            Some(Command::Add { slot, first, last })
        }
        b"del" => {
            let (slot, value) = slot_and_value(arguments)?;
            Some(Command::Del { slot, value })
        }
        b"has" => {
            let (slot, value) = slot_and_value(arguments)?;
            Some(Command::Has { slot, value })
        }
        b"gap" => {
            let (slot, value) = slot_and_value(arguments)?;
            Some(Command::Gap { slot, value })
        }
        b"len" => {
            let slot = one_slot(arguments)?;
            Some(Command::Count { slot })
        }
        b"show" => {
            let slot = one_slot(arguments)?;
            Some(Command::Show { slot })
        }
        _ => operation_of(keyword, arguments),
    }
}

// Returns the command on several sets that a keyword and the words of its arguments spell. The
// keyword must not be one of those that `command_of` handles itself.
fn operation_of(keyword: &[u8], arguments: &[u8]) -> Option<Command<i32>>
    requires { IsNoneOf (codes "add" ∷ codes "del" ∷ codes "has" ∷ codes "gap" ∷ codes "len"
        ∷ codes "show" ∷ []) keyword.now }
    ensures { Reads result (Spells (keyword.now ∷ words arguments.now)) }
{
    match keyword {
        b"or" => {
            let (target, left, right) = three_slots(arguments)?;
            Some(Command::Union {
                target,
                left,
                right,
            })
        }
        b"and" => {
            let (target, left, right) = three_slots(arguments)?;
            Some(Command::Intersection {
                target,
                left,
                right,
            })
        }
        b"sub" => {
            let (target, left, right) = three_slots(arguments)?;
            Some(Command::Difference {
                target,
                left,
                right,
            })
        }
        b"xor" => {
            let (target, left, right) = three_slots(arguments)?;
            Some(Command::SymmetricDifference {
                target,
                left,
                right,
            })
        }
        b"not" => {
            let (target, source) = two_slots(arguments)?;
            Some(Command::Complement { target, source })
        }
        b"most" => {
            let (target, a, b, c) = four_slots(arguments)?;
            Some(Command::Most { target, a, b, c })
        }
        b"cmp" => {
            let (left, right) = two_slots(arguments)?;
            Some(Command::Compare { left, right })
        }
        _ => None,
    }
}

// Returns a slot and two numbers, if there is nothing after them.
#[inline(always)]
fn slot_and_range(arguments: &[u8]) -> Option<(SetNo, i32, i32)>
    ensures { Reads result (λ read. AllZip IsArgument (words arguments.now)
        (slot read.0 ∷ number read.1 ∷ number read.2 ∷ [])) }
{
    let (word, rest) = first_word(arguments)?;
    let slot = slot(word)?;
    let (first, rest) = first_number(rest)?;
    let (last, rest) = last_number(rest)?;
    if is_blank_line(rest) {
        Some((slot, first, last))
    } else {
        None
    }
}

// Returns a slot and a number, if there is nothing after them.
#[inline(always)]
fn slot_and_value(arguments: &[u8]) -> Option<(SetNo, i32)>
    ensures { Reads result (λ read. AllZip IsArgument (words arguments.now)
        (slot read.0 ∷ number read.1 ∷ [])) }
{
    let (word, rest) = first_word(arguments)?;
    let slot = slot(word)?;
    let (value, rest) = last_number(rest)?;
    if is_blank_line(rest) {
        Some((slot, value))
    } else {
        None
    }
}

// Returns a slot, if there is nothing after it.
#[inline(always)]
fn one_slot(arguments: &[u8]) -> Option<SetNo>
    ensures { Reads result (λ n. AllZip IsArgument (words arguments.now)
        (slot n ∷ [])) }
{
    let (word, rest) = first_word(arguments)?;
    let slot = slot(word)?;
    if is_blank_line(rest) {
        Some(slot)
    } else {
        None
    }
}

// Returns two slots, if there is nothing after them.
#[inline(always)]
fn two_slots(arguments: &[u8]) -> Option<(SetNo, SetNo)>
    ensures { Reads result (λ read. AllZip IsArgument (words arguments.now)
        (slot read.0 ∷ slot read.1 ∷ [])) }
{
    let (word, rest) = first_word(arguments)?;
    let left = slot(word)?;
    let right = one_slot(rest)?;
    Some((left, right))
}

// Returns three slots, if there is nothing after them.
#[inline(always)]
fn three_slots(arguments: &[u8]) -> Option<(SetNo, SetNo, SetNo)>
    ensures { Reads result (λ read. AllZip IsArgument (words arguments.now)
        (slot read.0 ∷ slot read.1 ∷ slot read.2 ∷ [])) }
{
    let (word, rest) = first_word(arguments)?;
    let target = slot(word)?;
    let (left, right) = two_slots(rest)?;
    Some((target, left, right))
}

// Returns four slots, if there is nothing after them.
#[inline(always)]
fn four_slots(arguments: &[u8]) -> Option<(SetNo, SetNo, SetNo, SetNo)>
    ensures { Reads result (λ read. AllZip IsArgument (words arguments.now)
        (slot read.0 ∷ slot read.1 ∷ slot read.2 ∷ slot read.3 ∷ [])) }
{
    let (word, rest) = first_word(arguments)?;
    let target = slot(word)?;
    let (a, b, c) = three_slots(rest)?;
    Some((target, a, b, c))
}

// Returns the number that the first word of a line spells, and what comes after it.
#[inline(always)]
fn first_number(line: &[u8]) -> Option<(i32, &[u8])>
    ensures { ReadsFirst result IsNumber line.now }
{
    let (word, rest) = first_word(line)?;
    Some((number(word)?, rest))
}

// Returns the same as `first_number`. Usually the word is the last of its line, and one pass reads
// it.
#[inline(always)]
fn last_number(line: &[u8]) -> Option<(i32, &[u8])>
    ensures { ReadsFirst result IsNumber line.now }
{
    let rest = without_blanks(line);
    if let Some(last) = number(rest) {
        return Some((last, &[]));
    }
    first_number(line)
}

// Returns the slot that a word names.
#[inline(always)]
fn slot(word: &[u8]) -> Option<SetNo>
    ensures { Reads result (IsSlot word.now) }
{
    match word {
        [digit @ b'0'..=b'9'] => SetNo::new(*digit - b'0'),
        _ => None,
    }
}

// Returns the number that a word spells.
#[inline(always)]
fn number(word: &[u8]) -> Option<i32>
    ensures { Reads result (IsNumber word.now) }
{
    let (first, others) = word.split_first()?;
    match *first {
        b'-' => 0i32.checked_sub_unsigned(digits(others)?),
        b'+' => 0i32.checked_add_unsigned(digits(others)?),
        _ => 0i32.checked_add_unsigned(digits(word)?),
    }
}

// Returns the number that decimal digits spell, if there is a digit and the number fits 32 bits.
#[inline(always)]
fn digits(digits: &[u8]) -> Option<u32>
    ensures { SomeIff result (IsNumeral 10 digits.now × (digits_value 10 digits.now < 2 ^ 32))
        (digits_value 10 digits.now) }
{
    if digits.is_empty() {
        return None;
    }
    let mut value = 0u32;
    for digit in digits {
        let next = u64::from(value) * 10 + u64::from(value_of(*digit)?);
        if next > u64::from(u32::MAX) {
            return None;
        }
        value = next as u32;
    }
    Some(value)
}

// Returns the value of a decimal digit.
#[inline(always)]
fn value_of(byte: u8) -> Option<u8>
    ensures { SomeIff result (digit_value byte < 10) (digit_value byte) }
{
    if byte.is_ascii_digit() {
        Some(byte - b'0')
    } else {
        None
    }
}
