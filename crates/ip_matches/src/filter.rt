//! Which lines of a text are kept.

ghost use Rattle.std.specs.Prelude.{◌≡◌, ◌↔◌, ◌+◌, ◌<◌, [], IfSome, IsTrue, length, slice_index_or};
ghost use Rattle.std.specs.Char.{is_ascii_whitespace};
ghost use Rattle.std.specs.List.{position};
ghost use Rattle.range_set_blaze.specs.Runs.{members};
ghost use Rattle.ip_matches.specs.LineFilter.{HasMatch, IsKept, fields, has_found, searched_text};

use crate::address::{FoundAddress, first_address};
use ip_sets::AddressList;
use std::alloc::Allocator;

/// Which lines are kept: those whose first address the lists have, or else all others.
#[derive(Debug, Drop)]
pub struct LineFilter<'a, A: Allocator> {
    /// The lists.
    pub lists: &'a AddressList<A>,
    /// The number of the field that is searched, counted from 0. If there is none, the whole line is
    /// searched.
    pub field: Option<usize>,
    /// Whether the other lines are kept.
    pub inverts: bool,
}

impl<A: Allocator> LineFilter<'_, A> {
    /// Returns whether a line is kept. The line has no line feed.
    pub fn keeps(&self, line: &[u8]) -> bool
        ensures { IsTrue result ↔ IsKept self.now line.now }
    {
        has_match(self.lists, searched_text(line, self.field)) != self.inverts
    }
}

// Returns whether the lists have the first address of a text.
fn has_match<A: Allocator>(lists: &AddressList<A>, text: &[u8]) -> bool
    ensures { IsTrue result
        ↔ HasMatch (members lists.now.v4) (members lists.now.v6) text.now }
{
    match first_address(text) {
        Some(address) => has_found(lists, address),
        None => false,
    }
}

// Returns whether the lists have an address.
fn has_found<A: Allocator>(lists: &AddressList<A>, address: FoundAddress) -> bool
    ensures { result ≡ has_found (members lists.now.v4) (members lists.now.v6) address }
{
    match address {
        FoundAddress::V4(address) => lists.v4.contains(address),
        FoundAddress::V6(address) => lists.v6.contains(address),
    }
}

// Returns what is searched for an address: the line, or a field of it.
fn searched_text(line: &[u8], field: Option<usize>) -> &[u8]
    ensures { result.now ≡ searched_text field line.now }
{
    match field {
        Some(number) => nth_field(line, number),
        None => line,
    }
}

// Returns the field with a number, counted from 0, or no bytes if there are fewer fields.
fn nth_field(line: &[u8], number: usize) -> &[u8]
    ensures { result.now ≡ slice_index_or (fields line.now) number [] }
{
    let mut rest = line;
    let mut left = number;
    while let Some(end) = blank(rest) {
        let part = &rest[..end];
        if is_reached(part, left) {
            return part;
        }
        left = left_past(part, left);
        rest = &rest[end + 1..];
    }
    if !is_reached(rest, left) {
        return &[];
    }
    rest
}

// Returns the place of the first blank.
fn blank(text: &[u8]) -> Option<usize>
    ensures place { result ≡ position is_ascii_whitespace text.now }
    ensures within { IfSome result (λ end. end < length text.now) }
{
    text.iter().position(|byte| byte.is_ascii_whitespace())
}

// Returns whether a part of a line is the field that comes after the given number of other fields.
fn is_reached(part: &[u8], left: usize) -> bool
    ensures { IsTrue result ↔ (0 < length part.now) × (left ≡ 0) }
{
    !part.is_empty() && left == 0
}

// Returns how many fields come first, without the part if it is one.
fn left_past(part: &[u8], left: usize) -> usize
    requires { 0 < length part.now → 0 < left }
    ensures none { length part.now ≡ 0 → result ≡ left }
    ensures one { 0 < length part.now → result + 1 ≡ left }
{
    if part.is_empty() { left } else { left - 1 }
}
