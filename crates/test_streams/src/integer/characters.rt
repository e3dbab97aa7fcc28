//! Characters: their codes leave out the surrogates.

use crate::integer::ends::{are_neighbors, leads_across};

/// Returns whether a character is the one at the given position, counted from 1, and follows
/// `before`.
fn is_at(count: u32, c: char, before: Option<char>) -> bool {
    let others = 1_112_065_u32.saturating_sub(count);
    leads_across('\0', c, count)
        && leads_across(c, char::MAX, others)
        && before.is_none_or(|before| are_neighbors(before, c))
}

#[test]
fn characters_are_counted_and_stepped_without_the_surrogates(rt: HostRuntime) {
    let mut before: Option<char> = None;
    for (count, c) in (1_u32..).zip('\0'..=char::MAX) {
        assert!(rt; is_at(count, c, before), "{c:?}");
        before = Some(c);
    }
    assert!(rt; before == Some(char::MAX));
}

#[test]
fn steps_of_characters_leave_the_surrogates_out(rt: HostRuntime) {
    let (before, after) = ('\u{D7FF}', '\u{E000}');
    assert!(rt; are_neighbors(before, after) && leads_across(before, after, 2));
}
