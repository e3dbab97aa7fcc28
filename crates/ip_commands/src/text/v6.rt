//! IPv6 addresses as text on a page.

ghost use Rattle.std.specs.Prelude.{◌≡◌, ◌+◌, ◌*◌, ◌≤◌, ◌<◌, ◌++◌, [], ◌∷◌, length};
ghost use Rattle.std.specs.Char.{digit_char};
ghost use Rattle.std.specs.Net.Text.{groups_text, hex, hex_groups_text, longest_zero_run};
ghost use Rattle.ip_sets.specs.Address.{v6_text};

use crate::page::{PAGE, Page, lay};
use crate::text::{LONGEST, lay_octets};
use std::net::Ipv6Addr;

/// Adds the text of an IPv6 address to a page, and a byte after it. There must be room for both.
pub(crate) fn lay_v6(page: &mut Page, address: u128, end: u8)
    requires { length page.old.items + LONGEST ≤ PAGE }
    ensures laid { page.new.items ≡ page.old.items ++ (v6_text address ++ end ∷ []) }
    ensures within { length page.new.items ≤ length page.old.items + LONGEST }
{
    let address = Ipv6Addr::from_bits(address);
    match address.to_ipv4_mapped() {
        Some(inner) => {
            lay(page, b"::ffff:");
            lay_octets(page, inner.octets(), end);
        }
        None => {
            lay_segments(page, &address.segments());
            page.push(end);
        }
    }
}

// Adds segments to a page, with the longest run of two or more zeros as `::`.
fn lay_segments(page: &mut Page, segments: &[u16])
    requires { length page.old.items + 5 * length segments.now ≤ PAGE }
    ensures laid { page.new.items ≡ page.old.items ++ hex_groups_text segments.now }
    ensures within { length page.new.items ≤ length page.old.items + 5 * length segments.now }
{
    let (start, count) = longest_zero_run(segments);
    if count < 2 {
        lay_groups(page, segments);
        return;
    }
    lay_groups(page, &segments[..start]);
    lay(page, b"::");
    lay_groups(page, &segments[start + count..]);
}

// Returns the start and the length of the longest run of zeros: the first, if several are longest.
fn longest_zero_run(segments: &[u16]) -> (usize, usize)
    ensures value { result ≡ longest_zero_run segments.now }
    ensures within { result.0 + result.1 ≤ length segments.now }
{
    let mut start = segments.len();
    let mut longest = 0;
    let mut run = 0;
    for at in (0..segments.len()).rev() {
        run = if segments[at] == 0 { run + 1 } else { 0 };
        if run >= longest {
            start = at;
            longest = run;
        }
    }
    (start, longest)
}

// Adds segments to a page, with a colon between each two.
fn lay_groups(page: &mut Page, segments: &[u16])
    requires { length page.old.items + 5 * length segments.now ≤ PAGE }
    ensures laid { page.new.items ≡ page.old.items ++ groups_text segments.now }
    ensures within { length page.new.items ≤ length page.old.items + 5 * length segments.now }
{
    if let [first, others @ ..] = segments {
        lay_hex(page, *first);
        for segment in others {
            page.push(b':');
            lay_hex(page, *segment);
        }
    }
}

// Adds a segment in hexadecimal to a page.
#[inline(always)]
fn lay_hex(page: &mut Page, segment: u16)
    requires { length page.old.items + 4 ≤ PAGE }
    ensures laid { page.new.items ≡ page.old.items ++ hex segment }
    ensures within { length page.new.items ≤ length page.old.items + 4 }
{
    let last = hex_digit(segment % 16);
    if segment < 0x10 {
        page.push(last);
        return;
    }
    let third = hex_digit(segment / 0x10 % 16);
    if segment < 0x100 {
        lay(page, &[third, last]);
        return;
    }
    let second = hex_digit(segment / 0x100 % 16);
    if segment < 0x1000 {
        lay(page, &[second, third, last]);
        return;
    }
    lay(page, &[hex_digit(segment / 0x1000), second, third, last]);
}

// The hexadecimal digits.
const DIGITS: [u8; 16] = *b"0123456789abcdef";

// Returns a hexadecimal digit.
#[inline(always)]
fn hex_digit(digit: u16) -> u8
    requires { digit < 16 }
    ensures { result ≡ digit_char digit }
{
    DIGITS[digit as usize]
}
