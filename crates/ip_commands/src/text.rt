//! Addresses and numbers as text on a page.

ghost use Rattle.std.specs.Prelude.{◌≡◌, ◌+◌, ◌≤◌, ◌++◌, [], ◌∷◌, decimal, length};
ghost use Rattle.std.specs.Net.Text.{ipv4_text};
ghost use Rattle.ip_sets.specs.Address.{v4_text};

mod v6;

use crate::page::{PAGE, Page, lay};
pub(crate) use crate::text::v6::lay_v6;
use itoa::Buffer;

/// The number of bytes of the longest text of an address, with the byte after it. Each of the eight
/// groups of an IPv6 address counts as four digits and a colon.
pub(crate) const LONGEST: usize = 41;

/// Adds the text of an IPv4 address to a page, and a byte after it. There must be room for both.
#[inline]
pub(crate) fn lay_v4(page: &mut Page, address: u32, end: u8)
    requires { length page.old.items + 16 ≤ PAGE }
    ensures laid { page.new.items ≡ page.old.items ++ (v4_text address ++ end ∷ []) }
    ensures within { length page.new.items ≤ length page.old.items + 16 }
{
    lay_octets(page, address.to_be_bytes(), end);
}

// Adds four octets with dots between them to a page, and a byte after them.
#[inline]
fn lay_octets(page: &mut Page, octets: [u8; 4], end: u8)
    requires { length page.old.items + 16 ≤ PAGE }
    ensures laid { page.new.items ≡ page.old.items ++ (ipv4_text octets ++ end ∷ []) }
    ensures within { length page.new.items ≤ length page.old.items + 16 }
{
    let [first, second, third, fourth] = octets;
    lay_octet(page, first, b'.');
    lay_octet(page, second, b'.');
    lay_octet(page, third, b'.');
    lay_octet(page, fourth, end);
}

// Adds an octet in decimal to a page, and a byte after it. Each text has a known length, so it is
// copied without a call.
#[inline(always)]
fn lay_octet(page: &mut Page, octet: u8, end: u8)
    requires { length page.old.items + 4 ≤ PAGE }
    ensures laid { page.new.items ≡ page.old.items ++ (decimal octet ++ end ∷ []) }
    ensures within { length page.new.items ≤ length page.old.items + 4 }
{
    let ones = b'0' + octet % 10;
    if octet < 10 {
        lay(page, &[ones, end]);
        return;
    }
    let tens = b'0' + octet / 10 % 10;
    if octet < 100 {
        lay(page, &[tens, ones, end]);
        return;
    }
    lay(page, &[b'0' + octet / 100, tens, ones, end]);
}

/// Adds a number in decimal to a page, and a byte after it. There must be room for both.
#[inline(always)]
pub(crate) fn lay_length(page: &mut Page, number: u32, end: u8)
    requires { length page.old.items + 11 ≤ PAGE }
    ensures { page.new.items ≡ page.old.items ++ (decimal number ++ end ∷ []) }
{
    if number < 256 {
        lay_octet(page, number as u8, end);
        return;
    }
    lay(page, Buffer::new().format(number).as_bytes());
    page.push(end);
}
