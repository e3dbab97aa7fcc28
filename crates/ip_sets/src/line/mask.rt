//! The length of a block, which is written as a number or as a mask.

ghost use Rattle.std.specs.Prelude.{◌≡◌, ◌≤◌};
ghost use Rattle.ip_sets.specs.AddressRange.{WritesLength, mask_of};
ghost use Rattle.ip_sets.specs.LineParts.{Reads};

use crate::blocks::numbers::{greatest_power, ones};
use crate::line::family::Family;
use crate::line::prefix::{has_only_digits, prefix_length};

/// Returns the length of a block that a text writes: in decimal without a leading zero, or as the
/// mask of that length.
pub(crate) fn block_length<F: Family>(text: &[u8]) -> Option<u32>
    ensures { Reads result (λ length. WritesLength F.width F.is_address text.now length
        × (length ≤ F.width)) }
{
    if has_only_digits(text) {
        return prefix_length(text, F::bits());
    }
    mask_length(F::parse(text)?)
}

/// Returns the length of a mask, or `None` if it has a one after a zero.
pub(crate) fn mask_length<F: Family>(mask: F) -> Option<u32>
    ensures { Reads result (λ length. (F.rank mask ≡ mask_of F.width length) × (length ≤ F.width)) }
{
    let last = F::max_value().number();
    // The zeros of the mask, as ones.
    let others = last - mask.number();
    let free = greatest_power(others);
    if ones(free) != others {
        return None;
    }
    Some(F::bits() - free)
}
