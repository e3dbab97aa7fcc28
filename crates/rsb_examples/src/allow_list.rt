//! An allow-list of addresses: which are allowed, and how far a closed block extends.

ghost use Rattle.std.specs.Prelude.{◌↔◌, ℕ, IfSome, IsFalse, IsNone, IsTrue};
ghost use Rattle.range_set_blaze.specs.Rank.{interval_of};
ghost use Rattle.range_set_blaze.specs.Runs.{covers, members};

use range_set_blaze::RangeSetBlaze;
use std::alloc::Global;
use std::io;
use std::ops::RangeInclusive;

/// Allows two blocks, and prints the closed block around an address.
pub fn show(alloc: Global, rt: &impl Print) -> io::Result<()> {
    let mut allowed = RangeSetBlaze::new(alloc);
    allowed.ranges_insert(0x0A00_0000..=0x0AFF_FFFF_u32)?;
    allowed.ranges_insert(0xC0A8_0000..=0xC0A8_FFFF)?;
    println!(rt;
        "{} addresses in {} blocks",
        allowed.len(),
        allowed.ranges_len()
    )?;
    for address in [0x0A01_0203, 0x7F00_0001, 0xC0A8_0101] {
        show_block(&allowed, address, rt)?;
    }
    Ok(())
}

// Prints whether an address is allowed, or how far the closed block around it extends.
fn show_block(allowed: &RangeSetBlaze<u32>, address: u32, rt: &impl Print) -> io::Result<()> {
    let Some(block) = closed_block(allowed, address) else {
        return println!(rt; "{address:08x} is allowed");
    };
    let (first, last) = block.into_inner();
    println!(rt; "{address:08x} is closed, as all from {first:08x} to {last:08x}")
}

/// Returns the closed block around an address, or `None` if the address is allowed. No address in
/// the block is allowed.
pub fn closed_block(allowed: &RangeSetBlaze<u32>, address: u32) -> Option<RangeInclusive<u32>>
    ensures none { IsNone result ↔ IsTrue (members allowed.now address) }
    ensures around { IfSome result (λ block. IsTrue (covers (interval_of (λ x. x) block) address)) }
    ensures closed { IfSome result (λ block. (other : ℕ)
        → IsTrue (covers (interval_of (λ x. x) block) other)
        → IsFalse (members allowed.now other)) }
{
    let (block, is_allowed) = allowed.range_or_gap_at(address);
    if is_allowed {
        return None;
    }
    Some(block)
}
