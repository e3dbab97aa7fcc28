//! The lengths of ranges.

use rsb_integer::Integer;
use rsb_length::UIntPlusOne;

#[test]
fn the_widest_lengths_are_exact(rt: HostRuntime) {
    assert!(rt; usize::safe_len(&(0..=usize::MAX)) == 18_446_744_073_709_551_616);
    assert!(rt; u128::safe_len(&(0..=0)) == UIntPlusOne::UInt(1));
    assert!(rt; u128::safe_len(&(0..=1)) == UIntPlusOne::UInt(2));
}
