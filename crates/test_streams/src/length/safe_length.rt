//! The greatest lengths.

ghost use Rattle.std.specs.Prelude.{◌≡◌};

use rsb_length::{SafeLength, UIntPlusOne};

/// Returns the greatest length, after a step down from it and back up.
fn greatest_again<L: SafeLength>() -> L
    ensures { L.number result ≡ L.limit }
{
    let mut length = L::greatest();
    length -= L::one();
    length += L::one();
    length
}

#[test]
fn greatest_lengths_are_left_and_reached_again(rt: HostRuntime) {
    assert!(rt; greatest_again::<u16>() == 65_535);
    assert!(rt; greatest_again::<u32>() == 4_294_967_295);
    assert!(rt; greatest_again::<u64>() == 18_446_744_073_709_551_615);
    assert!(rt; greatest_again::<u128>() == 340_282_366_920_938_463_463_374_607_431_768_211_455);
    assert!(rt; greatest_again::<UIntPlusOne<u8>>() == UIntPlusOne::MaxPlusOne);
    assert!(rt; greatest_again::<UIntPlusOne<u128>>() == UIntPlusOne::MaxPlusOne);
}
