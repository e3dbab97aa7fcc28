//! Addresses, and their texts.

use ip_sets::{v4_block_text, v4_range_text, v4_text, v6_block_text, v6_range_text, v6_text};
use std::test::*;

#[test]
fn an_ipv4_address_is_four_numbers(rt: HostRuntime) -> Result<(), Fail> {
    for (address, wanted) in [
        (0x0102_0304, "1.2.3.4"),
        (0, "0.0.0.0"),
        (0xffff_ffff, "255.255.255.255"),
    ] {
        assert_eq!(rt; v4_text(rt.alloc(), address)?.as_str(), wanted);
    }
    Ok(())
}

#[test]
fn an_ipv6_address_is_as_short_as_it_can_be(rt: HostRuntime) -> Result<(), Fail> {
    for (address, wanted) in [
        (0, "::"),
        (1, "::1"),
        (
            0x2001_0db8_0000_0000_0001_0000_0000_0001,
            "2001:db8::1:0:0:1",
        ),
        (
            0x2001_0db8_0000_0001_0001_0001_0001_0001,
            "2001:db8:0:1:1:1:1:1",
        ),
        (0x2001_0000_0000_0001_0000_0000_0000_0001, "2001:0:0:1::1"),
        (0x2001_0db8_0000_0000_0000_0000_0000_abcd, "2001:db8::abcd"),
        (
            0x0000_0000_0000_0000_0000_ffff_c000_0201,
            "::ffff:192.0.2.1",
        ),
    ] {
        assert_eq!(rt; v6_text(rt.alloc(), address)?.as_str(), wanted);
    }
    Ok(())
}

#[test]
fn a_block_is_an_address_a_slash_and_a_length(rt: HostRuntime) -> Result<(), Fail> {
    let v4 = v4_block_text(rt.alloc(), 0x0a00_0000, 8)?;
    assert_eq!(rt; v4.as_str(), "10.0.0.0/8");
    let v6 = v6_block_text(rt.alloc(), 0x2001_0db8 << 96, 32)?;
    assert_eq!(rt; v6.as_str(), "2001:db8::/32");
    Ok(())
}

#[test]
fn a_range_is_two_addresses_and_a_dash(rt: HostRuntime) -> Result<(), Fail> {
    let v4 = v4_range_text(rt.alloc(), 0x0102_0304, 0x0102_0309)?;
    assert_eq!(rt; v4.as_str(), "1.2.3.4-1.2.3.9");
    let v6 = v6_range_text(rt.alloc(), 1, 0xffff)?;
    assert_eq!(rt; v6.as_str(), "::1-::ffff");
    Ok(())
}
