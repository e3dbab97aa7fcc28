//! Blocks that were worked out by hand.

use ip_sets::{Address, Block, Blocks, IntoBlocks, blocks_of, set_blocks};
use range_set_blaze::RangeSetBlaze;
use std::alloc::{AllocError, Global};
use std::test::*;

/// Returns whether the blocks are these, each as its first address and the length of its prefix.
fn are<T: Address>(blocks: &[Block<T>], wanted: &[(T, u32)]) -> bool {
    if blocks.len() != wanted.len() {
        return false;
    }
    for (block, pair) in blocks.iter().zip(wanted) {
        if block.first != pair.0 || block.length != pair.1 {
            return false;
        }
    }
    true
}

/// Returns the blocks of a set, by a loop over them.
fn each_block<T: Address + 'static>(
    alloc: Global,
    set: &RangeSetBlaze<T>,
) -> Result<Vec<Block<T>>, AllocError> {
    let mut blocks = Vec::new(alloc);
    for block in Blocks::new(set.ranges()) {
        blocks.push(block)?;
    }
    Ok(blocks)
}

/// Returns whether the set of these ranges has these blocks: as a list, as the list of a stream, and
/// one by one.
fn has_blocks<T: Address + 'static>(
    alloc: Global,
    ranges: &[(T, T)],
    wanted: &[(T, u32)],
) -> Result<bool, AllocError> {
    let mut set = RangeSetBlaze::new(alloc);
    for pair in ranges {
        set.ranges_insert(pair.0..=pair.1)?;
    }
    Ok(
        are(&set_blocks(alloc, &set)?, wanted)
            && are(&blocks_of(alloc, set.ranges())?, wanted)
            && are(&each_block(alloc, &set)?, wanted),
    )
}

/// Returns the number of blocks of a set, by a loop over them.
fn block_count(set: &RangeSetBlaze<u32>) -> u32 {
    let mut count = 0u32;
    for _ in set.ranges().blocks() {
        count = count.saturating_add(1);
    }
    count
}

#[test]
fn a_network_is_one_block(rt: HostRuntime) -> Result<(), Fail> {
    assert!(rt;
        has_blocks(
            rt.alloc(),
            &[(0x0a00_0000u32, 0x0aff_ffff)],
            &[(0x0a00_0000, 8)]
        )?
    );
    assert!(rt; has_blocks(rt.alloc(), &[(5u32, 5)], &[(5, 32)])?);
    assert!(rt; has_blocks(rt.alloc(), &[(5u128, 5)], &[(5, 128)])?);
    Ok(())
}

#[test]
fn all_addresses_are_one_block(rt: HostRuntime) -> Result<(), Fail> {
    assert!(rt; has_blocks(rt.alloc(), &[(0, u32::MAX)], &[(0, 0)])?);
    assert!(rt; has_blocks(rt.alloc(), &[(0, u128::MAX)], &[(0, 0)])?);
    assert!(rt; has_blocks::<u32>(rt.alloc(), &[], &[])?);
    Ok(())
}

#[test]
fn the_ends_of_a_range_have_small_blocks(rt: HostRuntime) -> Result<(), Fail> {
    let blocks = [(1, 32), (2, 31), (4, 31), (6, 32)];
    assert!(rt; has_blocks(rt.alloc(), &[(1u32, 6)], &blocks)?);
    let blocks = [(1, 128), (2, 127), (4, 127), (6, 128)];
    assert!(rt; has_blocks(rt.alloc(), &[(1u128, 6)], &blocks)?);
    let blocks = [(1, 32), (2, 31), (4, 31), (6, 32), (8, 31)];
    assert!(rt; has_blocks(rt.alloc(), &[(1u32, 6), (8, 9)], &blocks)?);
    Ok(())
}

#[test]
fn the_last_address_is_in_the_last_block(rt: HostRuntime) -> Result<(), Fail> {
    let last = u32::MAX;
    assert!(rt; has_blocks(rt.alloc(), &[(last, last)], &[(last, 32)])?);
    assert!(rt;
        has_blocks(
            rt.alloc(),
            &[(last - 2, last)],
            &[(last - 2, 32), (last - 1, 31)]
        )?
    );
    let last = u128::MAX;
    assert!(rt; has_blocks(rt.alloc(), &[(last, last)], &[(last, 128)])?);
    assert!(rt;
        has_blocks(
            rt.alloc(),
            &[(last - 2, last)],
            &[(last - 2, 128), (last - 1, 127)]
        )?
    );
    Ok(())
}

#[test]
fn all_but_one_address_have_a_block_for_each_bit(rt: HostRuntime) -> Result<(), Fail> {
    let mut others = RangeSetBlaze::from(rt.alloc(), 0..=u32::MAX)?;
    others.remove(5)?;
    assert_eq!(rt; block_count(&others), 32);
    others.insert(5)?;
    others.remove(u32::MAX)?;
    assert_eq!(rt; block_count(&others), 32);
    Ok(())
}

/// Returns whether the blocks of a set, and a copy of them that is made after the first one, go on
/// with the same blocks.
fn copy_goes_on(
    alloc: Global,
    set: &RangeSetBlaze<u32>,
    rest: &[(u32, u32)],
) -> Result<bool, AllocError> {
    let mut blocks = Blocks::new(set.ranges());
    let Some(_) = blocks.next() else {
        return Ok(false);
    };
    let copied = blocks.clone()?.collect::<Vec<_>>(alloc)?;
    let left = blocks.collect::<Vec<_>>(alloc)?;
    Ok(are(&copied, rest) && are(&left, rest))
}

#[test]
fn a_copy_of_the_blocks_goes_on_alike(rt: HostRuntime) -> Result<(), Fail> {
    let set = RangeSetBlaze::from(rt.alloc(), 3..=9)?;
    assert!(rt; copy_goes_on(rt.alloc(), &set, &[(4, 30), (8, 31)])?);
    Ok(())
}

/// Returns whether these are the number of bits of an address, and the number of the last one.
fn has_numbers<T: Address>(bits: u32, last: u128) -> bool {
    T::bits() == bits
        && T::min_value().number() == 0
        && T::max_value().number() == last
        && T::from_number(T::min_value().number()) == T::min_value()
        && T::from_number(T::max_value().number()) == T::max_value()
}

#[test]
fn an_address_is_its_number(rt: HostRuntime) {
    assert!(rt; has_numbers::<u32>(32, 0xffff_ffff));
    assert!(rt; has_numbers::<u128>(128, u128::MAX));
    assert!(rt; 7u32.number() == 7 && u32::from_number(7) == 7);
    assert!(rt; 7u128.number() == 7 && u128::from_number(7) == 7);
}
