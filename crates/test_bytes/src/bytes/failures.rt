//! Allocations that fail, and counts that announce runs that are not there.

use range_set_blaze::RangeSetBlaze;
use range_set_bytes::{ReadError, from_bytes, to_bytes};
use std::alloc::{AllocError, Global};
use std::test::*;
use test_support::Counting;

/// Returns a set of the given number of runs.
fn some_runs(alloc: Global, count: u16) -> Result<RangeSetBlaze<u16>, AllocError> {
    let mut set = RangeSetBlaze::new(alloc);
    for i in 0..count {
        set.ranges_insert(i.wrapping_mul(9)..=i.wrapping_mul(9).wrapping_add(3))?;
    }
    Ok(set)
}

// Nothing leaks, and what was read before the failure is gone.
#[test]
fn each_allocation_may_fail(rt: HostRuntime) -> Result<(), Fail> {
    for count in [0u16, 1, 3, 100] {
        let set = some_runs(rt.alloc(), count)?;
        let bytes = to_bytes(rt.alloc(), &set)?;
        let heap = Counting::new(rt.alloc());
        let mut refused = 0u32;
        for granted in 0..40usize {
            heap.fail_after(granted);
            match to_bytes(&heap, &set) {
                Ok(written) => assert!(rt; written.as_slice() == bytes.as_slice()),
                Err(_) => refused = refused.saturating_add(1),
            }
            heap.fail_after(granted);
            match from_bytes::<u16, &Counting<Global>>(&heap, &bytes) {
                Ok(read) => assert!(rt; read.ranges_len() == usize::from(count)),
                Err(ReadError::NoMemory(_)) => refused = refused.saturating_add(1),
                Err(ReadError::Invalid(_)) => assert!(rt; false, "{granted} allocations"),
            }
            assert!(rt; heap.bytes() == 0);
        }
        assert!(rt; refused > 0 && refused < 40);
    }
    Ok(())
}

// These bytes announce as many runs as there may be, and bring none. Nothing is allocated.
#[test]
fn a_count_alone_allocates_nothing(rt: HostRuntime) -> Result<(), Fail> {
    let heap = Counting::new(rt.alloc());
    heap.fail_after(0);
    let announced = [
        0xF5, 0x52, 0x53, 0x42, 1, 0x80, 255, 255, 255, 255, 255, 255, 255, 255, 255, 1,
    ];
    let read = from_bytes::<u128, &Counting<Global>>(&heap, &announced);
    assert!(rt; matches!(&read, Err(ReadError::Invalid(fault)) if fault.place == 16));
    assert!(rt; heap.allocations() == 0);
    let none = [0xF5, 0x52, 0x53, 0x42, 1, 0x80, 0];
    assert!(rt; from_bytes::<u128, &Counting<Global>>(&heap, &none).is_ok());
    assert!(rt; heap.allocations() == 0);
    Ok(())
}
