//! Every allocation of each call is made to fail, one after the other. Each try is granted one
//! allocation more than the one before it, until the call succeeds. A call that does not allocate
//! succeeds if it is granted none.

use crate::lines::kept::lists;
use ip_matches::{LineFilter, MatchFault, count_kept_lines, first_address, write_kept_lines};
use ip_sets::AddressList;
use std::alloc::{AllocError, Global};
use std::io::BufReader;
use std::test::*;
use test_support::Counting;

/// A heap over ample memory, which fails starting at a given allocation.
type Heap = Counting<Global>;

/// A call.
#[derive(Clone, Copy, PartialEq, Eq)]
enum Call {
    FirstAddress,
    Keeps,
    Write,
    Count,
    /// A text whose lines all lie whole in the buffer.
    WriteWhole,
}

static CALLS: [Call; 5] = [
    Call::FirstAddress,
    Call::Keeps,
    Call::Write,
    Call::Count,
    Call::WriteWhole,
];

/// A text whose lines are longer than the buffer that it is read by.
static TEXT: &[u8] =
    b"10.0.0.1 a line that is longer than the buffer, and needs more than one part\n\
    11.0.0.1 another line\n10.0.0.2 a line that is even longer than the first one, and so needs more \
    memory than that one does, and this goes on and on and on and on and on and on and on\n";

/// Returns whether a call has the right result.
fn is_right(
    alloc: Global,
    heap: &Heap,
    lists: &AddressList,
    call: Call,
) -> Result<bool, AllocError> {
    let filter = LineFilter {
        lists,
        field: None,
        inverts: false,
    };
    let capacity = if call == Call::WriteWhole { 1024 } else { 16 };
    let Ok(mut input) = BufReader::with_capacity(alloc, capacity, TEXT) else {
        return Err(AllocError);
    };
    let mut kept = Vec::new(alloc);
    let result = match call {
        Call::FirstAddress => return Ok(first_address(TEXT).is_some()),
        Call::Keeps => return Ok(filter.keeps(TEXT)),
        Call::Count => count_kept_lines(heap, &filter, &mut input),
        _ => write_kept_lines(heap, &filter, &mut input, &mut kept),
    };
    match result {
        Ok(count) => Ok(count == 2 && (call == Call::Count || kept.len() == 237)),
        Err(MatchFault::NoMemory) => Err(AllocError),
        Err(_) => Ok(false),
    }
}

/// Returns the number of allocations that a call needs, or `None` if a result is wrong or memory is
/// lost.
fn allocations(alloc: Global, heap: &Heap, lists: &AddressList, call: Call) -> Option<usize> {
    for granted in 0..64usize {
        heap.fail_after(granted);
        let outcome = is_right(alloc, heap, lists, call);
        if heap.bytes() != 0 {
            return None;
        }
        match outcome {
            Ok(true) => return Some(granted),
            Ok(false) => return None,
            Err(_) => {}
        }
    }
    None
}

#[test]
fn each_allocation_may_fail(rt: HostRuntime) -> Result<(), Fail> {
    let lists = lists(rt.alloc())?;
    let heap = Counting::new(rt.alloc());
    for call in &CALLS {
        let allocates = matches!(*call, Call::Write | Call::Count);
        match allocations(rt.alloc(), &heap, &lists, *call) {
            Some(count) => assert!(rt; (count > 0) == allocates, "at {count}"),
            None => assert!(rt; false),
        }
    }
    Ok(())
}
