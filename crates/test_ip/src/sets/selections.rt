//! What operations select from the streams of up to three lists. The rows are those of the
//! operations.

ghost use Rattle.std.specs.Prelude.{All};

use crate::sets::operations::{END_ROWS, END_TEXTS, ROWS, TEXTS, Way, lists, wrong_row};
use ip_sets::selection::{at_least, common, complement, except, odd, union, v4_ranges, v6_ranges};
use ip_sets::{Address, AddressList, AddressSet, Operation};
use range_set_blaze::DrawDisjoint;
use std::alloc::{AllocError, Allocator};
use std::test::*;

/// Returns the set of what an operation on ready streams gives.
fn selected_set<T: Address, I: DrawDisjoint<T>, A: Allocator + Copy>(
    alloc: A,
    operation: Operation,
    streams: Vec<I, A>,
) -> Result<AddressSet<T, A>, AllocError>
    requires { All I.can_draw streams.items }
{
    match operation {
        Operation::Union => AddressSet::from_ranges(alloc, union(alloc, streams)?),
        Operation::Common => AddressSet::from_ranges(alloc, common(alloc, streams)?),
        Operation::Except => AddressSet::from_ranges(alloc, except(alloc, streams)?),
        Operation::Odd => AddressSet::from_ranges(alloc, odd(alloc, streams)?),
        Operation::AtLeast(k) => AddressSet::from_ranges(alloc, at_least(alloc, streams, k)?),
        Operation::Complement => AddressSet::from_ranges(alloc, complement(alloc, streams)?),
    }
}

/// Returns the list of what an operation on the streams of lists gives.
pub(crate) fn selected<A: Allocator + Copy>(
    alloc: A,
    operation: Operation,
    lists: &[AddressList<A>],
) -> Result<AddressList<A>, AllocError> {
    let v4 = selected_set(alloc, operation, v4_ranges(alloc, lists)?)?;
    let v6 = selected_set(alloc, operation, v6_ranges(alloc, lists)?)?;
    Ok(AddressList { v4, v6 })
}

#[test]
fn streams_select_from_0_to_3_lists(rt: HostRuntime) -> Result<(), Fail> {
    let wrong = wrong_row(rt.alloc(), Way::Streams, &TEXTS, &ROWS)?;
    assert!(rt; wrong.is_none(), "at {wrong:?}");
    Ok(())
}

#[test]
fn streams_select_up_to_the_ends_of_a_family(rt: HostRuntime) -> Result<(), Fail> {
    let wrong = wrong_row(rt.alloc(), Way::Streams, &END_TEXTS, &END_ROWS)?;
    assert!(rt; wrong.is_none(), "at {wrong:?}");
    Ok(())
}

#[test]
fn there_is_a_stream_for_each_list(rt: HostRuntime) -> Result<(), Fail> {
    let lists = lists(rt.alloc(), &TEXTS)?;
    for count in 0..=lists.len() {
        let given = lists.get(..count).unwrap_or(&[]);
        assert!(rt; v4_ranges(rt.alloc(), given)?.len() == given.len());
        assert!(rt; v6_ranges(rt.alloc(), given)?.len() == given.len());
    }
    Ok(())
}
