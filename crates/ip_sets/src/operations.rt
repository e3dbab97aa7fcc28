//! Operations on lists of addresses, for both families.

ghost use Rattle.std.specs.Prelude.{◌^◌, All, IfOk, List, map};
ghost use Rattle.range_set_blaze.specs.Multiway.{IsMadeOf};
ghost use Rattle.range_set_blaze.specs.Runs.{Interval};
ghost use Rattle.ip_sets.specs.Operation.{selected_by};
ghost use Rattle.ip_sets.specs.Selection.{GiveEach};

use crate::blocks::Address;
use crate::list::AddressList;
use crate::selection::{at_least, common, complement, except, odd, union, v4_ranges, v6_ranges};
use crate::set::AddressSet;
use range_set_blaze::DrawDisjoint;
use std::alloc::{AllocError, Allocator};

/// Which addresses are selected from lists. A list that is given twice counts twice.
#[derive(Clone, Copy, Debug, PartialEq, Eq)]
pub enum Operation {
    /// Those in at least one list. If there are no lists, there are none.
    Union,
    /// Those in every list. If there are no lists, these are all addresses.
    Common,
    /// Those in the first list and in no other. If there are no lists, there are none.
    Except,
    /// Those in an odd number of lists. If there are no lists, there are none.
    Odd,
    /// Those in at least the given number of lists. These are all addresses if the number is 0, and
    /// there are none if there are fewer lists.
    AtLeast(usize),
    /// Those in no list. If there are no lists, these are all addresses.
    Complement,
}

/// Returns the list of the addresses that an operation selects from the lists, in each family. To
/// read the addresses only once, without a list of them, call the operation's function in
/// `selection`. If allocation fails, no list is made.
pub fn combine<A: Allocator + Copy>(
    alloc: A,
    operation: Operation,
    lists: &[AddressList<A>],
) -> Result<AddressList<A>, AllocError>
    ensures v4 { IfOk result (λ list. IsMadeOf (2 ^ 32) (selected_by operation)
        (map (λ list. list.v4) lists.now) list.v4) }
    ensures v6 { IfOk result (λ list. IsMadeOf (2 ^ 128) (selected_by operation)
        (map (λ list. list.v6) lists.now) list.v6) }
{
    let v4_streams = v4_ranges(alloc, lists)?;
    let v6_streams = v6_ranges(alloc, lists)?;
    let v4 = combined(alloc, operation, v4_streams)?;
    let v6 = combined(alloc, operation, v6_streams)?;
    Ok(AddressList { v4, v6 })
}

// Returns what an operation selects from ready streams of the addresses of one family.
fn combined<T: Address, I: DrawDisjoint<T>, A: Allocator + Copy>(
    alloc: A,
    operation: Operation,
    streams: Vec<I, A>,
) -> Result<AddressSet<T, A>, AllocError>
    requires { All I.can_draw streams.items }
    ensures { (sets : List (List Interval)) → GiveEach I.may_give streams.items sets
        → IfOk result (λ set. IsMadeOf T.value_count (selected_by operation) sets set) }
{
    match operation {
        Operation::Union => AddressSet::from_ranges(alloc, union(alloc, streams)?),
        Operation::Common => AddressSet::from_ranges(alloc, common(alloc, streams)?),
        Operation::Except => AddressSet::from_ranges(alloc, except(alloc, streams)?),
        Operation::Odd => AddressSet::from_ranges(alloc, odd(alloc, streams)?),
        Operation::AtLeast(k) => AddressSet::from_ranges(alloc, at_least(alloc, streams, k)?),
        Operation::Complement => AddressSet::from_ranges(alloc, complement(alloc, streams)?),
    }
}
