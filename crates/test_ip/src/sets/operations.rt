//! Operations on up to three lists, worked out by hand.

use crate::sets::address_set::are;
use crate::sets::selections::selected;
use ip_sets::{AddressList, Operation, combine, read_list};
use std::alloc::{AllocError, Allocator, Global};
use std::test::*;

/// The texts of three lists: 1 to 5, 3 to 8, and 5 to 9, in both families.
pub(crate) static TEXTS: [&str; 3] = [
    "0.0.0.1-0.0.0.5\n::1-::5\n",
    "0.0.0.3-0.0.0.8\n::3-::8\n",
    "0.0.0.5-0.0.0.9\n::5-::9\n",
];

/// The last address of a family.
const LAST: u32 = u32::MAX;

/// How an operation on lists is called.
#[derive(Clone, Copy)]
pub(crate) enum Way {
    /// As `combine`, on the lists.
    Combine,
    /// As its function of `selection`, on the streams of the lists.
    Streams,
}

/// An operation, and what it selects from none of the lists, from the first one, from the first
/// two, and from all three.
pub(crate) struct Row {
    pub(crate) operation: Operation,
    pub(crate) selected: [&'static [(u32, u32)]; 4],
}

/// What is selected from the three lists.
pub(crate) static ROWS: [Row; 9] = [
    Row {
        operation: Operation::Union,
        selected: [&[], &[(1, 5)], &[(1, 8)], &[(1, 9)]],
    },
    Row {
        operation: Operation::Common,
        selected: [&[(0, LAST)], &[(1, 5)], &[(3, 5)], &[(5, 5)]],
    },
    Row {
        operation: Operation::Except,
        selected: [&[], &[(1, 5)], &[(1, 2)], &[(1, 2)]],
    },
    Row {
        operation: Operation::Odd,
        selected: [&[], &[(1, 5)], &[(1, 2), (6, 8)], &[(1, 2), (5, 5), (9, 9)]],
    },
    Row {
        operation: Operation::AtLeast(0),
        selected: [&[(0, LAST)], &[(0, LAST)], &[(0, LAST)], &[(0, LAST)]],
    },
    Row {
        operation: Operation::AtLeast(1),
        selected: [&[], &[(1, 5)], &[(1, 8)], &[(1, 9)]],
    },
    Row {
        operation: Operation::AtLeast(2),
        selected: [&[], &[], &[(3, 5)], &[(3, 8)]],
    },
    Row {
        operation: Operation::AtLeast(3),
        selected: [&[], &[], &[], &[(5, 5)]],
    },
    Row {
        operation: Operation::Complement,
        selected: [
            &[(0, LAST)],
            &[(0, 0), (6, LAST)],
            &[(0, 0), (9, LAST)],
            &[(0, 0), (10, LAST)],
        ],
    },
];

/// The texts of three lists that reach an end of each family: the first six addresses and the last
/// two, all addresses except the first three, and the first address and the last one.
pub(crate) static END_TEXTS: [&str; 3] = [
    "0.0.0.0-0.0.0.5\n255.255.255.254/31\n\
    ::-::5\nffff:ffff:ffff:ffff:ffff:ffff:ffff:fffe/127\n",
    "0.0.0.3-255.255.255.255\n::3-ffff:ffff:ffff:ffff:ffff:ffff:ffff:ffff\n",
    "0.0.0.0\n255.255.255.255\n::\nffff:ffff:ffff:ffff:ffff:ffff:ffff:ffff\n",
];

/// What is selected from these lists.
pub(crate) static END_ROWS: [Row; 11] = [
    Row {
        operation: Operation::Union,
        selected: [&[], &[(0, 5), (LAST - 1, LAST)], &[(0, LAST)], &[(0, LAST)]],
    },
    Row {
        operation: Operation::Common,
        selected: [
            &[(0, LAST)],
            &[(0, 5), (LAST - 1, LAST)],
            &[(3, 5), (LAST - 1, LAST)],
            &[(LAST, LAST)],
        ],
    },
    Row {
        operation: Operation::Except,
        selected: [&[], &[(0, 5), (LAST - 1, LAST)], &[(0, 2)], &[(1, 2)]],
    },
    Row {
        operation: Operation::Odd,
        selected: [
            &[],
            &[(0, 5), (LAST - 1, LAST)],
            &[(0, 2), (6, LAST - 2)],
            &[(1, 2), (6, LAST - 2), (LAST, LAST)],
        ],
    },
    Row {
        operation: Operation::AtLeast(0),
        selected: [&[(0, LAST)], &[(0, LAST)], &[(0, LAST)], &[(0, LAST)]],
    },
    Row {
        operation: Operation::AtLeast(1),
        selected: [&[], &[(0, 5), (LAST - 1, LAST)], &[(0, LAST)], &[(0, LAST)]],
    },
    Row {
        operation: Operation::AtLeast(2),
        selected: [
            &[],
            &[],
            &[(3, 5), (LAST - 1, LAST)],
            &[(0, 0), (3, 5), (LAST - 1, LAST)],
        ],
    },
    Row {
        operation: Operation::AtLeast(3),
        selected: [&[], &[], &[], &[(LAST, LAST)]],
    },
    Row {
        operation: Operation::AtLeast(4),
        selected: [&[], &[], &[], &[]],
    },
    Row {
        operation: Operation::AtLeast(usize::MAX),
        selected: [&[], &[], &[], &[]],
    },
    Row {
        operation: Operation::Complement,
        selected: [&[(0, LAST)], &[(6, LAST - 2)], &[], &[]],
    },
];

/// Returns the lists with these texts.
pub(crate) fn lists(alloc: Global, texts: &[&str]) -> Result<Vec<AddressList>, Fail> {
    let mut lists = Vec::new(alloc);
    for text in texts {
        let mut input = text.as_bytes();
        lists.push(read_list(alloc, &mut input)?)?;
    }
    Ok(lists)
}

/// Returns the IPv6 address that is as far from the nearer end of its family as an IPv4 address is
/// from that end of its own.
fn as_v6(address: u32) -> u128 {
    if address <= LAST / 2 {
        return u128::from(address);
    }
    u128::MAX - u128::from(LAST - address)
}

/// Returns the same addresses of the other family.
pub(crate) fn v6(alloc: Global, v4: &[(u32, u32)]) -> Result<Vec<(u128, u128)>, AllocError> {
    let mut v6 = Vec::new(alloc);
    for pair in v4 {
        v6.push((as_v6(pair.0), as_v6(pair.1)))?;
    }
    Ok(v6)
}

/// Returns whether a list has exactly these addresses in both families.
pub(crate) fn is_selected<A: Allocator>(
    alloc: Global,
    list: &AddressList<A>,
    wanted: &[(u32, u32)],
) -> Result<bool, AllocError> {
    Ok(are(&list.v4, wanted) && are(&list.v6, &v6(alloc, wanted)?))
}

/// Returns whether an operation, called in this way, selects these addresses in both families.
pub(crate) fn selects(
    alloc: Global,
    way: Way,
    operation: Operation,
    lists: &[AddressList],
    wanted: &[(u32, u32)],
) -> Result<bool, AllocError> {
    let list = match way {
        Way::Combine => combine(alloc, operation, lists)?,
        Way::Streams => selected(alloc, operation, lists)?,
    };
    is_selected(alloc, &list, wanted)
}

/// Returns the least number of lists from which an operation, called in this way, does not select
/// what its row says.
fn first_wrong(
    alloc: Global,
    way: Way,
    lists: &[AddressList],
    row: &Row,
) -> Result<Option<usize>, AllocError> {
    for (count, wanted) in row.selected.iter().enumerate() {
        let given = lists.get(..count).unwrap_or(&[]);
        if !selects(alloc, way, row.operation, given, wanted)? {
            return Ok(Some(count));
        }
    }
    Ok(None)
}

/// Returns the first operation that does not select what its row says, and from how many lists.
pub(crate) fn wrong_row(
    alloc: Global,
    way: Way,
    texts: &[&str],
    rows: &[Row],
) -> Result<Option<(Operation, usize)>, Fail> {
    let lists = lists(alloc, texts)?;
    for row in rows {
        if let Some(count) = first_wrong(alloc, way, &lists, row)? {
            return Ok(Some((row.operation, count)));
        }
    }
    Ok(None)
}

#[test]
fn operations_select_from_0_to_3_lists(rt: HostRuntime) -> Result<(), Fail> {
    let wrong = wrong_row(rt.alloc(), Way::Combine, &TEXTS, &ROWS)?;
    assert!(rt; wrong.is_none(), "at {wrong:?}");
    Ok(())
}

#[test]
fn operations_select_up_to_the_ends_of_a_family(rt: HostRuntime) -> Result<(), Fail> {
    let wrong = wrong_row(rt.alloc(), Way::Combine, &END_TEXTS, &END_ROWS)?;
    assert!(rt; wrong.is_none(), "at {wrong:?}");
    Ok(())
}

#[test]
fn a_list_that_is_given_twice_counts_twice(rt: HostRuntime) -> Result<(), Fail> {
    let (alloc, way) = (rt.alloc(), Way::Combine);
    let lists = lists(alloc, &[TEXTS[0], TEXTS[0]])?;
    assert!(rt; selects(alloc, way, Operation::AtLeast(2), &lists, &[(1, 5)])?);
    assert!(rt; selects(alloc, way, Operation::Odd, &lists, &[])?);
    Ok(())
}
