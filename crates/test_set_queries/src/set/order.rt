//! The order of sets.

ghost use Rattle.std.specs.Prelude.{◌≡◌, true};

use range_set_blaze::laws::cmp_counted;
use range_set_blaze::{Integer, RangeSetBlaze};
use std::alloc::Allocator;
use std::cmp::Ordering::{self, Equal, Greater, Less};
use std::test::*;
use test_support::{Table, set_of};

// Returns whether `cmp` and `==` agree. This is proved only from public contracts: at every element
// type, `cmp` returns `Equal` if and only if `==` is true.
fn is_equal_both_ways<T: Integer, A: Allocator>(
    one: &RangeSetBlaze<T, A>,
    other: &RangeSetBlaze<T, A>,
) -> bool
    ensures { result ≡ true }
{
    one.cmp(other).is_eq() == (one == other)
}

/// Whether two sets have this order by each call, and are equal if it is `Equal`.
fn stand(one: &RangeSetBlaze<i32>, other: &RangeSetBlaze<i32>, order: Ordering) -> bool {
    one.cmp(other) == order
        && one.partial_cmp(other) == Some(order)
        && is_equal_both_ways(one, other)
}

/// Two sets, their order, and the number of iterations that it takes to find it.
static ORDERED: [(Table<'static>, Table<'static>, Ordering, u128); 10] = [
    (&[(1, 3)], &[(1, 2), (5, 5)], Less, 2),
    (&[(1, 2), (5, 5)], &[(1, 3)], Greater, 2),
    (&[(1, 2)], &[(1, 3)], Less, 2),
    (&[(1, 3), (5, 7)], &[(2, 2)], Less, 1),
    (&[], &[], Equal, 1),
    (&[], &[(7, 7)], Less, 1),
    (&[(1, 2), (4, 5)], &[(1, 2), (4, 5)], Equal, 3),
    (
        &[(1, 2), (4, 5)],
        &[(4, 4), (1, 1), (5, 5), (2, 2)],
        Equal,
        3,
    ),
    (&[(1, 2), (4, 5)], &[(1, 2)], Greater, 2),
    (&[(1, 2), (4, 5)], &[(1, 2), (4, 6)], Less, 3),
];

#[test]
fn sets_are_ordered_in_so_many_turns(rt: HostRuntime) -> Result<(), Fail> {
    for (left, right, order, turns) in &ORDERED {
        let (one, other) = (set_of(rt.alloc(), left)?, set_of(rt.alloc(), right)?);
        let is_told = cmp_counted(&one, &other) == (*order, *turns);
        assert!(rt;
            is_told && stand(&one, &other, *order),
            "{left:?} and {right:?}"
        );
    }
    Ok(())
}

#[test]
fn everything_equals_itself_after_two_turns(rt: HostRuntime) -> Result<(), Fail> {
    let everything = RangeSetBlaze::<i128>::universe(rt.alloc())?;
    assert!(rt; cmp_counted(&everything, &everything) == (Equal, 2));
    Ok(())
}
