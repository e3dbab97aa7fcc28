//! How many runs a nest of operations gives, proved only from public contracts.

ghost use Rattle.std.specs.Prelude.{ℕ, ◌+◌};
ghost use Rattle.rsb_streams.specs.RunCount.{HasAtMost};

use rsb_integer::Integer;
use rsb_streams::{Difference, Draw, DrawDisjoint, RangeOnce, Union};
use test_support::gives;

/// Returns the values in either of two streams but not in a third.
fn either_without<T: Integer, A: DrawDisjoint<T>, B: DrawDisjoint<T>, C: DrawDisjoint<T>>(
    first: A,
    second: B,
    third: C,
) -> Difference<T, Union<T, A, B>, C>
    requires first { A.can_draw first }
    requires second { B.can_draw second }
    requires third { C.can_draw third }
    ensures ready { ⟦<Difference<T, Union<T, A, B>, C> as Draw<T>>⟧.can_draw result }
    ensures run_count { (ones twos threes : ℕ) → HasAtMost (A.may_give first) ones
        → HasAtMost (B.may_give second) twos → HasAtMost (C.may_give third) threes
        → HasAtMost (⟦<Difference<T, Union<T, A, B>, C> as Draw<T>>⟧.may_give result)
        (ones + twos + threes) }
{
    let either = first.union(second);
    either.difference(third)
}

#[test]
fn three_ranges_make_three_runs(rt: HostRuntime) {
    let low = RangeOnce::new(0u8..=9);
    let cut = either_without(low, RangeOnce::new(20..=29), RangeOnce::new(5..=6));
    assert!(rt; gives(cut, &[(0, 4), (7, 9), (20, 29)]));
}
