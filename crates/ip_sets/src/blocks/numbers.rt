//! The size of the biggest block at the start of a range of numbers.

ghost use Rattle.std.specs.Prelude.{◌≡◌, ◌+◌, ◌*◌, ◌^◌, ◌<◌, ◌≤◌};
ghost use Rattle.range_set_blaze.specs.Runs.{from_to};
ghost use Rattle.ip_sets.specs.BlocksLeft.{IsBiggest};

/// Returns the exponent of the number of addresses in the biggest block at the start of a range.
pub(crate) fn biggest_at(first: u128, last: u128) -> u32
    requires { first ≤ last }
    ensures { IsBiggest (from_to first last) result }
{
    let zeros = first.trailing_zeros();
    let fitting = greatest_power(last - first);
    if zeros < fitting {
        return zeros;
    }
    fitting
}

/// Returns the exponent of the greatest power of 2 that is at most `more + 1`.
pub(crate) fn greatest_power(more: u128) -> u32
    ensures fits { 2 ^ result ≤ more + 1 }
    ensures greatest { more + 1 < 2 * 2 ^ result }
{
    if more == u128::MAX {
        return 128;
    }
    (more + 1).ilog2()
}

/// Returns `2 ^ free - 1`.
pub(crate) fn ones(free: u32) -> u128
    requires { free ≤ 128 }
    ensures { result + 1 ≡ 2 ^ free }
{
    if free == 128 {
        return u128::MAX;
    }
    (1u128 << free) - 1
}
