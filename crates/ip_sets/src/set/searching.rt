//! The search of a set for an address.

ghost use Rattle.std.specs.Prelude.{◌≡◌, nat_lt};
ghost use Rattle.range_set_blaze.specs.Runs.{IsCanonicalIn, members};
ghost use Rattle.ip_sets.specs.Pairs.{spans_of};

use crate::blocks::Address;

/// Returns whether an address is in one of the runs of a set. It is a binary search.
pub(crate) fn any_has<T: Address>(runs: &[(T, T)], address: T) -> bool
    requires { IsCanonicalIn T.value_count (spans_of T.rank runs.now) }
    ensures { result ≡ members (spans_of T.rank runs.now) (T.rank address) }
{
    let number = address.number();
    let ends_before = |run: &(T, T)| -> bool
        ensures { result ≡ nat_lt (T.rank run.now.1) number }
    { run.1.number() < number };
    match runs.get(runs.partition_point(ends_before)) {
        Some(run) => run.0.number() <= number,
        None => false,
    }
}
