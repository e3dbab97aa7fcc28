//! Pairs of addresses, in order and joined.

ghost use Rattle.std.specs.Prelude.{◌≡◌, ◌<◌, nat_le};
ghost use Rattle.ip_sets.specs.Pairs.{MayJoin};

use crate::blocks::Address;

/// Returns whether the first address of a pair is not past the second.
#[inline(always)]
pub(crate) fn in_order<T: Address>(pair: &(T, T)) -> bool
    ensures test { result ≡ nat_le (T.rank pair.now.0) (T.rank pair.now.1) }
    ensures within { T.rank pair.now.1 < T.value_count }
{
    pair.0.number() <= pair.1.number()
}

/// Returns whether `next` starts at most one past the end of `last`. If so, extends `last` to the
/// end of `next`, unless it already reaches that far.
#[inline(always)]
pub(crate) fn joins<T: Address>(next: &mut (T, T), last: &mut (T, T)) -> bool
    ensures next { next.new ≡ next.old }
    ensures last { MayJoin T.rank next.old last.old result last.new }
{
    let start = next.0.number();
    let end = last.1.number();
    if end < start && start - end > 1 {
        return false;
    }
    if end < next.1.number() {
        last.1 = next.1;
    }
    true
}
