//! Callers of the searches for a gap and a run of any length. They state which values come before
//! the one that is found, and need no proof file.

ghost use Rattle.std.specs.Prelude.{◌≡◌, ◌↔◌, ℕ, ◌^◌, ◌<◌, ◌≤◌, IfSome, IsFalse, IsNone, IsTrue};
ghost use Rattle.range_set_blaze.specs.FirstFit.{HasAllFrom};
ghost use Rattle.range_set_blaze.specs.Runs.{members};
ghost use Rattle.range_set_blaze.specs.Selection.{IsEmpty, IsUniversal};

use range_set_blaze::{Integer, RangeSetBlaze};
use rsb_user_types::Side;
use std::alloc::Allocator;
use std::test::*;
use test_support::{every_fifth, set_of};

/// Returns the least rank that nobody has, or `None` if each has somebody.
fn next_rank(ranks: &RangeSetBlaze<u32>) -> Option<u32>
    ensures none { IsNone result ↔ IsUniversal (2 ^ 32) (members ranks.now) }
    ensures missing { IfSome result (λ next. IsFalse (members ranks.now next)) }
    ensures before { IfSome result (λ next. (number : ℕ) → number < next
        → IsTrue (members ranks.now number)) }
{
    let gap = ranks.first_gap(1)?;
    Some(*gap.start())
}

/// Returns the least rank at or above another that nobody has, or `None` if each has somebody.
fn next_rank_from(ranks: &RangeSetBlaze<u32>, from: u32) -> Option<u32>
    ensures none { IsNone result ↔ HasAllFrom (2 ^ 32) ranks.now from }
    ensures missing { IfSome result (λ next. IsFalse (members ranks.now next)) }
    ensures before { IfSome result (λ next. (number : ℕ) → from ≤ number → number < next
        → IsTrue (members ranks.now number)) }
{
    let gap = ranks.first_gap_from(from, 1)?;
    Some(*gap.start())
}

/// Returns the least rank that somebody has, or `None` if nobody has one.
fn first_rank_taken(ranks: &RangeSetBlaze<u32>) -> Option<u32>
    ensures none { IsNone result ↔ IsEmpty (members ranks.now) }
    ensures there { IfSome result (λ first. IsTrue (members ranks.now first)) }
    ensures before { IfSome result (λ first. (number : ℕ) → number < first
        → IsFalse (members ranks.now number)) }
{
    let run = ranks.first_run(1)?;
    Some(*run.start())
}

/// Returns the least value of any type that is not a member, or `None` if there is none.
fn least_lacking<T: Integer, A: Allocator>(set: &RangeSetBlaze<T, A>, one: T::SafeLen) -> Option<T>
    requires { T.SafeLen.number one ≡ 1 }
    ensures none { IsNone result ↔ IsUniversal T.value_count (members set.now) }
    ensures before { IfSome result (λ least. (rank : ℕ) → rank < T.rank least
        → IsTrue (members set.now rank)) }
{
    let gap = set.first_gap(one)?;
    Some(*gap.start())
}

#[test]
fn ranks_are_found(rt: HostRuntime) -> Result<(), Fail> {
    let mut ranks = RangeSetBlaze::from(rt.alloc(), 0..=6)?;
    ranks.ranges_insert(9..=11)?;
    assert!(rt; next_rank(&ranks) == Some(7) && first_rank_taken(&ranks) == Some(0));
    assert!(rt; next_rank_from(&ranks, 8) == Some(8) && next_rank_from(&ranks, 9) == Some(12));
    ranks.ranges_remove(..3)?;
    assert!(rt; next_rank(&ranks) == Some(0) && first_rank_taken(&ranks) == Some(3));
    ranks.ranges_insert(..)?;
    assert!(rt; next_rank(&ranks) == None && next_rank_from(&ranks, 9) == None);
    ranks.clear();
    assert!(rt; first_rank_taken(&ranks) == None && next_rank_from(&ranks, 9) == Some(9));
    Ok(())
}

#[test]
fn least_values_that_are_lacking_are_found(rt: HostRuntime) -> Result<(), Fail> {
    let set = set_of(rt.alloc(), &[(i32::MIN, -5), (-3, 9)])?;
    assert!(rt; least_lacking(&set, 1) == Some(-4));
    let sides = RangeSetBlaze::<Side>::new(rt.alloc());
    assert!(rt; least_lacking(&sides, 1).is_some());
    let many = every_fifth(rt.alloc(), i32::MIN, 3)?;
    assert!(rt; least_lacking(&many, 1) == Some(i32::MIN + 4));
    Ok(())
}
