//! `retain` and `ranges_retain` with closures that may not be called on every value or range.

ghost use Rattle.std.specs.Prelude.{◌<◌, ℕ, length, IsTrue};
ghost use Rattle.rsb_integer.specs.Runs.{members};

use range_set_blaze::{Integer, RangeSetBlaze};
use std::alloc::{AllocError, Allocator};
use std::ops::RangeInclusive;
use std::test::*;

/// Keeps the members with a mark. The closure indexes by its value, and all members have a mark.
fn keep_marked<A: Allocator + Copy>(
    set: &mut RangeSetBlaze<u8, A>,
    marks: &[bool],
) -> Result<(), AllocError>
    requires { (rank : ℕ) → IsTrue (members set.old rank) → rank < length marks.now }
{
    set.retain(|value| marks[usize::from(*value)])
}

/// Keeps the members with a mark, if each member has one, and returns whether each has.
fn keep_if_marked<A: Allocator + Copy>(
    set: &mut RangeSetBlaze<u8, A>,
    marks: &[bool],
) -> Result<bool, AllocError> {
    if let Some(greatest) = set.last() {
        if usize::from(greatest) >= marks.len() {
            return Ok(false);
        }
        keep_marked(set, marks)?;
    }
    Ok(true)
}

/// Keeps the members with a mark. There is one for each value of the type.
fn keep_marked_values<A: Allocator + Copy>(
    set: &mut RangeSetBlaze<u8, A>,
    marks: &[bool; 256],
) -> Result<(), AllocError> {
    set.retain(|value| marks[usize::from(*value)])
}

/// Keeps the runs whose ends are at least the given number apart. The closure subtracts, so a range
/// may not end before it starts.
fn keep_longer<A: Allocator>(set: &mut RangeSetBlaze<u8, A>, least: u8) {
    set.ranges_retain(|range| *range.end() - *range.start() >= least);
}

/// Keeps the runs of at least the given length. The closure takes the length of a range, so a range
/// may not be empty.
fn keep_long<T: Integer, A: Allocator>(set: &mut RangeSetBlaze<T, A>, least: T::SafeLen) {
    set.ranges_retain(|range| T::safe_len(range) >= least);
}

/// Keeps the members that a closure accepts. The closure may be called on every value.
fn keep<A: Allocator + Copy, F: FnMut(&u8) -> bool>(
    set: &mut RangeSetBlaze<u8, A>,
    accepts: F,
) -> Result<(), AllocError>
    requires { F.IsAlwaysCallable accepts }
{
    set.retain(accepts)
}

/// Keeps the runs that a closure accepts. The closure may be called on every range.
fn keep_runs<T: Integer, A: Allocator, F: FnMut(&RangeInclusive<T>) -> bool>(
    set: &mut RangeSetBlaze<T, A>,
    accepts: F,
)
    requires { F.IsAlwaysCallable accepts }
{
    set.ranges_retain(accepts);
}

#[test]
fn each_marked_member_is_kept(rt: HostRuntime) -> Result<(), Fail> {
    let mut marks = [false; 256];
    marks[2] = true;
    marks[255] = true;
    let mut set = RangeSetBlaze::from_iter(rt.alloc(), [1..=3u8, 254..=255])?;
    keep_marked_values(&mut set, &marks)?;
    assert!(rt; set == RangeSetBlaze::from_array(rt.alloc(), [2, 255])?);
    Ok(())
}

#[test]
fn a_test_is_called_only_on_members(rt: HostRuntime) -> Result<(), Fail> {
    let mut set = RangeSetBlaze::from_iter(rt.alloc(), [0..=2u8, 4..=4])?;
    assert!(rt; keep_if_marked(&mut set, &[true, true, false, true, true])?);
    assert!(rt; set == RangeSetBlaze::from_array(rt.alloc(), [0, 1, 4])?);
    assert!(rt; !keep_if_marked(&mut set, &[false, false])? && set.len() == 3);
    Ok(())
}

#[test]
fn a_test_may_ask_of_a_run_what_only_runs_have(rt: HostRuntime) -> Result<(), Fail> {
    let mut set = RangeSetBlaze::from_iter(rt.alloc(), [0..=2u8, 4..=4, 250..=255])?;
    keep_longer(&mut set, 2);
    assert!(rt; set == RangeSetBlaze::from_iter(rt.alloc(), [0..=2u8, 250..=255])?);
    keep_long(&mut set, 4);
    assert!(rt; set == RangeSetBlaze::from(rt.alloc(), 250..=255)?);
    keep(&mut set, |value| value % 2 == 0)?;
    keep_runs(&mut set, |range| *range.start() > 250);
    assert!(rt; set == RangeSetBlaze::from_array(rt.alloc(), [252, 254])?);
    Ok(())
}
