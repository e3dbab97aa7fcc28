//! A user-defined stream: the weekends of a year.

use rsb_streams::{CheckSortedDisjoint, DrawDisjoint};
use rsb_user_types::OrdinalWeekends;
use std::alloc::{AllocError, Global};
use std::test::Fail;
use test_support::gives;

/// Returns the ends of the first Sunday, and of the Saturday and Sunday at the end of each week.
fn table(alloc: Global) -> Result<Vec<(i32, i32)>, AllocError> {
    let mut table = Vec::from_array(alloc, [(1, 1)])?;
    for week in 1..=52i32 {
        let saturday = week.saturating_mul(7);
        table.push((saturday, saturday.saturating_add(1)))?;
    }
    Ok(table)
}

#[test]
fn weekends_come_each_seven_days_and_leave_the_others(rt: HostRuntime) -> Result<(), Fail> {
    let weekends = table(rt.alloc())?;
    assert!(rt; weekends.last() == Some(&(364, 365)));
    assert!(rt; gives(OrdinalWeekends::new(), &weekends));
    let september = CheckSortedDisjoint::new([244..=273]);
    let workdays = september.intersection(OrdinalWeekends::new().complement());
    let wanted = [(244, 244), (247, 251), (254, 258), (261, 265), (268, 272)];
    assert!(rt; gives(workdays, &wanted));
    Ok(())
}
