//! Sets built from any number of sets, by value or by reference.

use range_set_blaze::{
    MultiwayRangeSetBlaze, MultiwayRangeSetBlazeRef, MultiwaySortedDisjoint, RangeSetBlaze,
};
use std::alloc::{AllocError, Global};
use std::test::Fail;
use test_support::{Form, Table, gives, of_lent, of_sets, set_of};

/// A set in the system's allocator.
type Set = RangeSetBlaze<i32>;

/// Returns the sets of the tables.
fn sets_of(alloc: Global, tables: &[Table<'_>]) -> Result<Vec<Set>, AllocError> {
    let mut sets = Vec::new(alloc);
    for table in tables {
        sets.push(set_of(alloc, table)?)?;
    }
    Ok(sets)
}

/// Returns references to the sets.
pub(crate) fn lent<'a>(alloc: Global, sets: &'a [Set]) -> Result<Vec<&'a Set>, AllocError> {
    let mut lent = Vec::new(alloc);
    for set in sets {
        lent.push(set)?;
    }
    Ok(lent)
}

/// Whether a form of the sets of the tables, by value, has these runs.
fn given_up_make(
    alloc: Global,
    form: Form,
    tables: &[Table<'_>],
    wanted: Table<'_>,
) -> Result<bool, AllocError> {
    let made = of_sets(alloc, form, sets_of(alloc, tables)?)?;
    Ok(gives(made.ranges(), wanted))
}

/// Whether a form of sets by reference has these runs.
fn lent_make(
    alloc: Global,
    form: Form,
    sets: &[Set],
    wanted: Table<'_>,
) -> Result<bool, AllocError> {
    let made = of_lent(alloc, form, lent(alloc, sets)?)?;
    Ok(gives(made.ranges(), wanted))
}

/// Whether a form of the sets of the tables has these runs, both by value and by reference.
pub(crate) fn both_make(
    alloc: Global,
    form: Form,
    tables: &[Table<'_>],
    wanted: Table<'_>,
) -> Result<bool, AllocError> {
    let sets = sets_of(alloc, tables)?;
    Ok(lent_make(alloc, form, &sets, wanted)? && given_up_make(alloc, form, tables, wanted)?)
}

/// The runs of three sets.
static THREE: [Table<'static>; 3] = [
    &[(1, 6), (8, 9), (11, 15)],
    &[(5, 13), (18, 29)],
    &[(6, 8), (12, 20)],
];

/// A form, and its runs for the three sets.
static MADE: [(Form, Table<'static>); 3] = [
    (Form::Some, &[(1, 29)]),
    (Form::All, &[(6, 6), (8, 8), (12, 13)]),
    (
        Form::Odd,
        &[
            (1, 4),
            (6, 6),
            (8, 8),
            (10, 10),
            (12, 13),
            (16, 17),
            (21, 29),
        ],
    ),
];

#[test]
fn sets_that_are_given_up_and_sets_that_are_lent_make_the_same(
    rt: HostRuntime,
) -> Result<(), Fail> {
    for (form, wanted) in &MADE {
        assert!(rt; both_make(rt.alloc(), *form, &THREE, wanted)?);
    }
    Ok(())
}

/// Whether the union of the runs of two sets, in an array, is as wanted.
fn runs_are_united(alloc: Global, a: &Set, b: &Set, wanted: Table<'_>) -> Result<bool, AllocError> {
    let runs = [a.ranges(), b.ranges()].union(alloc)?;
    Ok(gives(runs, wanted))
}

/// Whether the union of two sets, in an array of references, is as wanted.
fn lent_are_united(alloc: Global, a: &Set, b: &Set, wanted: Table<'_>) -> Result<bool, AllocError> {
    let made = MultiwayRangeSetBlazeRef::union([a, b], alloc)?;
    Ok(gives(made.ranges(), wanted))
}

/// Whether the union of two sets, in an array by value, is as wanted.
fn given_up_are_united(
    alloc: Global,
    a: Set,
    b: Set,
    wanted: Table<'_>,
) -> Result<bool, AllocError> {
    let made = MultiwayRangeSetBlaze::union([a, b], alloc)?;
    Ok(gives(made.ranges(), wanted))
}

#[test]
fn arrays_of_sets_and_of_their_runs_are_united(rt: HostRuntime) -> Result<(), Fail> {
    let (a, b) = (set_of(rt.alloc(), THREE[0])?, set_of(rt.alloc(), THREE[1])?);
    let wanted = [(1, 15), (18, 29)];
    assert!(rt;
        runs_are_united(rt.alloc(), &a, &b, &wanted)?
            && lent_are_united(rt.alloc(), &a, &b, &wanted)?
    );
    assert!(rt; given_up_are_united(rt.alloc(), a, b, &wanted)?);
    Ok(())
}
