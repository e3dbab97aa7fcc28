//! The texts of sets, and of their iterators.

ghost use Rattle.std.specs.Prelude.{◌≡◌, IfOk};

use range_set_blaze::{ParseError, ParseInteger, RangeSetBlaze};
use std::alloc::{AllocError, Allocator, Global};
use std::test::*;
use test_support::{Counting, Table, is_shown, set_of};

/// Whether the text is as wanted.
fn is(text: String, wanted: &str) -> bool {
    text.as_str() == wanted
}

/// Whether this is the text of a set, by `Display` and `Debug`, at any width and sign.
fn is_written(alloc: Global, set: &RangeSetBlaze<i32>, wanted: &str) -> Result<bool, AllocError> {
    Ok(
        is(format!(in alloc; "{set}")?, wanted)
            && is(format!(in alloc; "{set:?}")?, wanted)
            && is(format!(in alloc; "{set:40}")?, wanted)
            && is(format!(in alloc; "{set:+}")?, wanted),
    )
}

/// Returns the set that is read from the text of a set.
fn reread<T: ParseInteger, A: Allocator + Copy>(
    alloc: A,
    set: &RangeSetBlaze<T, A>,
) -> Result<RangeSetBlaze<T, A>, ParseError>
    ensures { IfOk result (λ read. read ≡ set.now) }
{
    // This call is only here for its clauses.
    set.ranges();
    let text = set.to_string(alloc)?;
    let read = RangeSetBlaze::parse(alloc, text.as_str())?;
    Ok(read)
}

#[test]
fn runs_are_written_with_a_comma_between_two_and_nothing_of_none(
    rt: HostRuntime,
) -> Result<(), Fail> {
    let set = set_of(rt.alloc(), &[(1, 2), (2, 2), (-10, -5), (1, 0)])?;
    assert!(rt; is_written(rt.alloc(), &set, "-10..=-5, 1..=2")?);
    assert!(rt; is_written(rt.alloc(), &RangeSetBlaze::new(rt.alloc()), "")?);
    Ok(())
}

// If an allocation fails midway, there is no text, not even a shorter one.
#[test]
fn a_text_is_whole_or_fails(rt: HostRuntime) -> Result<(), Fail> {
    let set = set_of(
        rt.alloc(),
        &[(1, 2), (5, 6), (9, 9), (20, 30), (40, 50), (60, 70)],
    )?;
    let heap = Counting::new(rt.alloc());
    let wanted = "1..=2, 5..=6, 9..=9, 20..=30, 40..=50, 60..=70";
    let mut refused = 0u32;
    for granted in 0..20usize {
        heap.fail_after(granted);
        match format!(in &heap; "{set}") {
            Ok(text) => assert!(rt; text.as_str() == wanted, "with {granted} allocations"),
            Err(_) => refused = refused.saturating_add(1),
        }
        assert!(rt; heap.bytes() == 0);
    }
    assert!(rt; refused > 2 && refused < 20);
    Ok(())
}

#[test]
fn characters_are_written_in_quotes(rt: HostRuntime) -> Result<(), Fail> {
    let mut set = RangeSetBlaze::<char>::new(rt.alloc());
    set.ranges_insert('a'..='c')?;
    set.insert('\n')?;
    let text = format!(in rt.alloc(); "{set}")?;
    assert!(rt; text.as_str() == "'\\n'..='\\n', 'a'..='c'");
    Ok(())
}

// The test uses two types, and sets with no run, one run and several.
#[test]
fn the_text_of_a_set_is_read_as_the_set(rt: HostRuntime) -> Result<(), Fail> {
    let tables: [Table<'static>; 4] = [
        &[],
        &[(0, 0)],
        &[(-9, -3), (4, 4)],
        &[(i32::MIN, i32::MAX)],
    ];
    for table in &tables {
        let set = set_of(rt.alloc(), table)?;
        assert!(rt; reread(rt.alloc(), &set)? == set);
    }
    let bytes = RangeSetBlaze::<u8>::from(rt.alloc(), 3..=255)?;
    assert!(rt; reread(rt.alloc(), &bytes)? == bytes);
    Ok(())
}

// The test does not state what is in these texts.
#[test]
fn iterators_have_a_text(rt: HostRuntime) -> Result<(), Fail> {
    let set = set_of(rt.alloc(), &[(1, 2)])?;
    assert!(rt; is_shown(rt.alloc(), set.ranges()) && is_shown(rt.alloc(), set.iter()));
    assert!(rt; is_shown(rt.alloc(), set.ranges_in(0..=1)));
    assert!(rt; is_shown(rt.alloc(), set.gaps_in(0..=1)));
    assert!(rt; is_shown(rt.alloc(), set.clone()?.into_ranges()));
    assert!(rt; is_shown(rt.alloc(), set.into_iter()));
    Ok(())
}
