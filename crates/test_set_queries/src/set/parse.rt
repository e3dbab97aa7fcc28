//! Sets read from texts.

ghost use Rattle.std.specs.Prelude.{IfOk, List};
ghost use Rattle.std.specs.declared.ops.RangeInclusive.{RangeInclusive as Range};
ghost use Rattle.rsb_integer.specs.Rank.{intervals_of};
ghost use Rattle.rsb_integer.specs.Runs.{members};
ghost use Rattle.range_set_blaze.specs.Set.{IsSetOf};
ghost use Rattle.range_set_blaze.specs.Text.{Spells};

use range_set_blaze::{ParseError, ParseInteger, RangeSetBlaze};
use std::alloc::{AllocError, Allocator, Global};
use std::test::*;
use test_support::{Counting, Table, every_fifth, has, set_of};

/// Texts, and the runs of the set that they list.
static READ: [(&'static str, Table<'static>); 19] = [
    ("", &[]),
    (" \t\r\n", &[]),
    ("1..=3, 7..=8", &[(1, 3), (7, 8)]),
    ("5", &[(5, 5)]),
    // There may be blanks around each number.
    (" 1 ..= 3 , 7\t..=\n8 ", &[(1, 3), (7, 8)]),
    ("1..=3,7..=8,5", &[(1, 3), (5, 5), (7, 8)]),
    // Ranges may come in any order, overlap, touch and come twice.
    ("7..=8, 1..=3", &[(1, 3), (7, 8)]),
    ("1..=5, 3..=9, 3..=9", &[(1, 9)]),
    ("4..=6, 1..=3", &[(1, 6)]),
    // A range whose start is past its end has no members.
    ("3..=1", &[]),
    ("3..=1, 2", &[(2, 2)]),
    ("-10..=-5, +1..=+2", &[(-10, -5), (1, 2)]),
    ("-0", &[(0, 0)]),
    ("000000000000000000007", &[(7, 7)]),
    ("-2147483648..=2147483647", &[(i32::MIN, i32::MAX)]),
    (
        "2147483647, -2147483648",
        &[(i32::MIN, i32::MIN), (i32::MAX, i32::MAX)],
    ),
    ("1..=-1", &[]),
    ("-1..=1", &[(-1, 1)]),
    ("1, 2, 3, 5, 4", &[(1, 5)]),
];

/// Texts that cannot be read, and the place of the first unexpected byte.
static REFUSED: [(&'static str, usize); 24] = [
    (",", 0),
    (" ,", 1),
    // The text ends too early.
    ("1,", 2),
    ("1, ", 3),
    ("-", 1),
    ("+", 1),
    ("1.", 2),
    ("1..", 3),
    ("1..=", 4),
    ("1..=-", 5),
    ("1,,2", 2),
    ("1..2", 3),
    ("1...=2", 3),
    ("1..=2..=3", 5),
    ("1..=2.", 5),
    ("1 2", 2),
    ("1. .=2", 2),
    ("- 1", 1),
    ("--1", 1),
    ("x", 0),
    ("1..=3, é", 7),
    // This digit makes the number too large.
    ("2147483648", 9),
    ("5, -2147483649..=3", 13),
    ("99999999999", 9),
];

/// Whether the text is read as the set of these ranges.
fn is_read(alloc: Global, text: &str, ranges: Table<'_>) -> Result<bool, AllocError> {
    match RangeSetBlaze::<i32>::parse(alloc, text) {
        Ok(set) => Ok(set == set_of(alloc, ranges)?),
        Err(ParseError::NoMemory(error)) => Err(error),
        Err(ParseError::Unexpected(_)) => Ok(false),
    }
}

/// Whether reading the text fails at the place.
fn is_refused<T: ParseInteger>(alloc: Global, text: &str, place: usize) -> bool {
    match RangeSetBlaze::<T>::parse(alloc, text) {
        Err(ParseError::Unexpected(found)) => found == place,
        _ => false,
    }
}

#[test]
fn texts_are_read_as_sets(rt: HostRuntime) -> Result<(), Fail> {
    for (text, ranges) in &READ {
        assert!(rt; is_read(rt.alloc(), text, ranges)?, "{text:?}");
    }
    Ok(())
}

#[test]
fn the_first_byte_that_fits_nothing_is_told(rt: HostRuntime) -> Result<(), Fail> {
    for (text, place) in &REFUSED {
        assert!(rt; is_refused::<i32>(rt.alloc(), text, *place), "{text:?}");
    }
    Ok(())
}

/// Whether the text is read as the set of the whole type, and reading each of two others fails at
/// its place.
fn is_whole<T: ParseInteger>(
    alloc: Global,
    text: &str,
    refused: [(&str, usize); 2],
) -> Result<bool, AllocError> {
    let [(low, low_place), (high, high_place)] = refused;
    let Ok(set) = RangeSetBlaze::<T>::parse(alloc, text) else {
        return Ok(false);
    };
    Ok(
        set.is_universal()
            && is_refused::<T>(alloc, low, low_place)
            && is_refused::<T>(alloc, high, high_place),
    )
}

#[test]
fn unsigned_types_are_read_to_their_ends(rt: HostRuntime) -> Result<(), Fail> {
    let alloc = rt.alloc();
    let low = ("-1..=5", 1);
    assert!(rt; is_whole::<u8>(alloc, "0..=255", [low, ("0..=256", 6)])?);
    assert!(rt; is_whole::<u16>(alloc, "0..=65535", [low, ("65536", 4)])?);
    assert!(rt; is_whole::<u32>(alloc, "0..=4294967295", [low, ("4294967296", 9)])?);
    let past = ("18446744073709551616", 19);
    assert!(rt; is_whole::<u64>(alloc, "0..=18446744073709551615", [low, past])?);
    assert!(rt; is_whole::<usize>(alloc, "0..=18446744073709551615", [low, past])?);
    let whole = "0..=340282366920938463463374607431768211455";
    let past = ("340282366920938463463374607431768211456", 38);
    assert!(rt; is_whole::<u128>(alloc, whole, [low, past])?);
    Ok(())
}

#[test]
fn signed_types_are_read_to_their_ends(rt: HostRuntime) -> Result<(), Fail> {
    let alloc = rt.alloc();
    assert!(rt; is_whole::<i8>(alloc, "-128..=127", [("-129", 3), ("128", 2)])?);
    assert!(rt; is_whole::<i16>(alloc, "-32768..=32767", [("-32769", 5), ("32768", 4)])?);
    let refused = [("-2147483649", 10), ("2147483648", 9)];
    assert!(rt; is_whole::<i32>(alloc, "-2147483648..=2147483647", refused)?);
    let whole = "-9223372036854775808..=9223372036854775807";
    let refused = [("-9223372036854775809", 19), ("9223372036854775808", 18)];
    assert!(rt; is_whole::<i64>(alloc, whole, refused)?);
    assert!(rt; is_whole::<isize>(alloc, whole, refused)?);
    let whole =
        "-170141183460469231731687303715884105728..=170141183460469231731687303715884105727";
    let refused = [
        ("-170141183460469231731687303715884105729", 39),
        ("170141183460469231731687303715884105728", 38),
    ];
    assert!(rt; is_whole::<i128>(alloc, whole, refused)?);
    Ok(())
}

/// Whether the text of a set is read as the set.
fn is_reread(alloc: Global, set: &RangeSetBlaze<i32>) -> Result<bool, AllocError> {
    let text = format!(in alloc; "{set}")?;
    match RangeSetBlaze::parse(alloc, text.as_str()) {
        Ok(again) => Ok(again == *set),
        Err(ParseError::NoMemory(error)) => Err(error),
        Err(ParseError::Unexpected(_)) => Ok(false),
    }
}

#[test]
fn the_text_of_seventy_thousand_runs_is_read_as_they_are(rt: HostRuntime) -> Result<(), Fail> {
    assert!(rt; is_reread(rt.alloc(), &every_fifth(rt.alloc(), -200_000, 3)?)?);
    assert!(rt; is_reread(rt.alloc(), &RangeSetBlaze::new(rt.alloc()))?);
    Ok(())
}

/// Whether reading the text gives the set of these ranges or reports a failed allocation, if the
/// heap grants the given number of allocations.
fn is_tried(
    heap: &Counting<Global>,
    granted: usize,
    wanted: Table<'_>,
) -> Result<bool, AllocError> {
    heap.fail_after(granted);
    match RangeSetBlaze::<i32, &Counting<Global>>::parse(heap, "7..=9, 1, 4..=5, 20..=30, 12") {
        Ok(set) => Ok(has(&set, wanted)),
        Err(ParseError::NoMemory(error)) => Err(error),
        Err(ParseError::Unexpected(_)) => Ok(false),
    }
}

#[test]
fn each_refused_allocation_is_told_and_nothing_is_kept(rt: HostRuntime) -> Result<(), Fail> {
    let wanted = &[(1, 1), (4, 5), (7, 9), (12, 12), (20, 30)];
    let heap = Counting::new(rt.alloc());
    let mut refused = 0u32;
    for granted in 0..30usize {
        match is_tried(&heap, granted, wanted) {
            Ok(is_right) => assert!(rt; is_right, "with {granted} allocations"),
            Err(_) => refused = refused.saturating_add(1),
        }
        assert!(rt; heap.bytes() == 0);
    }
    assert!(rt; refused > 2 && refused < 30);
    Ok(())
}

/// Returns the set that the text lists. This is a caller over any type.
fn listed<T: ParseInteger, A: Allocator + Copy>(
    alloc: A,
    text: &str,
) -> Result<RangeSetBlaze<T, A>, ParseError>
    ensures { IfOk result (λ listed. (ranges : List (Range T))
        → Spells T.number T.fits text.now ranges
        → IsSetOf listed (members (intervals_of T.rank ranges))) }
{
    let listed = RangeSetBlaze::parse(alloc, text)?;
    Ok(listed)
}

/// Returns the set with the members that the text lists added.
fn with_listed<T: ParseInteger, A: Allocator + Copy>(
    alloc: A,
    set: &RangeSetBlaze<T, A>,
    text: &str,
) -> Result<RangeSetBlaze<T, A>, ParseError> {
    let both = set.bitor(&listed(alloc, text)?)?;
    Ok(both)
}

#[test]
fn a_text_is_added_to_a_set(rt: HostRuntime) -> Result<(), Fail> {
    let set = set_of(rt.alloc(), &[(1, 3)])?;
    let both = set_of(rt.alloc(), &[(1, 5), (7, 7)])?;
    match with_listed(rt.alloc(), &set, "7, 4..=5") {
        Ok(found) => assert!(rt; found == both),
        Err(_) => assert!(rt; false),
    }
    Ok(())
}
