//! Each call on commands, at least once.

use crate::run::sessions::{ALL_COMMANDS, ALL_TOLD, MOST, MOST_TOLD, SESSION, TOLD, Told};
use rsb_commands::laws::{
    first_commands_first_replies, replies_are_unique, replies_exist, spelled_commands_have_replies,
};
use rsb_commands::outside::{Side, Slot};
use rsb_commands::{Command, Fault, Reply, SetNo, parse_commands, read_commands, run_commands};
use rsb_integer::Integer;
use std::alloc::{AllocError, Global};
use std::ops::RangeInclusive;
use std::process::Abort;
use std::test::*;

// Returns the slot of a number up to 9.
fn slot(rt: &impl Abort, n: u8) -> SetNo {
    SetNo::new(n).expect(rt, "a slot")
}

#[test]
fn slots_end_at_nine(rt: HostRuntime) {
    for n in 0..=9u8 {
        assert!(rt; slot(&rt, n).index() == n as usize);
    }
    for n in 10..=255u8 {
        assert!(rt; SetNo::new(n).is_none());
    }
}

#[test]
fn lines_spell_commands(rt: HostRuntime) -> Result<(), Fail> {
    let commands = parse_commands(rt.alloc(), b"add 3 -1 +02\nhas 0 7\n\nlen 9\nshow 5")?;
    let wanted = [
        Command::Add {
            slot: slot(&rt, 3),
            first: -1,
            last: 2,
        },
        Command::Has {
            slot: slot(&rt, 0),
            value: 7,
        },
        Command::Count { slot: slot(&rt, 9) },
        Command::Show { slot: slot(&rt, 5) },
    ];
    assert_eq!(rt; commands.as_slice(), wanted.as_slice());
    Ok(())
}

// Whether a reply is as expected.
fn says(reply: &Reply<i32>, told: Told) -> bool {
    match (reply, told) {
        (Reply::Flag(flag), Told::Flag(wanted)) => *flag == wanted,
        (
            Reply::Piece {
                first,
                last,
                present,
            },
            Told::Piece(start, end, is_run),
        ) => (*first, *last, *present) == (start, end, is_run),
        (Reply::Count(count), Told::Count(wanted)) => *count == wanted,
        (Reply::Ranges(ranges), Told::Ranges(wanted)) => {
            ranges
                .iter()
                .map(|it| (*it.start(), *it.end()))
                .eq(wanted.iter().copied())
        }
        (Reply::Runs(runs), Told::Runs(wanted)) => *runs == wanted,
        (Reply::Order(order), Told::Order(wanted)) => *order == wanted,
        _ => false,
    }
}

// Whether the replies are as expected.
fn say(replies: &[Reply<i32>], told: &[Told]) -> bool {
    let mut is_right = replies.len() == told.len();
    for (reply, wanted) in replies.iter().zip(told) {
        is_right = is_right && says(reply, *wanted);
    }
    is_right
}

// Whether the commands that the lines spell have the expected replies.
fn are_answered(alloc: Global, lines: &[u8], told: &[Told]) -> Result<bool, Fault> {
    let mut input = lines;
    let commands = read_commands(alloc, &mut input)?;
    match run_commands(alloc, &commands) {
        Ok(replies) => Ok(say(&replies, told)),
        Err(_) => Err(Fault::NoMemory),
    }
}

#[test]
fn the_worked_sessions_run_as_commands(rt: HostRuntime) {
    assert!(rt; are_answered(rt.alloc(), SESSION, &TOLD) == Ok(true));
    assert!(rt; are_answered(rt.alloc(), ALL_COMMANDS, &ALL_TOLD) == Ok(true));
    assert!(rt; are_answered(rt.alloc(), MOST, &MOST_TOLD) == Ok(true));
}

// Whether the replies show that an empty set lacked the last value of a range, and that the values
// of the range were added.
fn say_of_range<T: Integer>(
    replies: &[Reply<T>],
    range: &RangeInclusive<T>,
    count: T::SafeLen,
) -> bool {
    let [
        Reply::Flag(false),
        Reply::Flag(true),
        Reply::Flag(true),
        Reply::Count(found),
        Reply::Ranges(ranges),
    ] = replies
    else {
        return false;
    };
    *found == count && ranges.len() == 1 && ranges.first() == Some(range)
}

// Returns commands that add a range of values to a set. They ask for the last value before and
// after, and then for the count and the runs. They are in a list, because generic code cannot bound
// the size of an array of a type parameter.
fn commands_on_range<T: Integer>(
    alloc: Global,
    slot: SetNo,
    range: &RangeInclusive<T>,
) -> Result<Vec<Command<T>>, AllocError> {
    let (first, last) = (*range.start(), *range.end());
    let mut commands = Vec::new(alloc);
    commands.push(Command::Has { slot, value: last })?;
    commands.push(Command::Add { slot, first, last })?;
    commands.push(Command::Has { slot, value: last })?;
    commands.push(Command::Count { slot })?;
    commands.push(Command::Show { slot })?;
    Ok(commands)
}

// Whether these commands add the range to an empty set, and then find its values there.
fn are_answered_of_range<T: Integer>(
    alloc: Global,
    set: SetNo,
    range: RangeInclusive<T>,
    count: T::SafeLen,
) -> Result<bool, AllocError> {
    let commands = commands_on_range(alloc, set, &range)?;
    match run_commands(alloc, &commands) {
        Ok(replies) => Ok(say_of_range(&replies, &range, count)),
        Err(_) => Err(AllocError),
    }
}

// Returns the quarter hour of a number up to 95.
fn quarter_hour(rt: &impl Abort, n: u8) -> Slot {
    Slot::new(n).expect(rt, "a quarter hour")
}

// Two of the types are user-defined: `Side`, with two values, and `Slot`, the quarter hours of a
// day.
#[test]
fn commands_run_over_other_element_types(rt: HostRuntime) -> Result<(), Fail> {
    let set = slot(&rt, 4);
    assert!(rt; are_answered_of_range(rt.alloc(), set, 250u8..=255, 6)?);
    assert!(rt; are_answered_of_range(rt.alloc(), set, Side::Lo..=Side::Hi, 2)?);
    let morning = quarter_hour(&rt, 32)..=quarter_hour(&rt, 47);
    assert!(rt; are_answered_of_range(rt.alloc(), set, morning, 16)?);
    Ok(())
}

#[test]
fn laws_of_replies_can_be_cited_at_other_element_types() {
    replies_exist::<u8>();
    replies_are_unique::<u8>();
    first_commands_first_replies::<u8>();
    replies_exist::<Side>();
    replies_are_unique::<Side>();
    first_commands_first_replies::<Side>();
    replies_exist::<Slot>();
    replies_are_unique::<Slot>();
    first_commands_first_replies::<Slot>();
    spelled_commands_have_replies();
}

/// Faults, each with its status and its line.
static FAULTS: [(Fault, u8, &str); 4] = [
    (Fault::BadLine(2), 2, "bad line 2"),
    (Fault::BadLine(12), 2, "bad line 12"),
    (Fault::NoMemory, 3, "no memory"),
    (Fault::Io, 4, "read or write failed"),
];

/// Whether a fault is written as this line.
fn is_written(alloc: Global, fault: Fault, line: &str) -> bool {
    match format!(in alloc; "{fault}") {
        Ok(text) => text.as_str() == line,
        Err(_) => false,
    }
}

#[test]
fn each_fault_has_a_status_and_a_line(rt: HostRuntime) {
    for (fault, status, line) in &FAULTS {
        assert!(rt; fault.status() == *status && is_written(rt.alloc(), *fault, line));
    }
}

#[test]
fn unlike_faults_differ(rt: HostRuntime) {
    for (i, (left, _, _)) in FAULTS.iter().enumerate() {
        for (j, (right, _, _)) in FAULTS.iter().enumerate() {
            assert!(rt; (*left == *right) == (i == j), "{i} and {j}");
        }
    }
}
