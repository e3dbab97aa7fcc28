//! The calls that change a set and those that make one, by names that rows of tables use.

use range_set_blaze::{IntoRangeSetBlaze, ParseError, RangeSetBlaze};
use std::alloc::{AllocError, Allocator};
use std::mem;

/// A call that changes a set, with its arguments. A call that adds a set adds the other set of the
/// test.
#[derive(Clone, Copy)]
pub(crate) enum Change {
    Insert(i32),
    Replace(i32),
    RangesInsert(i32, i32),
    Remove(i32),
    Take(i32),
    RangesRemove(i32, i32),
    PopFirst,
    PopLast,
    /// The other set becomes the part that starts at the value.
    SplitOff(i32),
    /// Keeps the values whose remainder by the first number is not the second.
    Retain(i32, i32),
    /// Keeps the runs whose starts have a remainder by the first number other than the second.
    RangesRetain(i32, i32),
    Clear,
    Extend,
    /// Adds every fourth value from the first number to the second.
    ExtendValues(i32, i32),
    Append,
    BitorAssign,
    BitorAssignOwned,
    /// This and the next one use the trait of std.
    StdExtend,
    /// Adds every fourth value from the first number to the second.
    StdExtendValues(i32, i32),
    /// This and the next one add the items of a list in the same allocator, by reference.
    LentExtend,
    /// Adds every fourth value from the first number to the second.
    LentExtendValues(i32, i32),
    BitandAssign,
    SubAssign,
    BitxorAssign,
}

impl Change {
    /// Whether it adds a set or values, or changes the set by the other set.
    pub(crate) fn takes_other(self) -> bool {
        self.adds() || self.meets()
    }

    /// Whether it keeps, removes or toggles the members of the other set, which stays unchanged.
    fn meets(self) -> bool {
        matches!(
            self,
            Change::BitandAssign | Change::SubAssign | Change::BitxorAssign
        )
    }

    /// Whether it adds the other set, or a list of values.
    pub(crate) fn adds(self) -> bool {
        matches!(
            self,
            Change::Extend
                | Change::ExtendValues(_, _)
                | Change::Append
                | Change::BitorAssign
                | Change::BitorAssignOwned
                | Change::StdExtend
                | Change::StdExtendValues(_, _)
                | Change::LentExtend
                | Change::LentExtendValues(_, _)
        )
    }

    /// Returns the same call with its values increased by the given number, if it takes values.
    pub(crate) fn moved(self, by: i32) -> Change {
        match self {
            Change::Insert(value) => Change::Insert(value.saturating_add(by)),
            Change::Replace(value) => Change::Replace(value.saturating_add(by)),
            Change::RangesInsert(start, end) => {
                let start = start.saturating_add(by);
                Change::RangesInsert(start, end.max(start))
            }
            Change::Remove(value) => Change::Remove(value.saturating_add(by)),
            Change::Take(value) => Change::Take(value.saturating_add(by)),
            Change::RangesRemove(start, end) => {
                Change::RangesRemove(start.saturating_add(by), end.saturating_add(by))
            }
            Change::SplitOff(key) => Change::SplitOff(key.saturating_add(by)),
            change => change,
        }
    }
}

/// What a change returns, or how often it calls its closure.
#[derive(Clone, Copy)]
pub(crate) enum Answer {
    Nothing,
    Truth(bool),
    Value(Option<i32>),
    Asked(u64),
}

impl Answer {
    /// Whether it equals the other one. (A derived equality takes longer to prove.)
    pub(crate) fn is(self, other: Answer) -> bool {
        match (self, other) {
            (Answer::Nothing, Answer::Nothing) => true,
            (Answer::Truth(one), Answer::Truth(other)) => one == other,
            (Answer::Value(one), Answer::Value(other)) => one == other,
            (Answer::Asked(one), Answer::Asked(other)) => one == other,
            _ => false,
        }
    }
}

/// Whether a value divided by `divisor` leaves a remainder other than `rest`.
pub(crate) fn is_kept(value: i32, divisor: i32, rest: i32) -> bool {
    value.checked_rem_euclid(divisor) != Some(rest)
}

/// Adds every fourth value from one to another, by the trait of std.
fn add_by_std<A: Allocator + Copy>(
    set: &mut RangeSetBlaze<i32, A>,
    start: i32,
    end: i32,
) -> Result<(), AllocError> {
    Extend::extend(set, (start..=end).step_by(4))
}

/// Adds every fourth value from one to another, by reference.
fn add_lent_values<A: Allocator + Copy>(
    alloc: A,
    set: &mut RangeSetBlaze<i32, A>,
    start: i32,
    end: i32,
) -> Result<(), AllocError> {
    let values = Vec::from_iter(alloc, (start..=end).step_by(4))?;
    Extend::extend(set, values.iter())
}

/// Adds the ranges of another set, by reference.
fn add_lent_ranges<A: Allocator + Copy>(
    alloc: A,
    set: &mut RangeSetBlaze<i32, A>,
    other: &RangeSetBlaze<i32, A>,
) -> Result<(), AllocError> {
    let ranges = Vec::from_iter(alloc, other.ranges())?;
    Extend::extend(set, ranges.iter())
}

/// Adds every fourth value from one to another.
fn add_fourths<A: Allocator + Copy>(
    set: &mut RangeSetBlaze<i32, A>,
    start: i32,
    end: i32,
) -> Result<(), AllocError> {
    set.extend_values((start..=end).step_by(4))
}

/// Adds another set by one of the calls. The last call takes it by value.
fn add<A: Allocator + Copy>(
    alloc: A,
    change: Change,
    set: &mut RangeSetBlaze<i32, A>,
    other: &mut RangeSetBlaze<i32, A>,
) -> Result<Answer, AllocError> {
    let added = match change {
        Change::Extend => set.extend(other.ranges()),
        Change::StdExtend => Extend::extend(set, other.ranges()),
        Change::StdExtendValues(start, end) => add_by_std(set, start, end),
        Change::LentExtend => add_lent_ranges(alloc, set, other),
        Change::LentExtendValues(start, end) => add_lent_values(alloc, set, start, end),
        Change::ExtendValues(start, end) => add_fourths(set, start, end),
        Change::Append => set.append(other),
        Change::BitorAssign => set.bitor_assign(other),
        _ => set.bitor_assign_owned(mem::replace(other, RangeSetBlaze::new(alloc))),
    };
    added?;
    Ok(Answer::Nothing)
}

/// Changes a set by the members of another.
fn meet<A: Allocator + Copy>(
    change: Change,
    set: &mut RangeSetBlaze<i32, A>,
    other: &RangeSetBlaze<i32, A>,
) -> Result<Answer, AllocError> {
    let changed = match change {
        Change::BitandAssign => set.bitand_assign(other),
        Change::SubAssign => set.sub_assign(other),
        _ => set.bitxor_assign(other),
    };
    changed?;
    Ok(Answer::Nothing)
}

/// Keeps some values, and returns how often the closure was called.
fn retain<A: Allocator + Copy>(
    set: &mut RangeSetBlaze<i32, A>,
    divisor: i32,
    rest: i32,
) -> Result<Answer, AllocError> {
    let mut asked = 0u64;
    set.retain(|value| {
        asked = asked.saturating_add(1);
        is_kept(*value, divisor, rest)
    })?;
    Ok(Answer::Asked(asked))
}

/// Keeps some runs, and returns how often the closure was called.
fn retain_ranges<A: Allocator + Copy>(
    set: &mut RangeSetBlaze<i32, A>,
    divisor: i32,
    rest: i32,
) -> Answer {
    let mut asked = 0u64;
    set.ranges_retain(|range| {
        asked = asked.saturating_add(1);
        is_kept(*range.start(), divisor, rest)
    });
    Answer::Asked(asked)
}

/// Removes some members by one of the calls. If the call splits the set, the other set becomes one
/// part.
fn reduce<A: Allocator + Copy>(
    change: Change,
    set: &mut RangeSetBlaze<i32, A>,
    other: &mut RangeSetBlaze<i32, A>,
) -> Result<Answer, AllocError> {
    match change {
        Change::Remove(value) => return Ok(Answer::Truth(set.remove(value)?)),
        Change::Take(value) => return Ok(Answer::Value(set.take(value)?)),
        Change::RangesRemove(start, end) => {
            return Ok(Answer::Truth(set.ranges_remove(start..=end)?));
        }
        Change::PopFirst => return Ok(Answer::Value(set.pop_first()?)),
        Change::PopLast => return Ok(Answer::Value(set.pop_last())),
        Change::SplitOff(key) => *other = set.split_off(key)?,
        _ => set.clear(),
    }
    Ok(Answer::Nothing)
}

/// Inserts values by one of the calls, and returns what the call returned.
fn put<A: Allocator + Copy>(
    change: Change,
    set: &mut RangeSetBlaze<i32, A>,
) -> Result<Answer, AllocError> {
    match change {
        Change::Insert(value) => Ok(Answer::Truth(set.insert(value)?)),
        Change::Replace(value) => Ok(Answer::Value(set.replace(value)?)),
        Change::RangesInsert(start, end) => Ok(Answer::Truth(set.ranges_insert(start..=end)?)),
        _ => Ok(Answer::Nothing),
    }
}

/// Changes a set by one of the calls.
pub(crate) fn carry_out<A: Allocator + Copy>(
    alloc: A,
    change: Change,
    set: &mut RangeSetBlaze<i32, A>,
    other: &mut RangeSetBlaze<i32, A>,
) -> Result<Answer, AllocError> {
    match change {
        _ if change.adds() => add(alloc, change, set, other),
        _ if change.meets() => meet(change, set, other),
        Change::Insert(_) | Change::Replace(_) | Change::RangesInsert(_, _) => put(change, set),
        Change::Retain(divisor, rest) => retain(set, divisor, rest),
        Change::RangesRetain(divisor, rest) => Ok(retain_ranges(set, divisor, rest)),
        _ => reduce(change, set, other),
    }
}

/// A call that makes a set, from one or two other sets unless stated otherwise.
#[derive(Clone, Copy)]
pub(crate) enum Making {
    Clone,
    Bitor,
    Bitand,
    Sub,
    Bitxor,
    Not,
    /// From the runs of the second set, and then those of the first.
    FromIter,
    /// From every fourth value from the first number to the second.
    FromIterValues(i32, i32),
    /// From the values 7, 1, 4, 7 and 9.
    FromArray,
    FromSortedDisjoint,
    IntoRangeSetBlaze,
    From(i32, i32),
    Universe,
    /// The following use the traits of std.
    StdClone,
    StdBitor,
    StdBitand,
    StdSub,
    StdBitxor,
    StdNot,
    /// From the runs of the second set, and then those of the first.
    Collect,
    /// From every fourth value from the first number to the second.
    CollectValues(i32, i32),
    /// This and the next one take the items of lists in the same allocator, by reference.
    CollectLent,
    CollectLentValues(i32, i32),
    /// From text that lists 7, 1, 4 and 9.
    Parse,
    /// From a clone that is taken out of its place.
    Taken,
}

impl Making {
    /// The making that is tried first.
    pub(crate) const FIRST: Making = Making::Clone;

    /// Returns the making after it, or `None` after the last.
    pub(crate) fn after(self) -> Option<Making> {
        let next = match self {
            Making::Clone => Making::Bitor,
            Making::Bitor => Making::Bitand,
            Making::Bitand => Making::Sub,
            Making::Sub => Making::Bitxor,
            Making::Bitxor => Making::Not,
            Making::Not => Making::FromIter,
            Making::FromIter => Making::FromIterValues(2, 800),
            Making::FromIterValues(_, _) => Making::FromArray,
            Making::FromArray => Making::FromSortedDisjoint,
            Making::FromSortedDisjoint => Making::IntoRangeSetBlaze,
            Making::IntoRangeSetBlaze => Making::From(3, 7),
            Making::From(_, _) => Making::Universe,
            Making::Universe => Making::StdClone,
            Making::StdClone => Making::StdBitor,
            Making::StdBitor => Making::StdBitand,
            Making::StdBitand => Making::StdSub,
            Making::StdSub => Making::StdBitxor,
            Making::StdBitxor => Making::StdNot,
            Making::StdNot => Making::Collect,
            Making::Collect => Making::CollectValues(2, 800),
            Making::CollectValues(_, _) => Making::CollectLent,
            Making::CollectLent => Making::CollectLentValues(2, 800),
            Making::CollectLentValues(_, _) => Making::Parse,
            Making::Parse => Making::Taken,
            Making::Taken => return None,
        };
        Some(next)
    }
}

/// Returns the set of 1, 4, 7 and 9, read from text.
fn parse<A: Allocator + Copy>(alloc: A) -> Result<RangeSetBlaze<i32, A>, AllocError> {
    match RangeSetBlaze::parse(alloc, "7, 1..=1, 4, 9..=9") {
        Ok(set) => Ok(set),
        Err(ParseError::NoMemory(error)) => Err(error),
        Err(ParseError::Unexpected(_)) => Ok(RangeSetBlaze::new(alloc)),
    }
}

/// Returns a clone of a set, taken out of its place.
fn taken<A: Allocator + Copy>(
    set: &RangeSetBlaze<i32, A>,
) -> Result<RangeSetBlaze<i32, A>, AllocError> {
    let mut place = set.clone()?;
    mem::try_take(&mut place)
}

/// Makes a set from at most one other set.
fn make_one<A: Allocator + Copy>(
    alloc: A,
    making: Making,
    set: &RangeSetBlaze<i32, A>,
) -> Result<RangeSetBlaze<i32, A>, AllocError> {
    match making {
        Making::Clone => set.clone(),
        Making::Not => set.not(),
        Making::FromArray => RangeSetBlaze::from_array(alloc, [7, 1, 4, 7, 9]),
        Making::FromSortedDisjoint => RangeSetBlaze::from_sorted_disjoint(alloc, set.ranges()),
        Making::IntoRangeSetBlaze => set.ranges().into_range_set_blaze(alloc),
        Making::From(start, end) => RangeSetBlaze::from(alloc, start..=end),
        Making::StdClone => Clone::clone(set),
        Making::StdNot => !set,
        Making::Parse => parse(alloc),
        Making::Taken => taken(set),
        _ => RangeSetBlaze::universe(alloc),
    }
}

/// Makes a set from the ranges of two sets, by reference.
fn collect_lent<A: Allocator + Copy, B: Allocator>(
    alloc: A,
    set: &RangeSetBlaze<i32, A>,
    other: &RangeSetBlaze<i32, B>,
) -> Result<RangeSetBlaze<i32, A>, AllocError> {
    let ranges = Vec::from_iter(alloc, other.ranges().chain(set.ranges()))?;
    ranges.iter().collect(alloc)
}

/// Makes a set from every fourth value from one to another, by reference.
fn collect_lent_values<A: Allocator + Copy>(
    alloc: A,
    start: i32,
    end: i32,
) -> Result<RangeSetBlaze<i32, A>, AllocError> {
    let values = Vec::from_iter(alloc, (start..=end).step_by(4))?;
    values.iter().collect(alloc)
}

/// Makes a set from two sets by an operator, or by collecting the ranges of both.
fn make_by_std<A: Allocator + Copy, B: Allocator>(
    alloc: A,
    making: Making,
    set: &RangeSetBlaze<i32, A>,
    other: &RangeSetBlaze<i32, B>,
) -> Result<RangeSetBlaze<i32, A>, AllocError> {
    match making {
        Making::StdBitor => set | other,
        Making::StdBitand => set & other,
        Making::StdSub => set - other,
        Making::StdBitxor => set ^ other,
        _ => other.ranges().chain(set.ranges()).collect(alloc),
    }
}

/// Makes a set by one of the calls.
pub(crate) fn make<A: Allocator + Copy, B: Allocator>(
    alloc: A,
    making: Making,
    set: &RangeSetBlaze<i32, A>,
    other: &RangeSetBlaze<i32, B>,
) -> Result<RangeSetBlaze<i32, A>, AllocError> {
    match making {
        Making::Bitor => set.bitor(other),
        Making::Bitand => set.bitand(other),
        Making::Sub => set.sub(other),
        Making::Bitxor => set.bitxor(other),
        Making::FromIter => RangeSetBlaze::from_iter(alloc, other.ranges().chain(set.ranges())),
        Making::FromIterValues(start, end) => {
            RangeSetBlaze::from_iter_values(alloc, (start..=end).step_by(4))
        }
        Making::CollectValues(start, end) => (start..=end).step_by(4).collect(alloc),
        Making::CollectLent => collect_lent(alloc, set, other),
        Making::CollectLentValues(start, end) => collect_lent_values(alloc, start, end),
        Making::StdBitor
        | Making::StdBitand
        | Making::StdSub
        | Making::StdBitxor
        | Making::Collect => make_by_std(alloc, making, set, other),
        _ => make_one(alloc, making, set),
    }
}
