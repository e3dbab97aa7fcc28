//! The commands for the ten sets.

use crate::set_no::SetNo;

/// A command for the sets in the given slots. A target may also be a source: the result is computed
/// from the sets as they were before the command.
#[derive(Clone, Copy, Debug, PartialEq, Eq)]
pub enum Command<T> {
    /// Adds the values from `first` to `last`, and reports whether any of them was new.
    Add {
        slot: SetNo,
        first: T,
        last: T,
    },
    /// Removes a value, and reports whether the set contained it.
    Del {
        slot: SetNo,
        value: T,
    },
    /// Reports whether the set contains the value.
    Has {
        slot: SetNo,
        value: T,
    },
    /// Reports the run or the gap that contains the value.
    Gap {
        slot: SetNo,
        value: T,
    },
    /// Reports the number of values in the set.
    Count {
        slot: SetNo,
    },
    /// Reports the runs of the set.
    Show {
        slot: SetNo,
    },
    /// Sets the target to the union of the two sets, and reports how many runs it has.
    Union {
        target: SetNo,
        left: SetNo,
        right: SetNo,
    },
    /// Sets the target to the intersection of the two sets, and reports how many runs it has.
    Intersection {
        target: SetNo,
        left: SetNo,
        right: SetNo,
    },
    /// Sets the target to what the left set has and the right one lacks, and reports how many runs
    /// it has.
    Difference {
        target: SetNo,
        left: SetNo,
        right: SetNo,
    },
    /// Sets the target to what exactly one of the two sets has, and reports how many runs it has.
    SymmetricDifference {
        target: SetNo,
        left: SetNo,
        right: SetNo,
    },
    /// Sets the target to what the source lacks, and reports how many runs it has.
    Complement {
        target: SetNo,
        source: SetNo,
    },
    /// Sets the target to what lies in at least two of three sets, and reports how many runs it
    /// has. A set that is named twice counts twice.
    Most {
        target: SetNo,
        a: SetNo,
        b: SetNo,
        c: SetNo,
    },
    /// Reports the order of the two sets.
    Compare {
        left: SetNo,
        right: SetNo,
    },
}
