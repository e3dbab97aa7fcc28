//! What the tests of the libraries share: ranges written as tables of their ends, and comparisons
//! of streams and sets with such tables (docs/DECISIONS.md, tests-on-top).
#![tactic(auto)]

pub mod any_types;
pub mod counting;
pub mod fill_gaps;
pub mod forms;
pub mod hashers;
pub mod listed;
pub mod neighbors;
pub mod operations;
pub mod tables;
pub mod texts;

pub use crate::any_types::{odd_of_three, some_of_two};
pub use crate::counting::{Counting, Heap, HeapSet};
pub use crate::fill_gaps::fills;
pub use crate::forms::{Form, Ranges, form_gives, of_lent, of_sets, streams_of};
pub use crate::hashers::{fed_by, fed_by_bytes};
pub use crate::listed::{Listed, list_of, stream_of, three_tens};
pub use crate::neighbors::{Neighbors, neighbors_of};
pub use crate::operations::{OPERATIONS, Operation, operation_gives};
pub use crate::tables::{
    Table, both_give, every_fifth, gives, has, runs_of, set_in, set_of, slot, slots, values_in,
};
pub use crate::texts::is_shown;
