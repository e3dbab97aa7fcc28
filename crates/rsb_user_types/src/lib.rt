//! Examples of what a user of `range_set_blaze` might write, with only its public names: element
//! types and streams of their own.
#![tactic(auto)]

pub mod counted;
pub mod ordinal_weekends;
pub mod side;
pub mod slot;

pub use crate::counted::Counted;
pub use crate::ordinal_weekends::OrdinalWeekends;
pub use crate::side::Side;
pub use crate::slot::Slot;
