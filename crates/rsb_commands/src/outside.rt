//! The user-defined types and streams of `rsb_user_types`, by the names that they have here.

pub use rsb_user_types::{
    Counted, OrdinalWeekends, Side, Slot, counted, ordinal_weekends, side, slot,
};
