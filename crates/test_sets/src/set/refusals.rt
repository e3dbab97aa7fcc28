//! Every allocation of each call that allocates is made to fail, one after the other. Each try is
//! granted one allocation more than the one before it, until the call succeeds.
//!
//! Each call is a name of `Change`, `Making` or `Building`. A name that is added there does not
//! compile until exhaustive matches state three things: which name it comes after (`after`), what
//! it computes (`set/cells.rt`, `meaning`), and when it allocates (`wants`). So it is tested.

mod built;
pub(crate) mod changes;
mod dropped;
mod makings;
mod rows;
