//! Debug texts. Their content is unspecified.

use std::alloc::Global;
use std::fmt::Debug;

/// Returns whether the debug text of a stream or an iterator is not empty.
pub fn is_shown<I: Debug + Drop>(alloc: Global, stream: I) -> bool {
    match format!(in alloc; "{stream:?}") {
        Ok(text) => !text.is_empty(),
        Err(_) => false,
    }
}
