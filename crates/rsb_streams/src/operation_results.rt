//! Named results of operations on streams.

pub mod difference;
pub mod intersection;
pub mod union;

use crate::sym_diff_iter::SymDiffIter;
pub use difference::Difference;
pub use intersection::Intersection;
pub use union::Union;

/// The values in exactly one of two streams. (`SymmetricDifference` in range-set-blaze; here it is
/// another name for `SymDiffIter`.)
pub type SymmetricDifference<T, L, R> = SymDiffIter<T, L, R>;
