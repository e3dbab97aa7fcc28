//! The adapters of std over a stream are streams. Whatever a closure returns, they give a part of
//! what the stream may give, and each part satisfies the same laws. Adapters with a closure
//! override `mark_sorted` and `mark_disjoint` (docs/DECISIONS.md, marks).

mod filter;
mod fuse;
mod skip;
mod skip_while;
mod take;
mod take_while;
