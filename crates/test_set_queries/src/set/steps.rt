//! Items taken from the two ends of an iterator, step by step.

/// An end of an iterator.
#[derive(Clone, Copy)]
pub(crate) enum End {
    Front,
    Back,
}

/// Whether a size hint holds for a number of items.
pub(crate) fn is_true_of(hint: (usize, Option<usize>), left: usize) -> bool {
    match hint.1 {
        Some(most) => hint.0 <= left && left <= most,
        None => hint.0 <= left,
    }
}
