//! Set algebra over any number of streams, whatever their types.

/// Returns the union of the given streams: `union_dyn!(alloc, a, b, ..)`. The streams must be ready
/// and may have different types. It collects the ranges of each into a list. If there are no
/// streams, the result is empty. If allocation fails, it still evaluates the arguments that follow,
/// and drops every stream.
#[macro_export]
macro_rules! union_dyn {
    ($alloc:expr $(, $stream:expr)* $(,)?) => {{
        let alloc = $alloc;
        let none = Ok(std::vec::Vec::new(alloc));
        $crate::with_all_taken!(union_of_taken, alloc, none $(, $stream)*)
    }};
}

/// Returns the intersection of the given streams: `intersection_dyn!(alloc, a, b, ..)`. The streams
/// must be ready and may have different types. It collects the ranges of each into a list. If there
/// are no streams, the result has every value. If allocation fails, it still evaluates the
/// arguments that follow, and drops every stream.
#[macro_export]
macro_rules! intersection_dyn {
    ($alloc:expr $(, $stream:expr)* $(,)?) => {{
        let alloc = $alloc;
        let none = Ok(std::vec::Vec::new(alloc));
        $crate::with_all_taken!(intersection_of_taken, alloc, none $(, $stream)*)
    }};
}

/// Returns the values in an odd number of the given streams:
/// `symmetric_difference_dyn!(alloc, a, b, ..)`. The streams must be ready and may have different
/// types. It collects the ranges of each into a list. If there are no streams, the result is empty.
/// If allocation fails, it still evaluates the arguments that follow, and drops every stream.
#[macro_export]
macro_rules! symmetric_difference_dyn {
    ($alloc:expr $(, $stream:expr)* $(,)?) => {{
        let alloc = $alloc;
        let none = Ok(std::vec::Vec::new(alloc));
        $crate::with_all_taken!(symmetric_difference_of_taken, alloc, none $(, $stream)*)
    }};
}

/// Applies the operation to the streams collected so far and those that follow. It expands to
/// nested calls, which evaluate every stream in order and leave no `match` in the caller's body.
/// Only for the macros above. Not in range-set-blaze.
#[macro_export]
macro_rules! with_all_taken {
    ($operation:ident, $alloc:ident, $taken:expr) => {
        $crate::taken::$operation($alloc, $taken)
    };
    ($operation:ident, $alloc:ident, $taken:expr, $stream:expr $(, $others:expr)*) => {
        $crate::with_all_taken!(
            $operation,
            $alloc,
            $crate::taken::with_one_more($alloc, $taken, $stream)
            $(, $others)*
        )
    };
}
