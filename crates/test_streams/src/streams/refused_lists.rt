//! The error for a refused list: when two errors are equal, and their texts.

use rsb_streams::NotSortedDisjoint;
use std::alloc::{AllocError, Global};
use std::test::Fail;

/// Returns an error for the ranges 1..=2 and 3..=`end`, with the given position.
fn refusal(alloc: Global, position: usize, end: u8) -> Result<NotSortedDisjoint<u8>, AllocError> {
    let ranges = vec![in alloc; 1..=2, 3..=end]?;
    Ok(NotSortedDisjoint { position, ranges })
}

#[test]
fn refusals_are_equal_where_position_and_ranges_are(rt: HostRuntime) -> Result<(), Fail> {
    let refused = refusal(rt.alloc(), 1, 4)?;
    for (position, end, wanted) in [(1, 4, true), (0, 4, false), (1, 5, false)] {
        let other = refusal(rt.alloc(), position, end)?;
        assert_eq!(rt; refused == other, wanted, "at {position}, of 3..={end}");
    }
    Ok(())
}

#[test]
fn a_refusal_tells_the_position(rt: HostRuntime) -> Result<(), Fail> {
    let text = format!(in rt.alloc(); "{}", refusal(rt.alloc(), 1, 4)?)?;
    let wanted =
        "the range at position 1 is empty, or does not lie past the one before it with a gap";
    assert!(rt; text.as_str() == wanted);
    Ok(())
}

// The content of the debug text is unspecified.
#[test]
fn unlike_refusals_have_unlike_texts_for_debugging(rt: HostRuntime) -> Result<(), Fail> {
    let text = format!(in rt.alloc(); "{:?}", refusal(rt.alloc(), 1, 4)?)?;
    for (position, end) in [(0, 4), (1, 5)] {
        let other = format!(in rt.alloc(); "{:?}", refusal(rt.alloc(), position, end)?)?;
        assert!(rt;
            text.as_str() != other.as_str(),
            "at {position}, of 3..={end}"
        );
    }
    Ok(())
}
