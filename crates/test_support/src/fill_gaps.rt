//! Comparison of the runs and gaps of a stream with a table.

use rsb_integer::Integer;
use rsb_streams::DrawDisjoint;

/// Returns whether a stream has exactly these runs and gaps, each given by its ends and whether it
/// is a run.
pub fn fills<T: Integer, I: DrawDisjoint<T>>(stream: I, wanted: &[(T, T, bool)]) -> bool
    requires { I.can_draw stream }
{
    let mut pairs = stream.fill_gaps();
    for (start, end, is_run) in wanted {
        let Some((range, told)) = pairs.next() else {
            return false;
        };
        if range != (*start..=*end) || told != *is_run {
            return false;
        }
    }
    pairs.next().is_none()
}
