//! Laws that callers rely on. Each function does nothing, and its clauses state the law.

ghost use Rattle.std.specs.Prelude.{◌≡◌, Bool, List};
ghost use Rattle.rsb_integer.specs.Runs.{Interval};
ghost use Rattle.rsb_integer.specs.Selection.{Selection};
ghost use Rattle.rsb_streams.specs.FillGaps.{IsFilledList};

use rsb_integer::Integer;

/// A set has only one list of its runs and gaps. Not in range-set-blaze.
pub fn one_filled_list<T: Integer>()
    ensures { (selected : Selection) (pairs others : List (Interval × Bool))
        → IsFilledList T.value_count selected pairs → IsFilledList T.value_count selected others
        → pairs ≡ others }
{}
