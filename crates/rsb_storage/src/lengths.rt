//! Adds the length of a run to the length of a set, or subtracts it.

ghost use Rattle.std.specs.Prelude.{◌≡◌, ◌+◌, ◌≤◌};
ghost use Rattle.rsb_integer.specs.Runs.{length_of, HasRanks};
ghost use Rattle.rsb_storage.specs.Storage.{run_of};

use crate::run::Run;
use rsb_integer::Integer;

/// Adds the number of values of a run to a length.
pub fn add_length<T: Integer>(length: &mut T::SafeLen, run: Run<T>)
    requires some { HasRanks (run_of T.rank run) }
    requires fits { T.SafeLen.number length.old + length_of (run_of T.rank run) ≤ T.value_count }
    ensures { T.SafeLen.number length.new
        ≡ T.SafeLen.number length.old + length_of (run_of T.rank run) }
{
    *length += T::safe_len(&(run.start..=run.end));
}

/// Subtracts the number of values of a run from a length.
pub fn subtract_length<T: Integer>(length: &mut T::SafeLen, run: Run<T>)
    requires some { HasRanks (run_of T.rank run) }
    requires fits { T.SafeLen.number length.old ≤ T.value_count }
    requires counted { length_of (run_of T.rank run) ≤ T.SafeLen.number length.old }
    ensures { T.SafeLen.number length.new + length_of (run_of T.rank run)
        ≡ T.SafeLen.number length.old }
{
    *length -= T::safe_len(&(run.start..=run.end));
}
