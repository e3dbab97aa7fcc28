//! Laws that callers rely on. Each function does nothing, and its clauses state the law.

ghost use Rattle.std.specs.Prelude.{◌≡◌, All, List};
ghost use Rattle.rsb_integer.specs.Runs.{Interval};
ghost use Rattle.rsb_many.specs.Sweep.{AreEvents, Event};
ghost use Rattle.rsb_streams.specs.Touching.{IsTouchingIn};

use rsb_integer::Integer;

/// A list of inputs has at most one list of events. Not in range-set-blaze.
pub fn one_list_of_events<T: Integer>()
    ensures { (inputs : List (List Interval)) (events others : List Event)
        → AreEvents inputs events → AreEvents inputs others → events ≡ others }
{}

/// A list of inputs has a list of events if the ranges of each input ascend, do not overlap, and
/// lie within the type. They may touch. Not in range-set-blaze.
pub fn some_list_of_events<T: Integer>()
    ensures { (inputs : List (List Interval)) → All (IsTouchingIn T.value_count) inputs
        → (events : List Event) × AreEvents inputs events }
{}
