//! What is wrong with bytes that are not those of a set, as C sees it.

ghost use Rattle.std.specs.Prelude.{◌≡◌};
ghost use Rattle.range_set_c.specs.BadBytes.{number_of_reason};

use range_set_bytes::Reason;

/// Returns the number of a reason.
pub fn reason_number(reason: Reason) -> u32
    ensures { result ≡ number_of_reason reason }
{
    match reason {
        Reason::NotMagic => 1,
        Reason::OtherVersion => 2,
        Reason::OtherWidth => 3,
        Reason::CutShort => 4,
        Reason::NotShortest => 5,
        Reason::Touching => 6,
        Reason::PastGreatest => 7,
        Reason::TooLong => 8,
    }
}
