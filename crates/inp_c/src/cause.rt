//! Why a line of a record is refused, as a number.
ghost use Rattle.std.specs.Prelude.{◌≡◌};
ghost use Rattle.inp_c.specs.Cause.{cause_number, caps_number};

use inp_caps::CapsRefused;
use inp_record::Cause;

/// The number of a cause.
pub(crate) fn cause_number(cause: Cause) -> u32
    ensures { result ≡ cause_number cause }
{
    match cause {
        Cause::NotText => 1,
        Cause::BadHeader => 2,
        Cause::BadLine => 3,
        Cause::OutOfPlace => 4,
        Cause::NoActor => 5,
        Cause::BadCommand => 6,
        Cause::BadWord => 7,
        Cause::Twice => 8,
        Cause::TooMany => 9,
        Cause::Caps(why) => caps_number(why),
        Cause::BadStream => 17,
    }
}

/// The number of a cause that a description gives.
pub(crate) fn caps_number(why: CapsRefused) -> u32
    ensures { result ≡ caps_number why }
{
    match why {
        CapsRefused::BadCode => 10,
        CapsRefused::BadAxis => 11,
        CapsRefused::BadSlots => 12,
        CapsRefused::BadHint => 13,
        CapsRefused::BadLog => 14,
        CapsRefused::BadOffset => 15,
        CapsRefused::BadFilter => 16,
    }
}
