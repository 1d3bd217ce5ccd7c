//! Where a line stands.
ghost use Rattle.std.specs.Prelude.{◌≡◌};
ghost use Rattle.inp_record.specs.Place.{is_out_of_place};

use crate::keyword::Keyword;

/// What stands before a line.
#[derive(Clone, Copy, Debug, PartialEq, Eq)]
pub(crate) enum Place {
    /// No line with a meaning.
    Start,
    /// The header alone.
    Headed,
    /// A device, whose description may go on.
    Describing,
    /// An actor.
    Naming,
    /// An action.
    Acting,
}

/// Whether no line of this keyword may stand there, where the latest device is made by requests or is not.
pub(crate) fn is_out_of_place(place: Place, requested: bool, keyword: Keyword) -> bool
    ensures { result ≡ is_out_of_place place requested keyword }
{
    match keyword {
        Keyword::Header => place != Place::Start,
        Keyword::Device | Keyword::Udevice => place == Place::Acting,
        Keyword::Source | Keyword::Client | Keyword::Tap | Keyword::Joy => {
            place != Place::Describing && place != Place::Naming
        }
        Keyword::Owner => (place != Place::Describing && place != Place::Naming) || !requested,
        Keyword::Action => false,
        _ => place != Place::Describing,
    }
}
