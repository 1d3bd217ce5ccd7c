//! Events that have no time.
ghost use Rattle.std.specs.Prelude.{◌≡◌};
ghost use Rattle.inp_c.specs.Told.{told_untimed};

use inp_model::{Event, Taken};

/// An event as C is told of it where it has no time and no place.
pub(crate) fn untimed(event: Event) -> Taken
    ensures { result ≡ told_untimed event }
{
    Taken {
        event,
        time: 0,
        place: 0,
    }
}
