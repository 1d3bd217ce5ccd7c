//! What an event says of a key.
ghost use Rattle.std.specs.Prelude.{◌≡◌};
ghost use Rattle.inp_model.specs.Filter.{is_on_key, is_press, is_release};

use inp_model::{EV_KEY, Event};

/// Whether it is about this key.
pub fn is_on_key(event: Event, code: u16) -> bool
    ensures { result ≡ is_on_key code event }
{
    event.kind == EV_KEY && event.code == code
}

/// Of a key: whether it goes down, and this is no autorepeat.
pub fn is_press(event: Event) -> bool
    ensures { result ≡ is_press event }
{
    event.is_set() && !event.is_repeat()
}

/// Of a key: whether it goes up.
pub fn is_release(event: Event) -> bool
    ensures { result ≡ is_release event }
{
    !event.is_set()
}
