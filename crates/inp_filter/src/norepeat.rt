//! A filter that eats every autorepeat.
ghost use Rattle.std.specs.Prelude.{◌≡◌, ◌&&◌, nat_eq};
ghost use Rattle.inp_model.specs.Event.{is_repeat};

use inp_model::{EV_KEY, Event};

/// It eats every autorepeat of every key.
#[derive(Debug, Drop)]
pub struct Norepeat;

impl Norepeat {
    /// Whether it eats the event.
    pub fn eats(&self, event: Event) -> bool
        ensures { result ≡ (nat_eq event.kind EV_KEY && is_repeat event) }
    {
        event.kind == EV_KEY && event.is_repeat()
    }
}
