//! A device made by requests as a value that threads use in turns.
use crate::Udev;
use inp_caps::Caps;
use inp_feedback::UEntry;
use inp_model::{Injected, Reply, Stamped, Step, Taken};
use inp_port::Served;
use inp_turn::Kept;

/// A device made by requests is made for its description, and its entries are all that it keeps, oldest first.
impl Kept for Udev {
    type Base = Caps;

    type Entry = UEntry;

    ghost use Rattle.std.specs.Prelude.{reverse};

    ghost base = { λ u. u.description };

    ghost entries = { λ u. reverse u.kept };
}

/// Its feedback calls are no steps.
impl Served for Udev {
    ghost use Rattle.inp_feedback.specs.UEntry.{step_made};

    ghost made = { step_made };

    fn caps(&self) -> &Caps {
        self.caps()
    }

    fn serve(&mut self, step: Step, out: &mut [Taken], cells: &mut [i32]) -> Reply {
        self.step(step, out, cells)
    }

    fn serve_all(&mut self, events: &[Stamped]) -> Injected {
        self.inject_all(events)
    }
}
