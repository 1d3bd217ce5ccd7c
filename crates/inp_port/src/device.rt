//! A device as a port serves it.
use crate::served::Served;
use inp_caps::Caps;
use inp_device::Device;
use inp_model::{Injected, Reply, Stamped, Step, Taken};

/// A device's entries are its steps, and no others.
impl Served for Device {
    ghost use Rattle.std.specs.Prelude.{Some};

    ghost made = { λ step. Some step };

    fn caps(&self) -> &Caps {
        self.caps()
    }

    fn serve(&mut self, step: Step, out: &mut [Taken], cells: &mut [i32]) -> Reply {
        self.step(step, out, cells)
    }

    fn serve_all(&mut self, events: &[Stamped]) -> Injected {
        self.inject_all(events)
    }
}
