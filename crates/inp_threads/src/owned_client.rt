//! One thread's use of a device that its actor may own.
ghost use Rattle.inp_feedback.specs.UEntry.{step_made};
ghost use Rattle.inp_port.specs.Port.{told_by};
ghost use Rattle.inp_threads.specs.Owner.{IsFedBy};

use inp_feedback::{Fed, Feeds};
use inp_model::{Evdev, Event, Injected, Reply, Stamped, Step, Taken};
use inp_uinput::{FeedbackPort, UClient};
use std::sync::Wait;

/// A port with a pass of it, as the thread of any actor uses its device by it. An owner makes its feedback calls, and
/// any other actor is told what its evdev tells.
#[derive(Drop)]
pub(crate) struct OwnedClient<'a, R: Wait> {
    /// The evdev, with the port and the pass.
    pub(crate) client: UClient<'a, R>,
}

impl<'a, R: Wait> Evdev for OwnedClient<'a, R> {
    ghost told = { λ owned.
        told_by step_made owned.client.port.now owned.client.pass owned.client.agains };

    fn call(&mut self, step: Step, out: &mut [Taken], cells: &mut [i32]) -> Reply {
        self.client.call(step, out, cells)
    }

    fn inject_all(&mut self, events: &[Stamped]) -> Injected {
        self.client.inject_all(events)
    }
}

impl<'a, R: Wait> Feeds for OwnedClient<'a, R> {
    ghost feeds = { λ before after room answer events.
        IsFedBy before.client.port.now after.client.port.now
        before.client.pass after.client.pass room answer events };

    fn feedback(&mut self, out: &mut [Event]) -> Fed {
        let client = &mut self.client;
        client.port.feedback(client.rt, &mut client.pass, out)
    }
}
