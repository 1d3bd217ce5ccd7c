//! A device made by requests with its owner on one thread.
ghost use Rattle.std.specs.Prelude.{◌≡◌, [], length, reverse, IfOk};
ghost use Rattle.inp_model.specs.History.{IsHistory};
ghost use Rattle.inp_model.specs.Reply.{written};
ghost use Rattle.inp_feedback.specs.UEntry.{steps_in};
ghost use Rattle.inp_feedback.specs.Feedback.{taken_by_feedback, fed, kept_after_feedback};

use crate::Udev;
use inp_caps::Caps;
use inp_feedback::Fed;
use inp_model::{Evdev, Event, History, Injected, NoMemory, Reply, Stamped, Step, Taken};
use std::alloc::Global;
use std::marker::Model;

/// A device made by requests as whoever plays it on one thread has it. What a caller is told has its feedback calls as
/// its tie, so calls of an evdev leave them as they are.
///
/// A contract sees it as the device that it has.
#[derive(Drop)]
pub struct Owned {
    /// The device.
    pub udev: Udev,
}

impl Model for Owned {
    ghost use Rattle.inp_uinput.specs.UdevView.{UdevView};

    ghost Value = { UdevView };

    ghost view = { λ o. o.udev };
}

impl Owned {
    /// A device of this description that keeps nothing yet. It takes the memory for all that the device may keep, its
    /// feedback calls too, and is refused for memory alone.
    pub fn new(alloc: Global, caps: Caps) -> Result<Owned, NoMemory>
        ensures fresh { IfOk result (λ owned.
            owned ≡ record { description = caps; kept = []; agains = 0 }) }
    {
        let udev = Udev::new(alloc, caps)?;
        Ok(Owned { udev })
    }

    /// A feedback call, as [`Udev::feedback`] makes it.
    pub fn feedback(&mut self, out: &mut [Event]) -> Fed
        ensures answer { result ≡ fed self.old.description self.old.kept (length out.old) }
        ensures written { out.new ≡ written
            (taken_by_feedback self.old.description self.old.kept (length out.old)) out.old }
        ensures kept { self.new ≡ record self.old {
          kept =
              kept_after_feedback self.old.description self.old.kept (length out.old);
        } }
    {
        self.udev.feedback(out)
    }

    /// The history, taken out of the device: its accepted steps, oldest first. It takes no memory.
    pub fn into_history(self) -> History
        ensures history { result ≡ reverse (steps_in self.kept) }
        ensures accepted { IsHistory self.description (steps_in self.kept) }
    {
        self.udev.into_history()
    }
}

impl Evdev for Owned {
    ghost use Rattle.inp_uinput.specs.UdevView.{owned_view};

    ghost told = { owned_view };

    fn call(&mut self, step: Step, out: &mut [Taken], cells: &mut [i32]) -> Reply {
        self.udev.step(step, out, cells)
    }

    fn inject_all(&mut self, events: &[Stamped]) -> Injected {
        self.udev.inject_all(events)
    }
}
