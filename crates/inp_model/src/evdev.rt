//! Whatever makes steps on a device and answers them.
ghost use Rattle.std.specs.Prelude.{◌≤◌};
ghost use Rattle.inp_model.specs.declared.stamped.TheConstants.{MOMENT_MAX};
ghost use Rattle.inp_model.specs.Step.{moment_of};
ghost use Rattle.inp_model.specs.Reply.{HasRoom};
ghost use Rattle.inp_model.specs.Evdev.{EvdevView, IsEvdevCall};
ghost use Rattle.inp_model.specs.Injection.{AreInTime, IsInjectAll};

use crate::{Injected, Reply, Stamped, Step, Taken};

/// Whatever makes steps on a device for one caller and answers them: the device itself, or a share of one (evdev's
/// system calls).
///
/// Every caller sees one history. A call leaves what was seen before as it is; between two calls other callers may have
/// made steps. Each reply is the one-thread device's after the history before its place.
pub trait Evdev {
    /// What the caller sees: the description, the history seen, the places of its own steps, the count of answers
    /// Again, and, where told, turns and a tie.
    ghost told: { Self → EvdevView };

    /// Makes one step. What it writes stands at the front of `out` and of `cells`, and the rest of both stays.
    ///
    /// The moment must be at most `MOMENT_MAX`, `out` as long as the count of a `Read`, and `cells` fourteen values a
    /// slot for `GetSlots` and `SyncSlots`.
    fn call(&mut self, step: Step, out: &mut [Taken], cells: &mut [i32]) -> Reply
        requires moment { moment_of step ≤ MOMENT_MAX }
        requires room { HasRoom (told self.old).description step out.old cells.old }
        ensures called { IsEvdevCall
            (told self.old) (told self.new) step result out.old out.new cells.old cells.new };

    /// Injects events, each at its own moment, up to the first for which the log limit leaves no room. They stand in
    /// the history one after another, with nothing between. To the caller each one is a call, and so is the first one
    /// that is left out, if one is. It is refused as `LogFull`, and those after it are no calls.
    ///
    /// It takes no memory. Where the caller is told its turns they rise, also for no events.
    ///
    /// The moments must be at most `MOMENT_MAX`.
    fn inject_all(&mut self, events: &[Stamped]) -> Injected
        requires moments { AreInTime events.now }
        ensures injected { IsInjectAll (told self.old) (told self.new) events.now result };
}
