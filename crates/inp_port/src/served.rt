//! What a port may serve.
ghost use Rattle.std.specs.Prelude.{◌≡◌, ◌≤◌, Option};
ghost use Rattle.inp_model.specs.declared.stamped.TheConstants.{MOMENT_MAX};
ghost use Rattle.inp_model.specs.declared.step.Step.{Step};
ghost use Rattle.inp_model.specs.Step.{moment_of};
ghost use Rattle.inp_model.specs.Reply.{HasRoom};
ghost use Rattle.inp_model.specs.Injection.{AreInTime};
ghost use Rattle.inp_port.specs.Served.{IsServed, IsServedAll};

use inp_caps::Caps;
use inp_model::{Injected, Reply, Stamped, Step, Taken};
use inp_turn::Kept;

/// A kept value that makes the steps of a device. It is made for the description of one, and the steps that it accepted
/// are among its entries, in order. There may be entries that are no steps.
pub trait Served: Kept<Base = Caps> {
    /// The step that an entry is, if it is one.
    ghost made: { Self.Entry → Option Step };

    /// The description, which never changes.
    fn caps(&self) -> &Caps
        ensures description { result.now ≡ Self.base self.now };

    /// Makes one step, and answers as the one-thread device does after the steps so far. An accepted step is entered,
    /// and nothing else is. What it writes stands at the front of `out` and of `cells`, and the rest of both stays.
    ///
    /// The moment must be at most `MOMENT_MAX`, `out` as long as the count of a `Read`, and `cells` fourteen values a
    /// slot for `GetSlots` and `SyncSlots`.
    fn serve(&mut self, step: Step, out: &mut [Taken], cells: &mut [i32]) -> Reply
        requires moment { moment_of step ≤ MOMENT_MAX }
        requires room { HasRoom (Self.base self.old) step out.old cells.old }
        ensures description { Self.base self.new ≡ Self.base self.old }
        ensures served { IsServed made (Self.base self.old) (Self.entries self.old) step result
            out.old out.new cells.old cells.new (Self.entries self.new) };

    /// Injects events, each at its own moment, as many of them as the log limit leaves room for. These are entered in
    /// order, and nothing else is. It takes no memory.
    ///
    /// The moments must be at most `MOMENT_MAX`.
    fn serve_all(&mut self, events: &[Stamped]) -> Injected
        requires moments { AreInTime events.now }
        ensures description { Self.base self.new ≡ Self.base self.old }
        ensures served { IsServedAll made (Self.base self.old) (Self.entries self.old)
            events.now result (Self.entries self.new) };
}
