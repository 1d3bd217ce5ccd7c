//! A device that several threads use.
ghost use Rattle.std.specs.Prelude.{◌≡◌, ◌≤◌, false, IfOk, IfErr};
ghost use mathlib.Core.List.{IsPrefix};
ghost use Rattle.inp_model.specs.declared.stamped.TheConstants.{MOMENT_MAX};
ghost use Rattle.inp_model.specs.Step.{moment_of};
ghost use Rattle.inp_model.specs.Reply.{HasRoom, is_accepted};
ghost use Rattle.inp_model.specs.Injection.{AreInTime};
ghost use Rattle.inp_turn.specs.Pass.{view_of};
ghost use Rattle.inp_turn.specs.PassView.{whole_share, first_pass_view, view_after_split, split_off_view, view_after_join, AreApart, IsEachAddedOnce};

use crate::served::Served;
use inp_caps::Caps;
use inp_device::Device;
use inp_model::{Injected, NoMemory, Reply, Stamped, Step, Taken};
use inp_turn::{Pass, Shared};
use std::alloc::Global;
use std::sync::Wait;

/// A served value that several threads use, each by a pass of its own. Threads share the port by reference.
///
/// A contract sees its description (`description_of` in `specs/Port.antt`), the value that it was made of
/// (`start_value`), and which passes are its own and have no turn (`IsReadyAt`).
#[derive(Drop)]
pub struct PortOf<S: Served> {
    shared: Shared<S>,
    caps: Caps,
}

/// A port of one device.
pub type Port = PortOf<Device>;

impl<S: Served> PortOf<S> {
    ghost use Rattle.inp_port.specs.Served.{IsServed};
    ghost use Rattle.inp_port.specs.Turn.{IsServedTurn, IsServedAllTurn};
    ghost use Rattle.inp_port.specs.Port.{description_of, shared_of, start_value, IsReadyAt, IsCallBy, IsInjectAllBy};

    /// Shares a value, and makes the first pass. It has the whole share, has seen all entries and owns none.
    ///
    /// It is refused for memory alone, and the value then comes back. No other call of a port takes memory, but that an
    /// `Open` takes what the value wants for a client.
    pub fn new(alloc: Global, state: S) -> Result<(PortOf<S>, Pass<S>), (S, NoMemory)>
        ensures first { IfOk result (λ r. start_value r.0 ≡ state) }
        ensures description { IfOk result (λ r. description_of r.0 ≡ S.base state) }
        ensures ready { IfOk result (λ r. IsReadyAt r.0 r.1) }
        ensures view { IfOk result (λ r.
            view_of r.1 ≡ first_pass_view (S.base state) (S.entries state)) }
        ensures back { IfErr result (λ r. r.0 ≡ state) }
    {
        let caps = state.caps().copy();
        match Shared::new(alloc, state) {
            Ok((shared, pass)) => Ok((PortOf { shared, caps }, pass)),
            Err((state, _)) => Err((state, NoMemory)),
        }
    }

    /// The description, which never changes.
    pub fn caps(&self) -> &Caps
        ensures description { result.now ≡ description_of self.now }
    {
        &self.caps
    }

    /// The shared value, for other calls under the turn than steps.
    pub fn shared(&self) -> &Shared<S>
        ensures shared { result.now ≡ shared_of self.now }
    {
        &self.shared
    }

    /// Splits a pass off another, for another thread. The new pass has seen the same and owns nothing; it gets one unit
    /// of the share, and its turns are 0.
    ///
    /// The pass must be one of this port, without the turn, and have two units at least.
    pub fn split(&self, pass: &mut Pass<S>) -> Pass<S>
        requires ready { IsReadyAt self.now pass.old }
        requires share { 2 ≤ (view_of pass.old).share }
        ensures ready { IsReadyAt self.now pass.new × IsReadyAt self.now result }
        ensures old { view_of pass.new ≡ view_after_split (view_of pass.old) }
        ensures new { view_of result ≡ split_off_view (view_of pass.old) }
    {
        self.shared.split(pass)
    }

    /// Makes one pass of two. What one of them has seen begins with what the other has, and the new pass has seen the
    /// longer list. It owns what both owned, and no place was own to both. Shares and turns are added.
    ///
    /// Both must be passes of this port, without the turn.
    pub fn join(&self, a: Pass<S>, b: Pass<S>) -> Pass<S>
        requires ready { IsReadyAt self.now a × IsReadyAt self.now b }
        ensures ready { IsReadyAt self.now result }
        ensures view { view_of result ≡ view_after_join (view_of a) (view_of b) }
        ensures seen_by_a { IsPrefix (view_of a).seen (view_of result).seen }
        ensures seen_by_b { IsPrefix (view_of b).seen (view_of result).seen }
        ensures apart { AreApart (view_of a).own (view_of b).own }
    {
        self.shared.join(a, b)
    }

    /// Ends the sharing, and gives the value. Its description is the same, and its entries are those that the pass has
    /// seen. The pass owns the place of each entry that was added since [`new`](PortOf::new), once, and no other.
    ///
    /// The pass must be one of this port, without the turn, and have the whole share: all others were joined into it.
    pub fn close(self, pass: Pass<S>) -> S
        requires ready { IsReadyAt self pass }
        requires whole { (view_of pass).share ≡ whole_share }
        ensures description { S.base result ≡ description_of self }
        ensures entries { S.entries result ≡ (view_of pass).seen }
        ensures begins { IsPrefix (S.entries (start_value self)) (S.entries result) }
        ensures own { let first = S.entries (start_value self) in
            IsEachAddedOnce first (S.entries result) (view_of pass).own }
    {
        self.shared.close(pass)
    }

    /// Takes the turn, makes one step and gives the turn back. The pass has then seen all that was entered before the
    /// step, and the step where it was accepted. Its place is then the pass's own.
    ///
    /// It waits for the turn, and nothing says that it gets it. Under the turn it makes the step and no more: what
    /// others wait for is one step of the device, whose cost does not grow with the history.
    ///
    /// The pass must be one of this port, without the turn. The moment must be at most `MOMENT_MAX`, `out` as long as
    /// the count of a `Read`, and `cells` fourteen values a slot for `GetSlots` and `SyncSlots`.
    pub fn call<R: Wait>(
        &self,
        rt: &R,
        pass: &mut Pass<S>,
        step: Step,
        out: &mut [Taken],
        cells: &mut [i32],
    ) -> Reply
        requires ready { IsReadyAt self.now pass.old }
        requires moment { moment_of step ≤ MOMENT_MAX }
        requires room { HasRoom (description_of self.now) step out.old cells.old }
        ensures ready { IsReadyAt self.now pass.new }
        ensures seen { IsPrefix (view_of pass.old).seen (view_of pass.new).seen }
        ensures served { IsServedTurn S.made (description_of self.now) (view_of pass.old)
            step result out.old out.new cells.old cells.new (view_of pass.new) }
        ensures called { IsCallBy S.made self.now pass.old pass.new
            step result out.old out.new cells.old cells.new }

        // What stands after a step that was not accepted. It was answered from what the pass has seen now.
        ensures nothing_entered { is_accepted result ≡ false
            → IsServed S.made (description_of self.now) (view_of pass.new).seen
            step result out.old out.new cells.old cells.new (view_of pass.new).seen }
        ensures own_stays { is_accepted result ≡ false
            → (view_of pass.new).own ≡ (view_of pass.old).own }
        ensures out_stays { is_accepted result ≡ false → out.new ≡ out.old }
        ensures cells_stay { is_accepted result ≡ false → cells.new ≡ cells.old }
    {
        let mut held = self.shared.take(rt, pass);
        let reply = held.state.serve(step, out, cells);
        self.shared.give(pass, held);
        reply
    }

    /// Takes the turn once, injects events under it, each at its own moment, and gives the turn back. As many are
    /// entered as the log limit leaves room for, one after another, and their places are then the pass's own. The pass
    /// has then seen all that was entered before them, and them. The turn is taken also for no events.
    ///
    /// It waits for the turn, and nothing says that it gets it. Others wait for it while the events are injected, whose
    /// cost grows with their number alone. It takes no memory.
    ///
    /// The pass must be one of this port, without the turn. The moments must be at most `MOMENT_MAX`.
    pub fn inject_all<R: Wait>(&self, rt: &R, pass: &mut Pass<S>, events: &[Stamped]) -> Injected
        requires ready { IsReadyAt self.now pass.old }
        requires moments { AreInTime events.now }
        ensures ready { IsReadyAt self.now pass.new }
        ensures seen { IsPrefix (view_of pass.old).seen (view_of pass.new).seen }
        ensures served { IsServedAllTurn S.made (description_of self.now) (view_of pass.old)
            events.now result (view_of pass.new) }
        ensures injected { IsInjectAllBy S.made self.now pass.old pass.new events.now result }
    {
        let mut held = self.shared.take(rt, pass);
        let injected = held.state.serve_all(events);
        self.shared.give(pass, held);
        injected
    }
}
