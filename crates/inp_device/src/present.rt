//! What a device keeps of its past, and what a step makes of it that nothing refuses.
ghost use Rattle.std.specs.Prelude.{◌≡◌, ◌≤◌, false, [], reverse, IfOk};
ghost use Rattle.inp_model.specs.declared.stamped.TheConstants.{MOMENT_MAX};
ghost use Rattle.inp_model.specs.Step.{moment_of};
ghost use Rattle.inp_model.specs.Reply.{HasRoom};
ghost use Rattle.inp_client.specs.Numbers.{stored_of};
ghost use Rattle.inp_frames.specs.Core.{sends};
ghost use Rattle.inp_device.specs.Device.{TellsSent};
ghost use Rattle.inp_device.specs.Present.{PresentStandsFor, IsReadyFor, IsMadeOrLacks, StoresFewOrLacks};

use crate::handler::Handler;
use inp_caps::Caps;
use inp_frames::Core;
use inp_handles::Handles;
use inp_model::{EV_KEY, EV_LED, EV_SND, EV_SW, NoMemory, Reply, Step, Taken};
use std::alloc::Global;

/// The present state of a device: the description, the core with its batch, the filters and the clients behind them,
/// and the grab. It also has how many clients were opened and how many sources are done.
///
/// It does not keep the history; each call is lent it, oldest first.
#[derive(Drop)]
pub struct Present {
    pub caps: Caps,
    pub core: Core,
    pub handler: Handler,
    pub handles: Handles,
    pub opens: u32,
    pub ends: u32,
}

impl Present {
    /// The state of a device that made no step.
    pub fn new(alloc: Global, caps: Caps) -> Result<Present, NoMemory>
        ensures fresh { IfOk result (λ present. PresentStandsFor caps [] present) }
        ensures stored { IfOk result (λ present. stored_of present.handler.clients ≡ 0) }
        ensures sent { IfOk result (λ present. sends present.core ≡ false) }
    {
        let core = Core::new(alloc, &caps)?;
        let handler = Handler::new(alloc, &caps)?;
        Ok(Present {
            caps,
            core,
            handler,
            handles: Handles::new(),
            opens: 0,
            ends: 0,
        })
    }

    /// Makes a step that nothing refuses, and gives the reply to it. An open may want memory, and then nothing is done.
    pub fn accept(
        &mut self,
        history: &[Step],
        step: Step,
        out: &mut [Taken],
        cells: &mut [i32],
    ) -> Result<Reply, NoMemory>
        requires moment { moment_of step ≤ MOMENT_MAX }
        requires room { HasRoom self.old.caps step out.old cells.old }
        requires ready { IsReadyFor history.now step self.old }
        ensures made { IsMadeOrLacks history.now step self.old result out.old out.new cells.old
            cells.new self.new }
        ensures stored { StoresFewOrLacks history.now step self.old result self.new }
        ensures sent { IfOk result
            (λ _. TellsSent self.old.caps (reverse history.now) step (sends self.new.core)) }
    {
        match step {
            Step::Inject { event, now } => Ok(self.inject(history, event, now)),
            Step::Tick { now } => Ok(self.tick(history, now)),
            Step::Open => self.open(history),
            Step::Close { client } => Ok(self.close(history, client)),
            Step::Read { client, count } => Ok(self.read(history, client, count, out)),
            Step::Discard { client } => Ok(self.discard(history, client)),
            Step::GetKeys { client } => Ok(self.get_bits(history, step, client, EV_KEY)),
            Step::GetSwitches { client } => Ok(self.get_bits(history, step, client, EV_SW)),
            Step::GetLeds { client } => Ok(self.get_bits(history, step, client, EV_LED)),
            Step::GetSounds { client } => Ok(self.get_bits(history, step, client, EV_SND)),
            Step::GetAxis { client, code } => Ok(self.get_axis(history, client, code)),
            Step::SetAxis { client, code, info } => Ok(self.set_axis(history, client, code, info)),
            Step::GetSlots { client, code } => Ok(self.get_slots(history, client, code, cells)),
            Step::SyncSlots { client } => Ok(self.sync_slots(history, client, cells)),
            Step::Write { client, event, now } => Ok(self.write(history, client, event, now)),
            Step::Grab { client } => Ok(self.grab(history, client)),
            Step::Ungrab { client } => Ok(self.ungrab(history, client)),
            Step::Mask {
                client,
                kind,
                word,
                bits,
            } => Ok(self.set_mask(history, client, kind, word, bits)),
            Step::Clock { client, clock, now } => Ok(self.set_clock(history, client, clock, now)),
            Step::Revoke { client } => Ok(self.revoke(history, client)),
            Step::Inhibit { now } => Ok(self.inhibit(history, now)),
            Step::Uninhibit => Ok(self.uninhibit(history)),
            Step::End => Ok(self.end(history)),
        }
    }
}
