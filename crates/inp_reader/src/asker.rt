//! How a reader asks a device for its state.
ghost use Rattle.std.specs.Prelude.{◌≡◌, ◌≤◌, ◌<◌, ◌+◌, ◌-◌, [], ◌∷◌, ◌++◌, length};
ghost use Rattle.inp_model.specs.declared.stamped.TheConstants.{MOMENT_MAX};
ghost use Rattle.inp_model.specs.declared.step.Step.TheVariants.{Discard};
ghost use Rattle.inp_model.specs.Step.{moment_of};
ghost use Rattle.inp_model.specs.Reply.{HasRoom};
ghost use Rattle.inp_reader.specs.ReaderCalls.{Asks, AsksAnAxis, asked_result};
ghost use Rattle.inp_reader.specs.Reader.{queries, bit_queries, axis_queries, plain_axes, only_if, ask_each, axes_among};
ghost use Rattle.inp_reader.specs.FollowsTalk.{FollowsTalk, kept_call};
ghost use Rattle.inp_reader.specs.Session.{IsReady};

use crate::cell_buffer::CellBuffer;
use crate::{CallMade, CallsMade};
use inp_caps::Caps;
use inp_model::{
    ABS_MAX, ABS_MT_SLOT, ABS_MT_TOOL_Y, EV_ABS, EV_KEY, EV_LED, EV_SW, Evdev, Reply, Step,
};
use inp_recon::View;

/// Makes calls, keeps them, and sets a view by the answers.
#[derive(Drop)]
pub(crate) struct Asker {
    /// The calls that were made, at most 64 (this project's choice), those answered Again left out.
    pub(crate) made: CallsMade<64>,
    /// The buffer for the values of slots.
    pub(crate) cells: CellBuffer,
    /// The view that is set by the answers.
    pub(crate) view: View,
}

impl Asker {
    // Keeps a call, unless it was answered Again.
    pub(crate) fn keep(&mut self, step: Step, reply: Reply)
        requires { length self.old.made < 64 }
        ensures kept { self.new ≡ record self.old { made = self.old.made ++ kept_call step reply } }
        ensures few { length self.new.made ≤ length self.old.made + 1 }
    {
        match reply {
            Reply::Again { .. } => {}
            _ => self.made.push(CallMade { step, reply }),
        }
    }

    // Makes a step that takes no events, and keeps it.
    pub(crate) fn ask<E: Evdev>(&mut self, dev: &mut E, caps: &Caps, step: Step) -> Reply
        requires moment { moment_of step ≤ MOMENT_MAX }
        requires room { HasRoom caps.now step [] self.old.cells }
        requires ready { IsReady caps.now (E.told dev.old) self.old }
        requires few { length self.old.made < 64 }
        ensures asks { Asks (E.told dev.old) (E.told dev.new) self.old.made self.new.made
            step result self.old.cells self.new.cells }
        ensures view { self.new.view ≡ self.old.view }
        ensures ready { IsReady caps.now (E.told dev.new) self.new }
        ensures few { length self.new.made ≤ length self.old.made + 1 }
    {
        let reply = self.cells.call(dev, step);
        self.keep(step, reply);
        reply
    }

    // Makes a step, and sets the view by its answer. The reply of one that is not accepted comes back.
    fn query<E: Evdev>(&mut self, dev: &mut E, caps: &Caps, step: Step) -> Option<Reply>
        requires moment { moment_of step ≤ MOMENT_MAX }
        requires room { HasRoom caps.now step [] self.old.cells }
        requires axis { AsksAnAxis step }
        requires ready { IsReady caps.now (E.told dev.old) self.old }
        requires few { length self.old.made < 64 }
        ensures says { FollowsTalk (E.told dev.old) (E.told dev.new) self.old.made self.new.made
            (ask_each (step ∷ []) self.old.view) (asked_result result self.new.view) }
        ensures ready { IsReady caps.now (E.told dev.new) self.new }
        ensures few { length self.new.made ≤ length self.old.made + 1 }
    {
        let reply = self.ask(dev, caps, step);
        if !reply.is_accepted() {
            return Some(reply);
        }
        self.view.answer(step, reply, self.cells.as_slice());
        None
    }

    // The same, where the step is wanted.
    fn query_if<E: Evdev>(
        &mut self,
        dev: &mut E,
        caps: &Caps,
        wanted: bool,
        step: Step,
    ) -> Option<Reply>
        requires moment { moment_of step ≤ MOMENT_MAX }
        requires room { HasRoom caps.now step [] self.old.cells }
        requires axis { AsksAnAxis step }
        requires ready { IsReady caps.now (E.told dev.old) self.old }
        requires few { length self.old.made < 64 }
        ensures says { FollowsTalk (E.told dev.old) (E.told dev.new) self.old.made self.new.made
            (ask_each (only_if wanted step) self.old.view) (asked_result result self.new.view) }
        ensures ready { IsReady caps.now (E.told dev.new) self.new }
        ensures few { length self.new.made ≤ length self.old.made + 1 }
    {
        if wanted {
            self.query(dev, caps, step)
        } else {
            None
        }
    }

    // Asks for the supported axes from `first` to before `end`.
    fn query_axes<E: Evdev>(
        &mut self,
        dev: &mut E,
        caps: &Caps,
        client: u32,
        first: u16,
        end: u16,
    ) -> Option<Reply>
        requires range { first ≤ end }
        requires codes { end ≤ 64 }
        requires ready { IsReady caps.now (E.told dev.old) self.old }
        requires few { length self.old.made + (end - first) ≤ 64 }
        ensures says { let axes = axes_among caps.now first (end - first) in
            FollowsTalk (E.told dev.old) (E.told dev.new) self.old.made self.new.made
            (ask_each (axis_queries client axes) self.old.view) (asked_result result self.new.view) }
        ensures ready { IsReady caps.now (E.told dev.new) self.new }
        ensures few { length self.new.made ≤ length self.old.made + (end - first) }
    {
        for code in first..end {
            let wanted = caps.supports(EV_ABS, code);
            let stop = self.query_if(dev, caps, wanted, Step::GetAxis { client, code });
            if stop.is_some() {
                return stop;
            }
        }
        None
    }

    // Asks for all axes with a value of their own.
    fn query_plain_axes<E: Evdev>(&mut self, dev: &mut E, caps: &Caps, client: u32) -> Option<Reply>
        requires ready { IsReady caps.now (E.told dev.old) self.old }
        requires few { length self.old.made + 49 ≤ 64 }
        ensures says { let axes = plain_axes caps.now in
            FollowsTalk (E.told dev.old) (E.told dev.new) self.old.made self.new.made
            (ask_each (axis_queries client axes) self.old.view) (asked_result result self.new.view) }
        ensures ready { IsReady caps.now (E.told dev.new) self.new }
        ensures few { length self.new.made ≤ length self.old.made + 49 }
    {
        let stop = self.query_axes(dev, caps, client, 0, ABS_MT_SLOT);
        if stop.is_some() {
            return stop;
        }
        self.query_axes(dev, caps, client, ABS_MT_TOOL_Y + 1, ABS_MAX + 1)
    }

    // Asks for all keys, LEDs and switches.
    fn query_bits<E: Evdev>(&mut self, dev: &mut E, caps: &Caps, client: u32) -> Option<Reply>
        requires ready { IsReady caps.now (E.told dev.old) self.old }
        requires few { length self.old.made + 3 ≤ 64 }
        ensures says { FollowsTalk (E.told dev.old) (E.told dev.new) self.old.made self.new.made
            (ask_each (bit_queries caps.now client) self.old.view)
            (asked_result result self.new.view) }
        ensures ready { IsReady caps.now (E.told dev.new) self.new }
        ensures few { length self.new.made ≤ length self.old.made + 3 }
    {
        let has_keys = caps.has_kind(EV_KEY);
        let stop = self.query_if(dev, caps, has_keys, Step::GetKeys { client });
        if stop.is_some() {
            return stop;
        }
        let has_leds = caps.has_kind(EV_LED);
        let stop = self.query_if(dev, caps, has_leds, Step::GetLeds { client });
        if stop.is_some() {
            return stop;
        }
        let has_switches = caps.has_kind(EV_SW);
        self.query_if(dev, caps, has_switches, Step::GetSwitches { client })
    }

    // Asks for all that the device has.
    pub(crate) fn query_all<E: Evdev>(
        &mut self,
        dev: &mut E,
        caps: &Caps,
        client: u32,
    ) -> Option<Reply>
        requires ready { IsReady caps.now (E.told dev.old) self.old }
        requires few { length self.old.made + 53 ≤ 64 }
        ensures says { FollowsTalk (E.told dev.old) (E.told dev.new) self.old.made self.new.made
            (ask_each (queries caps.now client) self.old.view) (asked_result result self.new.view) }
        ensures ready { IsReady caps.now (E.told dev.new) self.new }
        ensures few { length self.new.made ≤ length self.old.made + 53 }
    {
        let stop = self.query_bits(dev, caps, client);
        if stop.is_some() {
            return stop;
        }
        let stop = self.query_plain_axes(dev, caps, client);
        if stop.is_some() {
            return stop;
        }
        let has_slots = caps.slots() > 0;
        self.query_if(dev, caps, has_slots, Step::SyncSlots { client })
    }

    // Removes what is visible to the client, and asks for all that the device has.
    pub(crate) fn discard_and_query<E: Evdev>(
        &mut self,
        dev: &mut E,
        caps: &Caps,
        client: u32,
    ) -> Option<Reply>
        requires ready { IsReady caps.now (E.told dev.old) self.old }
        requires few { length self.old.made + 54 ≤ 64 }
        ensures says { let steps = Discard client ∷ queries caps.now client in
            FollowsTalk (E.told dev.old) (E.told dev.new) self.old.made self.new.made
            (ask_each steps self.old.view) (asked_result result self.new.view) }
        ensures ready { IsReady caps.now (E.told dev.new) self.new }
        ensures few { length self.new.made ≤ length self.old.made + 54 }
    {
        let stop = self.query(dev, caps, Step::Discard { client });
        if stop.is_some() {
            return stop;
        }
        self.query_all(dev, caps, client)
    }
}
