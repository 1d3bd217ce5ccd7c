//! The device.
ghost use Rattle.std.specs.Prelude.{◌≡◌, ◌≤◌, ◌<◌, ◌+◌, true, false, pos, [], ◌∷◌, length, take, reverse, IfOk, ◌↔◌, sum_by, All};
ghost use Rattle.inp_model.specs.declared.event.TheConstants.{ABS_MAX};
ghost use Rattle.inp_model.specs.declared.limits.TheConstants.{LOG_MAX, CLIENTS_MAX};
ghost use Rattle.inp_model.specs.declared.stamped.TheConstants.{MOMENT_MAX};
ghost use Rattle.inp_model.specs.declared.step.Step.TheVariants.{Inject};
ghost use Rattle.inp_model.specs.History.{IsHistory};
ghost use Rattle.inp_model.specs.Injection.{AreInTime, entered_count, history_with};
ghost use Rattle.inp_model.specs.Description.{is_slot_code};
ghost use Rattle.inp_model.specs.State.{cell};
ghost use Rattle.inp_model.specs.Raw.{raw};
ghost use Rattle.inp_model.specs.Past.{open_clients, has_mask, mask_words};
ghost use Rattle.inp_model.specs.Queue.{queue};
ghost use Rattle.inp_model.specs.Step.{moment_of};
ghost use Rattle.inp_model.specs.Reply.{HasRoom, IsDeviceStep, is_accepted, bitmap_of, code_on, axis_answer, written};
ghost use Rattle.inp_model.specs.Evdev.{agains_after};
ghost use Rattle.inp_device.specs.Device.{plain_view, stored_most, stored_since, goes_out, TellsSent};
ghost use Rattle.inp_device.specs.Present.{queued_places};
ghost use Rattle.inp_device.specs.Queries.{visible_to, readable_clients, state_of_client, mask_word_of, repeat_after, HasBits};

use crate::client_state::ClientState;
use crate::present::Present;
use crate::queries;
use crate::repeat::Repeat;
use crate::replies::{count_again, refuse};
use inp_caps::Caps;
use inp_model::{
    AxisInfo, Evdev, Event, History, Injected, NoMemory, Refusal, Reply, Stamped, Step, Taken,
};
use std::alloc::Global;
use std::marker::Model;
use std::mem::size_of;

// A history has at most 40 bytes a step.
const _: () = prove!(size_of::<Step>() <= 40);

/// A device, seen as its description, its past (the steps that it accepted, newest first), how many calls it answered
/// `Again`, how many events it keeps for its clients, and whether the last event from outside goes to the device.
///
/// It keeps the present state and never looks back at its history. It takes memory when it is made, for what it keeps
/// and for the whole history, and when a client is opened, and at no other step.
#[derive(Drop)]
pub struct Device {
    // On the heap, so that a device is moved in some words.
    present: Box<Present>,
    steps: Vec<Step>,
    agains: u64,
}

impl Model for Device {
    ghost use Rattle.inp_device.specs.Device.{StoringView};

    ghost Value = { StoringView };

    ghost use Rattle.std.specs.Prelude.{reverse, vec_capacity};
    ghost use Rattle.inp_frames.specs.Core.{sends};
    ghost use Rattle.inp_client.specs.Numbers.{stored_of};
    ghost use Rattle.inp_device.specs.Present.{IsKeptWith};

    ghost view = { λ d. record {
      description = d.present.value.caps;
      past = reverse d.steps.items;
      agains = d.agains;
      stored = stored_of d.present.value.handler.clients;
      sent = sends d.present.value.core;
    } };

    ghost invariant = { λ d. IsKeptWith d.steps.items (vec_capacity d.steps) d.present.value };
}

impl Device {
    /// A device of this description with an empty history. It takes the memory for what a device keeps, and for as many
    /// steps as its log limit says.
    pub fn new(alloc: Global, caps: Caps) -> Result<Device, NoMemory>
        ensures fresh { IfOk result (λ device.
            device ≡ record { description = caps; past = []; agains = 0; stored = 0; sent = false }) }
    {
        let steps = Vec::with_capacity(alloc, caps.log() as usize)?;
        let present = Box::new(alloc, Present::new(alloc, caps)?)?;
        Ok(Device {
            present,
            steps,
            agains: 0,
        })
    }

    /// The description, which never changes.
    pub fn caps(&self) -> &Caps
        ensures description { result.now ≡ self.now.description }
    {
        &self.present.caps
    }

    /// Makes one step.
    ///
    /// An accepted step is entered in the history, and its reply has its place there. After any other reply all is as
    /// before, but that answers `Again` are counted (the count stays at its type's end). What a `Read` takes is written
    /// to the front of `out`, and what `GetSlots` and `SyncSlots` tell to the front of `cells`. The rest of both stays.
    /// A query of keys, switches, LEDs or sounds removes the client's queued events of its type, and `SyncSlots` those
    /// of the multi-touch axes.
    ///
    /// A step is refused for the first of these causes that holds:
    ///
    /// | Reply | Cause |
    /// |---|---|
    /// | `BadClient` | the named client is not open |
    /// | `NoDevice` | the named client was revoked, and the step does not close it |
    /// | `BadKind` | an axis is asked for or described, or slots are asked for, and the device has none; or a type has no mask |
    /// | `BadCode` | an axis above `ABS_MAX`, slots outside `ABS_MT_TOUCH_MAJOR` to `ABS_MT_TOOL_Y`, a word past its mask |
    /// | `BadCode` | an axis is described anew that belongs to slots, or that the device lacks |
    /// | `BadInfo` | an axis is described with a fuzz that is negative or above `FUZZ_MAX` |
    /// | `Again` | a read finds nothing visible |
    /// | `Busy` | the grab is taken while a client holds it |
    /// | `NotGrabber` | the grab is given up by a client that does not hold it |
    /// | `TooMany` | a client is opened while `CLIENTS_MAX` are open |
    /// | `LogFull` | the history has as many steps as its limit |
    /// | `NoMemory` | a client is opened, and memory ran out |
    ///
    /// The cost of a step does not grow with the history. Only `Open` takes memory.
    ///
    /// The caller must pass a moment of at most `MOMENT_MAX` and an `out` that is as long as the count of a `Read`. For
    /// `GetSlots` and `SyncSlots` it must pass a `cells` of fourteen values a slot.
    pub fn step(&mut self, step: Step, out: &mut [Taken], cells: &mut [i32]) -> Reply
        requires moment { moment_of step ≤ MOMENT_MAX }
        requires room { HasRoom self.old.description step out.old cells.old }
        ensures step { IsDeviceStep
            self.old.description self.old.past step result out.old out.new cells.old cells.new
            self.new.past }
        ensures description { self.new.description ≡ self.old.description }
        ensures agains { self.new.agains ≡ agains_after result self.old.agains }
        ensures accepted { IsHistory self.new.description self.new.past }
        ensures before { IsHistory self.old.description self.old.past }

        // What stands after a step that was not accepted.
        ensures past_stays { is_accepted result ≡ false → self.new.past ≡ self.old.past }
        ensures out_stays { is_accepted result ≡ false → out.new ≡ out.old }
        ensures cells_stay { is_accepted result ≡ false → cells.new ≡ cells.old }
        ensures stored { self.new.stored
            ≤ self.old.stored + stored_most self.old.description self.old.past step }
        ensures stored_stays { is_accepted result ≡ false → self.new.stored ≡ self.old.stored }
        ensures sent { is_accepted result ≡ true
            → TellsSent self.old.description self.old.past step self.new.sent }
    {
        let Step::Inject { event, now } = step else {
            return self.make(step, out, cells);
        };
        let at = self.steps.len() as u32;
        if at >= self.present.caps.log() {
            return refuse(&self.steps, Refusal::LogFull);
        }
        self.enter(event, now);
        Reply::Done { at }
    }

    // Makes a step of any kind. Nothing but a full history refuses an injected event, which has a shorter way.
    #[inline(never)]
    fn make(&mut self, step: Step, out: &mut [Taken], cells: &mut [i32]) -> Reply
        requires moment { moment_of step ≤ MOMENT_MAX }
        requires room { HasRoom self.old.description step out.old cells.old }
        ensures step { IsDeviceStep
            self.old.description self.old.past step result out.old out.new cells.old cells.new
            self.new.past }
        ensures description { self.new.description ≡ self.old.description }
        ensures agains { self.new.agains ≡ agains_after result self.old.agains }
        ensures accepted { IsHistory self.new.description self.new.past }
        ensures before { IsHistory self.old.description self.old.past }
        ensures past_stays { is_accepted result ≡ false → self.new.past ≡ self.old.past }
        ensures out_stays { is_accepted result ≡ false → out.new ≡ out.old }
        ensures cells_stay { is_accepted result ≡ false → cells.new ≡ cells.old }
        ensures stored { self.new.stored
            ≤ self.old.stored + stored_most self.old.description self.old.past step }
        ensures stored_stays { is_accepted result ≡ false → self.new.stored ≡ self.old.stored }
        ensures sent { is_accepted result ≡ true
            → TellsSent self.old.description self.old.past step self.new.sent }
    {
        if let Some(reply) = self.present.refusal(&self.steps, step) {
            self.agains = count_again(reply, self.agains);
            return reply;
        }
        match self.present.accept(&self.steps, step, out, cells) {
            Ok(reply) => {
                self.steps.push(step).unwrap();
                reply
            }
            Err(NoMemory) => refuse(&self.steps, Refusal::NoMemory),
        }
    }

    /// Injects events, each at its own moment, as many of them as the log limit leaves room for. They are entered in
    /// order, as steps `Inject` are.
    ///
    /// The cost of an event does not grow with the history, nor with the number of events. No memory is taken.
    ///
    /// The caller must pass moments of at most `MOMENT_MAX`.
    pub fn inject_all(&mut self, events: &[Stamped]) -> Injected
        requires moments { AreInTime events.now }
        ensures from { result.from ≡ length self.old.past }
        ensures count { result.count
            ≡ entered_count self.old.description result.from events.now }
        ensures within { result.from + result.count ≤ LOG_MAX }
        ensures entered { reverse self.new.past
            ≡ history_with (reverse self.old.past) result.count events.now }
        ensures description { self.new.description ≡ self.old.description }
        ensures agains { self.new.agains ≡ self.old.agains }
        ensures stored { self.new.stored ≤ self.old.stored
            + stored_since self.new.description result.count self.new.past }
        ensures accepted { IsHistory self.new.description self.new.past }
        ensures before { IsHistory self.old.description self.old.past }
    {
        let from = self.steps.len();
        let count = events.len().min(self.present.caps.log() as usize - from);
        for stamped in &events[..count] {
            self.enter(stamped.event, stamped.now);
        }
        Injected {
            from: from as u32,
            count: count as u32,
        }
    }

    /// Injects one event, for which there is room in the history, and answers whether it goes to the device itself
    /// too, to its lights, sounds and settings.
    ///
    /// The caller must pass a moment of at most `MOMENT_MAX`, and see that the history is shorter than the log limit.
    pub fn enter(&mut self, event: Event, now: u64) -> bool
        requires moment { now ≤ MOMENT_MAX }
        requires room { length self.old.past < self.old.description.log_limit }
        ensures entered { plain_view self.new
            ≡ record (plain_view self.old) { past = Inject event now ∷ self.old.past } }
        ensures stored { self.new.stored ≤ self.old.stored
            + stored_most self.old.description self.old.past (Inject event now) }
        ensures accepted { IsHistory self.new.description self.new.past }
        ensures sent { self.new.sent ≡ goes_out self.old.description self.old.past event }
        ensures answer { result ≡ goes_out self.old.description self.old.past event }
    {
        self.present.inject(&self.steps, event, now);
        self.steps.push(Step::Inject { event, now }).unwrap();
        self.present.core.sends()
    }

    /// Right after a step that injected or wrote an event: whether that goes to the device itself too, to its lights,
    /// sounds and settings.
    #[inline(always)]
    pub fn sent(&self) -> bool
        ensures sent { result ≡ self.now.sent }
    {
        self.present.core.sends()
    }

    /// How many events are kept: each event of a frame that at least one queue holds, once, and each SYN_DROPPED.
    ///
    /// It is 0 exactly where all queues are empty. It is at least the length of the longest queue, and at least how
    /// many steps the queued events came from. It is at most the length of all queues together.
    ///
    /// A step adds to it at most as many events as it offers to clients, and one for each client that loses its queue
    /// (`stored_most`). A step that is refused leaves it.
    pub fn stored(&self) -> u32
        ensures exact { result ≡ self.now.stored }
        ensures none { (result ≡ 0)
            ↔ All (λ client. queue self.now.description self.now.past client ≡ [])
            (open_clients self.now.past) }
        ensures least { All (λ client. length (queue self.now.description self.now.past client) ≤ result)
            (open_clients self.now.past) }
        ensures places { length (queued_places self.now.description self.now.past) ≤ result }
        ensures most { result
            ≤ sum_by (λ client. length (queue self.now.description self.now.past client))
            (open_clients self.now.past) }
    {
        self.present.handler.clients.stored()
    }

    /// How many events an open client could read now, and None where the client is not open.
    pub fn visible(&self, client: u32) -> Option<u32>
        ensures visible { result ≡ visible_to self.now.description self.now.past client }
    {
        self.present.visible(client)
    }

    /// Writes the numbers of the open clients that could read something now, ascending, to the front of a buffer, as many
    /// as fit, and says how many there are in all, at most 64. The rest of the buffer stays.
    pub fn readable(&self, clients: &mut [u32]) -> u32
        ensures count { result ≡ length (readable_clients self.now.description self.now.past) }
        ensures few { result ≤ CLIENTS_MAX }
        ensures written { let readable = readable_clients self.now.description self.now.past in
            clients.new ≡ written (take (length clients.old) readable) clients.old }
    {
        self.present.readable(clients)
    }

    /// The clock of an open client, whether it was revoked, and whether it holds the grab. None where the client is not
    /// open.
    pub fn client(&self, client: u32) -> Option<ClientState>
        ensures client { result ≡ state_of_client self.now.past client }
    {
        self.present.client(client)
    }

    /// 64 bits of one of an open client's masks, from `64 * word` on, the first as the lowest bit, and None where the
    /// client is not open. The mask of types goes by `EV_SYN`. A bit that was never set is 1.
    ///
    /// The caller must pass a type that has a mask, and a word that the mask has: it has 12 for `EV_KEY`, and else one.
    pub fn mask(&self, client: u32, kind: u16, word: u16) -> Option<u64>
        requires kind { has_mask kind ≡ true }
        requires word { word < mask_words kind }
        ensures mask { result ≡ mask_word_of self.now.past client kind word }
    {
        self.present.mask(client, kind, word)
    }

    /// Which keys are down, or which switches, LEDs or sounds are on, by the type: bit i for the code i, 64 a word.
    ///
    /// The caller must pass `EV_KEY`, `EV_SW`, `EV_LED` or `EV_SND`. No client's events are removed.
    pub fn bits(&self, kind: u16) -> [u64; 12]
        requires kind { HasBits kind }
        ensures bits { let items = raw self.now.description self.now.past in
            result ≡ bitmap_of (code_on self.now.description items kind) }
    {
        queries::bits(&self.present.core, kind)
    }

    /// An axis as it was described last, with its present value. All numbers of an axis that is not supported are 0.
    ///
    /// The caller must pass a code of at most `ABS_MAX`.
    pub fn axis(&self, code: u16) -> AxisInfo
        requires within { code ≤ ABS_MAX }
        ensures axis { let items = raw self.now.description self.now.past in
            result ≡ axis_answer self.now.description items code }
    {
        queries::axis(&self.present.core, &self.present.caps, code)
    }

    /// The value of a slot on the multi-touch axis with this code.
    ///
    /// The caller must pass a slot that the device has, and a code from `ABS_MT_TOUCH_MAJOR` to `ABS_MT_TOOL_Y`.
    pub fn slot_value(&self, slot: u32, code: u16) -> i32
        requires slot { slot < self.now.description.slots }
        requires code { is_slot_code code ≡ true }
        ensures value { let items = raw self.now.description self.now.past in
            result ≡ cell self.now.description items (pos slot) code }
    {
        queries::slot_value(&self.present.core, slot, code)
    }

    /// The settings of the autorepeat in milliseconds as they are now, and its timer: the moment at which a key repeats
    /// next, where one is to, and the key.
    pub fn repeat(&self) -> Repeat
        ensures repeat { result ≡ repeat_after self.now.description self.now.past }
    {
        queries::repeat(&self.present.core)
    }

    /// The history: the accepted steps, oldest first.
    pub fn history(&self) -> &[Step]
        ensures history { result.now ≡ reverse self.now.past }
        ensures accepted { IsHistory self.now.description self.now.past }
        ensures within { length result.now ≤ LOG_MAX }
    {
        &self.steps
    }

    /// The history, taken out of the device. It takes no memory.
    pub fn into_history(self) -> History
        ensures history { result ≡ reverse self.past }
        ensures accepted { IsHistory self.description self.past }
    {
        History::of(self.steps)
    }
}

impl Evdev for Device {
    ghost use Rattle.inp_model.specs.DeviceView.{evdev_view};
    ghost use Rattle.inp_device.specs.Device.{plain_view};

    ghost told = { λ d. evdev_view (plain_view d) };

    fn call(&mut self, step: Step, out: &mut [Taken], cells: &mut [i32]) -> Reply {
        self.step(step, out, cells)
    }

    fn inject_all(&mut self, events: &[Stamped]) -> Injected {
        Device::inject_all(self, events)
    }
}
