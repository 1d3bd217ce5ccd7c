//! A device that was made by requests.
ghost use Rattle.std.specs.Prelude.{◌≡◌, ◌+◌, ◌≤◌, ◌<◌, true, pos, [], length, take, reverse, IfOk};
ghost use Rattle.inp_model.specs.declared.event.TheConstants.{ABS_MAX};
ghost use Rattle.inp_model.specs.declared.limits.TheConstants.{LOG_MAX, CLIENTS_MAX};
ghost use Rattle.inp_model.specs.declared.stamped.TheConstants.{MOMENT_MAX};
ghost use Rattle.inp_model.specs.History.{IsHistory};
ghost use Rattle.inp_model.specs.Description.{is_slot_code};
ghost use Rattle.inp_model.specs.State.{cell};
ghost use Rattle.inp_model.specs.Raw.{raw};
ghost use Rattle.inp_model.specs.Past.{has_mask, mask_words};
ghost use Rattle.inp_model.specs.Step.{moment_of};
ghost use Rattle.inp_model.specs.Reply.{HasRoom, IsDeviceStep, written, bitmap_of, code_on, axis_answer};
ghost use Rattle.inp_model.specs.Evdev.{agains_after};
ghost use Rattle.inp_model.specs.Injection.{AreInTime, entered_count};
ghost use Rattle.inp_device.specs.Queries.{visible_to, readable_clients, state_of_client, mask_word_of, repeat_after, HasBits};
ghost use Rattle.inp_feedback.specs.UEntry.{steps_in, kept_after_step, kept_after_events};
ghost use Rattle.inp_feedback.specs.Feedback.{taken_by_feedback, fed, kept_after_feedback};

use crate::outputs::{keep, sent_by};
use circular_buffer::HeapCircularBuffer;
use inp_caps::Caps;
use inp_device::{ClientState, Device, Repeat};
use inp_feedback::{FEEDBACK_MAX, Fed, FeedbackCall};
use inp_model::{AxisInfo, Evdev, Event, History, Injected, NoMemory, Reply, Stamped, Step, Taken};
use std::alloc::Global;
use std::marker::Model;

/// A device made by requests, as uinput makes them. Its owner reads what goes to the device: its lights, sounds and
/// settings.
///
/// It is seen as its description, as what it keeps, newest first (its accepted steps, and between them the feedback
/// calls), and as how many calls it answered `Again`. It makes steps as a `Device` does. It takes memory when it is
/// made, for all that it may keep, and when a client is opened, and at no other call.
#[derive(Drop)]
pub struct Udev {
    device: Device,
    // The sent events that wait for the owner, oldest first. On the heap, so that a device is moved in some words.
    waiting: Box<HeapCircularBuffer<Event>>,
    feedbacks: Vec<FeedbackCall>,
}

impl Model for Udev {
    ghost use Rattle.inp_uinput.specs.UdevView.{UdevView};

    ghost Value = { UdevView };

    ghost use Rattle.std.specs.Prelude.{reverse, vec_capacity};
    ghost use Rattle.inp_feedback.specs.KeptList.{kept_of};
    ghost use Rattle.inp_uinput.specs.KeptBeside.{IsKeptBeside};

    ghost view = { λ u. record {
      description = u.device.description;
      kept = kept_of u.device.past (reverse u.feedbacks.items);
      agains = u.device.agains;
    } };

    ghost invariant = { λ u. IsKeptBeside u.device.description u.device.past (reverse u.feedbacks.items)
        (vec_capacity u.feedbacks) u.waiting.value };
}

impl Udev {
    /// A device of this description that keeps nothing yet. It takes the memory for all that the device may keep, its
    /// feedback calls too, and is refused for memory alone.
    pub fn new(alloc: Global, caps: Caps) -> Result<Udev, NoMemory>
        ensures fresh { IfOk result (λ udev.
            udev ≡ record { description = caps; kept = []; agains = 0 }) }
    {
        let feedbacks = Vec::with_capacity(alloc, caps.log() as usize)?;
        let ring = HeapCircularBuffer::with_capacity(alloc, FEEDBACK_MAX)?;
        let waiting = Box::new(alloc, ring)?;
        let device = Device::new(alloc, caps)?;
        Ok(Udev {
            device,
            waiting,
            feedbacks,
        })
    }

    /// The description, which never changes.
    pub fn caps(&self) -> &Caps
        ensures description { result.now ≡ self.now.description }
    {
        self.device.caps()
    }

    /// Makes one step, as `Device::step` does, over the steps that are kept; the feedback calls make no difference.
    ///
    /// An accepted step is kept, and nothing is kept after any other reply. What it sends to the device waits for the
    /// owner: the passed events of EV_LED, EV_SND, EV_MSC and EV_REP, and SYN_CONFIG, whether or not their frame has
    /// ended. Of those not taken yet the last 15 are kept.
    ///
    /// The caller must pass a moment of at most `MOMENT_MAX` and an `out` that is as long as the count of a `Read`. For
    /// `GetSlots` and `SyncSlots` it must pass a `cells` of fourteen values a slot. Only `Open` takes memory.
    pub fn step(&mut self, step: Step, out: &mut [Taken], cells: &mut [i32]) -> Reply
        requires moment { moment_of step ≤ MOMENT_MAX }
        requires room { HasRoom self.old.description step out.old cells.old }
        ensures step { IsDeviceStep self.old.description (steps_in self.old.kept) step result
            out.old out.new cells.old cells.new (steps_in self.new.kept) }
        ensures kept { self.new.kept ≡ kept_after_step result step self.old.kept }
        ensures description { self.new.description ≡ self.old.description }
        ensures agains { self.new.agains ≡ agains_after result self.old.agains }
        ensures accepted { IsHistory self.new.description (steps_in self.new.kept) }
        ensures before { IsHistory self.old.description (steps_in self.old.kept) }
    {
        let reply = self.device.step(step, out, cells);
        if reply.is_accepted() {
            let sent = sent_by(step, self.device.sent());
            keep(&mut self.waiting, sent);
        }
        reply
    }

    /// Injects events, each at its own moment, as many of them as the log limit leaves room for. They are kept in
    /// order, as steps `Inject` are, and what they send waits for the owner.
    ///
    /// The caller must pass moments of at most `MOMENT_MAX`. No memory is taken.
    pub fn inject_all(&mut self, events: &[Stamped]) -> Injected
        requires moments { AreInTime events.now }
        ensures from { result.from ≡ length (steps_in self.old.kept) }
        ensures count { result.count
            ≡ entered_count self.old.description result.from events.now }
        ensures within { result.from + result.count ≤ LOG_MAX }
        ensures kept { self.new.kept
            ≡ kept_after_events (take result.count events.now) self.old.kept }
        ensures description { self.new.description ≡ self.old.description }
        ensures agains { self.new.agains ≡ self.old.agains }
        ensures accepted { IsHistory self.new.description (steps_in self.new.kept) }
    {
        let from = self.device.history().len();
        let room = (self.device.caps().log() as usize).saturating_sub(from);
        let count = events.len().min(room);
        for stamped in &events[..count] {
            let sent = self.device.enter(stamped.event, stamped.now);
            keep(&mut self.waiting, sent.then_some(stamped.event));
        }
        Injected {
            from: from as u32,
            count: count as u32,
        }
    }

    /// Moves the first of the events that wait for the owner to the front of `out`, as many as fit, and keeps the call.
    /// The rest of `out` stays. A call that finds no event, or has no room for one, is kept too.
    ///
    /// It answers `Full`, and changes nothing, exactly where as many feedback calls are kept as the log limit says.
    /// `at` is the length of the history, in which feedback calls do not count. It takes no memory.
    pub fn feedback(&mut self, out: &mut [Event]) -> Fed
        ensures answer { result ≡ fed self.old.description self.old.kept (length out.old) }
        ensures written { out.new ≡ written
            (taken_by_feedback self.old.description self.old.kept (length out.old)) out.old }
        ensures kept { self.new ≡ record self.old {
          kept =
              kept_after_feedback self.old.description self.old.kept (length out.old);
        } }
    {
        let at = self.device.history().len() as u32;
        if self.feedbacks.len() >= self.device.caps().log() as usize {
            return Fed::Full { at };
        }
        let count = self.waiting.read_into(out) as u32;
        self.feedbacks.push(FeedbackCall { at, count }).unwrap();
        Fed::Took { at, count }
    }

    /// How many events an open client could read now, and None where the client is not open.
    pub fn visible(&self, client: u32) -> Option<u32>
        ensures visible { result ≡ visible_to self.now.description (steps_in self.now.kept) client }
    {
        self.device.visible(client)
    }

    /// Writes the numbers of the open clients that could read something now, ascending, to the front of a buffer, as many
    /// as fit, and says how many there are in all, at most 64. The rest of the buffer stays.
    pub fn readable(&self, clients: &mut [u32]) -> u32
        ensures count { result ≡ length (readable_clients self.now.description (steps_in self.now.kept)) }
        ensures few { result ≤ CLIENTS_MAX }
        ensures written { let readable = readable_clients self.now.description (steps_in self.now.kept) in
            clients.new ≡ written (take (length clients.old) readable) clients.old }
    {
        self.device.readable(clients)
    }

    /// The clock of an open client, whether it was revoked, and whether it holds the grab. None where the client is not
    /// open.
    pub fn client(&self, client: u32) -> Option<ClientState>
        ensures client { result ≡ state_of_client (steps_in self.now.kept) client }
    {
        self.device.client(client)
    }

    /// 64 bits of one of an open client's masks, from `64 * word` on, the first as the lowest bit, and None where the
    /// client is not open. The mask of types goes by `EV_SYN`. A bit that was never set is 1.
    ///
    /// The caller must pass a type that has a mask, and a word that the mask has: it has 12 for `EV_KEY`, and else one.
    pub fn mask(&self, client: u32, kind: u16, word: u16) -> Option<u64>
        requires kind { has_mask kind ≡ true }
        requires word { word < mask_words kind }
        ensures mask { result ≡ mask_word_of (steps_in self.now.kept) client kind word }
    {
        self.device.mask(client, kind, word)
    }

    /// Which keys are down, or which switches, LEDs or sounds are on, by the type: bit i for the code i, 64 a word.
    ///
    /// The caller must pass `EV_KEY`, `EV_SW`, `EV_LED` or `EV_SND`. No client's events are removed.
    pub fn bits(&self, kind: u16) -> [u64; 12]
        requires kind { HasBits kind }
        ensures bits { let items = raw self.now.description (steps_in self.now.kept) in
            result ≡ bitmap_of (code_on self.now.description items kind) }
    {
        self.device.bits(kind)
    }

    /// An axis as it was described last, with its present value. All numbers of an axis that is not supported are 0.
    ///
    /// The caller must pass a code of at most `ABS_MAX`.
    pub fn axis(&self, code: u16) -> AxisInfo
        requires within { code ≤ ABS_MAX }
        ensures axis { let items = raw self.now.description (steps_in self.now.kept) in
            result ≡ axis_answer self.now.description items code }
    {
        self.device.axis(code)
    }

    /// The value of a slot on the multi-touch axis with this code.
    ///
    /// The caller must pass a slot that the device has, and a code from `ABS_MT_TOUCH_MAJOR` to `ABS_MT_TOOL_Y`.
    pub fn slot_value(&self, slot: u32, code: u16) -> i32
        requires slot { slot < self.now.description.slots }
        requires code { is_slot_code code ≡ true }
        ensures value { let items = raw self.now.description (steps_in self.now.kept) in
            result ≡ cell self.now.description items (pos slot) code }
    {
        self.device.slot_value(slot, code)
    }

    /// The settings of the autorepeat in milliseconds as they are now, and its timer: the moment at which a key repeats
    /// next, where one is to, and the key.
    pub fn repeat(&self) -> Repeat
        ensures repeat { result ≡ repeat_after self.now.description (steps_in self.now.kept) }
    {
        self.device.repeat()
    }

    /// The history: the accepted steps, oldest first.
    pub fn history(&self) -> &[Step]
        ensures history { result.now ≡ reverse (steps_in self.now.kept) }
    {
        self.device.history()
    }

    /// The history, taken out of the device: its accepted steps, oldest first. It takes no memory.
    pub fn into_history(self) -> History
        ensures history { result ≡ reverse (steps_in self.kept) }
        ensures accepted { IsHistory self.description (steps_in self.kept) }
    {
        self.device.into_history()
    }
}

impl Evdev for Udev {
    ghost use Rattle.inp_model.specs.DeviceView.{evdev_view};
    ghost use Rattle.inp_uinput.specs.UdevView.{device_of};

    ghost told = { λ u. evdev_view (device_of u) };

    fn call(&mut self, step: Step, out: &mut [Taken], cells: &mut [i32]) -> Reply {
        self.step(step, out, cells)
    }

    fn inject_all(&mut self, events: &[Stamped]) -> Injected {
        Udev::inject_all(self, events)
    }
}
