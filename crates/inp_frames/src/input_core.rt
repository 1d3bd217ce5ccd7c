//! The core: raw events are handled, what is passed for them waits in the batch, and a frame goes out where it ends.
ghost use Rattle.std.specs.Prelude.{◌≡◌, ◌≤◌, ◌<◌, ℕ, Bool, false, ◌&&◌, not, if◌then◌else◌, List, [], ◌∷◌, length, flat_map, slice_index_or, IfOk, ◌*◌, unsigned_abs};
ghost use Rattle.inp_model.specs.declared.event.Event.{Event};
ghost use Rattle.inp_model.specs.declared.step.Step.{Step};
ghost use Rattle.inp_model.specs.declared.step.Step.TheVariants.{Inject, Tick, Write, Inhibit, Uninhibit, SetAxis};
ghost use Rattle.inp_model.specs.declared.limits.TheConstants.{SLOTS_MAX};
ghost use Rattle.inp_model.specs.declared.stamped.TheConstants.{MOMENT_MAX};
ghost use Rattle.inp_model.specs.RawItem.{RawItem};
ghost use Rattle.inp_model.specs.Description.{Description};
ghost use Rattle.inp_model.specs.Timer.{is_due, timer_disarmed, timer_rearmed};
ghost use Rattle.inp_model.specs.Raw.{raw, releases, key_event};
ghost use Rattle.inp_model.specs.Passed.{goes_to_device};
ghost use Rattle.inp_model.specs.Past.{is_inhibited};
ghost use Rattle.inp_bits.specs.Bits.{true_indices};
ghost use Rattle.inp_slots.specs.Slots.{SlotValues};
ghost use Rattle.inp_frames.specs.declared.frames.TheConstants.{FRAME_MAX};
ghost use Rattle.inp_frames.specs.Core.{IsFor, StandsAfter, CoreStandsFor, IsEntered, sends};
ghost use Rattle.inp_frames.specs.HandledEvents.{Handles, may_repeat, lift_events, release_events};

use crate::Frames;
use crate::autorepeat::{first_timer, micros, timer_at_frame, timer_disarmed, timer_rearmed};
use crate::batch::Batch;
use crate::contacts::contacts_of;
use crate::disposition::apply;
use crate::raw_events::{core_report, key_release, key_repeat, lift_event, slot_event};
use bitflags::Flags;
use inp_bits::Bits;
use inp_caps::{Caps, Disposition};
use inp_model::{ABS_MAX, AxisInfo, Event, KEY_MAX, NoMemory, Timer};
use inp_slots::Slots;
use inp_state::State;
use std::alloc::Global;
use std::marker::Model;

/// The present state and slots of a device, the events passed since the last frame, and the timer of the autorepeat.
///
/// Pass every call the description that [`Core::new`] was given; with another one no clause says which frames there
/// are. There are fewer events in its batch than the hint.
#[derive(Drop)]
pub struct Core {
    state: State,
    slots: Slots,
    batch: Batch,
    timer: Timer,
    inhibited: bool,
    // Whether the raw event that was handled last goes to the device itself.
    goes: bool,
}

impl Model for Core {
    ghost use Rattle.inp_frames.specs.Core.{CoreValues};

    ghost Value = { CoreValues };

    ghost view = { λ c. record {
      state = c.state;
      slots = c.slots;
      batch = c.batch.events;
      hint = c.batch.hint;
      timer = c.timer;
      inhibited = c.inhibited;
      goes = c.goes;
    } };

    ghost use Rattle.std.specs.Prelude.{◌<◌, length};

    ghost invariant = { λ c. length c.batch.events < c.batch.hint };
}

impl Core {
    /// The core of a device before any step, with memory for its slots and for the longest frame.
    ///
    /// `NoMemory` comes where memory runs out. No other call takes memory.
    pub fn new(alloc: Global, caps: &Caps) -> Result<Core, NoMemory>
        ensures fresh { IfOk result (λ core. CoreStandsFor caps.now [] core) }
        ensures made { IfOk result (λ core. IsFor caps.now core) }
        ensures sends { IfOk result (λ core. sends core ≡ false) }
    {
        Ok(Core {
            state: State::new(caps),
            slots: Slots::new(alloc, caps.slots())?,
            batch: Batch::new(alloc, caps.hint() as usize)?,
            timer: first_timer(),
            inhibited: false,
            goes: false,
        })
    }

    /// Handles a raw event, and passes the frame on that it ends, if it ends one (the kernel's `input_event`). The driver
    /// injects the event, a client writes it, or the core makes it itself.
    ///
    /// A report ends the frame, unless it is alone. So does an event that leaves as many events as the hint; a report
    /// with the value 1 is put after it. The moment of the frame is `now`, in microseconds, at most `MOMENT_MAX`. A key
    /// that is pressed in the frame arms the timer of the autorepeat, and one that is released disarms it. While the
    /// device is inhibited the event is ignored.
    ///
    /// [`Core::sends`] says after that whether the event goes to the device itself too.
    pub fn inject<F: Frames>(&mut self, caps: &Caps, event: Event, now: u64, to: &mut F)
        requires timely { now ≤ MOMENT_MAX }
        requires made { IsFor caps.now self.old }
        ensures enters_inject { (past : List Step) → CoreStandsFor caps.now past self.old
            → IsEntered caps.now past (Inject event now) self.new F.takes to.old to.new }
        ensures enters_write { (past : List Step) (client : ℕ)
            → CoreStandsFor caps.now past self.old
            → IsEntered caps.now past (Write client event now) self.new F.takes to.old to.new }
        ensures sends { (past : List Step) → CoreStandsFor caps.now past self.old
            → sends self.new ≡ (goes_to_device caps.now (raw caps.now past) event
            && not (is_inhibited past)) }
        ensures handled { self.old.inhibited ≡ false → (r : List RawItem)
            → StandsAfter caps.now r self.old
            → Handles caps.now r (event ∷ []) now F.takes self.old self.new to.old to.new }
        ensures made { IsFor caps.now self.new }
    {
        let ignored = self.inhibited;
        if ignored {
            return;
        }
        let (disposition, value) = apply(&mut self.state, &mut self.slots, caps, event);
        self.goes = disposition.contains(Disposition::TO_DEVICE);
        let slot = self.slots.announced();
        self.batch.add(disposition, slot, Event { value, ..event });
        if !self.batch.cut(event.is_report()) {
            return;
        }
        self.timer = timer_at_frame(self.timer, caps, &self.state, self.batch.events(), now);
        to.pass(self.batch.events(), now);
        self.batch.clear();
        self.slots.frame_passed();
    }

    /// Right after [`Core::inject`]: whether its event goes to the device itself too, to its lights, sounds and
    /// settings.
    #[inline(always)]
    pub fn sends(&self) -> bool
        ensures sends { result ≡ sends self.now }
    {
        self.goes && !self.inhibited
    }

    /// Lets the timer of the autorepeat fire, where it is due (the kernel's `input_repeat_key`).
    ///
    /// The timer is disarmed. Where its key is still down and the device is not inhibited, an autorepeat of the key is
    /// passed on as a frame, with what the batch holds. The timer is then armed anew one period after `now`, unless the
    /// period is 0. It fires once however late it is. `now` is in microseconds, at most `MOMENT_MAX`.
    pub fn tick<F: Frames>(&mut self, caps: &Caps, now: u64, to: &mut F)
        requires timely { now ≤ MOMENT_MAX }
        requires made { IsFor caps.now self.old }
        ensures enters { (past : List Step) → CoreStandsFor caps.now past self.old
            → IsEntered caps.now past (Tick now) self.new F.takes to.old to.new }
        ensures made { IsFor caps.now self.new }
    {
        if !self.is_due(now) {
            return;
        }
        self.disarm();
        if !self.may_repeat() {
            return;
        }
        let repeat = self.repeat_event();
        self.inject_two(caps, repeat, core_report(), now, to);
        self.rearm(now);
    }

    /// Inhibits the device: contacts are lifted and keys released as one frame, and raw events are ignored from then on
    /// (the kernel's `input_dev_release_keys` and `input_mt_release_slots`).
    ///
    /// The frame has what the batch holds, then for each slot with a contact its end, then the release of each key that
    /// is down, both by ascending numbers. A report with the value 1 ends it. A full batch is cut as ever. A device
    /// that is inhibited stays as it is. `now` is in microseconds, at most `MOMENT_MAX`.
    pub fn inhibit<F: Frames>(&mut self, caps: &Caps, now: u64, to: &mut F)
        requires timely { now ≤ MOMENT_MAX }
        requires made { IsFor caps.now self.old }
        ensures enters { (past : List Step) → CoreStandsFor caps.now past self.old
            → IsEntered caps.now past (Inhibit now) self.new F.takes to.old to.new }
        ensures made { IsFor caps.now self.new }
    {
        if !self.inhibited {
            self.release_all(caps, now, to);
            self.inhibited = true;
        }
    }

    /// Ends the inhibition of the device, if there is one. No key is pressed again: what was released stays so.
    pub fn uninhibit(&mut self)
        ensures stands { (d : Description) (past : List Step) → CoreStandsFor d past self.old
            → CoreStandsFor d (Uninhibit ∷ past) self.new }
        ensures made { (d : Description) → IsFor d self.old → IsFor d self.new }
        ensures changes { self.new ≡ record self.old { inhibited = false } }
    {
        self.inhibited = false;
    }

    /// Describes the axis with this code anew, which is at most `ABS_MAX` (evdev's `EVIOCSABS`).
    ///
    /// No event is passed and no frame ends. What the batch holds stays there, as it was passed. A device that is
    /// inhibited is described all the same.
    pub fn describe(&mut self, code: u16, info: AxisInfo)
        requires within { code ≤ ABS_MAX }
        ensures stands { (d : Description) (past : List Step) (client : ℕ)
            → CoreStandsFor d past self.old
            → CoreStandsFor d (SetAxis client code info ∷ past) self.new }
        ensures made { (d : Description) → IsFor d self.old → IsFor d self.new }
    {
        self.state.describe(code, info);
    }

    /// Keys, switches, LEDs, sounds, axes and the settings of the autorepeat.
    pub fn state(&self) -> &State
        ensures state { result.now ≡ self.now.state }
    {
        &self.state
    }

    /// The multi-touch slots.
    pub fn slots(&self) -> &Slots
        ensures slots { result.now ≡ self.now.slots }
    {
        &self.slots
    }

    /// The timer of the autorepeat.
    pub fn timer(&self) -> Timer
        ensures timer { result ≡ self.now.timer }
    {
        self.timer
    }

    // Handles two raw events, one after the other, of a device that is not inhibited.
    fn inject_two<F: Frames>(
        &mut self,
        caps: &Caps,
        first: Event,
        second: Event,
        now: u64,
        to: &mut F,
    )
        requires timely { now ≤ MOMENT_MAX }
        requires made { IsFor caps.now self.old }
        ensures handled { self.old.inhibited ≡ false → (r : List RawItem)
            → StandsAfter caps.now r self.old
            → Handles caps.now r (first ∷ second ∷ []) now F.takes self.old self.new to.old to.new }
        ensures made { IsFor caps.now self.new }
    {
        self.inject(caps, first, now, to);
        self.inject(caps, second, now, to);
    }

    // Lifts all contacts and releases all keys, and ends the frame, before the device is inhibited. Which these are is
    // looked up before the first event.
    fn release_all<F: Frames>(&mut self, caps: &Caps, now: u64, to: &mut F)
        requires timely { now ≤ MOMENT_MAX }
        requires made { IsFor caps.now self.old }
        ensures handled { self.old.inhibited ≡ false → (r : List RawItem)
            → StandsAfter caps.now r self.old
            → Handles caps.now r (releases caps.now r) now F.takes self.old self.new to.old to.new }
        ensures made { IsFor caps.now self.new }
    {
        let contacts = contacts_of(&self.slots, caps.slots());
        let keys = *self.state.keys();
        self.lift_contacts(caps, &contacts, now, to);
        self.release_keys(caps, &keys, now, to);
        self.inject(caps, core_report(), now, to);
    }

    // Lifts the contacts of these slots.
    fn lift_contacts<F: Frames>(&mut self, caps: &Caps, contacts: &Bits<4>, now: u64, to: &mut F)
        requires timely { now ≤ MOMENT_MAX }
        requires made { IsFor caps.now self.old }
        ensures handled { self.old.inhibited ≡ false → (r : List RawItem)
            → StandsAfter caps.now r self.old
            → Handles caps.now r (flat_map lift_events (true_indices contacts.now)) now F.takes
            self.old self.new to.old to.new }
        ensures made { IsFor caps.now self.new }
        ensures len { length contacts.now ≡ 256 }
    {
        for slot in contacts.ones() {
            self.inject_two(caps, slot_event(slot), lift_event(), now, to);
        }
    }

    // Releases these keys.
    fn release_keys<F: Frames>(&mut self, caps: &Caps, keys: &Bits<12>, now: u64, to: &mut F)
        requires timely { now ≤ MOMENT_MAX }
        requires made { IsFor caps.now self.old }
        ensures handled { self.old.inhibited ≡ false → (r : List RawItem)
            → StandsAfter caps.now r self.old
            → Handles caps.now r (flat_map release_events (true_indices keys.now)) now F.takes
            self.old self.new to.old to.new }
        ensures made { IsFor caps.now self.new }
        ensures len { length keys.now ≡ 768 }
    {
        for key in keys.ones() {
            self.inject(caps, key_release(key as u16), now, to);
        }
    }

    // Whether the timer fires at this moment.
    fn is_due(&self, now: u64) -> bool
        ensures { result ≡ is_due self.now.timer now }
    {
        match self.timer.due {
            Some(due) => due <= now,
            None => false,
        }
    }

    // Disarms the timer, which keeps its key.
    fn disarm(&mut self)
        ensures { self.new ≡ record self.old { timer = timer_disarmed self.old.timer } }
    {
        self.timer = timer_disarmed(self.timer);
    }

    // Arms the timer anew, one period from now on.
    fn rearm(&mut self, now: u64)
        requires timely { now ≤ MOMENT_MAX }
        ensures timer_rearmed { self.new ≡ record self.old {
          timer = timer_rearmed now (1000 * unsigned_abs self.old.state.period) self.old.timer;
        } }
    {
        self.timer = timer_rearmed(self.timer, now, micros(self.state.period()));
    }

    // The autorepeat of the timer's key.
    fn repeat_event(&self) -> Event
        ensures { result ≡ key_event self.now.timer.key 2 }
    {
        key_repeat(self.timer.key)
    }

    // Whether the timer's key is to repeat: it is down, and the device is not inhibited.
    fn may_repeat(&self) -> bool
        ensures { result ≡ may_repeat self.now }
    {
        !self.inhibited && is_down(self.state.keys(), self.timer.key)
    }
}

// Whether a key is down; none is past the greatest code.
fn is_down(keys: &Bits<12>, key: u16) -> bool
    ensures { result ≡ slice_index_or keys.now key false }
{
    let nearest = key.min(KEY_MAX);
    keys.get(u32::from(nearest)) && nearest == key
}
