//! The view of a client.
ghost use Rattle.std.specs.Prelude.{◌≡◌, length, map, IfOk};
ghost use Rattle.inp_recon.specs.View.{first_view, code_count, with_value_at, axes_after_reply, slot_after_reply, cells_after_reply, IsAxis, AreCells, HasAxis, HasCells, view_after_event, view_after_events, view_after_answer};

use crate::Cells;
use crate::flags::{set_flag, set_flags};
use inp_bits::Bits;
use inp_caps::Caps;
use inp_model::{
    ABS_MT_SLOT, EV_ABS, EV_KEY, EV_LED, EV_SW, Event, NoMemory, Reply, Step, Taken,
    is_multi_touch_code,
};
use std::alloc::Global;

/// What a client has seen of a device: keys, switches, LEDs, axes and the values of its slots.
///
/// It is what libevdev keeps beside a device's file. It takes 56 bytes a slot from the allocator, and stores about 400
/// bytes besides.
#[derive(Debug, Drop)]
pub struct View {
    /// Which keys are down, by their codes.
    pub keys: Bits<12>,
    /// Which switches are on, by their codes.
    pub switches: Bits<1>,
    /// Which LEDs are on, by their codes.
    pub leds: Bits<1>,
    /// The value of each axis, by its code. Nothing sets those of 0x2f to 0x3d, which belong to slots.
    pub axes: [i32; 64],
    /// The current slot, to which the next multi-touch values belong. It may be one that the device has not.
    pub slot: i32,
    /// The values of all slots.
    pub cells: Cells,
}

impl View {
    /// The view of a client that has seen nothing of a device with this description. No key is down, no switch and no
    /// LED is on, axes and the current slot are 0, and no slot has a contact (this project's choice).
    ///
    /// It takes the memory for all slots. `NoMemory` comes where memory is short.
    #[tactic(auto, unfolding(crate::specs::View::first_view))]
    pub fn new(alloc: Global, caps: &Caps) -> Result<View, NoMemory>
        ensures view { IfOk result (λ view. view ≡ first_view caps.now) }
    {
        let cells = Cells::new(alloc, caps.slots())?;
        Ok(View {
            keys: Bits::new(),
            switches: Bits::new(),
            leds: Bits::new(),
            axes: [0; 64],
            slot: 0,
            cells,
        })
    }

    /// Takes over an event that the client read.
    ///
    /// A key is then down where the value is not 0; an autorepeat, of value 2, changes nothing (libevdev takes it for
    /// down). A switch or an LED is then on where the value is not 0. An axis has the value. `ABS_MT_SLOT` makes its
    /// value the current slot. A multi-touch value is then that of the current slot, if there is a slot of this number.
    /// Any other event changes nothing, and neither does one of a code past the view's lists.
    #[tactic(auto, unfolding(crate::specs::View::view_after_event))]
    #[inline(always)]
    pub fn take_event(&mut self, event: Event)
        ensures view { self.new ≡ view_after_event self.old event }
        ensures cells { length self.new.cells ≡ length self.old.cells }
    {
        match event.kind {
            EV_KEY if event.is_repeat() => {}
            EV_KEY => set_flag(&mut self.keys, event),
            EV_SW => set_flag(&mut self.switches, event),
            EV_LED => set_flag(&mut self.leds, event),
            EV_ABS if event.code == ABS_MT_SLOT => self.slot = event.value,
            EV_ABS if event.is_multi_touch() => {
                self.cells.set(self.slot, event.code, event.value);
            }
            EV_ABS => set_axis(&mut self.axes, event),
            _ => {}
        }
    }

    /// Takes over events that the client read, the first one first, as a call of [`take_event`](View::take_event) for
    /// each would.
    pub fn take_events(&mut self, events: &[Taken])
        ensures view { self.new ≡ view_after_events self.old (map (λ t. t.event) events.now) }
        ensures cells { length self.new.cells ≡ length self.old.cells }
    {
        for taken in events {
            self.take_event(taken.event);
        }
    }

    /// Takes over the answer to one of the client's queries; `cells` is the buffer that the query wrote to.
    ///
    /// All keys, all switches or all LEDs are then as the answer tells. An axis that was asked for has the value that
    /// was told, unless its values belong to slots. After a synchronisation of slots the values of all slots are those
    /// at the front of `cells`, and the current slot is the one that was told. Any other step changes nothing,
    /// `GetSounds` and `GetSlots` among them, and neither does a reply that refuses it.
    ///
    /// The code of an axis that was told must be at most `ABS_MAX`. Where a synchronisation of slots was answered,
    /// `cells` must have at least as many places as the view has cells.
    #[tactic(auto, unfolding(crate::specs::View::view_after_answer))]
    pub fn answer(&mut self, step: Step, reply: Reply, cells: &[i32])
        requires axis { HasAxis step reply }
        requires room { HasCells step reply self.old.cells cells.now }
        ensures view { self.new ≡ view_after_answer self.old step reply cells.now }
        ensures cells { length self.new.cells ≡ length self.old.cells }
    {
        match step {
            Step::GetKeys { .. } => set_flags(&mut self.keys, reply),
            Step::GetSwitches { .. } => set_flags(&mut self.switches, reply),
            Step::GetLeds { .. } => set_flags(&mut self.leds, reply),
            Step::GetAxis { code, .. } => answer_axis(&mut self.axes, code, reply),
            Step::SyncSlots { .. } => self.answer_slots(reply, cells),
            _ => {}
        }
    }

    // Takes over the answer to a synchronisation of slots.
    fn answer_slots(&mut self, reply: Reply, cells: &[i32])
        requires { AreCells reply self.old.cells cells.now }
        ensures view { self.new ≡ record self.old {
          slot = slot_after_reply reply self.old.slot;
          cells = cells_after_reply reply cells.now self.old.cells;
        } }
        ensures cells { length self.new.cells ≡ length self.old.cells }
    {
        if let Reply::Cells { slot, .. } = reply {
            self.cells.copy_from_front(cells);
            self.slot = slot;
        }
    }

    /// Makes this view equal to another one, which has as many cells: one of the same device.
    pub fn copy_from(&mut self, other: &View)
        requires cells { length self.old.cells ≡ length other.now.cells }
        ensures view { self.new ≡ other.now }
        ensures cells { length self.new.cells ≡ length self.old.cells }
    {
        self.keys = other.keys;
        self.switches = other.switches;
        self.leds = other.leds;
        self.axes = other.axes;
        self.slot = other.slot;
        self.cells.copy_from_front(other.cells.as_slice());
    }
}

// Sets the axis of an event's code to its value; past the end there is no axis.
fn set_axis(axes: &mut [i32; 64], event: Event)
    ensures { axes.new ≡ with_value_at code_count axes.old event.code event.value }
{
    let at = usize::from(event.code);
    if at < axes.len() {
        axes[at] = event.value;
    }
}

// Takes over the answer to the query of an axis.
fn answer_axis(axes: &mut [i32; 64], code: u16, reply: Reply)
    requires { IsAxis code reply }
    ensures { axes.new ≡ axes_after_reply code reply axes.old }
{
    if let Reply::Axis { info, .. } = reply {
        if !is_multi_touch_code(code) {
            axes[usize::from(code)] = info.value;
        }
    }
}
