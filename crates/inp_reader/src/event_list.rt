//! The making of the synthesised events.
ghost use Rattle.std.specs.Prelude.{◌≡◌, ◌≤◌, ◌<◌, ◌+◌, ◌*◌, ◌-◌, pos, [], ◌∷◌, ◌++◌, length, take, drop, slice_get, slice_index_or, if◌then◌else◌, List, Some, IfOk};
ghost use Rattle.inp_model.specs.declared.event.Event.{Event};
ghost use Rattle.inp_model.specs.declared.multi_touch.TheConstants.{SLOT_VALUES};
ghost use Rattle.inp_recon.specs.Cells.{slot_count};
ghost use Rattle.inp_recon.specs.View.{view_after_events};
ghost use Rattle.inp_reader.specs.Synthesis.{synth, with_report, unless_same, bit_changes, axis_changes, class_changes, changes_in, cell_changes, lifts};

use crate::changes::{
    axis_event, bit_event, cell_event, event_of_current, event_of_slot, is_changed, is_replaced,
    lift, values_differ,
};
use inp_bits::Bits;
use inp_model::{
    ABS_MT_TOOL_Y, ABS_MT_TOUCH_MAJOR, EV_KEY, EV_LED, EV_SW, EV_SYN, Event, NoMemory, SYN_REPORT,
};
use inp_recon::View;
use std::alloc::Global;
use std::marker::Model;

/// Events, in the order in which they are added, with room for a number of them that stays. A contract sees the list
/// and the room.
#[derive(Drop)]
pub(crate) struct EventList {
    events: Vec<Event>,
    room: usize,
}

impl Model for EventList {
    ghost use Rattle.std.specs.Prelude.{◌≤◌, vec_capacity};
    ghost use Rattle.inp_reader.specs.RoomyEvents.{RoomyEvents};

    ghost Value = { RoomyEvents };

    ghost view = { λ list. record { events = list.events.items; room = list.room } };

    ghost invariant = { λ list. list.room ≤ vec_capacity list.events };
}

impl EventList {
    // No event, with room for so many. It is refused for memory alone.
    pub(crate) fn new(alloc: Global, room: usize) -> Result<EventList, NoMemory>
        ensures { IfOk result (λ list. list ≡ record { events = []; room = room }) }
    {
        let events = Vec::with_capacity(alloc, room)?;
        Ok(EventList { events, room })
    }

    // Drops all events.
    pub(crate) fn clear(&mut self)
        ensures none { self.new.events ≡ [] }
        ensures room { self.new.room ≡ self.old.room }
    {
        self.events.clear();
    }

    // How many events there are.
    pub(crate) fn len(&self) -> usize
        ensures { result ≡ length self.now.events }
    {
        self.events.len()
    }

    // The event at an index.
    pub(crate) fn get(&self, index: usize) -> Event
        requires { index < length self.now.events }
        ensures { slice_get self.now.events index ≡ Some result }
    {
        self.events[index]
    }

    // Adds an event.
    fn push(&mut self, event: Event)
        requires { length self.old.events < self.old.room }
        ensures room { self.new.room ≡ self.old.room }
        ensures pushed { self.new.events ≡ self.old.events ++ event ∷ [] }
        ensures few { length self.new.events ≤ length self.old.events + 1 }
    {
        self.events.push(event).unwrap();
    }

    // Adds an event, if it is wanted.
    fn push_if(&mut self, wanted: bool, event: Event)
        requires { length self.old.events < self.old.room }
        ensures room { self.new.room ≡ self.old.room }
        ensures pushed { self.new.events ≡ self.old.events ++ (if wanted then event ∷ [] else []) }
        ensures few { length self.new.events ≤ length self.old.events + 1 }
    {
        if wanted {
            self.push(event);
        }
    }

    // Adds the report after the events from an index on, if there are any.
    fn push_report(&mut self, start: usize)
        requires { length self.old.events < self.old.room }
        ensures room { self.new.room ≡ self.old.room }
        ensures reported { (front group : List Event) → self.old.events ≡ front ++ group
            → length front ≡ start → self.new.events ≡ front ++ with_report group }
        ensures few { length self.new.events ≤ length self.old.events + 1 }
    {
        let report = Event {
            kind: EV_SYN,
            code: SYN_REPORT,
            value: 0,
        };
        let has_events = self.len() > start;
        self.push_if(has_events, report);
    }

    // Adds the event that makes a slot the current one, if it is not.
    fn push_to_slot(&mut self, current: Event, slot: Event)
        requires { length self.old.events < self.old.room }
        ensures room { self.new.room ≡ self.old.room }
        ensures pushed { self.new.events ≡ self.old.events ++ unless_same current slot }
        ensures few { length self.new.events ≤ length self.old.events + 1 }
    {
        if values_differ(current, slot) {
            self.push(slot);
        }
    }

    // Adds the changes of a class of codes.
    fn push_bits<const W: usize>(&mut self, kind: u16, old: &Bits<W>, new: &Bits<W>)
        requires words { W ≤ 12 }
        requires few { length self.old.events
            + length (bit_changes kind (64 * W) old.now new.now) ≤ self.old.room }
        ensures room { self.new.room ≡ self.old.room }
        ensures pushed { self.new.events ≡ self.old.events ++ bit_changes kind (64 * W) old.now new.now }
        ensures few { length self.new.events
            ≤ length self.old.events + length (bit_changes kind (64 * W) old.now new.now) }
    {
        for code in old.differing(new) {
            self.push(bit_event(kind, new, code as u16));
        }
    }

    // Adds the changes of axes.
    fn push_axes(&mut self, old: &[i32; 64], new: &[i32; 64])
        requires few { length self.old.events + length (axis_changes old.now new.now)
            < self.old.room }
        ensures room { self.new.room ≡ self.old.room }
        ensures pushed { self.new.events ≡ self.old.events ++ axis_changes old.now new.now }
        ensures few { length self.new.events
            ≤ length self.old.events + length (axis_changes old.now new.now) }
    {
        for code in 0..64u16 {
            let event = axis_event(new, code);
            let wanted = values_differ(axis_event(old, code), event);
            self.push_if(wanted, event);
        }
    }

    // Adds the changes of keys, LEDs, switches and axes.
    fn push_classes(&mut self, old: &View, new: &View)
        requires few { length self.old.events + length (class_changes old.now new.now)
            < self.old.room }
        ensures room { self.new.room ≡ self.old.room }
        ensures pushed { self.new.events ≡ self.old.events ++ class_changes old.now new.now }
        ensures few { length self.new.events
            ≤ length self.old.events + length (class_changes old.now new.now) }
    {
        self.push_bits(EV_KEY, &old.keys, &new.keys);
        self.push_bits(EV_LED, &old.leds, &new.leds);
        self.push_bits(EV_SW, &old.switches, &new.switches);
        self.push_axes(&old.axes, &new.axes);
    }

    // Adds the end of each contact that another one followed in its slot.
    fn push_lifts(&mut self, old: &View, new: &View)
        requires cells { length old.now.cells ≡ length new.now.cells }
        requires few { length self.old.events + 2 * slot_count old.now.cells ≤ self.old.room }
        ensures room { self.new.room ≡ self.old.room }
        ensures pushed { self.new.events ≡ self.old.events ++ lifts old.now new.now }
        ensures few { length self.new.events ≤ length self.old.events + 2 * slot_count old.now.cells }
    {
        let mut current = event_of_current(old);
        for slot in 0..old.cells.slot_count() {
            if !is_replaced(old, new, slot) {
                continue;
            }
            let this = event_of_slot(slot);
            self.push_to_slot(current, this);
            self.push(lift());
            current = this;
        }
    }

    // Adds the changes of one slot.
    fn push_slot(&mut self, old: &View, new: &View, slot: u32)
        requires slot { slot < slot_count old.now.cells }
        requires cells { length old.now.cells ≡ length new.now.cells }
        requires few { length self.old.events + SLOT_VALUES ≤ self.old.room }
        ensures room { self.new.room ≡ self.old.room }
        ensures pushed { self.new.events ≡ self.old.events ++ changes_in old.now new.now slot }
        ensures few { length self.new.events ≤ length self.old.events + SLOT_VALUES }
    {
        for code in ABS_MT_TOUCH_MAJOR..ABS_MT_TOOL_Y + 1 {
            let event = cell_event(new, slot, code);
            let wanted = values_differ(cell_event(old, slot, code), event);
            self.push_if(wanted, event);
        }
    }

    // Adds the changes of all slots.
    fn push_cells(&mut self, old: &View, new: &View)
        requires cells { length old.now.cells ≡ length new.now.cells }
        requires few { length self.old.events + 15 * slot_count old.now.cells ≤ self.old.room }
        ensures room { self.new.room ≡ self.old.room }
        ensures pushed { self.new.events ≡ self.old.events ++ cell_changes old.now new.now }
        ensures few { length self.new.events ≤ length self.old.events
            + 15 * slot_count old.now.cells }
    {
        let mut current = event_of_current(old);
        for slot in 0..old.cells.slot_count() {
            if !is_changed(old, new, slot) {
                continue;
            }
            let this = event_of_slot(slot);
            self.push_to_slot(current, this);
            self.push_slot(old, new, slot);
            current = this;
        }
    }

    // Takes the events from one index to before another over into a view.
    fn apply(&self, first: usize, end: usize, view: &mut View)
        requires order { first ≤ end }
        requires within { end ≤ length self.now.events }
        ensures taken { view.new
            ≡ view_after_events view.old (take (end - first) (drop first self.now.events)) }
        ensures cells { length view.new.cells ≡ length view.old.cells }
    {
        for index in first..end {
            view.take_event(self.get(index));
        }
    }

    // Makes the events that lead from the old view to the new one. The old view is used up.
    pub(crate) fn fill(&mut self, old: &mut View, new: &View)
        requires cells { length old.old.cells ≡ length new.now.cells }
        requires room { length (class_changes old.old new.now) + 3
            + 17 * slot_count old.old.cells ≤ self.old.room }
        ensures synth { self.new.events ≡ synth old.old new.now }
        ensures room { self.new.room ≡ self.old.room }
        ensures cells { length old.new.cells ≡ length old.old.cells }
    {
        self.clear();
        self.push_lifts(old, new);
        let ended = self.len();
        self.push_report(0);
        let start = self.len();
        self.push_classes(old, new);
        self.apply(0, ended, old);
        let first = self.len();
        self.push_cells(old, new);
        let end = self.len();
        self.apply(first, end, old);
        self.push_to_slot(event_of_current(old), event_of_current(new));
        self.push_report(start);
    }
}
