//! The synthesised events.
ghost use Rattle.std.specs.Prelude.{◌≡◌, ◌≤◌, ◌+◌, ◌*◌, [], ◌∷◌, length, IfSome, IfNone, IfOk};
ghost use Rattle.inp_recon.specs.Cells.{slot_count};
ghost use Rattle.inp_reader.specs.RoomyEvents.{code_total, synthesised_most};
ghost use Rattle.inp_reader.specs.Synthesis.{class_changes, synth};

use crate::event_list::EventList;
use inp_caps::Caps;
use inp_model::{EV_ABS, EV_KEY, EV_LED, EV_SW, Event, NoMemory};
use inp_recon::View;
use std::alloc::Global;
use std::marker::Model;

/// How many events a synchronisation makes at most. It makes one for each key, LED, switch and axis that the device
/// has, 17 for each slot, one for the current slot, and two reports.
pub(crate) fn synthesised_most(caps: &Caps) -> usize
    ensures { result ≡ synthesised_most caps.now }
{
    let keys = code_total(caps, EV_KEY, 768);
    let lights = code_total(caps, EV_LED, 64);
    let switches = code_total(caps, EV_SW, 64);
    let axes = code_total(caps, EV_ABS, 64);
    keys + lights + switches + axes + 3 + 17 * caps.slots() as usize
}

// How many codes of a type the device has, of so many.
fn code_total(caps: &Caps, kind: u16, count: u16) -> usize
    requires { count ≤ 768 }
    ensures total { result ≡ code_total caps.now kind count }
    ensures few { result ≤ 768 }
{
    let mut total = 0;
    for code in 0..count {
        if !caps.supports(kind, code) {
            continue;
        }
        total += 1;
    }
    total
}

/// The synthesised events that are not handed out yet, and room for all that there can be. A contract sees the list and
/// the room.
#[derive(Drop)]
pub(crate) struct Synthesis {
    events: EventList,
    next: usize,
}

impl Model for Synthesis {
    ghost use Rattle.std.specs.Prelude.{◌≤◌, drop, length};
    ghost use Rattle.inp_reader.specs.RoomyEvents.{RoomyEvents};

    ghost Value = { RoomyEvents };

    ghost view = { λ s. record { events = drop s.next s.events.events; room = s.events.room } };

    ghost invariant = { λ s. s.next ≤ length s.events.events };
}

impl Synthesis {
    // No event, with room for so many. It is refused for memory alone.
    pub(crate) fn new(alloc: Global, room: usize) -> Result<Synthesis, NoMemory>
        ensures { IfOk result (λ left. left ≡ record { events = []; room = room }) }
    {
        let events = EventList::new(alloc, room)?;
        Ok(Synthesis { events, next: 0 })
    }

    // Drops all events.
    pub(crate) fn clear(&mut self)
        ensures none { self.new.events ≡ [] }
        ensures room { self.new.room ≡ self.old.room }
    {
        self.events.clear();
        self.next = 0;
    }

    // The first event, which is taken out, if there is one.
    pub(crate) fn take_first(&mut self) -> Option<Event>
        ensures first { IfSome result (λ event. self.old.events ≡ event ∷ self.new.events) }
        ensures none { IfNone result ((self.old.events ≡ []) × (self.new.events ≡ [])) }
        ensures room { self.new.room ≡ self.old.room }
    {
        if self.next == self.events.len() {
            return None;
        }
        let first = self.events.get(self.next);
        self.next += 1;
        Some(first)
    }

    // Makes the events that lead from the old view to the new one, which has as many cells. The old view is used up.
    // There must be room for what differs in codes, for 17 events a slot and for three more.
    pub(crate) fn fill(&mut self, old: &mut View, new: &View)
        requires cells { length old.old.cells ≡ length new.now.cells }
        requires room { length (class_changes old.old new.now) + 3
            + 17 * slot_count old.old.cells ≤ self.old.room }
        ensures synth { self.new.events ≡ synth old.old new.now }
        ensures room { self.new.room ≡ self.old.room }
        ensures cells { length old.new.cells ≡ length old.old.cells }
    {
        self.next = 0;
        self.events.fill(old, new);
    }
}
