//! The events that wait for the end of their frame.
ghost use Rattle.std.specs.Prelude.{◌≡◌, ◌≤◌, ◌<◌, ◌+◌, if◌then◌else◌, true, false, List, [], ◌∷◌, ◌++◌, length, IfOk};
ghost use Rattle.inp_model.specs.declared.event.Event.{Event};
ghost use Rattle.inp_model.specs.declared.limits.TheConstants.{HINT_MAX};
ghost use Rattle.inp_model.specs.Event.{core_report};
ghost use Rattle.inp_frames.specs.declared.frames.TheConstants.{FRAME_MAX};
ghost use Rattle.inp_caps.specs.Disposition.{flags_of};
ghost use Rattle.inp_frames.specs.Batch.{events_by, are_frame};

use crate::raw_events::core_report;
use bitflags::Flags;
use inp_caps::Disposition;
use inp_model::{Event, HINT_MAX, NoMemory};
use std::alloc::Global;
use std::marker::Model;

/// The events passed since the last cut, with memory for the longest frame.
///
/// Between two raw events there are fewer than the hint. A raw event adds two at most, itself and its slot, and a full
/// batch gets a report.
#[derive(Drop)]
pub(crate) struct Batch {
    events: Vec<Event>,
    hint: usize,
}

impl Model for Batch {
    ghost use Rattle.inp_frames.specs.Batch.{Waiting};

    ghost Value = { Waiting };

    ghost view = { λ b. record { events = b.events.items; hint = b.hint } };

    ghost use Rattle.std.specs.Prelude.{◌≤◌, ◌+◌, vec_capacity};
    ghost use Rattle.inp_model.specs.declared.limits.TheConstants.{HINT_MAX};

    ghost invariant = { λ b. (b.hint ≤ HINT_MAX) × (b.hint + 2 ≤ vec_capacity b.events) };
}

impl Batch {
    /// No events.
    pub fn new(alloc: Global, hint: usize) -> Result<Batch, NoMemory>
        requires range { hint ≤ HINT_MAX }
        ensures empty { IfOk result (λ batch. batch.events ≡ []) }
        ensures hint { IfOk result (λ batch. batch.hint ≡ hint) }
    {
        Ok(Batch {
            events: Vec::with_capacity(alloc, hint + 2)?,
            hint,
        })
    }

    /// The events.
    pub fn events(&self) -> &[Event]
        ensures events { result.now ≡ self.now.events }
    {
        &self.events
    }

    /// Puts what is passed for a raw event after the others, by what is done with it: the slot that its value belongs
    /// to, where the clients were not told, and the event itself.
    pub fn add(&mut self, disposition: Disposition, slot: i32, event: Event)
        requires room { length self.old.events < self.old.hint }
        ensures added { self.new.events
            ≡ self.old.events ++ events_by (flags_of disposition) slot event }
        ensures hint { self.new.hint ≡ self.old.hint }
    {
        if disposition.contains(Disposition::SLOT) {
            self.events.push(Event::of_slot(slot)).unwrap();
        }
        if disposition.contains(Disposition::TO_HANDLERS) {
            self.events.push(event).unwrap();
        }
    }

    /// Whether the events are a whole frame, which is to be passed on and let go. It is asked once for each raw event,
    /// after what is passed for it, with whether it is a report.
    ///
    /// A full batch gets a report of its own, and a report alone is let go.
    pub fn cut(&mut self, report: bool) -> bool
        requires room { length self.old.events < self.old.hint + 2 }
        ensures whole { result ≡ are_frame report self.old }
        ensures frame { result ≡ true → self.new.events ≡ (if report then self.old.events
            else self.old.events ++ core_report ∷ []) }
        ensures waiting { result ≡ false
            → self.new.events ≡ (if report then [] else self.old.events) }
        ensures fits { length self.new.events ≤ FRAME_MAX }
        ensures hint { self.new.hint ≡ self.old.hint }
    {
        if report {
            if self.events.len() > 1 {
                return true;
            }
            self.clear();
            return false;
        }
        if self.events.len() < self.hint {
            return false;
        }
        self.events.push(core_report()).unwrap();
        true
    }

    /// Lets the events go.
    pub fn clear(&mut self)
        ensures empty { self.new.events ≡ [] }
        ensures hint { self.new.hint ≡ self.old.hint }
    {
        self.events.clear();
    }
}
