//! What a store keeps of an event.
ghost use Rattle.std.specs.Prelude.{◌≡◌, ◌≤◌};
ghost use Rattle.inp_model.specs.declared.stamped.TheConstants.{MOMENT_MAX};
ghost use Rattle.inp_ring.specs.Store.{cell_taken};

use inp_model::{Event, MOMENT_MAX, Taken};

/// An event of a frame, as all clients that were offered it share it. Each client reads it on a clock of its own.
#[derive(Clone, Copy, Debug, PartialEq, Eq)]
pub struct Cell {
    /// The event.
    pub event: Event,
    /// When its frame ended, in microseconds.
    pub now: u64,
    /// The place in the history of the step that ended its frame.
    pub place: u32,
}

impl Cell {
    /// The event as it is read on a clock that is so many microseconds ahead.
    pub fn taken(self, offset: u64) -> Taken
        requires now { self.now ≤ MOMENT_MAX }
        requires offset { offset ≤ MOMENT_MAX }
        ensures taken { result ≡ cell_taken offset self }
    {
        Taken {
            event: self.event,
            time: self.now + offset,
            place: self.place,
        }
    }
}

/// A cell in a store, with the number of rings that hold it.
#[derive(Clone, Copy, Debug, PartialEq, Eq)]
pub struct Held {
    /// The cell.
    pub cell: Cell,
    /// How many rings hold it, at most 64.
    pub holders: u32,
}
