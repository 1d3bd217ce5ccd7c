//! The steps by which clients ask for the state.
ghost use Rattle.std.specs.Prelude.{◌≡◌, ◌≤◌, ◌*◌, [], length};
ghost use Rattle.inp_model.specs.declared.limits.TheConstants.{LOG_MAX};
ghost use Rattle.inp_model.specs.declared.step.Step.TheVariants.{GetAxis, GetSlots, SyncSlots};
ghost use Rattle.inp_device.specs.Present.{IsReadyFor, IsAcceptedStep, StoresFew, AsksBits};

use crate::cells::{write_column, write_rows};
use crate::present::Present;
use crate::queries;
use inp_model::{Reply, SLOT_VALUES, Step};

impl Present {
    /// A client asks which codes of a type are on. Its queued events of the type are removed.
    pub fn get_bits(&mut self, history: &[Step], step: Step, client: u32, kind: u16) -> Reply
        requires asks { AsksBits step client kind }
        requires ready { IsReadyFor history.now step self.old }
        ensures made { IsAcceptedStep history.now step self.old result [] [] [] [] self.new }
        ensures stored { StoresFew history.now step self.old self.new }
    {
        let words = queries::bits(&self.core, kind);
        self.handler.clients.flush(client, kind);
        Reply::Bits {
            at: history.len() as u32,
            words,
        }
    }

    /// A client asks for an axis.
    pub fn get_axis(&mut self, history: &[Step], client: u32, code: u16) -> Reply
        requires ready { IsReadyFor history.now (GetAxis client code) self.old }
        ensures made { IsAcceptedStep history.now (GetAxis client code) self.old result [] [] [] []
            self.new }
        ensures stored { StoresFew history.now (GetAxis client code) self.old self.new }
    {
        Reply::Axis {
            at: history.len() as u32,
            info: queries::axis(&self.core, &self.caps, code),
        }
    }

    /// A client asks for one value of each slot.
    pub fn get_slots(
        &mut self,
        history: &[Step],
        client: u32,
        code: u16,
        cells: &mut [i32],
    ) -> Reply
        requires room { SLOT_VALUES * self.old.caps.slots ≤ length cells.old }
        requires ready { IsReadyFor history.now (GetSlots client code) self.old }
        ensures made { IsAcceptedStep history.now (GetSlots client code) self.old result [] [] cells.old
            cells.new self.new }
        ensures stored { StoresFew history.now (GetSlots client code) self.old self.new }
    {
        let count = self.caps.slots();
        write_column(self.core.slots(), count, code, cells);
        self.tell_cells(history, count)
    }

    /// A client asks for all values of all slots. Its queued multi-touch events are removed.
    pub fn sync_slots(&mut self, history: &[Step], client: u32, cells: &mut [i32]) -> Reply
        requires room { SLOT_VALUES * self.old.caps.slots ≤ length cells.old }
        requires ready { IsReadyFor history.now (SyncSlots client) self.old }
        ensures made { IsAcceptedStep history.now (SyncSlots client) self.old result [] [] cells.old
            cells.new self.new }
        ensures stored { StoresFew history.now (SyncSlots client) self.old self.new }
    {
        let count = self.caps.slots();
        write_rows(self.core.slots(), count, cells);
        self.handler.clients.flush_slots(client);
        self.tell_cells(history, SLOT_VALUES * count)
    }

    // The reply to a query that tells so many values of slots. It tells the slot that the clients know from the last
    // frame, and not the one that the open batch has reached. The next values without an announcement belong to that
    // known slot.
    fn tell_cells(&self, history: &[Step], count: u32) -> Reply
        requires few { length history.now ≤ LOG_MAX }
        ensures told { result
            ≡ Reply.Cells (length history.now) count self.now.core.slots.at_frame }
    {
        Reply::Cells {
            at: history.len() as u32,
            count,
            slot: self.core.slots().at_frame(),
        }
    }
}
