//! The values of all slots.
ghost use Rattle.std.specs.Prelude.{◌≡◌, ◌<◌, ◌≤◌, ◌*◌, pos, true, length, take, slice_get, nat_eq, Some, IfOk};
ghost use Rattle.inp_model.specs.Description.{is_slot_code};
ghost use Rattle.inp_recon.specs.Cells.{first_cells, slot_count, cell_index, cell_of, with_cell};

use inp_model::{ABS_MT_TOUCH_MAJOR, NoMemory, SLOT_VALUES, SLOTS_MAX};
use std::alloc::Global;
use std::marker::Model;

/// A slot without a contact: the tracking id is -1, and the other values are 0 (this project's choice).
const NO_CONTACT: [i32; SLOT_VALUES as usize] = [0, 0, 0, 0, 0, 0, 0, 0, 0, -1, 0, 0, 0, 0];

/// The values of all slots: of each slot, one for each axis from `ABS_MT_TOUCH_MAJOR` to `ABS_MT_TOOL_Y`.
///
/// It is a part of a [`View`](crate::View), which makes it and alone changes it. A contract sees it as the list of the
/// values, slot by slot, `SLOT_VALUES` a slot by ascending codes.
#[derive(Debug, Drop)]
pub struct Cells {
    cells: Vec<i32>,
}

impl Model for Cells {
    ghost use Rattle.std.specs.Prelude.{List, ℤ};
    ghost use Rattle.inp_recon.specs.Cells.{AreWholeSlots};

    ghost Value = { List ℤ };

    ghost view = { λ c. c.cells.items };

    ghost invariant = { λ c. AreWholeSlots c.cells.items };
}

impl Cells {
    // So many slots without a contact.
    pub(crate) fn new(alloc: Global, slots: u32) -> Result<Cells, NoMemory>
        requires { slots ≤ SLOTS_MAX }
        ensures { IfOk result (λ cells. cells ≡ first_cells slots) }
    {
        let mut cells = Vec::new(alloc);
        for _ in 0..slots {
            cells.extend_from_slice(&NO_CONTACT)?;
        }
        Ok(Cells { cells })
    }

    /// How many values there are: fourteen a slot.
    pub fn len(&self) -> usize
        ensures length { result ≡ length self.now }
    {
        self.cells.len()
    }

    /// Whether there is no slot.
    pub fn is_empty(&self) -> bool
        ensures empty { result ≡ nat_eq (length self.now) 0 }
    {
        self.cells.is_empty()
    }

    /// The value at an index below the length. [`value`](Cells::value) finds one by its slot and code.
    pub fn get(&self, index: usize) -> &i32
        requires within { index < length self.now }
        ensures value { slice_get self.now index ≡ Some result.now }
    {
        &self.cells[index]
    }

    /// How many slots there are.
    pub fn slot_count(&self) -> u32
        ensures count { result ≡ slot_count self.now }
        ensures whole { length self.now ≡ SLOT_VALUES * slot_count self.now }
        ensures few { result ≤ SLOTS_MAX }
    {
        (self.cells.len() / SLOT_VALUES as usize) as u32
    }

    /// The value of a slot on the axis with this code. There must be such a slot, and the values of the axis must
    /// belong to slots.
    pub fn value(&self, slot: u32, code: u16) -> i32
        requires slot { slot < slot_count self.now }
        requires code { is_slot_code code ≡ true }
        ensures value { result ≡ cell_of self.now slot code }
    {
        self.cells[cell_index(slot, code)]
    }

    // Sets the value of a slot on the axis with this code, if there is a slot of this number.
    pub(crate) fn set(&mut self, slot: i32, code: u16, value: i32)
        requires { is_slot_code code ≡ true }
        ensures written { self.new ≡ with_cell self.old slot code value }
        ensures len { length self.new ≡ length self.old }
    {
        if slot < 0 {
            return;
        }
        let (slot, len) = (slot as u32, self.cells.len());
        if slot >= SLOTS_MAX {
            return;
        }
        let index = cell_index(slot, code);
        if index < len {
            self.cells[index] = value;
        }
    }

    // Takes over as many of these values as there are.
    pub(crate) fn copy_from_front(&mut self, values: &[i32])
        requires { length self.old ≤ length values.now }
        ensures written { self.new ≡ take (length self.old) values.now }
        ensures len { length self.new ≡ length self.old }
    {
        let len = self.cells.len();
        self.cells.copy_from_slice(&values[..len]);
    }

    // All values.
    pub(crate) fn as_slice(&self) -> &[i32]
        ensures { result.now ≡ self.now }
    {
        &self.cells
    }
}

// Where the value of a slot on the axis with this code stands.
fn cell_index(slot: u32, code: u16) -> usize
    requires few { slot < SLOTS_MAX }
    requires code { is_slot_code code ≡ true }
    ensures { result ≡ cell_index (pos slot) code }
{
    (SLOT_VALUES * slot + u32::from(code - ABS_MT_TOUCH_MAJOR)) as usize
}
