//! The values of slots, written to a caller's buffer.
ghost use Rattle.std.specs.Prelude.{◌≡◌, ◌≤◌, ◌*◌, true, List, length};
ghost use Rattle.inp_model.specs.RawItem.{RawItem};
ghost use Rattle.inp_model.specs.Description.{Description, is_slot_code};
ghost use Rattle.inp_model.specs.Reply.{column, rows, written};
ghost use Rattle.inp_slots.specs.Slots.{SlotsStandFor};

use inp_model::{ABS_MT_TOUCH_MAJOR, SLOT_VALUES, SLOTS_MAX};
use inp_slots::Slots;

/// Writes the value of each slot on one axis to the front of a buffer.
pub fn write_column(slots: &Slots, count: u32, code: u16, cells: &mut [i32])
    requires count { count ≡ length slots.now.slots }
    requires code { is_slot_code code ≡ true }
    requires room { count ≤ length cells.old }
    ensures written { (d : Description) (r : List RawItem) → SlotsStandFor d r slots.now
        → cells.new ≡ written (column d r code) cells.old }
{
    for slot in 0..count {
        cells[slot as usize] = slots.value(slot, code);
    }
}

/// Writes all values of all slots to the front of a buffer, slot by slot.
pub fn write_rows(slots: &Slots, count: u32, cells: &mut [i32])
    requires count { count ≡ length slots.now.slots }
    requires range { count ≤ SLOTS_MAX }
    requires room { SLOT_VALUES * count ≤ length cells.old }
    ensures written { (d : Description) (r : List RawItem) → SlotsStandFor d r slots.now
        → cells.new ≡ written (rows d r) cells.old }
{
    for index in 0..SLOT_VALUES * count {
        let code = ABS_MT_TOUCH_MAJOR + (index % SLOT_VALUES) as u16;
        cells[index as usize] = slots.value(index / SLOT_VALUES, code);
    }
}
