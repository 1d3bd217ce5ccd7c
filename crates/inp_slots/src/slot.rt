//! The values of one slot.
ghost use Rattle.std.specs.Prelude.{◌≡◌, true, length};
ghost use Rattle.inp_model.specs.declared.multi_touch.TheConstants.{SLOT_VALUES};
ghost use Rattle.inp_model.specs.Description.{is_slot_code};
ghost use Rattle.inp_slots.specs.Contact.{no_contact};
ghost use Rattle.inp_slots.specs.Changes.{on_axis, with_value, taken, change};

use inp_caps::defuzz;
use inp_model::{
    ABS_MT_BLOB_ID, ABS_MT_DISTANCE, ABS_MT_ORIENTATION, ABS_MT_POSITION_X, ABS_MT_POSITION_Y,
    ABS_MT_PRESSURE, ABS_MT_TOOL_TYPE, ABS_MT_TOOL_X, ABS_MT_TOUCH_MAJOR, ABS_MT_TOUCH_MINOR,
    ABS_MT_TRACKING_ID, ABS_MT_WIDTH_MAJOR, ABS_MT_WIDTH_MINOR,
};
use std::marker::Model;

// The field of a slot for the axis with this code: read, or written where `= value` stands after the code.
macro_rules! at_axis {
    ($slot:ident, $code:ident $(= $value:ident)?) => {
        match $code {
            ABS_MT_TOUCH_MAJOR => $slot.touch_major $(= $value)?,
            ABS_MT_TOUCH_MINOR => $slot.touch_minor $(= $value)?,
            ABS_MT_WIDTH_MAJOR => $slot.width_major $(= $value)?,
            ABS_MT_WIDTH_MINOR => $slot.width_minor $(= $value)?,
            ABS_MT_ORIENTATION => $slot.orientation $(= $value)?,
            ABS_MT_POSITION_X => $slot.position_x $(= $value)?,
            ABS_MT_POSITION_Y => $slot.position_y $(= $value)?,
            ABS_MT_TOOL_TYPE => $slot.tool_type $(= $value)?,
            ABS_MT_BLOB_ID => $slot.blob_id $(= $value)?,
            ABS_MT_TRACKING_ID => $slot.tracking_id $(= $value)?,
            ABS_MT_PRESSURE => $slot.pressure $(= $value)?,
            ABS_MT_DISTANCE => $slot.distance $(= $value)?,
            ABS_MT_TOOL_X => $slot.tool_x $(= $value)?,
            // ABS_MT_TOOL_Y
            _ => $slot.tool_y $(= $value)?,
        }
    };
}

/// The values of one slot, one for each axis from `ABS_MT_TOUCH_MAJOR` to `ABS_MT_TOOL_Y`. A contract sees it as the
/// list of its values by ascending codes.
#[derive(Clone, Copy, Debug)]
pub(crate) struct Slot {
    touch_major: i32,
    touch_minor: i32,
    width_major: i32,
    width_minor: i32,
    orientation: i32,
    position_x: i32,
    position_y: i32,
    tool_type: i32,
    blob_id: i32,
    tracking_id: i32,
    pressure: i32,
    distance: i32,
    tool_x: i32,
    tool_y: i32,
}

impl Model for Slot {
    ghost use Rattle.std.specs.Prelude.{List, ℤ};

    ghost Value = { List ℤ };

    ghost use Rattle.inp_slots.specs.Slot.{values, slot_of};

    ghost view = { values };

    ghost inverse = { slot_of };
}

impl Slot {
    // A slot without a contact.
    pub(crate) fn no_contact() -> Slot
        ensures { result ≡ no_contact }
    {
        Slot {
            touch_major: 0,
            touch_minor: 0,
            width_major: 0,
            width_minor: 0,
            orientation: 0,
            position_x: 0,
            position_y: 0,
            tool_type: 0,
            blob_id: 0,
            tracking_id: -1,
            pressure: 0,
            distance: 0,
            tool_x: 0,
            tool_y: 0,
        }
    }

    // The value on the axis with this code.
    pub(crate) fn value(&self, code: u16) -> i32
        requires { is_slot_code code ≡ true }
        ensures value { result ≡ on_axis self.now code }
        ensures len { length self.now ≡ SLOT_VALUES }
    {
        at_axis!(self, code)
    }

    // Sets the value on the axis with this code.
    pub(crate) fn set_value(&mut self, code: u16, value: i32)
        requires { is_slot_code code ≡ true }
        ensures { self.new ≡ with_value self.old code value }
    {
        at_axis!(self, code = value);
    }

    // Moves the value on the axis with this code as far as the fuzz allows, and gives it where it changed.
    pub(crate) fn move_value(&mut self, code: u16, value: i32, fuzz: i32) -> Option<i32>
        requires { is_slot_code code ≡ true }
        ensures slot { self.new ≡ with_value self.old code (taken self.old code value fuzz) }
        ensures change { result ≡ change self.old code value fuzz }
        ensures len { length self.old ≡ SLOT_VALUES }
    {
        let before = self.value(code);
        let after = defuzz(value, before, fuzz);
        self.set_value(code, after);
        if before == after { None } else { Some(after) }
    }
}
