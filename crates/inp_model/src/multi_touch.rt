//! The numbers of the multi-touch axes (the kernel's input event codes, and its multi-touch protocol B).
//!
//! A device with slots follows several contacts at once. `ABS_MT_SLOT` names a slot, and the values after it belong to
//! the contact in that slot.
ghost use Rattle.std.specs.Prelude.{◌≡◌};
ghost use Rattle.inp_model.specs.Description.{is_multi_touch_code, is_slot_code};

/// The axis that names the slot of the values after it (the kernel's multi-touch protocol).
pub const ABS_MT_SLOT: u16 = 0x2f;

const _: () = prove!(ABS_MT_SLOT == 47);

/// The long axis of the area that a contact covers. It is the first of the axes whose values belong to slots (the
/// kernel's multi-touch protocol).
pub const ABS_MT_TOUCH_MAJOR: u16 = 0x30;

const _: () = prove!(ABS_MT_TOUCH_MAJOR == 48);

/// The short axis of the area that a contact covers (the kernel's multi-touch protocol).
pub const ABS_MT_TOUCH_MINOR: u16 = 0x31;

/// The long axis of the approaching finger or tool (the kernel's multi-touch protocol).
pub const ABS_MT_WIDTH_MAJOR: u16 = 0x32;

/// The short axis of the approaching finger or tool (the kernel's multi-touch protocol).
pub const ABS_MT_WIDTH_MINOR: u16 = 0x33;

/// How the area of a contact is turned (the kernel's multi-touch protocol).
pub const ABS_MT_ORIENTATION: u16 = 0x34;

/// Where the middle of a contact is, from the left (the kernel's multi-touch protocol).
pub const ABS_MT_POSITION_X: u16 = 0x35;

const _: () = prove!(ABS_MT_POSITION_X == 53);

/// Where the middle of a contact is, from the top (the kernel's multi-touch protocol).
pub const ABS_MT_POSITION_Y: u16 = 0x36;

const _: () = prove!(ABS_MT_POSITION_Y == 54);

/// What touches, as a finger or a pen (the kernel's multi-touch protocol).
pub const ABS_MT_TOOL_TYPE: u16 = 0x37;

/// The group of contacts that one shape is made of (the kernel's multi-touch protocol).
pub const ABS_MT_BLOB_ID: u16 = 0x38;

/// A contact's id, or -1 where the slot has no contact (the kernel's multi-touch protocol).
pub const ABS_MT_TRACKING_ID: u16 = 0x39;

const _: () = prove!(ABS_MT_TRACKING_ID == 57);

/// How hard a contact presses (the kernel's multi-touch protocol).
pub const ABS_MT_PRESSURE: u16 = 0x3a;

/// How far a tool is from the surface (the kernel's multi-touch protocol).
pub const ABS_MT_DISTANCE: u16 = 0x3b;

/// Where the middle of the tool is, from the left (the kernel's multi-touch protocol).
pub const ABS_MT_TOOL_X: u16 = 0x3c;

/// Where the middle of the tool is, from the top. It is the last of the axes whose values belong to slots (the
/// kernel's multi-touch protocol).
pub const ABS_MT_TOOL_Y: u16 = 0x3d;

const _: () = prove!(ABS_MT_TOOL_Y == 61);

/// How many values a slot has: one for each axis from `ABS_MT_TOUCH_MAJOR` to `ABS_MT_TOOL_Y`.
pub const SLOT_VALUES: u32 = (ABS_MT_TOOL_Y - ABS_MT_TOUCH_MAJOR + 1) as u32;

const _: () = prove!(SLOT_VALUES == 14);

/// Whether an axis names a slot, or its values belong to slots: one from `ABS_MT_SLOT` to `ABS_MT_TOOL_Y` (the kernel's
/// multi-touch protocol).
pub fn is_multi_touch_code(code: u16) -> bool
    ensures multi_touch { result ≡ is_multi_touch_code code }
{
    code >= ABS_MT_SLOT && code <= ABS_MT_TOOL_Y
}

/// Whether the values of an axis belong to slots: one from `ABS_MT_TOUCH_MAJOR` to `ABS_MT_TOOL_Y` (the kernel's
/// multi-touch protocol).
pub fn is_slot_code(code: u16) -> bool
    ensures slot { result ≡ is_slot_code code }
{
    code >= ABS_MT_TOUCH_MAJOR && code <= ABS_MT_TOOL_Y
}
