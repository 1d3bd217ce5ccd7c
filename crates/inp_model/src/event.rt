//! Events, and the numbers of the types and codes that this crate's definitions name.
ghost use Rattle.std.specs.Prelude.{◌≡◌};
ghost use Rattle.inp_model.specs.Event.{is_report, is_repeat, is_set, is_multi_touch, slot_event};

use crate::multi_touch::{ABS_MT_SLOT, is_multi_touch_code};

/// The type of the events that separate frames (the kernel's input event codes).
pub const EV_SYN: u16 = 0;

const _: () = prove!(EV_SYN == 0x00);

/// The type of keys and buttons (the kernel's input event codes).
pub const EV_KEY: u16 = 1;

const _: () = prove!(EV_KEY == 0x01);

/// The type of relative motion (the kernel's input event codes).
pub const EV_REL: u16 = 2;

const _: () = prove!(EV_REL == 0x02);

/// The type of absolute axes (the kernel's input event codes).
pub const EV_ABS: u16 = 3;

const _: () = prove!(EV_ABS == 0x03);

/// The type of what fits no other type, as scan codes (the kernel's input event codes).
pub const EV_MSC: u16 = 4;

const _: () = prove!(EV_MSC == 0x04);

/// The type of switches (the kernel's input event codes).
pub const EV_SW: u16 = 5;

const _: () = prove!(EV_SW == 0x05);

/// The type of LEDs (the kernel's input event codes).
pub const EV_LED: u16 = 0x11;

const _: () = prove!(EV_LED == 17);

/// The type of sounds (the kernel's input event codes).
pub const EV_SND: u16 = 0x12;

const _: () = prove!(EV_SND == 18);

/// The type of the autorepeat's settings (the kernel's input event codes).
pub const EV_REP: u16 = 0x14;

const _: () = prove!(EV_REP == 20);

/// The greatest type (the kernel's input event codes).
pub const EV_MAX: u16 = 0x1f;

const _: () = prove!(EV_MAX == 31);

/// The code of `EV_SYN` that ends a frame (the kernel's input event codes).
pub const SYN_REPORT: u16 = 0;

const _: () = prove!(SYN_REPORT == 0x00);

/// The code of `EV_SYN` that tells of a new configuration (the kernel's input event codes).
pub const SYN_CONFIG: u16 = 1;

const _: () = prove!(SYN_CONFIG == 0x01);

/// The code of `EV_SYN` that separates anonymous contacts (the kernel's input event codes).
pub const SYN_MT_REPORT: u16 = 2;

const _: () = prove!(SYN_MT_REPORT == 0x02);

/// The code of `EV_SYN` that tells a client that events were lost (the kernel's input event codes).
pub const SYN_DROPPED: u16 = 3;

const _: () = prove!(SYN_DROPPED == 0x03);

/// The key A (the kernel's input event codes).
pub const KEY_A: u16 = 30;

const _: () = prove!(KEY_A == 0x1e);

/// The greatest code of `EV_KEY` (the kernel's input event codes).
pub const KEY_MAX: u16 = 0x2ff;

const _: () = prove!(KEY_MAX == 767);

/// The greatest code of `EV_REL` (the kernel's input event codes).
pub const REL_MAX: u16 = 0x0f;

const _: () = prove!(REL_MAX == 15);

/// The greatest code of `EV_ABS` (the kernel's input event codes).
pub const ABS_MAX: u16 = 0x3f;

const _: () = prove!(ABS_MAX == 63);

/// The greatest code of `EV_MSC` (the kernel's input event codes).
pub const MSC_MAX: u16 = 0x07;

const _: () = prove!(MSC_MAX == 7);

/// The greatest code of `EV_SW` (this project's choice, since kernels differ in it).
pub const SW_MAX: u16 = 0x10;

const _: () = prove!(SW_MAX == 16);

/// The greatest code of `EV_LED` (the kernel's input event codes).
pub const LED_MAX: u16 = 0x0f;

const _: () = prove!(LED_MAX == 15);

/// The greatest code of `EV_SND` (the kernel's input event codes).
pub const SND_MAX: u16 = 0x07;

const _: () = prove!(SND_MAX == 7);

/// The code of `EV_REP` for the time in milliseconds before a key's first repeat (the kernel's input event codes).
pub const REP_DELAY: u16 = 0;

const _: () = prove!(REP_DELAY == 0x00);

/// The code of `EV_REP` for the time in milliseconds between repeats (the kernel's input event codes).
pub const REP_PERIOD: u16 = 1;

const _: () = prove!(REP_PERIOD == 0x01);

/// The greatest code of `EV_REP` (the kernel's input event codes).
pub const REP_MAX: u16 = 1;

const _: () = prove!(REP_MAX == 0x01);

/// One input event: what happened, without a time (the kernel's `struct input_event`).
#[derive(Clone, Copy, Debug, PartialEq, Eq)]
#[repr(C)]
pub struct Event {
    /// The type, as `EV_KEY`; `type` is a word of the language.
    pub kind: u16,
    /// The code within its type, as `KEY_A`.
    pub code: u16,
    /// The value: of a key 1 is down, 0 is up and 2 is an autorepeat.
    pub value: i32,
}

impl Event {
    /// Whether it is the report that ends a frame (`EV_SYN`, `SYN_REPORT`).
    pub fn is_report(self) -> bool
        ensures report { result ≡ is_report self }
    {
        self.kind == EV_SYN && self.code == SYN_REPORT
    }

    /// Of a key: whether it is an autorepeat, which changes no state.
    pub fn is_repeat(self) -> bool
        ensures repeat { result ≡ is_repeat self }
    {
        self.value == 2
    }

    /// Whether it is of a multi-touch axis: `EV_ABS` from `ABS_MT_SLOT` to `ABS_MT_TOOL_Y`.
    pub fn is_multi_touch(self) -> bool
        ensures multi_touch { result ≡ is_multi_touch self }
    {
        self.kind == EV_ABS && is_multi_touch_code(self.code)
    }

    /// The event that says which slot the multi-touch values after it belong to (multi-touch protocol B).
    pub fn of_slot(slot: i32) -> Event
        ensures slot { result ≡ slot_event slot }
    {
        Event {
            kind: EV_ABS,
            code: ABS_MT_SLOT,
            value: slot,
        }
    }

    /// Of a key and the like: whether it is down, or on.
    pub fn is_set(self) -> bool
        ensures set { result ≡ is_set self }
    {
        self.value != 0
    }
}
