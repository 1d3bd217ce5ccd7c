//! The records that a joystick client hands out.
ghost use Rattle.std.specs.Prelude.{◌≡◌};
ghost use Rattle.inp_joy.specs.JoyRecord.{bytes_of_record, record_in, is_of_button, is_of_axis, startup_button, startup_axis, button_record, axis_record, within_16_bits, milliseconds};
ghost use Rattle.inp_reader.specs.Synthesis.{bit_value};

use inp_model::Taken;

/// The type of a button's record (the kernel's `linux/joystick.h`).
pub const JS_EVENT_BUTTON: u8 = 1;

const _: () = prove!(JS_EVENT_BUTTON == 0x01);

/// The type of an axis's record (the kernel's `linux/joystick.h`).
pub const JS_EVENT_AXIS: u8 = 2;

const _: () = prove!(JS_EVENT_AXIS == 0x02);

/// What is added to the type of a startup record (the kernel's `linux/joystick.h`).
pub const JS_EVENT_INIT: u8 = 128;

const _: () = prove!(JS_EVENT_INIT == 0x80);

/// What happened to a button or an axis (the kernel's `struct js_event`).
#[derive(Clone, Copy, Debug, PartialEq, Eq)]
pub struct JoyRecord {
    /// When, in milliseconds, the lowest 32 bits; 0 in a startup record (this project's choice).
    pub time: u32,
    /// Of a button 1 is down and 0 is up; of an axis its value.
    pub value: i16,
    /// `JS_EVENT_BUTTON` or `JS_EVENT_AXIS`, with `JS_EVENT_INIT` added in a startup record.
    pub kind: u8,
    /// The number of the button or axis.
    pub number: u8,
}

impl JoyRecord {
    /// The eight bytes of the record: time, value, type and number, each with its lowest byte first.
    pub fn bytes(self) -> [u8; 8]
        ensures bytes { result ≡ bytes_of_record self }
    {
        let [t0, t1, t2, t3] = self.time.to_le_bytes();
        let [v0, v1] = self.value.to_le_bytes();
        [t0, t1, t2, t3, v0, v1, self.kind, self.number]
    }

    /// The record that these eight bytes are. Of the bytes of a record that a client handed out it is that record.
    pub fn from_bytes(bytes: [u8; 8]) -> JoyRecord
        ensures joy_record { result ≡ record_in bytes }
    {
        let [t0, t1, t2, t3, v0, v1, kind, number] = bytes;
        JoyRecord {
            time: u32::from_le_bytes([t0, t1, t2, t3]),
            value: i16::from_le_bytes([v0, v1]),
            kind,
            number,
        }
    }

    // Whether it is about a button.
    pub(crate) fn is_of_button(self) -> bool
        ensures { result ≡ is_of_button self }
    {
        self.kind == JS_EVENT_BUTTON || self.kind == JS_EVENT_BUTTON + JS_EVENT_INIT
    }

    // Whether it is about an axis.
    pub(crate) fn is_of_axis(self) -> bool
        ensures { result ≡ is_of_axis self }
    {
        self.kind == JS_EVENT_AXIS || self.kind == JS_EVENT_AXIS + JS_EVENT_INIT
    }

    // How a button stands as a startup begins.
    pub(crate) fn startup_button(number: u8, down: bool) -> JoyRecord
        ensures { result ≡ startup_button number down }
    {
        JoyRecord {
            time: 0,
            value: button_value(down),
            kind: JS_EVENT_BUTTON + JS_EVENT_INIT,
            number,
        }
    }

    // How an axis stands as a startup begins.
    pub(crate) fn startup_axis(number: u8, value: i16) -> JoyRecord
        ensures { result ≡ startup_axis number value }
    {
        JoyRecord {
            time: 0,
            value,
            kind: JS_EVENT_AXIS + JS_EVENT_INIT,
            number,
        }
    }

    // That a button was pressed or released.
    pub(crate) fn of_button(number: u8, event: Taken) -> JoyRecord
        ensures { result ≡ button_record number event }
    {
        JoyRecord {
            time: milliseconds(event.time),
            value: button_value(event.event.is_set()),
            kind: JS_EVENT_BUTTON,
            number,
        }
    }

    // That an axis moved.
    pub(crate) fn of_axis(number: u8, event: Taken) -> JoyRecord
        ensures { result ≡ axis_record number event }
    {
        JoyRecord {
            time: milliseconds(event.time),
            value: within_16_bits(event.event.value),
            kind: JS_EVENT_AXIS,
            number,
        }
    }
}

// The value of a button.
fn button_value(down: bool) -> i16
    ensures { result ≡ bit_value down }
{
    if down { 1 } else { 0 }
}

// A time of microseconds in milliseconds, its lowest 32 bits.
fn milliseconds(time: u64) -> u32
    ensures { result ≡ milliseconds time }
{
    (time / 1000 % 0x1_0000_0000) as u32
}

// The value of an axis, cut to those of 16 bits that have a negative.
pub(crate) fn within_16_bits(value: i32) -> i16
    ensures { result ≡ within_16_bits value }
{
    if value < -32_767 {
        -32_767
    } else if 32_767 < value {
        32_767
    } else {
        value as i16
    }
}
