//! Events as a client reads them.

use crate::Event;

/// An event as a client reads it (evdev's `struct input_event`).
#[derive(Clone, Copy, Debug, PartialEq, Eq)]
#[repr(C)]
pub struct Taken {
    /// The event.
    pub event: Event,
    /// When its frame ended, in microseconds of the client's clock.
    pub time: u64,
    /// The place in the device's history of the step that ended its frame (this project's choice).
    pub place: u32,
}
