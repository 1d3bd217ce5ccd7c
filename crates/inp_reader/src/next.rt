//! What a reader answers.

use inp_model::{Event, Taken};

/// What [`Reader::next`](crate::Reader::next) answers.
#[derive(Clone, Copy, Debug, PartialEq, Eq)]
pub enum Next {
    /// An event of the device, by which the view was set (libevdev's `LIBEVDEV_READ_STATUS_SUCCESS`).
    Success { event: Taken },
    /// SYN_DROPPED: events were lost, and the reader is to synchronise (libevdev's `LIBEVDEV_READ_STATUS_SYNC`).
    Dropped { event: Taken },
    /// A synthesised event (libevdev's `LIBEVDEV_READ_STATUS_SYNC`).
    Sync { event: Event },
    /// Nothing is visible to the client (libevdev's `-EAGAIN`): the history's length, and how many sources are done.
    Again { at: u32, ends: u32 },
    /// No synthesised event is left (libevdev's `-EAGAIN`).
    Synced,
    /// The client was revoked (evdev's `ENODEV`).
    NoDevice,
    /// The client is not open.
    Closed,
    /// The history is as long as it may be.
    Full { at: u32 },
}
