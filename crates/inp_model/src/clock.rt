//! The clocks that a client can read its events by.

/// The clock of a client (evdev's clock request).
#[derive(Clone, Copy, Debug, PartialEq, Eq)]
pub enum Clock {
    /// The time of day. Each client starts on it.
    Realtime,
    /// The time since some start, without the time asleep.
    Monotonic,
    /// The time since the machine was started, the time asleep included.
    Boottime,
}
