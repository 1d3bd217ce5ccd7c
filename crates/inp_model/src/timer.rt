//! The timer of the autorepeat.

/// The timer of a device's autorepeat (the kernel's `dev->timer` and `repeat_key`).
#[derive(Clone, Copy, Debug, PartialEq, Eq)]
pub struct Timer {
    /// The moment from which on it fires, in microseconds, where it is armed.
    pub due: Option<u64>,
    /// The key that it was last armed for, 0 before any.
    pub key: u16,
}
