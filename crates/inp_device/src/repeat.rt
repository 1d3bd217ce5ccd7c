//! What is told of the autorepeat.

use inp_model::Timer;

/// The settings of a device's autorepeat as they are now, and its timer.
#[derive(Clone, Copy, Debug, PartialEq, Eq)]
pub struct Repeat {
    /// The time before a key's first repeat, in milliseconds, at least 0.
    pub delay: i32,
    /// The time between repeats, in milliseconds, at least 0.
    pub period: i32,
    /// The moment at which a key repeats next, where one is to, and the key.
    pub timer: Timer,
}
