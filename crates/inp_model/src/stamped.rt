//! Events with the moment at which they are injected.

use crate::Event;

/// The greatest moment, in microseconds (this project's choice).
pub const MOMENT_MAX: u64 = 9_000_000_000_000_000;

const _: () = prove!(MOMENT_MAX == 9_000_000 * 1_000_000_000);

/// An event with the moment at which it is injected.
#[derive(Clone, Copy, Debug, PartialEq, Eq)]
#[repr(C)]
pub struct Stamped {
    /// The event.
    pub event: Event,
    /// The moment, in microseconds, at most `MOMENT_MAX`.
    pub now: u64,
}
