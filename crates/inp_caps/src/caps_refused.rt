//! Why a call of a builder was refused.

/// Why a description cannot have what a call of its builder asked for. The builder is as before.
#[derive(Clone, Copy, Debug, PartialEq, Eq)]
pub enum CapsRefused {
    /// There is no such type, or the type has no such code; or a filter for chords names one key twice.
    BadCode,
    /// The fuzz is out of range, or a multi-touch axis has a value or a fuzz that it cannot have.
    BadAxis,
    /// The number of slots is not 1 to 256.
    BadSlots,
    /// The hint is not 2 to 512.
    BadHint,
    /// The log limit is not 1 to 8,388,608.
    BadLog,
    /// An offset is above `MOMENT_MAX`.
    BadOffset,
    /// There are eight filters already.
    BadFilter,
}
