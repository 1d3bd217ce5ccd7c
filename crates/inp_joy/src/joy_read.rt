//! What a read answers.

/// What [`Joy::read`](crate::Joy::read) answers.
#[derive(Clone, Copy, Debug, PartialEq, Eq)]
pub enum JoyRead {
    /// A record was handed out, and stands in the caller's buffer.
    Record,
    /// A frame ended: the place in the device's history of the step that ended it.
    Frame { place: u32 },
    /// Nothing is visible to the client (the kernel's `-EAGAIN`): the history's length, and how many sources are done.
    Again { at: u32, ends: u32 },
    /// The client was revoked (the kernel's `ENODEV`).
    NoDevice,
    /// The client is not open.
    Closed,
    /// The history is as long as it may be.
    Full { at: u32 },
    /// The read made many calls and came to no answer; the next one goes on (this project's choice).
    More,
}
