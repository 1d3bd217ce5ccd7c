//! What a device answers to a step.
ghost use Rattle.std.specs.Prelude.{◌≡◌};
ghost use Rattle.inp_model.specs.Reply.{is_accepted};

use crate::AxisInfo;

/// The answer to a step. In an accepted one `at` is the step's place in the history. In `Again` and `Refused` it is
/// the history's length, and the step is not entered.
#[derive(Clone, Copy, Debug, PartialEq, Eq)]
pub enum Reply {
    /// The step was done.
    Done { at: u32 },
    /// The client was opened: its number, and the number of places of its ring.
    Opened { at: u32, client: u32, ring: u32 },
    /// So many events were read, and stand at the front of the caller's buffer.
    Took { at: u32, count: u32 },
    /// So many events were removed, unread.
    Discarded { at: u32, count: u32 },
    /// The bits that were asked for: bit i of the 768 for code i, 64 a word.
    Bits { at: u32, words: [u64; 12] },
    /// The axis that was asked for, with its value.
    Axis { at: u32, info: AxisInfo },
    /// The values of slots that were asked for stand at the front of the caller's buffer. `slot` is the one that was
    /// announced when the last frame ended, to which later values without an announcement belong.
    Cells { at: u32, count: u32, slot: i32 },
    /// Nothing is visible to the client (evdev's -EAGAIN). `ends` is how many sources are done.
    Again { at: u32, ends: u32 },
    /// The step was refused, and nothing changed.
    Refused { at: u32, why: Refusal },
}

/// Why a step was refused.
#[derive(Clone, Copy, Debug, PartialEq, Eq)]
pub enum Refusal {
    /// The named client is not open.
    BadClient,
    /// The named client was revoked (evdev's `ENODEV`).
    NoDevice,
    /// The device has no type of the kind that the step is about.
    BadKind,
    /// The step is about a code that its type does not have.
    BadCode,
    /// The axis is described with a fuzz out of range (this project's choice: evdev takes it).
    BadInfo,
    /// A client holds the grab (evdev's `EBUSY`).
    Busy,
    /// The client does not hold the grab that it gives up (evdev's `EINVAL`).
    NotGrabber,
    /// As many clients are open as may be (this project's choice).
    TooMany,
    /// The history has as many steps as it may have.
    LogFull,
    /// Memory ran out while a client was opened.
    NoMemory,
}

impl Reply {
    /// Whether the step was entered in the history.
    pub fn is_accepted(self) -> bool
        ensures accepted { result ≡ is_accepted self }
    {
        match self {
            Reply::Done { .. }
            | Reply::Opened { .. }
            | Reply::Took { .. }
            | Reply::Discarded { .. }
            | Reply::Bits { .. }
            | Reply::Axis { .. }
            | Reply::Cells { .. } => true,
            Reply::Again { .. } | Reply::Refused { .. } => false,
        }
    }
}
