//! The steps that a device makes.
ghost use Rattle.std.specs.Prelude.{◌≡◌};
ghost use Rattle.inp_model.specs.Step.{client_of};

use crate::{AxisInfo, Clock, Event};

/// One step on a device. A device's history is the list of the steps that it accepted.
///
/// A client is named by the number of `Open` steps before its own, so no number is used twice.
#[derive(Clone, Copy, Debug, PartialEq, Eq)]
pub enum Step {
    /// The driver injects an event at a moment in microseconds, at most `MOMENT_MAX` (the kernel's `input_event`).
    Inject {
        event: Event,
        now: u64,
    },
    /// The timer of the autorepeat may fire, at a moment in microseconds, at most `MOMENT_MAX` (the kernel's
    /// `input_repeat_key`). It fires once where it is due.
    Tick {
        now: u64,
    },
    /// A client is opened (evdev's `open`).
    Open,
    /// A client is closed (evdev's `release`). It ends its grab.
    Close {
        client: u32,
    },
    /// A client reads at most `count` of its visible events (evdev's `read`).
    Read {
        client: u32,
        count: u32,
    },
    /// A client removes all its visible events, unread (this project's choice: a reader that lost events does this by
    /// reading).
    Discard {
        client: u32,
    },
    /// A client asks which keys are down (evdev's `EVIOCGKEY`). Its queued key events are removed.
    GetKeys {
        client: u32,
    },
    /// A client asks which switches are on (evdev's `EVIOCGSW`). Its queued switch events are removed.
    GetSwitches {
        client: u32,
    },
    /// A client asks which LEDs are on (evdev's `EVIOCGLED`). Its queued LED events are removed.
    GetLeds {
        client: u32,
    },
    /// A client asks which sounds are on (evdev's `EVIOCGSND`). Its queued sound events are removed.
    GetSounds {
        client: u32,
    },
    /// A client asks for an axis (evdev's `EVIOCGABS`). Nothing is removed.
    GetAxis {
        client: u32,
        code: u16,
    },
    /// A client describes an axis anew, value and fuzz included (evdev's `EVIOCSABS`). No event is passed.
    SetAxis {
        client: u32,
        code: u16,
        info: AxisInfo,
    },
    /// A client asks for one multi-touch value of each slot (evdev's `EVIOCGMTSLOTS`). Nothing is removed.
    GetSlots {
        client: u32,
        code: u16,
    },
    /// A client asks for all values of all slots. Its queued multi-touch events are removed (this project's choice:
    /// the answer tells the slot that the client was told last, so that later events have their slot).
    SyncSlots {
        client: u32,
    },
    /// A client writes an event, which is taken as an injected one (evdev's `write`), at a moment in microseconds, at
    /// most `MOMENT_MAX`.
    Write {
        client: u32,
        event: Event,
        now: u64,
    },
    /// A client takes the device for itself: frames go to it alone (evdev's `EVIOCGRAB`).
    Grab {
        client: u32,
    },
    /// A client gives up its grab (evdev's `EVIOCGRAB`).
    Ungrab {
        client: u32,
    },
    /// A client says which events it admits: 64 bits of its mask of types (`kind` 0), or of its mask of a type's codes
    /// (evdev's `EVIOCSMASK`). That a step sets one word is this project's choice.
    Mask {
        client: u32,
        kind: u16,
        word: u16,
        bits: u64,
    },
    /// A client chooses the clock of its events (evdev's `EVIOCSCLOCKID`), at a moment in microseconds, at most
    /// `MOMENT_MAX`.
    Clock {
        client: u32,
        clock: Clock,
        now: u64,
    },
    /// A client loses the device for good, but for closing it (evdev's `EVIOCREVOKE`). It ends its grab.
    Revoke {
        client: u32,
    },
    /// The device is inhibited, at a moment in microseconds, at most `MOMENT_MAX` (the kernel's `inhibited`): contacts
    /// and keys are released, and events are ignored from then on.
    Inhibit {
        now: u64,
    },
    /// The device is no longer inhibited.
    Uninhibit,
    /// A source is done. Nothing changes but what `Again` tells (this project's choice).
    End,
}

impl Step {
    /// The number of the client that the step names.
    pub fn client(self) -> Option<u32>
        ensures client { result ≡ client_of self }
    {
        match self {
            Step::Inject { .. }
            | Step::Tick { .. }
            | Step::Open
            | Step::Inhibit { .. }
            | Step::Uninhibit
            | Step::End => None,
            Step::Close { client }
            | Step::Read { client, .. }
            | Step::Discard { client }
            | Step::GetKeys { client }
            | Step::GetSwitches { client }
            | Step::GetLeds { client }
            | Step::GetSounds { client }
            | Step::GetAxis { client, .. }
            | Step::SetAxis { client, .. }
            | Step::GetSlots { client, .. }
            | Step::SyncSlots { client }
            | Step::Write { client, .. }
            | Step::Grab { client }
            | Step::Ungrab { client }
            | Step::Mask { client, .. }
            | Step::Clock { client, .. }
            | Step::Revoke { client } => Some(client),
        }
    }
}
