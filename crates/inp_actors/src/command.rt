//! What a line has an actor do.
ghost use Rattle.std.specs.Prelude.{◌≡◌};
ghost use Rattle.inp_actors.specs.Command.{is_command_of, stream_of, first_of};

use crate::{FileName, Role};
use inp_model::{AxisInfo, Clock};

/// The greatest number of events that a tap or an owner may ask for at once (this project's choice). A joystick's read
/// has no such limit.
pub const READ_MAX: u32 = 4096;

const _: () = prove!(READ_MAX == 4 * 1024);

/// What a line has an actor do. Moments are in microseconds, at most `MOMENT_MAX`.
#[derive(Debug, Drop)]
pub enum Command {
    /// A source injects an event.
    Event {
        moment: u64,
        kind: u16,
        code: u16,
        value: i32,
    },
    /// A source lets the timer of the autorepeat fire, where it is due.
    Tick {
        moment: u64,
    },
    /// A source inhibits the device.
    Inhibit {
        moment: u64,
    },
    /// A source ends the inhibition.
    Uninhibit,
    /// A source injects the events of a file, each at its own moment. `index` is the number of the stream in the
    /// record. The file has records of 24 bytes, as a 64-bit machine has them.
    Stream {
        file: FileName,
        index: u32,
    },
    /// The same with records of 16 bytes, as a 32-bit machine has them. Streams of both kinds are numbered together.
    Stream16 {
        file: FileName,
        index: u32,
    },
    /// A tap opens a client; a client and a joystick open one and ask for the device's whole state.
    Open,
    /// The client is closed.
    Close,
    /// The client takes the grab.
    Grab,
    /// The client gives up the grab.
    Ungrab,
    /// The client is revoked.
    Revoke,
    /// A word of 64 bits of one of the client's masks is set.
    Mask {
        kind: u16,
        word: u16,
        bits: u64,
    },
    /// The client chooses a clock.
    Clock {
        clock: Clock,
        moment: u64,
    },
    /// The client writes an event.
    Write {
        moment: u64,
        kind: u16,
        code: u16,
        value: i32,
    },
    /// The client describes an axis anew.
    SetAxis {
        code: u16,
        info: AxisInfo,
    },
    /// A tap reads at most `count` events, of 0 to `READ_MAX`. A joystick reads until it has handed out `count`
    /// records, of any number, or nothing is there.
    Read {
        count: u32,
    },
    /// A tap removes what it could read.
    Discard,
    /// A tap asks for keys.
    Keys,
    /// A tap asks for switches.
    Switches,
    /// A tap asks for LEDs.
    Leds,
    /// A tap asks for sounds.
    Sounds,
    /// A tap asks for all values of all slots.
    SyncSlots,
    /// A tap asks for an axis.
    Axis {
        code: u16,
    },
    /// A tap asks for one value of each slot.
    Slots {
        code: u16,
    },
    /// A client is handed the next `count` events, as many as there are.
    Next {
        count: u32,
    },
    /// The same, without events that the reader itself makes when it synchronises.
    Skip {
        count: u32,
    },
    /// A client is handed events until no event is there.
    Follow,
    /// A client's reader is to synchronise before the next event.
    Force,
    /// An owner takes at most `count` of the events that were sent to its device, of 1 to `READ_MAX`.
    Feedback {
        count: u32,
    },
}

impl Command {
    /// Whether actors of this role have the command.
    pub fn is_of(&self, role: Role) -> bool
        ensures command { result ≡ is_command_of role self.now }
    {
        match self {
            Command::Event { .. }
            | Command::Tick { .. }
            | Command::Inhibit { .. }
            | Command::Uninhibit
            | Command::Stream { .. }
            | Command::Stream16 { .. } => role == Role::Source,
            Command::Open | Command::Close => {
                matches!(role, Role::Client | Role::Tap | Role::Joy)
            }
            Command::Grab
            | Command::Ungrab
            | Command::Revoke
            | Command::Mask { .. }
            | Command::Clock { .. }
            | Command::Write { .. }
            | Command::SetAxis { .. } => matches!(role, Role::Client | Role::Tap),
            Command::Read { .. } => matches!(role, Role::Tap | Role::Joy),
            Command::Discard
            | Command::Keys
            | Command::Switches
            | Command::Leds
            | Command::Sounds
            | Command::SyncSlots
            | Command::Axis { .. }
            | Command::Slots { .. } => role == Role::Tap,
            Command::Next { .. } | Command::Skip { .. } | Command::Follow | Command::Force => {
                role == Role::Client
            }
            Command::Feedback { .. } => role == Role::Owner,
        }
    }

    /// The number of the stream that it takes, if it takes one.
    pub fn stream_index(&self) -> Option<u32>
        ensures index { result ≡ first_of (stream_of self.now) }
    {
        match self {
            Command::Stream { index, .. } | Command::Stream16 { index, .. } => Some(*index),
            _ => None,
        }
    }
}
