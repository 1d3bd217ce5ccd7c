//! The steps that commands make.
ghost use Rattle.std.specs.Prelude.{◌≡◌};
ghost use Rattle.inp_script.specs.Line.{step_of};

use inp_actors::Command;
use inp_model::{Event, Step};

/// The step that a command makes on a client, if it makes one and no more.
pub fn step_of(client: u32, command: &Command) -> Option<Step>
    ensures step { result ≡ step_of client command.now }
{
    let step = match *command {
        Command::Event {
            moment,
            kind,
            code,
            value,
        } => Step::Inject {
            event: Event { kind, code, value },
            now: moment,
        },
        Command::Tick { moment } => Step::Tick { now: moment },
        Command::Inhibit { moment } => Step::Inhibit { now: moment },
        Command::Uninhibit => Step::Uninhibit,
        Command::Open => Step::Open,
        Command::Close => Step::Close { client },
        Command::Grab => Step::Grab { client },
        Command::Ungrab => Step::Ungrab { client },
        Command::Revoke => Step::Revoke { client },
        Command::Mask { kind, word, bits } => Step::Mask {
            client,
            kind,
            word,
            bits,
        },
        Command::Clock { clock, moment } => Step::Clock {
            client,
            clock,
            now: moment,
        },
        Command::Write {
            moment,
            kind,
            code,
            value,
        } => Step::Write {
            client,
            event: Event { kind, code, value },
            now: moment,
        },
        Command::SetAxis { code, info } => Step::SetAxis { client, code, info },
        Command::Read { count } => Step::Read { client, count },
        Command::Discard => Step::Discard { client },
        Command::Keys => Step::GetKeys { client },
        Command::Switches => Step::GetSwitches { client },
        Command::Leds => Step::GetLeds { client },
        Command::Sounds => Step::GetSounds { client },
        Command::SyncSlots => Step::SyncSlots { client },
        Command::Axis { code } => Step::GetAxis { client, code },
        Command::Slots { code } => Step::GetSlots { client, code },
        Command::Stream { .. }
        | Command::Stream16 { .. }
        | Command::Next { .. }
        | Command::Skip { .. }
        | Command::Follow
        | Command::Force
        | Command::Feedback { .. } => return None,
    };
    Some(step)
}
