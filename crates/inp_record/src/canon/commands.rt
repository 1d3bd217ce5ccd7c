//! The words of commands.
ghost use Rattle.std.specs.Prelude.{◌≡◌, ◌++◌, string_bytes, OnOk};
ghost use Rattle.inp_record.specs.canon.Words.{further_text};
ghost use Rattle.inp_record.specs.canon.Command.{command_words};

use crate::canon::info_text::InfoText;
use inp_actors::Command;
use inp_model::NoMemory;
use inp_texts::{BitsText, ClockText, CodeText, KindText};
use std::fmt::Write;

// Adds a command and its words after the name of its actor, and ends the line.
#[tactic(auto, unfolding(crate::specs::canon::Command::command_words))]
pub(crate) fn push_command(text: &mut String, command: &Command) -> Result<(), NoMemory>
    ensures pushed { OnOk result
        (string_bytes text.new
        ≡ string_bytes text.old ++ further_text (command_words command.now)) }
{
    match command {
        Command::Event {
            moment,
            kind,
            code,
            value,
        } => {
            let (kind, code) = (
                KindText(*kind),
                CodeText {
                    kind: *kind,
                    code: *code,
                },
            );
            write!(text, " event {moment} {kind} {code} {value}\n")?;
        }
        Command::Tick { moment } => write!(text, " tick {moment}\n")?,
        Command::Inhibit { moment } => write!(text, " inhibit {moment}\n")?,
        Command::Uninhibit => text.push_str(" uninhibit\n")?,
        Command::Stream { file, .. } => write!(text, " stream {}\n", file.text())?,
        Command::Stream16 { file, .. } => write!(text, " stream16 {}\n", file.text())?,
        Command::Open => text.push_str(" open\n")?,
        Command::Close => text.push_str(" close\n")?,
        Command::Grab => text.push_str(" grab\n")?,
        Command::Ungrab => text.push_str(" ungrab\n")?,
        Command::Revoke => text.push_str(" revoke\n")?,
        Command::Mask { kind, word, bits } => {
            let (kind, bits) = (KindText(*kind), BitsText(*bits));
            write!(text, " mask {kind} {word} {bits}\n")?;
        }
        Command::Clock { clock, moment } => {
            write!(text, " clock {} {moment}\n", ClockText(*clock))?;
        }
        Command::Write {
            moment,
            kind,
            code,
            value,
        } => {
            let (kind, code) = (
                KindText(*kind),
                CodeText {
                    kind: *kind,
                    code: *code,
                },
            );
            write!(text, " write {moment} {kind} {code} {value}\n")?;
        }
        Command::SetAxis { code, info } => {
            let (code, info) = (CodeText::of_axis(*code), InfoText(*info));
            write!(text, " setaxis {code}{info}")?;
        }
        Command::Read { count } => write!(text, " read {count}\n")?,
        Command::Discard => text.push_str(" discard\n")?,
        Command::Keys => text.push_str(" keys\n")?,
        Command::Switches => text.push_str(" switches\n")?,
        Command::Leds => text.push_str(" leds\n")?,
        Command::Sounds => text.push_str(" sounds\n")?,
        Command::SyncSlots => text.push_str(" syncslots\n")?,
        Command::Axis { code } => write!(text, " axis {}\n", CodeText::of_axis(*code))?,
        Command::Slots { code } => write!(text, " slots {}\n", CodeText::of_axis(*code))?,
        Command::Next { count } => write!(text, " next {count}\n")?,
        Command::Skip { count } => write!(text, " skip {count}\n")?,
        Command::Follow => text.push_str(" follow\n")?,
        Command::Force => text.push_str(" force\n")?,
        Command::Feedback { count } => write!(text, " feedback {count}\n")?,
    }
    Ok(())
}
