//! An action line of a record, as C has it.
ghost use Rattle.std.specs.Prelude.{◌≡◌};
ghost use Rattle.inp_c.specs.Lines.{command_number, count_of_command, told_line};

use crate::c_step::CStep;
use crate::line_step::step_of_command;
use inp_actors::{Command, Line};
use std::mem::size_of;

/// An action line of a record: who does what.
#[repr(C)]
#[derive(Clone, Copy)]
pub struct CLine {
    /// The number of the actor.
    pub actor: u32,
    /// Which command it is.
    pub command: u32,
    /// The command's count, or 0.
    pub count: u32,
    /// The step that the command makes, if it makes one and no more.
    pub step: CStep,
}

const _: () = prove!(size_of::<CLine>() == 80);

/// An action line, as C has it.
pub(crate) fn c_line(line: &Line) -> CLine
    ensures { result ≡ told_line line.now }
{
    CLine {
        actor: line.actor,
        command: command_number(&line.command),
        count: count_of_command(&line.command),
        step: step_of_command(&line.command),
    }
}

/// The number of a command.
fn command_number(command: &Command) -> u32
    ensures { result ≡ command_number command.now }
{
    match command {
        Command::Event { .. } => 0,
        Command::Tick { .. } => 1,
        Command::Inhibit { .. } => 2,
        Command::Uninhibit => 3,
        Command::Stream { .. } => 4,
        Command::Stream16 { .. } => 5,
        Command::Open => 6,
        Command::Close => 7,
        Command::Grab => 8,
        Command::Ungrab => 9,
        Command::Revoke => 10,
        Command::Mask { .. } => 11,
        Command::Clock { .. } => 12,
        Command::Write { .. } => 13,
        Command::SetAxis { .. } => 14,
        Command::Read { .. } => 15,
        Command::Discard => 16,
        Command::Keys => 17,
        Command::Switches => 18,
        Command::Leds => 19,
        Command::Sounds => 20,
        Command::SyncSlots => 21,
        Command::Axis { .. } => 22,
        Command::Slots { .. } => 23,
        Command::Next { .. } => 24,
        Command::Skip { .. } => 25,
        Command::Follow => 26,
        Command::Force => 27,
        Command::Feedback { .. } => 28,
    }
}

/// The count of a command, or 0 where it has none.
fn count_of_command(command: &Command) -> u32
    ensures { result ≡ count_of_command command.now }
{
    match *command {
        Command::Read { count } => count,
        Command::Next { count } => count,
        Command::Skip { count } => count,
        Command::Feedback { count } => count,
        _ => 0,
    }
}
