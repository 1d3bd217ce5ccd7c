//! What a joystick does, which reads by a joystick client.
ghost use Rattle.std.specs.Prelude.{◌≡◌, ℕ, true, Option, OnOk, IfOk, Some};
ghost use Rattle.inp_actors.specs.declared.role.Role.TheVariants.{Joy as JoyRole};
ghost use Rattle.inp_actors.specs.Command.{is_command_of};
ghost use Rattle.inp_joy.specs.Joy.{JoystickState};
ghost use Rattle.inp_reader.specs.Effort.{effort};
ghost use Rattle.inp_reader.specs.Talk.{Talk};
ghost use Rattle.inp_script.specs.DoneLine.{Begins, Holds};
ghost use Rattle.inp_script.specs.Job.{Job};
ghost use Rattle.inp_script.specs.Joystick.{Reach, start_joystick, read_records, joystick_talk};
ghost use Rattle.inp_script.specs.Line.{call_talk};
ghost use Rattle.inp_script.specs.Notes.{joy_job};
ghost use Rattle.inp_script.specs.JoyProgress.{after_bytes, then_reads, HasRead, BeginsRead, LeavesLess, reach_of, ReadsOn, BeginsReading, ReadsRecords, DoesJoystickCommand};
ghost use Rattle.inp_model.specs.declared.step.Step.TheVariants.{Close as ToClose};

use crate::notes::Notes;
use crate::{Sight, Stop};
use inp_actors::Command;
use inp_joy::{Joy, JoyRead};
use inp_model::{Evdev, NoMemory, Step};

/// How a line goes on after a read.
#[derive(Clone, Copy)]
pub(crate) enum AfterRead {
    /// A record was handed out.
    Hands,
    /// It reads on for the same record.
    GoesOn,
    /// It ends.
    Ends,
}

// Starts a joystick client, and notes its calls.
fn start<E: Evdev>(dev: &mut E, joy: &mut Joy, notes: &mut Notes) -> Result<(), NoMemory>
    requires description { (E.told dev.old).description ≡ joy.old.description }
    ensures done { OnOk result (Holds (E.told dev.old) (E.told dev.new)
        (start_joystick joy.old.description (joy_job joy.old.joying notes.old))
        (Some (joy_job joy.new.joying notes.new))) }
    ensures begun { Begins (E.told dev.old) (E.told dev.new)
        (start_joystick joy.old.description (joy_job joy.old.joying notes.old)) }
    ensures joy { joy.new.description ≡ joy.old.description }
{
    let started = joy.start(dev);
    notes.note_start(started, joy.made())
}

impl Notes {
    // Notes what a read answered, with the bytes that it handed out.
    fn note_read(&mut self, read: JoyRead, bytes: [u8; 8]) -> Result<AfterRead, NoMemory>
        ensures { IfOk result (λ after. (go_on : Job → Talk (Option Reach)) (k : JoystickState) →
            after_bytes go_on read bytes (joy_job k self.old)
            ≡ then_reads go_on after (joy_job k self.new)) }
    {
        match read {
            JoyRead::Record => {
                self.sight.push(Sight::Record { bytes })?;
                Ok(AfterRead::Hands)
            }
            JoyRead::Frame { .. } | JoyRead::More => Ok(AfterRead::GoesOn),
            JoyRead::Again { at, ends } => {
                self.sight.push(Sight::Again { at, ends })?;
                Ok(AfterRead::Ends)
            }
            JoyRead::NoDevice | JoyRead::Closed => Ok(AfterRead::Ends),
            JoyRead::Full { at } => {
                self.stop = Some(Stop::Full { at });
                Ok(AfterRead::Ends)
            }
        }
    }
}

// Reads once, and notes the calls and the answer.
fn read_once<E: Evdev>(dev: &mut E, joy: &mut Joy, notes: &mut Notes) -> Result<AfterRead, NoMemory>
    requires description { (E.told dev.old).description ≡ joy.old.description }
    ensures done { IfOk result (λ after. HasRead (E.told dev.old) (E.told dev.new)
        joy.old.description (joy_job joy.old.joying notes.old)
        after (joy_job joy.new.joying notes.new)) }
    ensures begun { BeginsRead (E.told dev.old) (E.told dev.new)
        joy.old.description (joy_job joy.old.joying notes.old) }
    ensures less { IfOk result (λ after. LeavesLess after
        (effort (E.told dev.new) joy.new.joying.reading)
        (effort (E.told dev.old) joy.old.joying.reading)) }
    ensures joy { joy.new.description ≡ joy.old.description }
{
    let mut bytes = [0; 8];
    let read = joy.read(dev, &mut bytes);
    notes.push_made(joy.made())?;
    notes.note_read(read, bytes)
}

// Reads until a record was handed out, and says so, or until the line ends.
fn read_on<E: Evdev>(dev: &mut E, joy: &mut Joy, notes: &mut Notes) -> Result<bool, NoMemory>
    requires description { (E.told dev.old).description ≡ joy.old.description }
    ensures done { IfOk result (λ handed. ReadsOn (E.told dev.old) (E.told dev.new)
        joy.old.description (joy_job joy.old.joying notes.old)
        (reach_of handed (joy_job joy.new.joying notes.new))) }
    ensures begun { BeginsReading (E.told dev.old) (E.told dev.new)
        joy.old.description (joy_job joy.old.joying notes.old) }
    ensures joy { joy.new.description ≡ joy.old.description }
{
    loop {
        match read_once(dev, joy, notes)? {
            AfterRead::Hands => return Ok(true),
            AfterRead::GoesOn => {}
            AfterRead::Ends => return Ok(false),
        }
    }
}

// Reads so many records, unless the line ends before.
fn read_records<E: Evdev>(
    dev: &mut E,
    joy: &mut Joy,
    notes: &mut Notes,
    count: u32,
) -> Result<(), NoMemory>
    requires description { (E.told dev.old).description ≡ joy.old.description }
    ensures done { OnOk result (ReadsRecords (E.told dev.old) (E.told dev.new)
        joy.old.description count (joy_job joy.old.joying notes.old)
        (joy_job joy.new.joying notes.new)) }
    ensures begun { (bound : ℕ) × Begins (E.told dev.old) (E.told dev.new)
        (read_records joy.old.description bound count (joy_job joy.old.joying notes.old)) }
    ensures joy { joy.new.description ≡ joy.old.description }
{
    for _ in 0..count {
        if !read_on(dev, joy, notes)? {
            return Ok(());
        }
    }
    Ok(())
}

// Closes the client.
fn close<E: Evdev>(dev: &mut E, joy: &Joy, notes: &mut Notes) -> Result<(), NoMemory>
    ensures done { OnOk result (Holds (E.told dev.old) (E.told dev.new)
        (call_talk (joy_job joy.now.joying notes.old) (ToClose joy.now.joying.reading.client))
        (Some (joy_job joy.now.joying notes.new))) }
    ensures begun { Begins (E.told dev.old) (E.told dev.new)
        (call_talk (joy_job joy.now.joying notes.old) (ToClose joy.now.joying.reading.client)) }
{
    let client = joy.client();
    notes.call(dev, Step::Close { client })?;
    Ok(())
}

// Does a command of a joystick.
pub(crate) fn do_joystick_command<E: Evdev>(
    dev: &mut E,
    joy: &mut Joy,
    notes: &mut Notes,
    command: &Command,
) -> Result<(), NoMemory>
    requires of_role { is_command_of JoyRole command.now ≡ true }
    requires description { (E.told dev.old).description ≡ joy.old.description }
    ensures done { OnOk result (DoesJoystickCommand (E.told dev.old) (E.told dev.new)
        joy.old.description command.now
        (joy_job joy.old.joying notes.old) (joy_job joy.new.joying notes.new)) }
    ensures begun { (rounds : ℕ) × Begins (E.told dev.old) (E.told dev.new)
        (joystick_talk joy.old.description rounds command.now
        (joy_job joy.old.joying notes.old)) }
    ensures joy { joy.new.description ≡ joy.old.description }
{
    match *command {
        Command::Open => start(dev, joy, notes),
        Command::Read { count } => read_records(dev, joy, notes, count),
        _ => close(dev, joy, notes),
    }
}
