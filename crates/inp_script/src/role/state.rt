//! What an actor keeps by its role.
ghost use Rattle.std.specs.Prelude.{◌≡◌, ℕ, OnOk, IfOk};
ghost use Rattle.inp_script.specs.Owner.{first_owning};
ghost use Rattle.inp_script.specs.DoneLine.{Begins, DoesCommand, IsCommandFor, command_talk};
ghost use Rattle.inp_script.specs.Job.{first_reading, first_stick};
ghost use Rattle.inp_script.specs.Ended.{HasDeviceSlots, ended_with};
ghost use Rattle.inp_script.specs.RoleState.{role_of, role_description, role_reading, stick_of, owning_of, owning_in, job_in, IsSized};

use crate::notes::Notes;
use crate::role::client::do_client_command;
use crate::role::joystick::do_joystick_command;
use crate::role::owner::Owner;
use crate::role::source::do_source_command;
use crate::role::tap::Tap;
use crate::stops::last_stop;
use crate::{Ended, JobEnd, JoyEnd, OwnerEnd, Sights, Stop, Waiting};
use inp_actors::{Command, Record, Role};
use inp_caps::Caps;
use inp_joy::Joy;
use inp_model::{Evdev, NoMemory};
use inp_reader::Reader;
use inp_recon::View;
use std::alloc::Global;

/// What an actor keeps by its role, with the description of its device, which a reader and a joystick have themselves.
#[derive(Drop)]
pub(crate) enum RoleState {
    /// A source sees nothing of the device: its view is a new one.
    Source { caps: Caps, view: View },
    /// A tap makes the calls of a client one by one.
    Tap { caps: Caps, tap: Tap },
    /// A client reads by a reader.
    Client { reader: Reader },
    /// A joystick reads as one.
    Joy { joy: Joy },
    /// An owner makes feedback calls, and none of an evdev.
    Owner { caps: Caps, owner: Owner },
}

impl RoleState {
    // What an actor of a role keeps before its first line. It is refused for memory alone.
    pub(crate) fn new(alloc: Global, caps: &Caps, role: Role) -> Result<RoleState, NoMemory>
        ensures role { IfOk result (λ state. role_of state ≡ role) }
        ensures description { IfOk result (λ state. role_description state ≡ caps.now) }
        ensures reading { IfOk result (λ state. role_reading state ≡ first_reading caps.now) }
        ensures stick { IfOk result (λ state. stick_of state ≡ first_stick role caps.now) }
        ensures owning { IfOk result (λ state. owning_of state ≡ first_owning) }
        ensures sized { IfOk result IsSized }
    {
        match role {
            Role::Source => Ok(RoleState::Source {
                caps: caps.copy(),
                view: View::new(alloc, caps)?,
            }),
            Role::Tap => Ok(RoleState::Tap {
                caps: caps.copy(),
                tap: Tap::new(alloc, caps)?,
            }),
            Role::Client => Ok(RoleState::Client {
                reader: Reader::new(alloc, caps)?,
            }),
            Role::Joy => Ok(RoleState::Joy {
                joy: Joy::new(alloc, caps)?,
            }),
            Role::Owner => Ok(RoleState::Owner {
                caps: caps.copy(),
                owner: Owner::new(alloc),
            }),
        }
    }

    // Does a command of a record by calls of an evdev. An owner makes none.
    pub(crate) fn do_command<E: Evdev>(
        &mut self,
        dev: &mut E,
        notes: &mut Notes,
        rec: &Record,
        command: &Command,
        wait: Option<Waiting>,
    ) -> Result<(), NoMemory>
        requires command { IsCommandFor (role_of self.old) rec.now.streams command.now }
        requires device { (E.told dev.old).description ≡ role_description self.old }
        requires sized { IsSized self.old }
        ensures done { OnOk result (DoesCommand (E.told dev.old) (E.told dev.new)
            (role_of self.old) (role_description self.old) rec.now.streams wait command.now
            (job_in self.old notes.old) (job_in self.new notes.new)) }
        ensures begun { (rounds : ℕ) × Begins (E.told dev.old) (E.told dev.new)
            (command_talk (role_of self.old) (role_description self.old) rec.now.streams wait rounds
            command.now (job_in self.old notes.old)) }
        ensures role { role_of self.new ≡ role_of self.old }
        ensures description { role_description self.new ≡ role_description self.old }
        ensures owning { owning_of self.new ≡ owning_of self.old }
        ensures sized { IsSized self.new }
    {
        match self {
            RoleState::Source { .. } => do_source_command(dev, notes, rec, command),
            RoleState::Tap { tap, .. } => tap.do_command(dev, notes, command),
            RoleState::Client { reader } => do_client_command(dev, reader, notes, command, wait),
            RoleState::Joy { joy } => do_joystick_command(dev, joy, notes, command),
            RoleState::Owner { .. } => Ok(()),
        }
    }

    // The result of an actor of this number that saw this and ended so. It takes no memory.
    pub(crate) fn end(self, actor: u32, sight: Sights, stop: Stop) -> Ended
        requires sized { IsSized self }
        ensures ended { result ≡ ended_with self actor sight stop }
        ensures cells { HasDeviceSlots (role_description self) result }
    {
        let view = match self {
            RoleState::Source { view, .. } => view,
            RoleState::Tap { tap, .. } => tap.into_view(),
            RoleState::Client { reader } => reader.into_view(),
            RoleState::Joy { joy } => {
                let end = JoyEnd::new(actor, sight, *joy.picture(), stop);
                return Ended::Joy { end };
            }
            RoleState::Owner { owner, .. } => {
                let Owner { fed, stop } = owner;
                let end = OwnerEnd::new(actor, fed, last_stop(stop));
                return Ended::Owner { end };
            }
        };
        let end = JobEnd::new(actor, sight, view, stop);
        Ended::Job { end }
    }
}
