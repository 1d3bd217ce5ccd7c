//! What a tap does.
ghost use Rattle.std.specs.Prelude.{◌≡◌, ◌≤◌, ◌*◌, true, length, OnOk, IfOk, Some};
ghost use Rattle.inp_actors.specs.declared.role.Role.TheVariants.{Tap as TapRole};
ghost use Rattle.inp_actors.specs.Command.{is_command_of, is_in_range};
ghost use Rattle.inp_model.specs.declared.stamped.TheConstants.{MOMENT_MAX};
ghost use Rattle.inp_model.specs.Step.{moment_of};
ghost use Rattle.inp_model.specs.Reply.{HasRoom};
ghost use Rattle.inp_script.specs.DoneLine.{Begins, Holds};
ghost use Rattle.inp_script.specs.Job.{first_reading};
ghost use Rattle.inp_script.specs.Line.{tap_client_after, tap_call, tap_talk};
ghost use Rattle.inp_script.specs.Notes.{job_of, count_taken};
ghost use Rattle.inp_script.specs.Tap.{tap_reading, IsSizedTap, IsTapCall};

use crate::notes::Notes;
use crate::steps::step_of;
use crate::stops::lacks_memory;
use inp_actors::{Command, READ_MAX};
use inp_caps::Caps;
use inp_model::{EV_SYN, Evdev, Event, NoMemory, Reply, SLOT_VALUES, SYN_REPORT, Step, Taken};
use inp_reader::NO_CLIENT;
use inp_recon::View;
use std::alloc::Global;

/// What the places of a new buffer hold.
const NOTHING: Taken = Taken {
    event: Event {
        kind: EV_SYN,
        code: SYN_REPORT,
        value: 0,
    },
    time: 0,
    place: 0,
};

/// A client whose calls are made one by one, with the buffers that they write to.
#[derive(Drop)]
pub(crate) struct Tap {
    pub(crate) client: u32,
    pub(crate) view: View,
    buffer: Vec<Taken>,
    cells: Vec<i32>,
}

impl Tap {
    // A tap on devices of this description. It is refused for memory alone.
    pub(crate) fn new(alloc: Global, caps: &Caps) -> Result<Tap, NoMemory>
        ensures reading { IfOk result (λ tap. tap_reading tap ≡ first_reading caps.now) }
        ensures sized { IfOk result (λ tap. IsSizedTap caps.now tap) }
    {
        Ok(Tap {
            client: NO_CLIENT,
            view: View::new(alloc, caps)?,
            buffer: vec![in alloc; NOTHING; READ_MAX as usize]?,
            cells: vec![in alloc; 0i32; (SLOT_VALUES * caps.slots()) as usize]?,
        })
    }

    // The view. It takes no memory.
    pub(crate) fn into_view(self) -> View
        ensures { result ≡ self.view }
    {
        self.view
    }

    // Makes a step, and notes it.
    fn call<E: Evdev>(&mut self, dev: &mut E, notes: &mut Notes, step: Step) -> Result<(), NoMemory>
        requires moment { moment_of step ≤ MOMENT_MAX }
        requires room { HasRoom (E.told dev.old).description step self.old.buffer.items
            self.old.cells.items }
        requires sized { IsSizedTap (E.told dev.old).description self.old }
        ensures done { OnOk result (Holds (E.told dev.old) (E.told dev.new)
            (tap_call (job_of (tap_reading self.old) notes.old) step)
            (Some (job_of (tap_reading self.new) notes.new))) }
        ensures begun { Begins (E.told dev.old) (E.told dev.new)
            (tap_call (job_of (tap_reading self.old) notes.old) step) }
        ensures sized { IsSizedTap (E.told dev.old).description self.new }
    {
        let reply = make(dev, step, &mut self.view, &mut self.buffer, &mut self.cells);
        self.client = tap_client_after(step, reply, self.client);
        if lacks_memory(reply) {
            return Err(NoMemory);
        }
        notes.note(step, reply, &self.buffer[..count_taken(reply)])
    }

    // Does a command of a tap.
    pub(crate) fn do_command<E: Evdev>(
        &mut self,
        dev: &mut E,
        notes: &mut Notes,
        command: &Command,
    ) -> Result<(), NoMemory>
        requires of_role { is_command_of TapRole command.now ≡ true }
        requires in_range { is_in_range TapRole command.now ≡ true }
        requires sized { IsSizedTap (E.told dev.old).description self.old }
        ensures done { OnOk result (Holds (E.told dev.old) (E.told dev.new)
            (tap_talk command.now (job_of (tap_reading self.old) notes.old))
            (Some (job_of (tap_reading self.new) notes.new))) }
        ensures begun { Begins (E.told dev.old) (E.told dev.new)
            (tap_talk command.now (job_of (tap_reading self.old) notes.old)) }
        ensures sized { IsSizedTap (E.told dev.old).description self.new }
    {
        let Some(step) = step_of(self.client, command) else {
            return Ok(());
        };
        self.call(dev, notes, step)
    }
}

// Makes a step with these buffers, and sets a view by its answer and by the events that it read.
fn make<E: Evdev>(
    dev: &mut E,
    step: Step,
    view: &mut View,
    out: &mut [Taken],
    cells: &mut [i32],
) -> Reply
    requires moment { moment_of step ≤ MOMENT_MAX }
    requires room { HasRoom (E.told dev.old).description step out.old cells.old }
    requires view { length view.old.cells ≡ SLOT_VALUES * (E.told dev.old).description.slots }
    requires cells { length cells.old ≡ SLOT_VALUES * (E.told dev.old).description.slots }
    ensures made { IsTapCall (E.told dev.old) (E.told dev.new)
        step result view.old view.new out.new }
    ensures view { length view.new.cells ≡ length view.old.cells }
{
    let reply = dev.call(step, out, cells);
    view.answer(step, reply, cells);
    view.take_events(&out[..count_taken(reply)]);
    reply
}

// The client after a call: the one that it opened, if it did.
fn tap_client_after(step: Step, reply: Reply, client: u32) -> u32
    ensures { result ≡ tap_client_after step reply client }
{
    match (step, reply) {
        (Step::Open, Reply::Opened { client: opened, .. }) => opened,
        _ => client,
    }
}

// How many events a reply says were read.
fn count_taken(reply: Reply) -> usize
    ensures { result ≡ count_taken reply }
{
    match reply {
        Reply::Took { count, .. } => count as usize,
        _ => 0,
    }
}
