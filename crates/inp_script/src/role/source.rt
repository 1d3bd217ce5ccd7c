//! What a source does.
ghost use Rattle.std.specs.Prelude.{OnOk, Some};
ghost use Rattle.inp_actors.specs.declared.role.Role.TheVariants.{Source};
ghost use Rattle.inp_reader.specs.Reader.{ReaderState};
ghost use Rattle.inp_script.specs.DoneLine.{Begins, Holds, IsCommandFor};
ghost use Rattle.inp_script.specs.Line.{source_talk};
ghost use Rattle.inp_script.specs.Notes.{job_of};

use crate::notes::Notes;
use crate::steps::step_of;
use inp_actors::{Command, Record};
use inp_model::{Evdev, NoMemory};
use inp_reader::NO_CLIENT;

// Does a command of a source.
pub(crate) fn do_source_command<E: Evdev>(
    dev: &mut E,
    notes: &mut Notes,
    rec: &Record,
    command: &Command,
) -> Result<(), NoMemory>
    requires command { IsCommandFor Source rec.now.streams command.now }
    ensures done { OnOk result ((r : ReaderState) → Holds (E.told dev.old) (E.told dev.new)
        (source_talk rec.now.streams command.now (job_of r notes.old))
        (Some (job_of r notes.new))) }
    ensures begun { (r : ReaderState) → Begins (E.told dev.old) (E.told dev.new)
        (source_talk rec.now.streams command.now (job_of r notes.old)) }
{
    if let Some(index) = command.stream_index() {
        return notes.inject_all(dev, rec.stream(index as usize).as_slice());
    }
    let Some(step) = step_of(NO_CLIENT, command) else {
        return Ok(());
    };
    notes.call(dev, step)?;
    Ok(())
}
